ghost use Rattle.std.specs.Prelude.{◌≡◌};
ghost use Rattle.lf_base.specs.FaultTable.{fault_name, fault_number};

use crate::memory::OutOfMemory;
use std::alloc::{AllocError, AllocFailed};
use thiserror::Error;

/// Why a behaviour ends before its last statement.
#[derive(Clone, Copy, Debug, PartialEq, Eq)]
pub enum Fault {
    /// A known variable has no value now.
    Unset,
    /// The target of a read, a write or a take is neither an object nor a cown.
    NotObject,
    /// The field isn't there.
    NoField,
    /// A field of a frozen object would be written or taken.
    FrozenWrite,
    /// A reference would lead to the inside of another region.
    Interior,
    /// A bridge would have two owning references.
    SecondOwner,
    /// Owners would go round.
    Cycle,
    /// A cown would hold a local object.
    LocalInCown,
    /// The cown isn't held by this behaviour.
    NotAcquired,
    /// A cown name of a `when` holds no cown.
    NotCown,
    /// A captured value is a local object or an object in a region.
    NotShareable,
    /// The value is no bridge of a region.
    NotBridge,
    /// The region is owned.
    Owned,
    /// The region is open.
    Open,
    /// An operand, a key, a test or a question's variable has a wrong kind.
    Kind,
    /// An integer result lies outside 64 signed bits.
    Overflow,
    /// The divisor is 0.
    ZeroDivisor,
    /// Too many frames stand.
    TooDeep,
    /// The behaviour has made as many objects and cowns as it may.
    TooManyObjects,
    /// The behaviour's lines would be too long.
    OutputFull,
    /// The behaviour's ticks are used up.
    OutOfTicks,
    /// As many spawns stand as a behaviour may make.
    TooManySpawns,
}

impl Fault {
    /// The fault's number, as a fault's line prints it after the letter F.
    pub fn number(self) -> u8
        ensures { result ≡ fault_number self }
    {
        match self {
            Fault::Unset => 1,
            Fault::NotObject => 2,
            Fault::NoField => 3,
            Fault::FrozenWrite => 4,
            Fault::Interior => 5,
            Fault::SecondOwner => 6,
            Fault::Cycle => 7,
            Fault::LocalInCown => 8,
            Fault::NotAcquired => 9,
            Fault::NotCown => 10,
            Fault::NotShareable => 11,
            Fault::NotBridge => 12,
            Fault::Owned => 13,
            Fault::Open => 14,
            Fault::Kind => 15,
            Fault::Overflow => 16,
            Fault::ZeroDivisor => 17,
            Fault::TooDeep => 18,
            Fault::TooManyObjects => 19,
            Fault::OutputFull => 20,
            Fault::OutOfTicks => 21,
            Fault::TooManySpawns => 22,
        }
    }

    /// The fault's name, as a fault's line prints it.
    pub fn name(self) -> &'static str
        ensures { result.now ≡ fault_name self }
    {
        match self {
            Fault::Unset => "Unset",
            Fault::NotObject => "NotObject",
            Fault::NoField => "NoField",
            Fault::FrozenWrite => "FrozenWrite",
            Fault::Interior => "Interior",
            Fault::SecondOwner => "SecondOwner",
            Fault::Cycle => "Cycle",
            Fault::LocalInCown => "LocalInCown",
            Fault::NotAcquired => "NotAcquired",
            Fault::NotCown => "NotCown",
            Fault::NotShareable => "NotShareable",
            Fault::NotBridge => "NotBridge",
            Fault::Owned => "Owned",
            Fault::Open => "Open",
            Fault::Kind => "Kind",
            Fault::Overflow => "Overflow",
            Fault::ZeroDivisor => "ZeroDivisor",
            Fault::TooDeep => "TooDeep",
            Fault::TooManyObjects => "TooManyObjects",
            Fault::OutputFull => "OutputFull",
            Fault::OutOfTicks => "OutOfTicks",
            Fault::TooManySpawns => "TooManySpawns",
        }
    }
}

/// A fault and the line of the script on which it came.
#[derive(Clone, Copy, Debug, PartialEq, Eq)]
pub struct FaultAt {
    pub fault: Fault,
    pub line: u32,
}

/// What a call on a heap answers instead of its result.
#[derive(Debug, Drop, Error)]
pub enum HeapFail {
    /// The rules refuse the operation.
    #[error("the operation is refused")]
    Fault(Fault),
    /// Want of memory.
    #[error("out of memory")]
    OutOfMemory,
}

impl From<Fault> for HeapFail {
    ghost use Rattle.std.specs.Prelude.{◌≡◌};
    ghost use Rattle.lf_base.specs.declared.faults.HeapFail.TheVariants.{Fault};

    ghost from_gives = { λ fault fail. fail ≡ Fault fault };

    fn from(fault: Fault) -> HeapFail {
        HeapFail::Fault(fault)
    }
}

impl From<OutOfMemory> for HeapFail {
    ghost use Rattle.std.specs.Prelude.{◌≡◌};
    ghost use Rattle.lf_base.specs.declared.faults.HeapFail.TheVariants.{OutOfMemory};

    ghost from_gives = { λ _ fail. fail ≡ OutOfMemory };

    fn from(_error: OutOfMemory) -> HeapFail {
        HeapFail::OutOfMemory
    }
}

impl From<AllocError> for HeapFail {
    ghost use Rattle.std.specs.Prelude.{◌≡◌};
    ghost use Rattle.lf_base.specs.declared.faults.HeapFail.TheVariants.{OutOfMemory};

    ghost from_gives = { λ _ fail. fail ≡ OutOfMemory };

    fn from(_error: AllocError) -> HeapFail {
        HeapFail::OutOfMemory
    }
}

impl<T: Drop> From<AllocFailed<T>> for HeapFail {
    ghost use Rattle.std.specs.Prelude.{◌≡◌};
    ghost use Rattle.lf_base.specs.declared.faults.HeapFail.TheVariants.{OutOfMemory};

    ghost from_gives = { λ _ fail. fail ≡ OutOfMemory };

    fn from(_error: AllocFailed<T>) -> HeapFail {
        HeapFail::OutOfMemory
    }
}
