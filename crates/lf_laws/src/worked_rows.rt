//! Short scripts on which the definitions of ownership, counts and dropping are
//! tried. Each function has an empty body; its clause is the row.

ghost use Rattle.lf_laws.specs.WorkedRows.{BorrowedCownShows, ClosedRegionShows, DissolvesShow, FreedChildShows, FreezeInnerShows};
ghost use Rattle.lf_laws.specs.WorkedRows.{FreezeRegionShows, FrozenWriteShows, GuardedShows, HeldByInnerShows, HoldingShows};
ghost use Rattle.lf_laws.specs.WorkedRows.{InteriorShows, JudgedBeforeDroppingShows, LivingCycleShows, MergesShow, MovedGraphShows};
ghost use Rattle.lf_laws.specs.WorkedRows.{OpenCownShows, OrphanedChildShows, OwnedShows, OwnerCycleShows, PlainRefusalsShow};
ghost use Rattle.lf_laws.specs.WorkedRows.{RefusedUnchangedShows, ReplacedOwnerShows, SecondOwnerShows, SelfEdgeShows};

/// A write into a region moves the stored object and what it reaches.
pub fn moved_graph()
    ensures { MovedGraphShows }
{}

/// A region's own field counts as a reference and borrows nothing.
pub fn self_edge()
    ensures { SelfEdgeShows }
{}

/// A second owner of a region is refused.
pub fn second_owner()
    ensures { SecondOwnerShows }
{}

/// A region that would own its owner is refused.
pub fn owner_cycle()
    ensures { OwnerCycleShows }
{}

/// A reference to the inside of another region is refused.
pub fn interior()
    ensures { InteriorShows }
{}

/// A write is judged without the reference that it replaces.
pub fn replaced_owner()
    ensures { ReplacedOwnerShows }
{}

/// A refused write changes nothing.
pub fn refused_unchanged()
    ensures { RefusedUnchangedShows }
{}

/// Freezing an inner object leaves its region.
pub fn freeze_inner()
    ensures { FreezeInnerShows }
{}

/// A cycle of local objects lives on and borrows.
pub fn living_cycle()
    ensures { LivingCycleShows }
{}

/// An open region is refused as a cown's content, until it is closed.
pub fn open_cown()
    ensures { OpenCownShows }
{}

/// A variable inside a region keeps it open.
pub fn borrowed_cown()
    ensures { BorrowedCownShows }
{}

/// A borrowed region outlives its owner.
pub fn orphaned_child()
    ensures { OrphanedChildShows }
{}

/// A child takes its owner in; a deeper region can't.
pub fn merges()
    ensures { MergesShow }
{}

/// Freezing a bridge freezes its whole region.
pub fn freeze_region()
    ensures { FreezeRegionShows }
{}

/// A dissolved region's objects are local.
pub fn dissolves()
    ensures { DissolvesShow }
{}

/// A variable inside a region keeps the region and not its owner.
pub fn held_by_inner()
    ensures { HeldByInnerShows }
{}

/// A dissolved region's child is free.
pub fn freed_child()
    ensures { FreedChildShows }
{}

/// Closing takes every other way in.
pub fn closed_region()
    ensures { ClosedRegionShows }
{}

/// A write is judged before anything is dropped.
pub fn judged_before_dropping()
    ensures { JudgedBeforeDroppingShows }
{}

/// A frozen object's fields are neither written nor taken.
pub fn frozen_write()
    ensures { FrozenWriteShows }
{}

/// An owned region is neither dissolved nor merged into another than its owner.
pub fn owned()
    ensures { OwnedShows }
{}

/// A cown takes no local object, and gives nothing to who doesn't hold it.
pub fn guarded()
    ensures { GuardedShows }
{}

/// Who holds a cown reads and replaces its content.
pub fn holding()
    ensures { HoldingShows }
{}

/// Targets, keys and variables of a wrong kind are refused first.
pub fn plain_refusals()
    ensures { PlainRefusalsShow }
{}
