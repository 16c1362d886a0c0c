//! A script for each fault. Each function has an empty body; its clauses are the rows.

ghost use Rattle.lf_script_rows.specs.FaultRows.{UnsetRuns, NoObjectRuns, NoFieldRuns, FrozenWriteRuns, LocalInCownRuns};
ghost use Rattle.lf_script_rows.specs.FaultRows.{NotAcquiredRuns, NoCownRuns, NotShareableLocalRuns, NoBridgeRuns, OwnedRuns};
ghost use Rattle.lf_script_rows.specs.FaultRows.{OwnedMergeRuns, WrongKindRuns, OverflowRuns, ZeroDivisorRuns, EndlessCallsRuns};
ghost use Rattle.lf_script_rows.specs.FaultRows.{EndlessTurnsRuns};

/// Each row by the tree and by the code.
pub fn fault_rows_compute()
    ensures unset { UnsetRuns }
    ensures no_object { NoObjectRuns }
    ensures no_field { NoFieldRuns }
    ensures frozen_write { FrozenWriteRuns }
    ensures local_in_cown { LocalInCownRuns }
    ensures not_acquired { NotAcquiredRuns }
    ensures no_cown { NoCownRuns }
    ensures not_shareable_local { NotShareableLocalRuns }
    ensures no_bridge { NoBridgeRuns }
    ensures owned { OwnedRuns }
    ensures owned_merge { OwnedMergeRuns }
    ensures wrong_kind { WrongKindRuns }
    ensures overflow { OverflowRuns }
    ensures zero_divisor { ZeroDivisorRuns }
    ensures endless_calls { EndlessCallsRuns }
    ensures endless_turns { EndlessTurnsRuns }
{}
