//! Scripts on objects, regions and cowns. Each function has an empty body; its clauses are the rows.

ghost use Rattle.lf_script_rows.specs.ObjectRows.{EmptyRuns, FirstSumRuns, MovedGraphRuns, SelfEdgeRuns, SecondOwnerRuns};
ghost use Rattle.lf_script_rows.specs.ObjectRows.{OwnerCycleRuns, InteriorRuns, ReplacedOwnerRuns, RefusedUnchangedRuns};
ghost use Rattle.lf_script_rows.specs.ObjectRows.{FreezeInnerRuns, OpenCownRuns, ClosedCownRuns, BorrowedCownRuns, OrphanedChildRuns};
ghost use Rattle.lf_script_rows.specs.ObjectRows.{MergesRuns, MergeCycleRuns, FreezeRegionRuns, DissolvesRuns, ClosednessRuns};

/// Each row by the tree and by the code.
pub fn object_rows_compute()
    ensures empty { EmptyRuns }
    ensures first_sum { FirstSumRuns }
    ensures moved_graph { MovedGraphRuns }
    ensures self_edge { SelfEdgeRuns }
    ensures second_owner { SecondOwnerRuns }
    ensures owner_cycle { OwnerCycleRuns }
    ensures interior { InteriorRuns }
    ensures replaced_owner { ReplacedOwnerRuns }
    ensures refused_unchanged { RefusedUnchangedRuns }
    ensures freeze_inner { FreezeInnerRuns }
    ensures open_cown { OpenCownRuns }
    ensures closed_cown { ClosedCownRuns }
    ensures borrowed_cown { BorrowedCownRuns }
    ensures orphaned_child { OrphanedChildRuns }
    ensures merges { MergesRuns }
    ensures merge_cycle { MergeCycleRuns }
    ensures freeze_region { FreezeRegionRuns }
    ensures dissolves { DissolvesRuns }
    ensures closedness { ClosednessRuns }
{}
