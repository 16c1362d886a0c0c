//! Scripts on operators, branches, turns and calls. Each function has an empty body; its clauses are the rows.

ghost use Rattle.lf_script_rows.specs.ControlRows.{ShortWaysRuns, AndTestsRuns, OrTestsRuns, NoTruthLeftRuns, DivisionsRuns};
ghost use Rattle.lf_script_rows.specs.ControlRows.{LeastRestRuns, ComparisonsRuns, ElifsRuns, NoBranchRuns, TurnsRuns, Counts198Runs};
ghost use Rattle.lf_script_rows.specs.ControlRows.{Counts199Runs, MainReturnsRuns, FrameGoesRuns, FirstDefFirstRuns, SpelledRuns};

/// Each row by the tree and by the code.
pub fn control_rows_compute()
    ensures short_ways { ShortWaysRuns }
    ensures and_tests { AndTestsRuns }
    ensures or_tests { OrTestsRuns }
    ensures no_truth_left { NoTruthLeftRuns }
    ensures divisions { DivisionsRuns }
    ensures least_rest { LeastRestRuns }
    ensures comparisons { ComparisonsRuns }
    ensures elifs { ElifsRuns }
    ensures no_branch { NoBranchRuns }
    ensures turns { TurnsRuns }
    ensures counts_198 { Counts198Runs }
    ensures counts_199 { Counts199Runs }
    ensures main_returns { MainReturnsRuns }
    ensures frame_goes { FrameGoesRuns }
    ensures first_def_first { FirstDefFirstRuns }
    ensures spelled { SpelledRuns }
{}
