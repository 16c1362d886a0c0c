//! Scripts with `when`. Each function has an empty body; its clauses are the rows.

ghost use Rattle.lf_script_rows.specs.WhenRows.{FrozenCaptureRuns, OneCownTwiceRuns, NamedAgainRuns, FaultKeepsWritesRuns};
ghost use Rattle.lf_script_rows.specs.WhenRows.{MovedContentRuns, BodyReturnsRuns, AccountsRuns, EndlessWhensRuns};

/// What main asks for and what bodies leave, by the tree and by the code.
pub fn when_rows_compute()
    ensures frozen_capture { FrozenCaptureRuns }
    ensures one_cown_twice { OneCownTwiceRuns }
    ensures named_again { NamedAgainRuns }
    ensures fault_keeps_writes { FaultKeepsWritesRuns }
    ensures moved_content { MovedContentRuns }
    ensures body_returns { BodyReturnsRuns }
    ensures accounts { AccountsRuns }
    ensures endless_whens { EndlessWhensRuns }
{}
