//! Limits at their boundaries, and the code of a script. Each function has an empty body; its clauses are the rows.

ghost use Rattle.lf_script_rows.specs.LimitRows.{EndlessLinesRuns, EndlessObjectsRuns, FirstSumCodeRuns, OutputLimitRuns, SpawnLimitRuns};

/// The last that may be, and one more; and the first script's code.
pub fn limit_rows_compute()
    ensures output { OutputLimitRuns }
    ensures spawns { SpawnLimitRuns }
    ensures endless_objects { EndlessObjectsRuns }
    ensures endless_lines { EndlessLinesRuns }
    ensures code { FirstSumCodeRuns }
{}
