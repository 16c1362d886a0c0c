ghost use Rattle.std.specs.Prelude.{◌≡◌, ◌<◌, length};
ghost use Rattle.std.specs.Vec.{vec_capacity, vec_len};
ghost use Rattle.lf_base.specs.declared.behaviours.Job.{Job as PlainJob};
ghost use Rattle.lf_queue.specs.declared.row.Stage.TheVariants.{Ended, Running, Waiting};
ghost use Rattle.lf_queue.specs.Lines.{restaged, row_at};

use lf_base::Job;
use std::mem;

// How far a job is.
#[derive(Drop)]
pub(crate) enum Stage {
    Waiting(Job),
    Running,
    Ended,
}

// A job that was spawned: its number, how far it is, where its spots begin and end, and
// how many of them aren't first on their line.
#[derive(Drop)]
pub(crate) struct Row {
    pub(crate) id: u32,
    pub(crate) stage: Stage,
    pub(crate) first: usize,
    pub(crate) end: usize,
    pub(crate) behind: usize,
}

// Where the spots of a row begin and end.
pub(crate) fn range(rows: &[Row], row: usize) -> (usize, usize)
    requires { row < length rows.now }
    ensures first { result.0 ≡ (row_at rows.now row).first }
    ensures end { result.1 ≡ (row_at rows.now row).end }
{
    (rows[row].first, rows[row].end)
}

// The job of a row that waits.
pub(crate) fn waiting_job(rows: &[Row], row: usize) -> &Job
    requires within { row < length rows.now }
    requires waits { (job : PlainJob) × ((row_at rows.now row).stage ≡ Waiting job) }
    ensures { (row_at rows.now row).stage ≡ Waiting result.now }
{
    match &rows[row].stage {
        Stage::Waiting(job) => job,
        _ => unreachable!(),
    }
}

// The job of a row that waits runs.
pub(crate) fn start_row(rows: &mut Vec<Row>, row: usize) -> Job
    requires within { row < length rows.old.items }
    requires waits { (job : PlainJob) × ((row_at rows.old.items row).stage ≡ Waiting job) }
    ensures job { (row_at rows.old.items row).stage ≡ Waiting result }
    ensures rows { rows.new.items ≡ restaged rows.old.items row Running }
    ensures kept { (vec_len rows.new ≡ vec_len rows.old) × (vec_capacity rows.new ≡ vec_capacity rows.old) }
{
    match mem::replace(&mut rows[row].stage, Stage::Running) {
        Stage::Waiting(job) => job,
        _ => unreachable!(),
    }
}

// The job of a row is over.
pub(crate) fn end_row(rows: &mut Vec<Row>, row: usize)
    requires { row < length rows.old.items }
    ensures rows { rows.new.items ≡ restaged rows.old.items row Ended }
    ensures kept { (vec_len rows.new ≡ vec_len rows.old) × (vec_capacity rows.new ≡ vec_capacity rows.old) }
{
    rows[row].stage = Stage::Ended;
}
