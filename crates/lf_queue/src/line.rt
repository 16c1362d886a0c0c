ghost use Rattle.std.specs.Prelude.{◌≡◌, ◌+◌, ◌<◌, ◌≤◌, ◌^◌, Bool, None, Option, Some, cond, eqb, get_or, if◌then◌else◌, length, set, ℕ, OnOk};
ghost use Rattle.std.specs.HashMap.{spare};
ghost use Rattle.std.specs.Vec.{vec_capacity, vec_len};
ghost use Rattle.lf_base.specs.declared.ids.CownId.{CownId as Cown};
ghost use Rattle.lf_base.specs.Names.{same_cown};
ghost use Rattle.lf_queue.specs.Lines.{CanLessen, bit, freed, is_ahead, is_led, joined, last_of, lessened, place_of, spot_at, without_next};

use crate::ready_set::ReadySet;
use crate::row::{Row, Stage};
use crate::spot::Spot;
use lf_base::{CownId, OutOfMemory};
use std::collections::HashMap;

// Whether that row is there, and its job isn't over.
pub(crate) fn is_before(rows: &[Row], row: usize) -> bool
    ensures { result ≡ is_ahead rows.now row }
{
    row < rows.len() && !matches!(&rows[row].stage, Stage::Ended)
}

// Enters the place of the last spot on a line, and gives the one of before.
fn enter_last(lasts: &mut HashMap<CownId, usize>, cown: CownId, place: usize) -> Option<usize>
    requires { 0 < spare lasts.old }
    ensures old { result ≡ last_of lasts.old cown }
    ensures entered { (c : Cown) → last_of lasts.new c ≡ (if same_cown cown c then Some place else last_of lasts.old c) }
    ensures room { spare lasts.old ≤ spare lasts.new + 1 }
{
    match lasts.insert(cown, place) {
        Ok(old) => old,
        Err(_refused) => unreachable!(),
    }
}

// Enters the row of a job's number.
pub(crate) fn enter_place(places: &mut HashMap<u32, usize>, id: u32, row: usize)
    requires { 0 < spare places.old }
    ensures entered { (n : ℕ) → place_of places.new n ≡ (if eqb id n then Some row else place_of places.old n) }
    ensures room { spare places.old ≤ spare places.new + 1 }
{
    match places.insert(id, row) {
        Ok(_old) => {}
        Err(_refused) => unreachable!(),
    }
}

// The job of the row that comes joins the line of a cown. Tells whether a job that isn't over
// is ahead of it there.
pub(crate) fn join_line(
    rows: &[Row],
    spots: &mut Vec<Spot>,
    lasts: &mut HashMap<CownId, usize>,
    cown: CownId,
) -> bool
    requires room { vec_len spots.old < vec_capacity spots.old }
    requires last_room { 0 < spare lasts.old }
    requires within { (k : ℕ) → last_of lasts.old cown ≡ Some k → k < length spots.old.items }
    ensures spots { spots.new.items ≡ joined rows.now spots.old.items (last_of lasts.old cown) cown }
    ensures spots_len { length spots.new.items ≡ length spots.old.items + 1 }
    ensures led { result ≡ is_led rows.now spots.old.items (last_of lasts.old cown) }
    ensures entered { (c : Cown) → last_of lasts.new c ≡ (if same_cown cown c then Some (length spots.old.items) else last_of lasts.old c) }
    ensures capacity { vec_capacity spots.new ≡ vec_capacity spots.old }
    ensures last_room { spare lasts.old ≤ spare lasts.new + 1 }
{
    let row = rows.len();
    let place = spots.len();
    let mut led = false;
    if let Some(last) = enter_last(lasts, cown, place) {
        led = is_before(rows, spots[last].row);
        if led {
            spots[last].next = Some(row);
        }
    }
    spots.push_reserved(Spot {
        cown,
        row,
        next: None,
    });
    led
}

// A row is in the set of ready ones where it is behind nothing.
pub(crate) fn mark(ready: &mut ReadySet, row: usize, behind: usize)
    requires there { row < length ready.old }
    requires out { get_or ready.old row 0 ≡ 0 }
    ensures { ready.new ≡ (if eqb behind 0 then set ready.old row 1 else ready.old) }
{
    if behind == 0 {
        ready.put(row);
    }
}

// One more, where there is one ahead.
pub(crate) fn with_one(behind: usize, led: bool) -> usize
    requires { behind + 1 < 2 ^ 64 }
    ensures { result ≡ behind + bit led }
{
    if led { behind + 1 } else { behind }
}

// A spot leads on no more: the job that comes next on its line is behind it no longer.
pub(crate) fn leave_line(
    rows: &mut Vec<Row>,
    spots: &mut Vec<Spot>,
    ready: &mut ReadySet,
    spot: usize,
)
    requires within { spot < length spots.old.items }
    requires next { CanLessen rows.old.items ready.old (spot_at spots.old.items spot).next }
    ensures spots { spots.new.items ≡ without_next spots.old.items spot }
    ensures rows { rows.new.items ≡ lessened rows.old.items (spot_at spots.old.items spot).next }
    ensures ready { ready.new ≡ freed rows.old.items (spot_at spots.old.items spot).next ready.old }
    ensures spots_kept { (vec_len spots.new ≡ vec_len spots.old) × (vec_capacity spots.new ≡ vec_capacity spots.old) }
    ensures rows_kept { (vec_len rows.new ≡ vec_len rows.old) × (vec_capacity rows.new ≡ vec_capacity rows.old) }
{
    let next = spots[spot].next;
    spots[spot].next = None;
    if let Some(row) = next {
        rows[row].behind -= 1;
        mark(ready, row, rows[row].behind);
    }
}

// Room for so many rows more, and for their numbers.
pub(crate) fn reserve_jobs(
    rows: &mut Vec<Row>,
    places: &mut HashMap<u32, usize>,
    ready: &mut ReadySet,
    jobs: usize,
) -> Result<(), OutOfMemory>
    ensures rows { rows.new.items ≡ rows.old.items }
    ensures len { vec_len rows.new ≡ vec_len rows.old }
    ensures places { (n : ℕ) → place_of places.new n ≡ place_of places.old n }
    ensures marks { (p : ℕ) → get_or ready.new p 0 ≡ get_or ready.old p 0 }
    ensures row_room { vec_capacity rows.old ≤ vec_capacity rows.new }
    ensures place_room { spare places.old ≤ spare places.new }
    ensures mark_room { length ready.old ≤ length ready.new }
    ensures enough_rows { OnOk result (vec_len rows.new + jobs ≤ vec_capacity rows.new) }
    ensures enough_places { OnOk result (jobs ≤ spare places.new) }
    ensures enough_marks { OnOk result (vec_len rows.new + jobs ≤ length ready.new) }
{
    rows.reserve(jobs)?;
    places.reserve(jobs)?;
    ready.grow(rows.len() + jobs)?;
    Ok(())
}

// Room for so many spots more, and for their lines.
pub(crate) fn reserve_cowns(
    spots: &mut Vec<Spot>,
    lasts: &mut HashMap<CownId, usize>,
    cowns: usize,
) -> Result<(), OutOfMemory>
    ensures spots { spots.new.items ≡ spots.old.items }
    ensures len { vec_len spots.new ≡ vec_len spots.old }
    ensures lasts { (c : Cown) → last_of lasts.new c ≡ last_of lasts.old c }
    ensures spot_room { vec_capacity spots.old ≤ vec_capacity spots.new }
    ensures last_room { spare lasts.old ≤ spare lasts.new }
    ensures enough_spots { OnOk result (vec_len spots.new + cowns ≤ vec_capacity spots.new) }
    ensures enough_lasts { OnOk result (cowns ≤ spare lasts.new) }
{
    spots.reserve(cowns)?;
    lasts.reserve(cowns)?;
    Ok(())
}
