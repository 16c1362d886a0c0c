//! Suspects that a call notes, and room for them.

ghost use Rattle.std.specs.Prelude.{◌≡◌, ◌+◌, ◌++◌, ◌*◌, ◌^◌, ◌≤◌, [], OnOk, length, map, reverse};
ghost use Rattle.lf_base.specs.Edges.{slot_targets};
ghost use Rattle.lf_base.specs.Suspects.{Object, Region};
ghost use Rattle.lf_heap.specs.Suspecting.{suspected};
ghost use Rattle.lf_settle.specs.Drops.{SameCapacity};
ghost use Rattle.lf_settle.specs.WorkLists.{suspected_place};

use lf_base::{ObjId, OutOfMemory, Value};
use lf_domain::target_of;
use lf_settle::{Suspect, Work};
use lf_transfer::Loose;

/// The most rows, and the most suspects besides, for which there is room.
pub(crate) const MOST_ROWS: usize = 2_305_843_009_213_693_952;

/// Makes room for the suspects that there may be with so many rows, and for so many more.
pub(crate) fn watch_rows(work: &mut Work, rows: usize, more: usize) -> Result<(), OutOfMemory>
    requires few { rows ≤ 2 ^ 61 }
    ensures suspects { work.new.suspects ≡ work.old.suspects }
    ensures enough { OnOk result (3 * rows + 4 + more ≤ work.new.spare) }
    ensures room { work.old.spare ≤ work.new.spare }
{
    if more > MOST_ROWS {
        return Err(OutOfMemory);
    }
    work.reserve(3 * rows + 4 + more)?;
    Ok(())
}

/// Notes the object of a value, where it has one.
pub(crate) fn note(work: &mut Work, v: Option<Value>)
    requires { 1 ≤ work.old.spare }
    ensures suspects { work.new.suspects ≡ map Object (slot_targets v) ++ work.old.suspects }
    ensures capacity { SameCapacity work.old work.new }
{
    if let Some(o) = target_of(v) {
        work.push(Suspect::Object(o));
    }
}

/// What the names of a list are names of.
#[derive(Clone, Copy)]
pub(crate) enum Kind {
    Objects,
    Regions,
}

// The suspect that a name is.
fn suspect_of(kind: Kind, name: ObjId) -> Suspect
    ensures { suspected_place result ≡ suspected kind name }
{
    match kind {
        Kind::Objects => Suspect::Object(name),
        Kind::Regions => Suspect::Region(name),
    }
}

/// Notes what a list names, and leaves the list empty.
pub(crate) fn suspect_all(work: &mut Work, names: &mut Loose, kind: Kind)
    requires { length names.old.names ≤ work.old.spare }
    ensures suspects { work.new.suspects ≡ map (suspected kind) (reverse names.old.names) ++ work.old.suspects }
    ensures capacity { SameCapacity work.old work.new }
    ensures room { work.new.spare + length names.old.names ≡ work.old.spare }
    ensures none_left { names.new.names ≡ [] }
    ensures list { names.new.spare ≡ names.old.spare + length names.old.names }
{
    while let Some(name) = names.pop() {
        work.push(suspect_of(kind, name));
    }
}

/// Notes regions.
pub(crate) fn suspect_regions(work: &mut Work, mut regions: Loose)
    requires { length regions.names ≤ work.old.spare }
    ensures suspects { work.new.suspects ≡ map Region (reverse regions.names) ++ work.old.suspects }
    ensures room { work.new.spare + length regions.names ≡ work.old.spare }
{
    suspect_all(work, &mut regions, Kind::Regions);
}
