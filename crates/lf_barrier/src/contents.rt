//! A cown's content: what it is refused for, and its writing.

ghost use Rattle.std.specs.Prelude.{◌≡◌, ◌+◌, ◌≤◌, ◌&&◌, None, Some, cond, not, true};
ghost use Rattle.std.specs.Result.{result_err};
ghost use Rattle.lf_base.specs.declared.faults.Fault.TheVariants.{Interior, SecondOwner};
ghost use Rattle.lf_base.specs.declared.values.Value.TheVariants as variant;
ghost use Rattle.lf_base.specs.ContentRefusal.{refusal_as_content};
ghost use Rattle.lf_base.specs.ContentResult.{content_at, content_result};
ghost use Rattle.lf_base.specs.Names.{same_name, same_value};
ghost use Rattle.lf_base.specs.NewCown.{made_result, next_cown};
ghost use Rattle.lf_base.specs.PlainState.{State};
ghost use Rattle.lf_barrier.specs.ContentWrites.{IsContentWrite};
ghost use Rattle.lf_domain.specs.Counts.{CountsOf, IsDomain};
ghost use Rattle.lf_regions.specs.Regions.{has_region, owned_of};

use lf_base::{CownId, Fault, ObjId, Owner, Steps, Value};
use lf_domain::{count_content, uncount_content};
use lf_graph::Store;
use lf_regions::RegionTable;
use std::sync::ledger::Ledger;

/// What a value is refused for as the content of a cown whose content is `old`, which is
/// `None` for a cown that is being made: `LocalInCown` where it is a local object,
/// `Interior` where it is an object inside a region, `SecondOwner` where it is a bridge
/// with an owning edge other than that of the old content.
pub fn check_content<S: Store, L: Ledger>(
    store: &S,
    regions: &RegionTable,
    old: Value,
    value: Value,
    steps: &mut Steps<L>,
) -> Result<(), Fault>
    requires domain { (s : State) × IsDomain (S.rows store.now) regions.now s }
    ensures answer { (s : State) → IsDomain (S.rows store.now) regions.now s → result_err result ≡ refusal_as_content s (Some old) value }
    ensures steps { steps.new ≤ steps.old + 1 }
{
    let Some(o) = value.object() else {
        return Ok(());
    };
    let Some(owner) = store.owner(o, steps) else {
        return Ok(());
    };
    match owner {
        Owner::Local => Err(Fault::LocalInCown),
        Owner::In(r) => check_inside(regions, o, r, old),
        Owner::Frozen => Ok(()),
    }
}

// What a row of region r is refused for as a content.
fn check_inside(regions: &RegionTable, o: ObjId, r: ObjId, old: Value) -> Result<(), Fault>
    requires { has_region regions.now r ≡ true }
    ensures { result_err result ≡ cond (same_name r o)
        (cond (owned_of regions.now r && not (same_value old (variant.Obj o))) (Some SecondOwner) None) (Some Interior) }
{
    if !r.is_same(o) {
        return Err(Fault::Interior);
    }
    let owned = regions.is_owned(r);
    let its_own = old.is_same(Value::Obj(o));
    if owned && !its_own {
        return Err(Fault::SecondOwner);
    }
    Ok(())
}

/// Writes a content that isn't refused: it counts the edge of the new value in place of
/// that of the old one, in at most 4 steps. The contents themselves are the caller's: of a
/// cown that is held, or of one that is being made, whose old content is `None`.
pub fn apply_content<S: Store, L: Ledger>(
    store: &mut S,
    regions: &mut RegionTable,
    cown: CownId,
    old: Value,
    value: Value,
    steps: &mut Steps<L>,
)
    requires checked { (s : State) × (IsDomain (S.rows store.old) regions.old s × IsContentWrite s cown old value) }
    ensures held { (s : State) → IsDomain (S.rows store.old) regions.old s → IsContentWrite s cown old value
        → content_at s.held cown ≡ Some old → CountsOf (S.rows store.new) regions.new (content_result s cown value) }
    ensures made { (s : State) → IsDomain (S.rows store.old) regions.old s → IsContentWrite s cown old value
        → cown ≡ next_cown s → old ≡ variant.None → CountsOf (S.rows store.new) regions.new (made_result s value) }
    ensures steps { steps.new ≤ steps.old + 4 }
{
    uncount_content(store, regions, Some(old), steps);
    count_content(store, regions, Some(value), steps);
}
