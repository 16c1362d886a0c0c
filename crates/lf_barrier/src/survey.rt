//! What a write into a region touches.

ghost use Rattle.std.specs.Prelude.{◌≡◌, ◌+◌, ◌*◌, ◌≤◌, ◌&&◌, ◌||◌, [], IfOk, List, OnOk, Some, cond, false, true};
ghost use Rattle.lf_base.specs.declared.ids.ObjId.{ObjId as Name};
ghost use Rattle.lf_base.specs.declared.values.Owner.TheVariants.{In};
ghost use Rattle.lf_base.specs.Edges.{field_targets};
ghost use Rattle.lf_base.specs.MoveSet.{move_set};
ghost use Rattle.lf_base.specs.Names.{targets_of_value};
ghost use Rattle.lf_base.specs.Owners.{has_name, names};
ghost use Rattle.lf_base.specs.PlainState.{State};
ghost use Rattle.lf_base.specs.TouchedEdges.{is_inside_other};
ghost use Rattle.lf_barrier.specs.Surveys.{Extends, IsSurvey, Visits, is_other_bridge, is_owned_besides, is_that};
ghost use Rattle.lf_barrier.specs.Surveys.{names_with, objects_touched};
ghost use Rattle.lf_domain.specs.Counts.{IsDomain};
ghost use Rattle.lf_graph.specs.StoredRows.{HasRow, fields_at};
ghost use Rattle.lf_regions.specs.Regions.{has_region};

use crate::names::{add, name_at, no_names};
use indexmap::IndexSet;
use lf_base::{ObjId, OutOfMemory, Owner, Steps, Value};
use lf_graph::Store;
use lf_regions::RegionTable;
use std::alloc::Global;
use std::sync::ledger::Ledger;

/// The region into which a field is written, and the object to which the field refers
/// so far.
#[derive(Clone, Copy)]
pub struct WritePlace {
    pub home: ObjId,
    pub old: Option<ObjId>,
}

/// What the objects that were visited show: the local ones, which move, and the bridges
/// of other regions, each once; whether one lies inside another region; whether a bridge
/// would have two owners.
#[derive(Drop)]
pub struct Survey {
    pub moved: IndexSet<ObjId>,
    pub touched: IndexSet<ObjId>,
    pub inside: bool,
    pub second: bool,
}

// Whether it is that object.
fn is_object(old: Option<ObjId>, o: ObjId) -> bool
    ensures { result ≡ is_that old o }
{
    match old {
        Some(p) => p.is_same(o),
        None => false,
    }
}

impl Survey {
    // The survey of no objects.
    fn new(alloc: Global) -> Survey
        ensures moved { (result.moved).keys ≡ [] }
        ensures touched { (result.touched).keys ≡ [] }
        ensures inside { result.inside ≡ false }
        ensures second { result.second ≡ false }
    {
        Survey {
            moved: no_names(alloc),
            touched: no_names(alloc),
            inside: false,
            second: false,
        }
    }

    // Visits row o of region r.
    fn touch(
        &mut self,
        regions: &RegionTable,
        place: WritePlace,
        o: ObjId,
        r: ObjId,
    ) -> Result<(), OutOfMemory>
        requires { has_region regions.now r ≡ true }
        ensures moved { OnOk result (self.new.moved.keys ≡ self.old.moved.keys) }
        ensures touched { OnOk result (self.new.touched.keys
            ≡ cond (is_other_bridge place.home o (Some (In r))) (names_with self.old.touched.keys o) self.old.touched.keys) }
        ensures inside { OnOk result (self.new.inside ≡ (self.old.inside || is_inside_other place.home o (Some (In r)))) }
        ensures second { OnOk result (self.new.second ≡ (self.old.second || (is_other_bridge place.home o (Some (In r))
            && (has_name self.old.touched.keys o || is_owned_besides regions.now place.old o)))) }
    {
        if place.home.is_same(r) {
            return Ok(());
        }
        if !r.is_same(o) {
            self.inside = true;
            return Ok(());
        }
        let is_new = add(&mut self.touched, o)?;
        let owned = regions.is_owned(r);
        let by_old = is_object(place.old, o);
        if !is_new || (owned && !by_old) {
            self.second = true;
        }
        Ok(())
    }

    // Visits an object.
    fn visit<S: Store, L: Ledger>(
        &mut self,
        store: &S,
        regions: &RegionTable,
        place: WritePlace,
        o: ObjId,
        steps: &mut Steps<L>,
    ) -> Result<(), OutOfMemory>
        requires domain { (s : State) × IsDomain (S.rows store.now) regions.now s }
        ensures { OnOk result (Visits (S.rows store.now) regions.now place.home place.old o self.old self.new) }
    {
        let Some(owner) = store.owner(o, steps) else {
            return Ok(());
        };
        match owner {
            Owner::Local => {
                add(&mut self.moved, o)?;
                Ok(())
            }
            Owner::In(r) => self.touch(regions, place, o, r),
            Owner::Frozen => Ok(()),
        }
    }

    // Visits what the fields of a row refer to.
    fn visit_row<S: Store, L: Ledger>(
        &mut self,
        store: &S,
        regions: &RegionTable,
        place: WritePlace,
        p: ObjId,
        steps: &mut Steps<L>,
    ) -> Result<(), OutOfMemory>
        requires domain { (s : State) × IsDomain (S.rows store.now) regions.now s }
        requires there { HasRow (S.rows store.now) p }
        ensures { OnOk result (Extends (S.rows store.now) regions.now place.home place.old
            (field_targets (fields_at (S.rows store.now) p)) self.old self.new) }
    {
        let width = store.width(p, steps);
        let mut last = None;
        for _turn in 0..width {
            let Some((key, v)) = store.field_after(p, last, steps) else {
                unreachable!()
            };
            self.visit_value(store, regions, place, v, steps)?;
            last = Some(key);
        }
        Ok(())
    }

    // Visits what a value refers to.
    fn visit_value<S: Store, L: Ledger>(
        &mut self,
        store: &S,
        regions: &RegionTable,
        place: WritePlace,
        v: Value,
        steps: &mut Steps<L>,
    ) -> Result<(), OutOfMemory>
        requires domain { (s : State) × IsDomain (S.rows store.now) regions.now s }
        ensures { OnOk result (Extends (S.rows store.now) regions.now place.home place.old (targets_of_value v) self.old self.new) }
    {
        match v.object() {
            Some(o) => {
                self.visit(store, regions, place, o, steps)?;
                Ok(())
            }
            None => Ok(()),
        }
    }
}

/// Goes over the value and all rows that move with it, each row and each of its fields
/// once.
pub fn survey_write<S: Store, L: Ledger>(
    alloc: Global,
    store: &S,
    regions: &RegionTable,
    place: WritePlace,
    v: Value,
    steps: &mut Steps<L>,
) -> Result<Survey, OutOfMemory>
    requires domain { (s : State) × IsDomain (S.rows store.now) regions.now s }
    ensures seen { IfOk result (λ survey. IsSurvey (S.rows store.now) regions.now place.home place.old
        (objects_touched (S.rows store.now) v (survey.moved).keys) survey) }
    ensures within { IfOk result (λ survey. (s : State) → IsDomain (S.rows store.now) regions.now s → (o : Name)
        → has_name (survey.moved).keys o ≡ true → has_name (names (move_set s v)) o ≡ true) }
{
    let mut found = Survey::new(alloc);
    found.visit_value(store, regions, place, v, steps)?;
    for at in 0..usize::MAX {
        let Some(p) = name_at(&found.moved, at) else {
            return Ok(found);
        };
        found.visit_row(store, regions, place, p, steps)?;
    }
    Err(OutOfMemory)
}
