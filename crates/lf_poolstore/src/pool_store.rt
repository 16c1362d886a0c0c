//! The store of rows whose owners have a unit each.

ghost use Rattle.lf_poolstore.specs.PoolViews.{pool_rows, pool_spare};

use crate::pools::{PoolPart, Pools};
use lf_base::{Key, ObjId, OutOfMemory, Owner, Steps, Value};
use lf_graph::{RowHead, Store};
use std::alloc::Global;
use std::sync::ledger::Ledger;

/// The rows of all owners, in units.
#[derive(Drop)]
pub struct PoolStore {
    pools: Pools,
}

impl Store for PoolStore {
    type Part = PoolPart;

    ghost rows = { λ store. pool_rows store.pools };

    ghost spare = { λ store. pool_spare store.pools };

    ghost part_rows = { λ part. part.unit.rows };

    ghost part_region = { λ part. part.region };

    fn new(alloc: Global) -> Result<PoolStore, OutOfMemory> {
        Ok(PoolStore {
            pools: Pools::new(alloc)?,
        })
    }

    #[inline(always)]
    fn owner<L: Ledger>(&self, o: ObjId, steps: &mut Steps<L>) -> Option<Owner> {
        steps.tick();
        self.pools.owner(o)
    }

    fn first<L: Ledger>(&self, owner: Owner, steps: &mut Steps<L>) -> Option<ObjId> {
        steps.tick();
        self.pools.first(owner)
    }

    #[inline(always)]
    fn next<L: Ledger>(&self, o: ObjId, steps: &mut Steps<L>) -> Option<ObjId> {
        steps.tick();
        self.pools.next(o)
    }

    #[inline(always)]
    fn width<L: Ledger>(&self, o: ObjId, steps: &mut Steps<L>) -> u32 {
        steps.tick();
        self.pools.width(o)
    }

    fn field_at<L: Ledger>(&self, o: ObjId, at: u32, steps: &mut Steps<L>) -> Option<(Key, Value)> {
        steps.tick();
        self.pools.field_at(o, at)
    }

    #[inline(always)]
    fn field_after<L: Ledger>(
        &self,
        o: ObjId,
        after: Option<Key>,
        steps: &mut Steps<L>,
    ) -> Option<(Key, Value)> {
        steps.tick();
        self.pools.field_after(o, after)
    }

    #[inline(always)]
    fn field<L: Ledger>(&self, o: ObjId, key: Key, steps: &mut Steps<L>) -> Option<Value> {
        steps.tick();
        self.pools.field(o, key)
    }

    #[inline(always)]
    fn set_field<L: Ledger>(
        &mut self,
        o: ObjId,
        key: Key,
        v: Value,
        steps: &mut Steps<L>,
    ) -> Option<Value> {
        steps.tick();
        self.pools.set_field(o, key, v)
    }

    #[inline(always)]
    fn take_field<L: Ledger>(&mut self, o: ObjId, key: Key, steps: &mut Steps<L>) -> Option<Value> {
        steps.tick();
        self.pools.take_field(o, key)
    }

    fn insert<L: Ledger>(&mut self, o: ObjId, owner: Owner, steps: &mut Steps<L>) {
        steps.tick();
        self.pools.insert(o, owner);
    }

    #[inline(always)]
    fn remove<L: Ledger>(&mut self, o: ObjId, steps: &mut Steps<L>) {
        steps.tick();
        self.pools.remove(o);
    }

    fn set_owner<L: Ledger>(&mut self, o: ObjId, owner: Owner, steps: &mut Steps<L>) {
        steps.tick();
        self.pools.set_owner(o, owner);
    }

    #[inline(always)]
    fn refs<L: Ledger>(&self, o: ObjId, steps: &mut Steps<L>) -> u64 {
        steps.tick();
        self.pools.refs(o)
    }

    #[inline(always)]
    fn add_ref<L: Ledger>(&mut self, o: ObjId, steps: &mut Steps<L>) {
        steps.tick();
        self.pools.add_ref(o);
    }

    #[inline(always)]
    fn sub_ref<L: Ledger>(&mut self, o: ObjId, steps: &mut Steps<L>) {
        steps.tick();
        self.pools.sub_ref(o);
    }

    fn reserve(&mut self, owner: Owner, cells: usize) -> Result<(), OutOfMemory> {
        self.pools.reserve(owner, cells)
    }

    fn part_out(&mut self, region: ObjId) -> Result<PoolPart, OutOfMemory> {
        Ok(self.pools.part_out(region))
    }

    fn part_in(&mut self, part: PoolPart) -> Result<(), (PoolPart, OutOfMemory)> {
        self.pools.part_in(part)
    }

    fn part_row(part: &PoolPart, at: u32) -> Option<RowHead> {
        part.row(at)
    }

    fn part_field(part: &PoolPart, at: u32, field: u32) -> Option<(Key, Value)> {
        part.field(at, field)
    }
}
