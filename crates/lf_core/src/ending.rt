ghost use Rattle.std.specs.Prelude.{◌≡◌, ◌+◌, ◌++◌, ◌<◌, ◌≤◌, ◌^◌, ◌∷◌, [], false, length, map, reverse, true, IfErr, IfOk, OnErr, OnOk};
ghost use Rattle.std.specs.List.{sum_by};
ghost use Rattle.std.specs.Vec.{vec_capacity, vec_len};
ghost use Rattle.lf_base.specs.declared.ids.CownId.{CownId as Cown};
ghost use Rattle.lf_base.specs.Sets.{Member};
ghost use Rattle.lf_core.specs.Contents.{has_place, kept};
ghost use Rattle.lf_core.specs.Cores.{cowns_of};
ghost use Rattle.lf_core.specs.World.{numbered};
ghost use Rattle.lf_frozen.specs.declared.row.FrozenRow.{FrozenRow};
ghost use Rattle.lf_frozen.specs.FrozenRows.{FrozenNamesDiffer, has_frozen_row, with_all_frozen};
ghost use Rattle.lf_queue.specs.Queues.{IsAboveAll, with_room};

use crate::actor::Outcome;
use crate::contents::Contents;
use crate::journal::Entry;
use crate::log::Log;
use lf_base::{Held, Job, OutOfMemory, Spawn, Spawns};
use lf_frozen::FrozenMap;
use lf_queue::Queue;
use std::alloc::Global;

// What is left of an outcome once its entry and its frozen rows are kept.
#[derive(Drop)]
pub(crate) struct Rest<C> {
    pub(crate) id: u32,
    pub(crate) held: Held<C>,
    pub(crate) made: Held<C>,
    pub(crate) spawns: Spawns,
}

// How many cowns the spawns name together.
fn count_cowns(spawns: &[Spawn]) -> Result<usize, OutOfMemory>
    ensures { IfOk result (λ n. n ≡ sum_by cowns_of spawns.now) }
{
    let mut count: usize = 0;
    for spawn in spawns {
        count = match count.checked_add(spawn.cowns.len()) {
            Some(sum) => sum,
            None => return Err(OutOfMemory),
        };
    }
    Ok(count)
}

// Makes room for all that an end puts into the queue and the contents. Gives an empty vector with room
// for the spawns.
pub(crate) fn reserve_end<C: Drop>(
    alloc: Global,
    queue: &mut Queue,
    contents: &mut Contents<C>,
    done: &Outcome<C>,
) -> Result<Vec<Spawn>, OutOfMemory>
    ensures waiting { queue.new.waiting ≡ queue.old.waiting }
    ensures running { queue.new.running ≡ queue.old.running }
    ensures kept { kept contents.new.places.entries ≡ kept contents.old.places.entries }
    ensures jobs { OnOk result (length done.now.spawns ≤ queue.new.job_room) }
    ensures cowns { OnOk result (sum_by cowns_of done.now.spawns ≤ queue.new.cown_room) }
    ensures held { OnOk result ((x : Cown × C) → Member x done.now.held → has_place contents.new.places.entries x.0 ≡ true) }
    ensures made { OnOk result ((x : Cown × C) → Member x done.now.made → has_place contents.new.places.entries x.0 ≡ true) }
    ensures empty { IfOk result (λ v. (v.items ≡ []) × ((vec_len v ≡ 0) × (length done.now.spawns ≤ vec_capacity v))) }
{
    let cowns = count_cowns(done.spawns.as_slice())?;
    queue.reserve(done.spawns.len(), cowns)?;
    contents.make_places(done.held.as_slice())?;
    contents.make_places(done.made.as_slice())?;
    Ok(Vec::with_capacity(alloc, done.spawns.len())?)
}

// Keeps the entry and the frozen rows of an outcome, or neither.
pub(crate) fn keep<C>(
    log: &mut Log,
    frozen: &mut FrozenMap,
    done: Outcome<C>,
) -> Result<Rest<C>, (Outcome<C>, OutOfMemory)>
    requires apart { FrozenNamesDiffer done.rows }
    requires new { (row : FrozenRow) → Member row done.rows → has_frozen_row frozen.old row.id ≡ false }
    ensures entered { OnOk result (log.new ≡ log.old ++ record { id = done.id; lines = done.lines; fault = done.fault } ∷ []) }
    ensures frozen { OnOk result (frozen.new ≡ with_all_frozen done.rows frozen.old) }
    ensures rest { IfOk result (λ rest. rest ≡ record { id = done.id; held = done.held; made = done.made; spawns = done.spawns }) }
    ensures log_stays { OnErr result (log.new ≡ log.old) }
    ensures frozen_stays { OnErr result (frozen.new ≡ frozen.old) }
    ensures handed_back { IfErr result (λ e. e.0 ≡ done) }
{
    let Outcome {
        id,
        held,
        made,
        rows,
        lines,
        fault,
        spawns,
    } = done;
    if let Err((entry, wanted)) = log.enter(Entry { id, lines, fault }) {
        let Entry { id, lines, fault } = entry;
        return Err((
            Outcome {
                id,
                held,
                made,
                rows,
                lines,
                fault,
                spawns,
            },
            wanted,
        ));
    }
    match frozen.with(rows) {
        Ok(map) => {
            *frozen = map;
            Ok(Rest {
                id,
                held,
                made,
                spawns,
            })
        }
        Err((rows, wanted)) => {
            let Entry { id, lines, fault } = log.take_back();
            Err((
                Outcome {
                    id,
                    held,
                    made,
                    rows,
                    lines,
                    fault,
                    spawns,
                },
                wanted,
            ))
        }
    }
}

// Moves the spawns into a vector that has room, the last one first.
fn turn_round(spawns: Spawns, turned: &mut Vec<Spawn>)
    requires empty { (turned.old.items ≡ []) × (vec_len turned.old ≡ 0) }
    requires room { length spawns ≤ vec_capacity turned.old }
    ensures { reverse turned.new.items ≡ spawns }
{
    let mut spawns = spawns;
    while let Some(spawn) = spawns.pop() {
        turned.push_reserved(spawn);
    }
}

// Numbers the spawns in their order, and lets them wait. Gives the next number.
pub(crate) fn spawn_all(queue: &mut Queue, spawns: Spawns, room: Vec<Spawn>, next: u32) -> u32
    requires empty { (room.items ≡ []) × (vec_len room ≡ 0) }
    requires room { length spawns ≤ vec_capacity room }
    requires jobs { length spawns ≤ queue.old.job_room }
    requires cowns { sum_by cowns_of spawns ≤ queue.old.cown_room }
    requires above { IsAboveAll next queue.old }
    requires fits { next + length spawns < 2 ^ 32 }
    ensures waiting { queue.new.waiting ≡ queue.old.waiting ++ numbered next spawns }
    ensures running { queue.new.running ≡ queue.old.running }
    ensures next { result ≡ next + length spawns }
{
    let mut turned = room;
    turn_round(spawns, &mut turned);
    let mut next = next;
    while let Some(spawn) = turned.pop() {
        queue.spawn(Job {
            id: next,
            body: spawn.body,
            cowns: spawn.cowns,
            values: spawn.values,
        });
        next += 1;
    }
    next
}
