ghost use Rattle.std.specs.Prelude.{◌≡◌, ◌↔◌, ◌<◌, ◌≤◌, [], Some, false, length, map, not, slice_get, true, IfErr, IfOk, OnErr, OnOk};
ghost use Rattle.lf_base.specs.declared.behaviours.Job.{Job as PlainJob};
ghost use Rattle.lf_base.specs.Names.{same_cown};
ghost use Rattle.lf_base.specs.Sets.{Differ};
ghost use Rattle.lf_base.specs.declared.limits.TheConstants.{MOST_BEHAVIOURS as Most};
ghost use Rattle.lf_core.specs.Contents.{left_in};
ghost use Rattle.lf_core.specs.Cores.{MayEnd, going, is_abandoned, new_core, startable, with_abandoned, with_ended, with_started};
ghost use Rattle.lf_core.specs.Keyed.{pick};
ghost use Rattle.lf_core.specs.Reading.{seen};
ghost use Rattle.lf_core.specs.Tasks.{outcome_of};
ghost use Rattle.lf_core.specs.World.{order_of, ready_job};
ghost use Rattle.lf_frozen.specs.FrozenRows.{as_row};
ghost use Rattle.lf_queue.specs.Queues.{is_running};

use crate::actor::{Outcome, Task};
use crate::contents::Contents;
use crate::ending::{keep, reserve_end, spawn_all};
use crate::journal::Journal;
use crate::log::Log;
use lf_base::{Cowns, Held, Job, Order, OutOfMemory, Stored, Values};
use lf_frozen::FrozenMap;
use lf_queue::Queue;
use std::alloc::Global;
use std::marker::Model;

/// Who waits, who runs, what is kept and what was done. Contracts see a world of behaviours, the numbers
/// of those that were abandoned, and the budget; a content is seen by what it tells. A behaviour
/// that was abandoned runs no more, but its cowns stay kept for it.
///
/// Only `new`, `take` and `commit` take memory.
#[derive(Drop)]
pub struct Core<C: Stored + Drop> {
    queue: Queue,
    contents: Contents<C>,
    frozen: FrozenMap,
    log: Log,
    // The numbers of those that were abandoned. There is room for all that run.
    abandoned: Vec<u32>,
    next: u32,
    started: u32,
    budget: u32,
}

impl<C: Stored + Drop> Model for Core<C> {
    ghost use Rattle.std.specs.Prelude.{map};
    ghost use Rattle.std.specs.Vec.{vec_capacity};
    ghost use Rattle.lf_core.specs.Contents.{left_in};
    ghost use Rattle.lf_core.specs.CoreViews.{core_state};
    ghost use Rattle.lf_core.specs.Cores.{CoreState, KeepsCore};

    ghost Value = { CoreState };

    ghost view = { λ core. core_state core.queue (left_in C.content C.rows core.contents) core.frozen core.log core.next core.started core.abandoned.items core.budget };

    ghost invariant = { λ core. KeepsCore (core_state core.queue (left_in C.content C.rows core.contents) core.frozen core.log core.next core.started core.abandoned.items core.budget) (vec_capacity core.abandoned) };
}

impl<C: Stored + Drop> Core<C> {
    /// The core in which main waits, or `OutOfMemory`. So many behaviours may start.
    pub fn new(alloc: Global, budget: u32) -> Result<Core<C>, OutOfMemory>
        requires { budget ≤ Most }
        ensures { IfOk result (λ core. core ≡ new_core budget) }
    {
        let mut queue = Queue::new(alloc);
        queue.reserve(1, 0)?;
        queue.spawn(Job {
            id: 0,
            body: 0,
            cowns: Cowns::new(alloc),
            values: Values::new(alloc),
        });
        Ok(Core {
            queue,
            contents: Contents::new(alloc),
            frozen: FrozenMap::new(alloc),
            log: Log::new(alloc),
            abandoned: Vec::new(alloc),
            next: 1,
            started: 0,
            budget,
        })
    }

    /// The least ready number. None exactly where no waiting behaviour is ready or the budget is
    /// reached.
    pub fn ready(&self) -> Option<u32>
        ensures { result ≡ slice_get (startable self.now) 0 }
    {
        self.ready_at(0)
    }

    /// The ready number at a place by rising number, from 0. None exactly where the budget is reached
    /// or no more than `at` waiting behaviours are ready.
    pub fn ready_at(&self, at: u32) -> Option<u32>
        ensures { result ≡ slice_get (startable self.now) at }
    {
        if self.started < self.budget {
            self.queue.ready_at(at)
        } else {
            None
        }
    }

    /// Starts the ready behaviour of that number: gives its job, the contents of its cowns and the
    /// frozen rows. After `OutOfMemory`, which no clause ties to a cause, the core is as before.
    pub fn take(&mut self, id: u32) -> Result<Task<C>, OutOfMemory>
        requires ready { (job : PlainJob) × (ready_job self.old.world id ≡ Some job) }
        requires below { self.old.world.started < self.old.budget }
        requires not_starved { self.old.abandoned ≡ [] }
        ensures job { IfOk result (λ task. ready_job self.old.world id ≡ Some task.job) }
        ensures cowns { IfOk result (λ task. Differ same_cown task.job.cowns) }
        ensures fresh { IfOk result (λ task. is_running self.old.world.running task.job.id ≡ false) }
        ensures started { IfOk result (λ task. self.new ≡ with_started task.job self.old) }
        ensures held { IfOk result (λ task. seen C.content C.rows task.held ≡ pick task.job.cowns self.old.world.parked) }
        ensures frozen { IfOk result (λ task. map as_row task.frozen ≡ self.old.world.frozen) }
        ensures unchanged { OnErr result (self.new ≡ self.old) }
    {
        let cowns = self.queue.job(id).cowns.len();
        let running = self.started as usize - self.log.len();
        self.abandoned.reserve(running + 1)?;
        let frozen = self.frozen.share()?;
        let mut held = Vec::with_capacity(*self.abandoned.allocator(), cowns)?;
        let job = self.queue.start(id);
        self.contents.take_all(job.cowns.as_slice(), &mut held);
        self.started += 1;
        Ok(Task {
            job,
            held: Held::from_vec(held),
            frozen,
        })
    }

    /// Ends a running behaviour by what it hands in: its contents are put back, its new cowns and
    /// frozen rows are added, it is entered in the journal, and its spawns get the next numbers.
    ///
    /// All memory is taken first. After `OutOfMemory`, which no clause ties to a cause, the core is
    /// as before, and the outcome is handed back.
    pub fn commit(&mut self, done: Outcome<C>) -> Result<(), (Outcome<C>, OutOfMemory)>
        requires fits { MayEnd self.old.world done.id (outcome_of C.content C.rows done) }
        requires not_abandoned { is_abandoned self.old done.id ≡ false }
        ensures ended { OnOk result (self.new ≡ with_ended done.id (outcome_of C.content C.rows done) self.old) }
        ensures unchanged { OnErr result (self.new ≡ self.old) }
        ensures handed_back { IfErr result (λ e. e.0 ≡ done) }
    {
        let alloc = *self.abandoned.allocator();
        let room = match reserve_end(alloc, &mut self.queue, &mut self.contents, &done) {
            Ok(room) => room,
            Err(wanted) => return Err((done, wanted)),
        };
        let rest = match keep(&mut self.log, &mut self.frozen, done) {
            Ok(rest) => rest,
            Err(refused) => return Err(refused),
        };
        self.queue.ended(rest.id);
        self.next = spawn_all(&mut self.queue, rest.spawns, room, self.next);
        self.contents.put_all(rest.made);
        self.contents.put_all(rest.held);
        Ok(())
    }

    /// Marks a running behaviour as lost for want of memory. It runs no more, and the core is starved
    /// from then on.
    pub fn abandon(&mut self, id: u32)
        requires running { is_running self.old.world.running id ≡ true }
        requires not_abandoned { is_abandoned self.old id ≡ false }
        ensures { self.new ≡ with_abandoned id self.old }
    {
        self.abandoned.push_reserved(id);
    }

    /// Whether a behaviour was abandoned.
    pub fn starved(&self) -> bool
        ensures { (result ≡ false) ↔ (self.now.abandoned ≡ []) }
    {
        !self.abandoned.is_empty()
    }

    /// What was committed, in the order of commit.
    pub fn journal(&self) -> &Journal
        ensures { result.now ≡ self.now.world.journal }
    {
        self.log.journal()
    }

    /// The committed frozen rows.
    pub fn frozen(&self) -> &FrozenMap
        ensures { map as_row result.now ≡ self.now.world.frozen }
    {
        &self.frozen
    }

    /// The kept contents by rising cown.
    pub fn left(&self) -> &Contents<C>
        ensures { left_in C.content C.rows result.now ≡ self.now.world.parked }
    {
        &self.contents
    }

    /// How many behaviours were started.
    pub fn started(&self) -> u32
        ensures { result ≡ self.now.world.started }
    {
        self.started
    }

    /// How many wait.
    pub fn waiting(&self) -> u32
        ensures { result ≡ length self.now.world.waiting }
    {
        self.next - self.started
    }

    /// How many run. Those that were abandoned don't.
    pub fn running(&self) -> u32
        ensures { result ≡ length (going self.now) }
    {
        let over = self.log.len() + self.abandoned.len();
        self.started - over as u32
    }

    /// The numbers of the journal, in its order. It takes no memory.
    pub fn into_order(self) -> Order
        ensures { result ≡ order_of self.world }
    {
        self.log.into_order()
    }
}
