ghost use Rattle.std.specs.Prelude.{◌≡◌, ◌+◌, ◌-◌, ◌<◌, ◌≤◌, Bool, None, Option, Some, cond, eqb, if◌then◌else◌, length, slice_get, true, ℕ, OnErr, OnOk};
ghost use Rattle.std.specs.HashMap.{spare};
ghost use Rattle.std.specs.Vec.{vec_capacity, vec_len};
ghost use Rattle.lf_base.specs.declared.behaviours.Job.{Job as PlainJob};
ghost use Rattle.lf_base.specs.Sets.{Member};
ghost use Rattle.lf_queue.specs.Queues.{IsAboveAll, ended, is_running, no_jobs, spawned, started, with_room};
ghost use Rattle.lf_queue.specs.Ready.{ready_ids, ready_job};

use crate::line::{
    enter_place, join_line, leave_line, mark, reserve_cowns, reserve_jobs, with_one,
};
use crate::ready_set::ReadySet;
use crate::row::{Row, Stage, end_row, range, start_row, waiting_job};
use crate::spot::Spot;
use lf_base::{CownId, Job, OutOfMemory};
use std::alloc::Global;
use std::collections::HashMap;
use std::marker::Model;

/// The jobs that wait and those that run. Contracts see both lists by rising number, a
/// running job by its number and its cowns, and two numbers of room: for how many jobs and for
/// how many cowns of jobs there is memory. Only `reserve` takes memory.
///
/// A ready job is found in as many steps as the logarithm of the number of jobs spawned. Each
/// other call takes such steps for the job, and a few for each cown of it.
#[derive(Drop)]
pub struct Queue {
    // A row for each job that was spawned, by rising number.
    rows: Vec<Row>,
    // The rows of jobs that aren't over, by number.
    places: HashMap<u32, usize>,
    // The spots of each row, one row after the other.
    spots: Vec<Spot>,
    // The last spot on the line of each cown.
    lasts: HashMap<CownId, usize>,
    // The rows of the ready jobs.
    ready: ReadySet,
    job_room: usize,
    cown_room: usize,
}

impl Model for Queue {
    ghost use Rattle.std.specs.Prelude.{◌+◌, ◌≤◌, length, vec_capacity, vec_len};
    ghost use Rattle.std.specs.HashMap.{spare};
    ghost use Rattle.lf_queue.specs.Lines.{KeepsJobs, holders_from, last_of, place_of, waiting_jobs};
    ghost use Rattle.lf_queue.specs.Queues.{QueueState};

    ghost Value = { QueueState };

    ghost view = { λ queue. record {
      waiting = waiting_jobs queue.rows.items;
      running = holders_from queue.spots.items 0 queue.rows.items;
      job_room = queue.job_room;
      cown_room = queue.cown_room;
    } };

    ghost invariant = { λ queue. KeepsJobs queue.rows.items queue.spots.items (last_of queue.lasts) (place_of queue.places) queue.ready
        × ((vec_len queue.rows + queue.job_room ≤ vec_capacity queue.rows)
        × ((vec_len queue.spots + queue.cown_room ≤ vec_capacity queue.spots)
        × ((queue.job_room ≤ spare queue.places)
        × ((queue.cown_room ≤ spare queue.lasts)
        × (vec_len queue.rows + queue.job_room ≤ length queue.ready))))) };
}

impl Queue {
    /// The queue without jobs and without room. It takes no memory.
    pub fn new(alloc: Global) -> Queue
        ensures { result ≡ no_jobs }
    {
        Queue {
            rows: Vec::new(alloc),
            places: HashMap::new(alloc),
            spots: Vec::new(alloc),
            lasts: HashMap::new(alloc),
            ready: ReadySet::new(alloc),
            job_room: 0,
            cown_room: 0,
        }
    }

    /// Makes room for so many jobs and for so many cowns of jobs. After `OutOfMemory`, which
    /// no clause ties to a cause, the queue and its room are as before.
    pub fn reserve(&mut self, jobs: usize, cowns: usize) -> Result<(), OutOfMemory>
        ensures room { OnOk result (self.new ≡ with_room jobs cowns self.old) }
        ensures unchanged { OnErr result (self.new ≡ self.old) }
    {
        reserve_jobs(&mut self.rows, &mut self.places, &mut self.ready, jobs)?;
        reserve_cowns(&mut self.spots, &mut self.lasts, cowns)?;
        self.job_room = self.job_room.max(jobs);
        self.cown_room = self.cown_room.max(cowns);
        Ok(())
    }

    /// Adds a waiting job. It needs room for the job and for its cowns, which it uses up, and
    /// a number above those of all jobs that wait or run.
    pub fn spawn(&mut self, job: Job)
        requires job_room { 1 ≤ self.old.job_room }
        requires cown_room { length job.cowns ≤ self.old.cown_room }
        requires above { IsAboveAll job.id self.old }
        ensures { self.new ≡ spawned job self.old }
    {
        let row = self.rows.len();
        let first = self.spots.len();
        let cowns = job.cowns.len();
        let mut behind = 0;
        for cown in job.cowns.as_slice() {
            let led = join_line(&self.rows, &mut self.spots, &mut self.lasts, *cown);
            behind = with_one(behind, led);
        }
        mark(&mut self.ready, row, behind);
        enter_place(&mut self.places, job.id, row);
        self.rows.push_reserved(Row {
            id: job.id,
            stage: Stage::Waiting(job),
            first,
            end: first + cowns,
            behind,
        });
        self.job_room -= 1;
        self.cown_room -= cowns;
    }

    /// The least number of a ready job. None exactly where no job is ready.
    pub fn ready(&self) -> Option<u32>
        ensures { result ≡ slice_get (ready_ids self.now.waiting self.now.running) 0 }
    {
        self.ready_at(0)
    }

    /// The number of the ready job at a place by rising number, from 0. None exactly where no
    /// more than so many jobs are ready.
    pub fn ready_at(&self, at: u32) -> Option<u32>
        ensures { result ≡ slice_get (ready_ids self.now.waiting self.now.running) at }
    {
        match self.ready.nth(at) {
            Some(row) => Some(self.rows[row].id),
            None => None,
        }
    }

    /// The ready job of that number, which waits on.
    pub fn job(&self, id: u32) -> &Job
        requires { (job : PlainJob) × (ready_job self.now.waiting self.now.running id ≡ Some job) }
        ensures { ready_job self.now.waiting self.now.running id ≡ Some result.now }
    {
        let Some(&row) = self.places.get(&id) else {
            unreachable!()
        };
        waiting_job(&self.rows, row)
    }

    /// Gives the ready job of that number, which runs from now on.
    pub fn start(&mut self, id: u32) -> Job
        requires ready { (job : PlainJob) × (ready_job self.old.waiting self.old.running id ≡ Some job) }
        ensures job { ready_job self.old.waiting self.old.running id ≡ Some result }
        ensures started { self.new ≡ started result self.old }
    {
        let Some(&row) = self.places.get(&id) else {
            unreachable!()
        };
        self.ready.take(row);
        start_row(&mut self.rows, row)
    }

    /// Takes the running job of that number away.
    pub fn ended(&mut self, id: u32)
        requires { is_running self.old.running id ≡ true }
        ensures { self.new ≡ ended id self.old }
    {
        let Some(row) = self.places.remove(&id) else {
            unreachable!()
        };
        let (first, end) = range(&self.rows, row);
        for spot in first..end {
            leave_line(&mut self.rows, &mut self.spots, &mut self.ready, spot);
        }
        end_row(&mut self.rows, row);
    }
}
