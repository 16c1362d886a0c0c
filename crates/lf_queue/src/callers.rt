//! A caller that knows a queue by its contract alone: it numbers jobs as they come, and runs
//! ready ones one at a time.

ghost use Rattle.std.specs.Prelude.{◌≡◌, [], OnErr};

use crate::queue::Queue;
use lf_base::{Cowns, Job, OutOfMemory, Values};
use std::alloc::Global;
use std::marker::Model;

/// A queue whose jobs have rising numbers.
#[derive(Drop)]
pub struct JobLine {
    queue: Queue,
    next: u32,
}

impl Model for JobLine {
    ghost use Rattle.lf_queue.specs.Queues.{IsAboveAll, QueueState};

    ghost Value = { QueueState };

    ghost view = { λ line. line.queue };

    ghost invariant = { λ line. IsAboveAll line.next line.queue };
}

impl JobLine {
    /// Without jobs. It takes no memory.
    pub fn new(alloc: Global) -> JobLine {
        JobLine {
            queue: Queue::new(alloc),
            next: 0,
        }
    }

    /// Adds a job with these cowns. Want of memory comes at any time, and where no number is left.
    pub fn add(&mut self, alloc: Global, cowns: Cowns) -> Result<(), OutOfMemory>
        ensures { OnErr result (self.new ≡ self.old) }
    {
        if self.next == u32::MAX {
            return Err(OutOfMemory);
        }
        let count = cowns.len();
        self.queue.reserve(1, count)?;
        self.queue.spawn(Job {
            id: self.next,
            body: 0,
            cowns,
            values: Values::new(alloc),
        });
        self.next += 1;
        Ok(())
    }

    /// Starts and ends the ready job at that place. Gives its number, and None exactly where no more than
    /// so many are ready.
    pub fn run_one(&mut self, at: u32) -> Option<u32> {
        let id = self.queue.ready_at(at)?;
        let job = self.queue.start(id);
        self.queue.ended(job.id);
        Some(id)
    }
}
