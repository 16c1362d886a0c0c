//! What was proved of readiness. Each function has an empty body; its clauses are the law.

ghost use Rattle.std.specs.Prelude.{◌≡◌, ◌≤◌, ◌<◌, ◌≢◌, [], ◌∷◌, ◌++◌, List, Some, length, slice_get, true, ℕ};
ghost use Rattle.lf_base.specs.declared.behaviours.Job.{Job};
ghost use Rattle.lf_base.specs.Sets.{Member};
ghost use Rattle.lf_queue.specs.Queues.{holder_of, with_holder, without_holder, without_job};
ghost use Rattle.lf_queue.specs.Ready.{Holder, is_ready, ready_ids, ready_job};

/// A number that is found among the ready ones is that of a ready job, which may be started.
pub fn found_may_start()
    ensures { (waiting : List Job) (running : List Holder) (at id : ℕ) → slice_get (ready_ids waiting running) at ≡ Some id
        → (job : Job) × (ready_job waiting running id ≡ Some job) }
{}

/// Where none runs, the lowest waiting job is ready.
pub fn lowest_is_ready()
    ensures { (waiting : List Job) (job : Job) → ((other : Job) → Member other waiting → job.id ≤ other.id) → is_ready waiting [] job ≡ true }
{}

/// A ready job stays ready while another ready one starts, while any running one ends, and while
/// jobs of greater number are spawned. So those that are ready at once may be run side by side
/// and end in any order.
pub fn ready_stays()
    ensures started { (waiting : List Job) (running : List Holder) (job other : Job) → Member job waiting → Member other waiting → job.id ≢ other.id
        → is_ready waiting running job ≡ true → is_ready waiting running other ≡ true
        → is_ready (without_job waiting other.id) (with_holder (holder_of other) running) job ≡ true }
    ensures ended { (waiting : List Job) (running : List Holder) (job : Job) (id : ℕ)
        → is_ready waiting running job ≡ true → is_ready waiting (without_holder running id) job ≡ true }
    ensures spawned { (waiting more : List Job) (running : List Holder) (job : Job) → ((other : Job) → Member other more → job.id ≤ other.id)
        → is_ready waiting running job ≡ true → is_ready (waiting ++ more) running job ≡ true }
{}
