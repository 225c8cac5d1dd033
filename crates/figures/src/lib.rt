// A job, and the leaf figures on numbers: run length, forced work of one job, the signed room, the shortage.
#![tactic(auto)]

ghost use Rattle.std.specs.Prelude.{◌≡◌, ◌+◌, ◌≤◌, ◌<◌, [], ◌∷◌, ◌++◌, length};
ghost use Rattle.model.specs.Jobs.{run_length, forced_of, room_of, width};
ghost use Rattle.model.specs.Boundaries.{shortage};
ghost use Rattle.figures.specs.Jobs.{as_job};

use std::marker::Model;

#[derive(Clone, Copy, Default)]
pub struct Job {
    pub number: u32,
    pub work: u32,
    pub deadline: u32,
    pub bound: u32,
}

// The jobs to plan: a list or a desk has at most 32. The library's list of a fixed capacity is not Copy.
#[derive(Clone, Copy)]
pub struct Jobs {
    cells: [Job; 32],
    len: usize,
}

impl Model for Jobs {
    ghost use Rattle.std.specs.Prelude.{◌≡◌, ◌≤◌, ◌++◌, length, take, drop};
    ghost use Rattle.std.proofs.Common.{arith, take-append-drop, length-take-le};
    ghost use Rattle.figures.specs.Filled.{Filled};
    ghost use Rattle.figures.specs.declared.Job.{Job as Item};

    ghost Value = { Filled Item };

    ghost view = { λ jobs. record { items = take jobs.len jobs.cells; spare = drop jobs.len jobs.cells } };

    ghost invariant = { λ jobs. (jobs.len ≤ 32) × (length jobs.cells ≡ 32) };

    ghost inverse = { λ jobs. record { cells = jobs.items ++ jobs.spare; len = length jobs.items } };

    ghost inverse_ok = { λ jobs h i. record {
      cells = take-append-drop jobs.len jobs.cells i;
      len = length-take-le jobs.len jobs.cells (omega (arith, h.0, h.1)) i;
    } };
}

impl Jobs {
    pub fn new() -> Jobs
        ensures { result.items ≡ [] }
    {
        Jobs {
            cells: [Job::default(); 32],
            len: 0,
        }
    }

    // One job more, behind the others.
    pub fn push(&mut self, job: Job)
        requires { length self.old.items < 32 }
        ensures items { self.new.items ≡ self.old.items ++ job ∷ [] }
        ensures len { length self.new.items ≡ length self.old.items + 1 }
    {
        let len = self.len;
        self.cells[len] = job;
        self.len = len + 1;
    }

    pub fn as_slice(&self) -> &[Job]
        ensures value { result.now ≡ self.now.items }
        ensures fits { length result.now ≤ 32 }
    {
        &self.cells[..self.len]
    }
}

impl Job {
    // The work of the job that is forced into slots 1 to b.
    #[tactic(auto, unfolding(model::specs::Jobs::forced_of))]
    pub fn forced(self, b: u32) -> u32
        requires { (self.deadline ≤ 168) × (self.bound ≤ 64) }
        ensures { result ≡ forced_of b (as_job self) }
    {
        let slots = self.deadline.saturating_sub(b);
        self.work.saturating_sub(self.bound * slots)
    }
}

// 01: D / k rounded up. Any numbers: for a bound of 0 it is 0, as in the model.
#[tactic(auto, using(crate::proofs::Run::run_unbound, crate::proofs::Run::run_some))]
pub fn run_length(work: u32, bound: u32) -> u32
    ensures { result ≡ run_length work bound }
{
    if bound == 0 { 0 } else { work.div_ceil(bound) }
}

// The bound that counts in a room of so many machines.
#[tactic(auto, unfolding(model::specs::Jobs::width))]
pub fn width(machines: u32, bound: u32) -> u32
    ensures { result ≡ width machines bound }
{
    bound
}

// The room at a boundary: capacity minus forced work, a signed number.
pub fn room_of(capacity: u32, forced: u32) -> i32
    requires { (capacity ≤ 10752) × (forced ≤ 1920000) }
    ensures { result ≡ room_of capacity forced }
{
    capacity as i32 - forced as i32
}

// The shortage: a room below zero, negated.
pub fn shortage_of(room: i32) -> u32
    ensures { result ≡ shortage room }
{
    room.min(0).unsigned_abs()
}
