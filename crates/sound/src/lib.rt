// Whether a desk's record is sound: its seats one after the other, then the boundary walk over its jobs.
#![tactic(auto)]

ghost use Rattle.std.specs.Prelude.{◌≡◌, ◌≤◌, IsTrue, [], ◌∷◌, length};
ghost use Rattle.model.specs.Boundaries.{least_short};
ghost use Rattle.figures.specs.Jobs.{as_job, as_jobs};
ghost use Rattle.promise.specs.Desk.{held_of, to_plan, jobs_for};
ghost use Rattle.promise.specs.DeskCalls.{seat_ok, seat_fits, is_unused, all_unused, seats_ok, none_short, is_sound};

use figures::{Job, Jobs};
use promise::{Desk, Held};

// A seat in use is as it must be; that it is in use and that the numbers rise is looked at by the caller.
#[tactic(auto, unfolding(promise::specs::DeskCalls::seat_ok))]
fn seat_ok(h: &Held, clock: u32) -> bool
    ensures { result ≡ seat_ok clock h.now }
{
    h.number <= 65535
        && (1..=60000).contains(&h.work)
        && (1..=h.work).contains(&h.left)
        && clock < h.deadline
        && h.deadline <= 100000
        && seat_fits(h, clock)
}

// The rest of it: bound, slots, and the admitted work within them.
#[tactic(auto, unfolding(promise::specs::DeskCalls::seat_fits))]
fn seat_fits(h: &Held, clock: u32) -> bool
    requires { clock ≤ h.now.deadline }
    ensures { result ≡ seat_fits clock h.now }
{
    (1..=64).contains(&h.bound)
        && (1..=168).contains(&h.slots)
        && h.deadline - clock <= h.slots
        && h.work <= h.bound * h.slots
}

// A seat without a job: all zeros.
#[tactic(auto, unfolding(promise::specs::DeskCalls::is_unused))]
fn is_unused(h: &Held) -> bool
    ensures { result ≡ is_unused h.now }
{
    *h == Held::default()
}

// All of the seats are unused.
fn all_unused(seats: &[Held]) -> bool
    ensures { result ≡ all_unused seats.now }
{
    seats.iter().all(is_unused)
}

// The seats in use rise and are as they must be, and all others are unused.
fn seats_ok(seats: &[Held], clock: u32) -> bool
    ensures { result ≡ seats_ok clock 0 seats.now }
{
    let mut before = 0;
    for (i, h) in seats.iter().enumerate() {
        if h.number == 0 {
            return all_unused(&seats[i..]);
        }
        if h.number <= before || !seat_ok(h, clock) {
            return false;
        }
        before = h.number;
    }
    true
}

// The held jobs: the seats before the first with number 0.
pub fn held(desk: &Desk) -> &[Held]
    ensures seats { result.now ≡ held_of desk.now }
    ensures few { length result.now ≤ 32 }
{
    let n = desk
        .seats
        .iter()
        .position(|h| h.number == 0)
        .unwrap_or(desk.seats.len());
    &desk.seats[..n]
}

// A held job, as it counts for planning.
#[tactic(auto, unfolding(promise::specs::Desk::to_plan, model::specs::Jobs::counted, promise::specs::Desk::as_planned))]
fn planned(h: &Held, machines: u32, clock: u32) -> Job
    ensures { to_plan machines clock (h.now ∷ []) ≡ as_job result ∷ [] }
{
    Job {
        number: h.number,
        work: h.left,
        deadline: h.deadline.saturating_sub(clock),
        bound: figures::width(machines, h.bound),
    }
}

// Held jobs as they count for planning.
#[tactic(auto, using(crate::proofs::Laws::loaded_more), unfolding(promise::specs::Desk::to_plan, model::specs::Jobs::counted))]
pub fn jobs_of(held: &[Held], machines: u32, clock: u32) -> Jobs
    requires { length held.now ≤ 32 }
    ensures { as_jobs result.items ≡ to_plan machines clock held.now }
{
    let mut jobs = Jobs::new();
    for h in held {
        jobs.push(planned(h, machines, clock));
    }
    jobs
}

// No boundary is short of room for the held jobs.
#[tactic(auto, using(crate::proofs::Laws::held_jobs, crate::proofs::Laws::held_small, crate::proofs::Laws::short_or_ok))]
fn fits(desk: &Desk) -> bool
    requires machines { desk.now.machines ≤ 64 }
    requires seats { IsTrue (seats_ok desk.now.clock 0 desk.now.seats) }
    ensures { result ≡ none_short (least_short desk.now.machines (jobs_for desk.now)) }
{
    let jobs = jobs_of(held(desk), desk.machines, desk.clock);
    walk::walk(&jobs, desk.machines).is_ok()
}

// The record is sound.
#[tactic(auto, unfolding(promise::specs::DeskCalls::is_sound))]
pub fn is_sound(desk: &Desk) -> bool
    ensures { result ≡ is_sound desk.now }
{
    (1..=64).contains(&desk.machines)
        && desk.clock <= 100000
        && seats_ok(&desk.seats, desk.clock)
        && fits(desk)
}
