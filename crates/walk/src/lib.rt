// The one boundary walk: over the boundaries in rising order, to the first short one.
#![tactic(auto)]

ghost use Rattle.std.specs.Prelude.{◌≡◌, ◌≤◌, ◌<◌};
ghost use Rattle.model.specs.Jobs.{forced};
ghost use Rattle.model.specs.Boundaries.{least_short};
ghost use Rattle.figures.specs.Jobs.{as_jobs};
ghost use Rattle.walk.specs.Walk.{Small, next_of, as_short, no_fit};

use figures::Jobs;
use promise::Refusal;

// The room at a boundary is below zero, by so much.
#[derive(Clone, Copy)]
pub struct Shortage {
    pub boundary: u32,
    pub amount: u32,
}

impl From<Shortage> for Refusal {
    ghost from_gives = { λ short refusal. refusal ≡ no_fit short };

    fn from(short: Shortage) -> Refusal {
        Refusal::NoFit {
            boundary: short.boundary,
            shortage: short.amount,
        }
    }
}

// The work of the jobs that is forced into slots 1 to b.
#[tactic(auto, using(crate::proofs::Forced::in_range_at, crate::proofs::Forced::forced_more, crate::proofs::Forced::forced_of_small), unfolding(model::specs::Jobs::forced))]
pub fn forced_by(jobs: &Jobs, b: u32) -> u32
    requires { Small jobs.now.items }
    ensures value { result ≡ forced (as_jobs jobs.now.items) b }
    ensures small { result ≤ 1920000 }
{
    let mut sum: u32 = 0;
    for job in jobs.as_slice() {
        sum += job.forced(b);
    }
    sum
}

// The least deadline of the jobs that is above b.
fn next_boundary(jobs: &Jobs, b: u32) -> Option<u32>
    ensures { result ≡ next_of b jobs.now.items }
{
    jobs.as_slice()
        .iter()
        .map(|job| job.deadline)
        .filter(|d| b < *d)
        .min()
}

// The least short boundary of the jobs in a room of so many machines, if any.
pub fn walk(jobs: &Jobs, machines: u32) -> Result<(), Shortage>
    requires machines { machines ≤ 64 }
    requires small { Small jobs.now.items }
    ensures { as_short result ≡ least_short machines (as_jobs jobs.now.items) }
{
    let mut b: u32 = 0;
    let short = loop {
        let room = figures::room_of(machines * b, forced_by(jobs, b));
        if room < 0 {
            break Shortage {
                boundary: b,
                amount: figures::shortage_of(room),
            };
        }
        let Some(next) = next_boundary(jobs, b) else {
            return Ok(());
        };
        b = next;
    };
    Err(short)
}
