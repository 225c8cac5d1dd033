// Run's slot: slot 1 of the plan, the pairs that are answered for it, and the desk after it.
#![tactic(auto)]

ghost use Rattle.std.specs.Prelude.{◌≡◌, map, ◌+◌, ◌≤◌, ◌<◌, length, take};
ghost use Rattle.model.specs.Rule.{fresh};
ghost use Rattle.figures.specs.Jobs.{as_jobs};
ghost use Rattle.rule.specs.Shares.{as_shares};
ghost use Rattle.planner.specs.Writing.{Plannable};
ghost use Rattle.promise.specs.Desk.{desk_of};
ghost use Rattle.promise.specs.DeskCalls.{pairs, lowered};
ghost use Rattle.slot.specs.Slot.{fill_down, given_to, after_shares};

use arrayvec::ArrayVec;
use figures::Jobs;
use promise::{Desk, Given, Held};
use rule::Shares;

// The shares of the jobs with slots 168 to 1 filled: what is given then is slot 1's. The planner has the same loop and writes in it:
// one for both would take a closure over the lent plan, and be no plainer.
#[tactic(auto, using(crate::proofs::Laws::down_steps))]
pub fn first_slot(jobs: &Jobs, machines: u32) -> Shares
    requires { Plannable jobs.now.items }
    ensures { as_shares result.items ≡ fill_down machines 168 (map fresh (as_jobs jobs.now.items)) }
{
    let mut shares = planner::start(jobs);
    for t in (1..=168).rev() {
        shares.fill_slot(t, machines);
    }
    shares
}

// A pair for each of the shares, zeros after the last.
#[tactic(auto, using(crate::proofs::Laws::pairs_none, crate::proofs::Laws::pairs_more))]
pub fn pairs_of(shares: &Shares) -> [Given; 32]
    ensures { result ≡ pairs (map given_to (as_shares shares.now.items)) }
{
    let mut given = [Given::default(); 32];
    for (i, share) in shares.as_slice().iter().enumerate() {
        given[i] = Given {
            number: share.job.number,
            machines: share.given,
        };
    }
    given
}

// A held job with so many units less to do.
#[tactic(auto, unfolding(promise::specs::DeskCalls::lowered))]
fn less_work(h: Held, machines: u32) -> Held
    requires { machines ≤ h.left }
    ensures { result ≡ lowered machines h }
{
    Held {
        left: h.left - machines,
        ..h
    }
}

// The held jobs after the slot, each with its own share: works fall, and a job at zero leaves.
#[tactic(auto, using(crate::proofs::Laws::kept_steps))]
fn kept(shares: &Shares, seats: &[Held; 32]) -> ArrayVec<Held, 32>
    ensures { result.items ≡ after_shares (as_shares shares.now.items) (take (length shares.now.items) seats.now) }
{
    let mut kept = ArrayVec::new();
    for (share, h) in shares.as_slice().iter().zip(seats) {
        if share.given < h.left {
            kept.push(less_work(*h, share.given));
        }
    }
    kept
}

// The desk after the slot: the jobs that are kept in its first seats, and the clock one further.
#[tactic(auto, using(crate::proofs::Laws::table_filled), unfolding(promise::specs::Desk::desk_of))]
pub fn after_slot(desk: Desk, shares: &Shares) -> Desk
    requires { desk.clock < 100000 }
    ensures { result ≡ desk_of desk.machines (desk.clock + 1) (after_shares (as_shares shares.now.items) (take (length shares.now.items) desk.seats)) }
{
    let held = kept(shares, &desk.seats);
    let mut seats = [Held::default(); 32];
    seats[..held.len()].copy_from_slice(held.as_slice());
    Desk {
        clock: desk.clock + 1,
        seats,
        ..desk
    }
}
