// The planner: Room and Plan over a lent list, and the plan written row by row, slot by slot.
#![tactic(auto)]

ghost use Rattle.std.specs.Prelude.{◌≡◌, map, ◌*◌, ◌≤◌, ◌<◌, length};
ghost use Rattle.model.specs.Rule.{plan_rows};
ghost use Rattle.figures.specs.Jobs.{as_jobs};
ghost use Rattle.rule.specs.Shares.{as_shares, fresh_of};
ghost use Rattle.promise.specs.Lists.{written, PlanPromise, RoomPromise};
ghost use Rattle.promise.specs.Refusals.{as_answer, as_room_answer};
ghost use Rattle.planner.specs.Writing.{column_of, Slim, Plannable};

use figures::Jobs;
use promise::Refusal;
use rule::{Share, Shares};

// The shares of the jobs before any slot is filled.
#[tactic(auto, using(crate::proofs::Shares::fresh_more))]
pub fn start(jobs: &Jobs) -> Shares
    ensures { result.items ≡ map fresh_of jobs.now.items }
{
    let mut shares = Shares::new();
    for job in jobs.as_slice() {
        shares.push(Share::new(*job));
    }
    shares
}

// The machines of slot t written into the rows of the shares.
#[tactic(auto, using(crate::proofs::Shares::column_step, crate::proofs::Shares::slim_at))]
fn write_slot(shares: &[Share], t: u32, plan: &mut [u16])
    requires slot { (1 ≤ t) × (t ≤ 168) }
    requires rows { 168 * length shares.now ≤ length plan.old }
    requires slim { Slim shares.now }
    ensures { plan.new ≡ column_of t 0 (as_shares shares.now) plan.old }
{
    for (i, share) in shares.iter().enumerate() {
        plan[168 * i + t as usize - 1] = share.given as u16;
    }
}

// The plan of the jobs, written into the lent buffer.
#[tactic(auto, using(crate::proofs::Writing::slot_steps))]
fn write_plan(jobs: &Jobs, machines: u32, plan: &mut [u16])
    requires rows { 168 * length jobs.now.items ≤ length plan.old }
    requires plannable { Plannable jobs.now.items }
    ensures { plan.new ≡ written (plan_rows machines (as_jobs jobs.now.items)) (length jobs.now.items) plan.old }
{
    let mut shares = start(jobs);
    for t in (1..=168).rev() {
        shares.fill_slot(t, machines);
        write_slot(shares.as_slice(), t, plan);
    }
}

// Plan: the answer, and on a yes the plan of the rule in the lent buffer.
#[tactic(auto, using(crate::proofs::Calls::plan_steps), unfolding(promise::specs::Rows::row_count))]
pub fn plan(machines: u32, list: &[u32], plan: &mut [u16]) -> Result<(), Refusal>
    ensures { PlanPromise machines list.now plan.old (as_answer result) plan.new }
{
    rows::list_fault(machines, list)?;
    if plan.len() < 168 * (list.len() / 4) {
        return Err(Refusal::ShortBuffer);
    }
    let jobs = rows::load(list, machines);
    walk::walk(&jobs, machines)?;
    write_plan(&jobs, machines, plan);
    Ok(())
}

// Room at any b from 0 to 168.
#[tactic(auto, using(crate::proofs::Calls::room_steps), unfolding(promise::specs::Rows::row_count))]
pub fn room(machines: u32, list: &[u32], b: u32) -> Result<i32, Refusal>
    ensures { RoomPromise machines list.now b (as_room_answer result) }
{
    rows::list_fault(machines, list)?;
    if 168 < b {
        return Err(Refusal::FarBoundary);
    }
    let jobs = rows::load(list, machines);
    Ok(figures::room_of(machines * b, walk::forced_by(&jobs, b)))
}
