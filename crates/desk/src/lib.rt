// The desk by value: Open, Admit, Withdraw, Look and Run, each with its figures or a refusal, and the desk.
#![tactic(auto)]

ghost use Rattle.std.specs.Prelude.{◌≡◌, [], ◌+◌, ◌≤◌, ◌<◌, Ok, Err, IfOk, IfErr};
ghost use Rattle.promise.specs.Answers.{yes};
ghost use Rattle.model.specs.Lists.{All};
ghost use Rattle.model.specs.Boundaries.{least_short};
ghost use Rattle.figures.specs.Jobs.{as_job, as_jobs};
ghost use Rattle.walk.specs.Walk.{InRange};
ghost use Rattle.seats.specs.Seats.{find_in};
ghost use Rattle.promise.specs.Desk.{held_of, desk_of, jobs_for, leeway};
ghost use Rattle.promise.specs.DeskCalls.{new_held, with_new, sound_fault, desk_fit, open_of, admit_answer, admit_of, find_answer, withdraw_of, look_of, run_answer, run_of};
ghost use Rattle.promise.specs.Refusals.{as_answer, as_desked, as_withdrawn, as_looked, as_ran};
ghost use Rattle.desk.specs.Calls.{seat_fault, admit_fault, told};

use figures::{Job, Jobs};
use promise::{Desk, Figures, Given, Held, Outcome, Refusal};

// A desk with no job, at clock 0.
#[tactic(auto, unfolding(promise::specs::Desk::desk_of, promise::specs::Desk::table))]
fn empty(machines: u32) -> Desk
    ensures { result ≡ desk_of machines 0 [] }
{
    Desk {
        machines,
        clock: 0,
        seats: [Held::default(); 32],
    }
}

// What a call told and the desk that it leaves, or its refusal and the desk handed in.
fn outcome<T>(told: Result<(T, Desk), Refusal>, desk: Desk) -> Outcome<T>
    ensures told { IfOk told (λ told. result ≡ record { answer = Ok told.0; desk = told.1 }) }
    ensures refused { IfErr told (λ refusal. result ≡ record { answer = Err refusal; desk = desk }) }
{
    match told {
        Ok((figures, next)) => Outcome {
            answer: Ok(figures),
            desk: next,
        },
        Err(refusal) => Outcome {
            answer: Err(refusal),
            desk,
        },
    }
}

// Open: a desk of so many machines; a count that is refused gives an empty one-machine desk.
#[tactic(auto, using(promise::proofs::Refusals::no_yes), unfolding(promise::specs::DeskCalls::open_of))]
pub fn open(machines: u32) -> Outcome<()>
    ensures { as_desked result ≡ open_of machines }
{
    let answer = rows::count_fault(machines);
    let desk = empty(if answer.is_ok() { machines } else { 1 });
    Outcome { answer, desk }
}

// A 12 if the record is not sound.
#[tactic(auto, unfolding(promise::specs::DeskCalls::sound_fault))]
pub fn sound_fault(desk: &Desk) -> Result<(), Refusal>
    ensures { as_answer result ≡ sound_fault desk.now }
{
    if sound::is_sound(desk) {
        return Ok(());
    }
    Err(Refusal::NotSound)
}

// A 5 if the number is held, an 8 if all seats are.
#[tactic(auto, using(crate::proofs::Laws::seat_laws))]
fn seat_fault(desk: &Desk, number: u32) -> Result<(), Refusal>
    ensures { as_answer result ≡ seat_fault desk.now number }
{
    let held = sound::held(desk);
    if seats::find(held, number).is_some() {
        return Err(Refusal::SeenNumber { row: 0 });
    }
    if held.len() == 32 {
        return Err(Refusal::FullDesk);
    }
    Ok(())
}

// Admit's tests before the walk: 12, 4, 5, 8.
#[tactic(auto, using(crate::proofs::Figures::early_clock, promise::proofs::Exits::exits), unfolding(crate::specs::Calls::admit_fault, promise::specs::DeskCalls::admit_dues))]
fn admit_fault(desk: &Desk, j: Job) -> Result<(), Refusal>
    ensures { as_answer result ≡ admit_fault desk.now (as_job j) }
{
    sound_fault(desk)?;
    let last_due = (desk.clock + 168).min(100000);
    rows::fields_fault(0, j, desk.clock + 1, last_due)?;
    seat_fault(desk, j.number)
}

// The job that is asked for, as it is seated.
#[tactic(auto, using(crate::proofs::Figures::new_made))]
fn new_held(clock: u32, j: Job) -> Held
    ensures { result ≡ new_held clock (as_job j) }
{
    Held {
        number: j.number,
        work: j.work,
        left: j.work,
        deadline: j.deadline,
        bound: j.bound,
        slots: j.deadline.saturating_sub(clock),
    }
}

// The held jobs, as they count for planning.
#[tactic(auto, unfolding(promise::specs::Desk::jobs_for))]
fn held_jobs(desk: &Desk) -> Jobs
    ensures { as_jobs result.items ≡ jobs_for desk.now }
{
    sound::jobs_of(sound::held(desk), desk.machines, desk.clock)
}

// A 7 if the held jobs have no schedule, named by its slot on the clock.
#[tactic(auto, using(crate::proofs::Laws::near))]
fn fit_fault(desk: &Desk) -> Result<(), Refusal>
    requires clock { desk.now.clock ≤ 100000 }
    requires machines { desk.now.machines ≤ 64 }
    requires small { All InRange (jobs_for desk.now) }
    ensures { as_answer result ≡ desk_fit desk.now.clock (least_short desk.now.machines (jobs_for desk.now)) }
{
    walk::walk(&held_jobs(desk), desk.machines).map_err(|short| Refusal::NoFit {
        boundary: desk.clock + short.boundary,
        shortage: short.amount,
    })
}

// The desk with the job in its seat, if a schedule of all held work and its own exists.
#[tactic(auto, using(crate::proofs::Laws::admitted_laws), unfolding(promise::specs::Desk::desk_of))]
fn admitted(desk: Desk, j: Job) -> Result<((), Desk), Refusal>
    ensures answer { as_answer result ≡ admit_answer desk (as_job j) }
    ensures next { IfOk result (λ told. told.1 ≡ desk_of desk.machines desk.clock (with_new desk (as_job j))) }
{
    admit_fault(&desk, j)?;
    let next = seats::seat_in(desk, sound::held(&desk).len(), new_held(desk.clock, j));
    fit_fault(&next)?;
    Ok(((), next))
}

// Admit: the job in its seat if a schedule of all held work and its own exists.
#[tactic(auto, using(crate::proofs::Laws::admit_laws))]
pub fn admit(desk: Desk, j: Job) -> Outcome<()>
    ensures { as_desked result ≡ admit_of desk (as_job j) }
{
    outcome(admitted(desk, j), desk)
}

// The seat of a job number, or 12, 10.
#[tactic(auto, using(crate::proofs::Laws::found_laws))]
fn found(desk: &Desk, number: u32) -> Result<usize, Refusal>
    ensures answer { as_answer result ≡ find_answer desk.now number }
    ensures seat { IfOk result (λ seat. find_in number 0 (held_of desk.now) ≡ Some seat) }
{
    sound_fault(desk)?;
    let Some(seat) = seats::find(sound::held(desk), number) else {
        return Err(Refusal::NotHeld);
    };
    Ok(seat)
}

// The remaining work of a job, and the desk without it.
#[tactic(auto, using(crate::proofs::Laws::withdrawn_laws))]
fn withdrawn(desk: Desk, number: u32) -> Result<(u32, Desk), Refusal>
    ensures answer { as_answer result ≡ find_answer desk number }
    ensures told { IfOk result (λ told. record { answer = yes; left = told.0; desk = told.1 } ≡ withdraw_of desk number) }
{
    let seat = found(&desk, number)?;
    Ok((desk.seats[seat].left, seats::take_out(desk, seat, number)))
}

// Withdraw: the desk without the job, and its remaining work.
#[tactic(auto, using(crate::proofs::Laws::withdraw_refused))]
pub fn withdraw(desk: Desk, number: u32) -> Outcome<u32>
    ensures { as_withdrawn result ≡ withdraw_of desk number }
{
    outcome(withdrawn(desk, number), desk)
}

// 100 × slots at admission / run length of the admitted work.
#[tactic(auto, using(crate::proofs::Figures::leeway_laws))]
fn leeway_of(held: &Held, machines: u32) -> u32
    requires { (1 ≤ machines) × (held.now.slots ≤ 168) × (1 ≤ held.now.work) × (1 ≤ held.now.bound) }
    ensures { result ≡ leeway machines held.now }
{
    100 * held.slots / figures::run_length(held.work, figures::width(machines, held.bound))
}

// What Look tells of a held job.
fn figures_of(held: &Held, machines: u32) -> Figures
    requires { (1 ≤ machines) × (held.now.slots ≤ 168) × (1 ≤ held.now.work) × (1 ≤ held.now.bound) }
    ensures { result ≡ told machines held.now }
{
    Figures {
        left: held.left,
        deadline: held.deadline,
        bound: held.bound,
        leeway: leeway_of(held, machines),
    }
}

// Look: what is left of a job, its deadline, bound and leeway.
#[tactic(auto, using(crate::proofs::Laws::look_laws))]
pub fn look(desk: Desk, number: u32) -> Outcome<Figures>
    ensures { as_looked result ≡ look_of desk number }
{
    Outcome {
        answer: found(&desk, number).map(|seat| figures_of(&desk.seats[seat], desk.machines)),
        desk,
    }
}

// Run's tests: 12, 11.
#[tactic(auto, using(promise::proofs::Exits::exits), unfolding(promise::specs::DeskCalls::run_answer))]
fn run_fault(desk: &Desk) -> Result<(), Refusal>
    ensures { as_answer result ≡ run_answer desk.now }
{
    sound_fault(desk)?;
    if desk.clock == 100000 {
        return Err(Refusal::ClockAtEnd);
    }
    Ok(())
}

// The pairs of slot 1 of the plan, and the desk after it.
#[tactic(auto, using(crate::proofs::Runs::before_the_end))]
fn ran(desk: Desk) -> Result<([Given; 32], Desk), Refusal>
    ensures answer { as_answer result ≡ run_answer desk }
    ensures told { IfOk result (λ told. record { answer = yes; given = told.0; desk = told.1 } ≡ run_of desk) }
{
    run_fault(&desk)?;
    let shares = slot::first_slot(&held_jobs(&desk), desk.machines);
    Ok((slot::pairs_of(&shares), slot::after_slot(desk, &shares)))
}

// Run: slot 1 of the plan given out, and the desk after it.
#[tactic(auto, using(crate::proofs::Runs::run_refused), unfolding(promise::specs::DeskCalls::pairs))]
pub fn run(desk: Desk) -> Outcome<[Given; 32]>
    ensures { as_ran result ≡ run_of desk }
{
    outcome(ran(desk), desk)
}
