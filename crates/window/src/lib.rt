// The host window: the planner and the desk on numbers and lent slices, as bytes where C has bytes. `window_c` exports its calls.
// A call on bytes is two functions: one answers a figure or a refusal, and a refusal leaves each lent buffer as it was; the other makes C's word of that.
#![tactic(auto)]

ghost use Rattle.std.specs.Prelude.{◌≡◌, ◌++◌, ◌*◌, ◌/◌, ◌%◌, ◌≤◌, min, length, take, drop, IfOk};
ghost use Rattle.figures.specs.Jobs.{as_job};
ghost use Rattle.promise.specs.Rows.{row_count};
ghost use Rattle.promise.specs.Lists.{plan_answer};
ghost use Rattle.promise.specs.Window.{words_from, bytes_of, bytes_left, pack, Packs, room_word, PlanBytesPromise, PlanNumbersPromise, RoomBytesPromise};
ghost use Rattle.promise.specs.DeskWindow.{desk_read, output_fault, OpenBytesPromise, AdmitBytesPromise, WithdrawBytesPromise, LookBytesPromise, RunBytesPromise};
ghost use Rattle.promise.specs.Refusals.{as_answer, numbered};
ghost use Rattle.window.specs.Words.{early_fault, word_told, Sendable};

use figures::Job;
use promise::{Answer, Desk, Refusal};
use record::Record;

// number + 256 × place + 2^32 × amount, which is how C is told
#[tactic(auto, unfolding(promise::specs::Window::pack))]
fn packed(refusal: Refusal) -> u64
    requires { Packs (numbered refusal) }
    ensures { result ≡ pack (numbered refusal) }
{
    let a = Answer::from(refusal);
    a.number as u64 + 256 * (a.place as u64) + 4294967296 * (a.amount as u64)
}

// The word that C gets: a figure in its upper half, or a refusal packed.
fn word(told: Result<u32, Refusal>) -> u64
    requires { Sendable told }
    ensures { result ≡ word_told told }
{
    match told {
        Ok(figure) => 4294967296 * (figure as u64),
        Err(refusal) => packed(refusal),
    }
}

// 1, 2 or 3, before any number is read.
#[tactic(auto, using(crate::proofs::Early::early_told))]
fn early_fault(machines: u32, list: &[u8]) -> Result<(), Refusal>
    ensures answer { as_answer result ≡ early_fault machines list.now }
    ensures shaped { IfOk result (λ _. (length list.now % 16 ≡ 0) × (length list.now / 16 ≤ 32)) }
{
    rows::shape_fault(machines, list.len(), 16)
}

// The first n numbers of a list, in room for those of 32 rows.
fn words(list: &[u8], n: usize) -> [u32; 128]
    requires { (n ≤ 128) × (4 * n ≤ length list.now) }
    ensures { take n result ≡ words_from list.now 0 n }
{
    let mut numbers = [0; 128];
    for i in 0..n {
        numbers[i] = record::word_at(list, i);
    }
    numbers
}

// The plan numbers as bytes, lowest first.
#[tactic(auto, using(crate::proofs::Lists::number_step))]
fn write_bytes(numbers: &[u16], plan: &mut [u8])
    requires { 2 * length numbers.now ≤ length plan.old }
    ensures { plan.new ≡ bytes_of numbers.now ++ drop (2 * length numbers.now) plan.old }
{
    for (i, number) in numbers.iter().enumerate() {
        plan[2 * i..2 * i + 2].copy_from_slice(&number.to_le_bytes());
    }
}

// Plan on the numbers of a list, into cells that are written as bytes on a yes.
fn plan_rows(machines: u32, rows: &[u32], cells: &mut [u16], plan: &mut [u8]) -> Result<(), Refusal>
    requires { length cells.old ≡ min (length plan.old / 2) (168 * row_count rows.now) }
    ensures answer { as_answer result ≡ plan_answer machines rows.now (length plan.old / 2) }
    ensures left { plan.new ≡ bytes_left (plan_answer machines rows.now (length plan.old / 2)) machines rows.now plan.old }
{
    planner::plan(machines, rows, cells)?;
    write_bytes(cells, plan);
    Ok(())
}

// Plan on bytes. As many cells as the plan fills are enough, however long the lent plan is.
fn plan_bytes(machines: u32, list: &[u8], plan: &mut [u8]) -> Result<u32, Refusal>
    ensures sendable { Sendable result }
    ensures promised { PlanBytesPromise machines list.now plan.old (word_told result) plan.new }
{
    early_fault(machines, list)?;
    let count = 4 * (list.len() / 16);
    let numbers = words(list, count);
    let rows = &numbers[..count];
    let size = (plan.len() / 2).min(168 * (rows.len() / 4));
    let mut cells = [0; 5376];
    plan_rows(machines, rows, &mut cells[..size], plan)?;
    Ok(0)
}

// 01's host call: the list and the plan as bytes.
pub fn vezhdanur_plan(machines: u32, list: &[u8], plan: &mut [u8]) -> u64
    ensures { PlanBytesPromise machines list.now plan.old result plan.new }
{
    word(plan_bytes(machines, list, plan))
}

// The same on numbers.
pub fn vezhdanur_plan_numbers(machines: u32, rows: &[u32], plan: &mut [u16]) -> u64
    ensures { PlanNumbersPromise machines rows.now plan.old result plan.new }
{
    word(planner::plan(machines, rows, plan).map(|()| 0))
}

// A room as 32 bits: itself, or 2^32 less the shortage.
fn room_word(room: i32) -> u32
    ensures { result ≡ room_word room }
{
    room.cast_unsigned()
}

fn room_bytes(machines: u32, list: &[u8], boundary: u32) -> Result<u32, Refusal>
    ensures sendable { Sendable result }
    ensures promised { RoomBytesPromise machines list.now boundary (word_told result) }
{
    early_fault(machines, list)?;
    let count = 4 * (list.len() / 16);
    let numbers = words(list, count);
    let room = planner::room(machines, &numbers[..count], boundary)?;
    Ok(room_word(room))
}

// Room: a refusal packed, or the room in the upper half.
pub fn vezhdanur_room(machines: u32, list: &[u8], boundary: u32) -> u64
    ensures { RoomBytesPromise machines list.now boundary result }
{
    word(room_bytes(machines, list, boundary))
}

fn open_bytes(machines: u32, bytes: &mut [u8]) -> Result<u32, Refusal>
    ensures sendable { Sendable result }
    ensures promised { OpenBytesPromise machines bytes.old (word_told result) bytes.new }
{
    let opened = desk::open(machines);
    opened.answer?;
    let record = bytes.as_mut_array().ok_or(Refusal::ShortBuffer)?;
    record::write_desk(&opened.desk, record);
    Ok(0)
}

// Open: an empty desk over the bytes of one record.
pub fn vezhdanur_open(machines: u32, bytes: &mut [u8]) -> u64
    ensures { OpenBytesPromise machines bytes.old result bytes.new }
{
    word(open_bytes(machines, bytes))
}

fn admit_bytes(bytes: &mut [u8], job: Job) -> Result<u32, Refusal>
    ensures sendable { Sendable result }
    ensures promised { AdmitBytesPromise bytes.old (as_job job) (word_told result) bytes.new }
{
    let record = bytes.as_mut_array().ok_or(Refusal::NotSound)?;
    let admitted = desk::admit(record::read_desk(record), job);
    admitted.answer?;
    record::write_desk(&admitted.desk, record);
    Ok(0)
}

// Admit: the record with the job in its seat, or as it was.
pub fn vezhdanur_admit(bytes: &mut [u8], number: u32, work: u32, deadline: u32, bound: u32) -> u64
    ensures { AdmitBytesPromise bytes.old (record { number = number; work = work; deadline = deadline; bound = bound }) result bytes.new }
{
    let job = Job {
        number,
        work,
        deadline,
        bound,
    };
    word(admit_bytes(bytes, job))
}

fn withdraw_bytes(bytes: &mut [u8], number: u32) -> Result<u32, Refusal>
    ensures sendable { Sendable result }
    ensures promised { WithdrawBytesPromise bytes.old number (word_told result) bytes.new }
{
    let record = bytes.as_mut_array().ok_or(Refusal::NotSound)?;
    let withdrawn = desk::withdraw(record::read_desk(record), number);
    let left = withdrawn.answer?;
    record::write_desk(&withdrawn.desk, record);
    Ok(left)
}

// Withdraw: the record without the job, and its remaining work.
pub fn vezhdanur_withdraw(bytes: &mut [u8], number: u32) -> u64
    ensures { WithdrawBytesPromise bytes.old number result bytes.new }
{
    word(withdraw_bytes(bytes, number))
}

// 12, then 6 for an output buffer of fewer bytes than are written; else the desk.
#[tactic(auto, using(crate::proofs::Desks::output_unsound, crate::proofs::Desks::output_short, crate::proofs::Desks::output_clear))]
fn sound_desk(bytes: &Record, lent: usize, written: usize) -> Result<Desk, Refusal>
    ensures answer { as_answer result ≡ output_fault bytes.now lent written }
    ensures read { IfOk result (λ held. (written ≤ lent) × (held ≡ desk_read bytes.now)) }
{
    let held = record::read_desk(bytes);
    desk::sound_fault(&held)?;
    if lent < written {
        return Err(Refusal::ShortBuffer);
    }
    Ok(held)
}

fn look_bytes(bytes: &[u8], number: u32, figures: &mut [u8]) -> Result<u32, Refusal>
    ensures sendable { Sendable result }
    ensures promised { LookBytesPromise bytes.now number figures.old (word_told result) bytes.now figures.new }
{
    let record = bytes.as_array().ok_or(Refusal::NotSound)?;
    let held = sound_desk(record, figures.len(), 16)?;
    let told = desk::look(held, number).answer?;
    record::write_figures(&told, figures);
    Ok(0)
}

// Look: the four figures of a job.
pub fn vezhdanur_look(bytes: &[u8], number: u32, figures: &mut [u8]) -> u64
    ensures { LookBytesPromise bytes.entry.now number figures.old result bytes.exit.now figures.new }
{
    word(look_bytes(bytes, number, figures))
}

fn run_bytes(bytes: &mut [u8], given: &mut [u8]) -> Result<u32, Refusal>
    ensures sendable { Sendable result }
    ensures promised { RunBytesPromise bytes.old given.old (word_told result) bytes.new given.new }
{
    let record = bytes.as_mut_array().ok_or(Refusal::NotSound)?;
    let ran = desk::run(sound_desk(record, given.len(), 256)?);
    let pairs = ran.answer?;
    record::write_pairs(&pairs, given);
    record::write_desk(&ran.desk, record);
    Ok(0)
}

// Run: slot 1 of the plan given out, and the record after it.
pub fn vezhdanur_run(bytes: &mut [u8], given: &mut [u8]) -> u64
    ensures { RunBytesPromise bytes.old given.old result bytes.new given.new }
{
    word(run_bytes(bytes, given))
}
