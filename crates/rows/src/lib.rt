// A list as it is lent: its check, row by row, and the jobs that are planned.
#![tactic(auto)]

ghost use Rattle.std.specs.Prelude.{◌≡◌, ◌+◌, ◌*◌, ◌/◌, ◌%◌, ◌≤◌, ◌<◌, length, IfOk};
ghost use Rattle.figures.specs.Jobs.{as_job, as_jobs};
ghost use Rattle.promise.specs.Rows.{row_at, row_count, fields_fault, seen_before, row_fault, rows_fault, count_fault, list_fault};
ghost use Rattle.promise.specs.Lists.{planned};
ghost use Rattle.promise.specs.Refusals.{as_answer};
ghost use Rattle.rows.specs.Rows.{range_fault, dues_of, shape_fault};

use figures::{Job, Jobs};
use promise::{Field, Refusal};

// A 4 if the value of a field is out of its range.
fn range_fault(row: u32, field: Field, value: u32, least: u32, greatest: u32) -> Result<(), Refusal>
    ensures { as_answer result ≡ range_fault row field value least greatest }
{
    if !(least..=greatest).contains(&value) {
        return Err(Refusal::BadField { row, field });
    }
    Ok(())
}

// The first field of a job that is out of range; the deadline's range is from .. to.
#[tactic(auto, using(promise::proofs::Exits::exits), unfolding(promise::specs::Rows::fields_fault, promise::specs::Rows::field_fault))]
pub fn fields_fault(row: u32, j: Job, from: u32, to: u32) -> Result<(), Refusal>
    ensures { as_answer result ≡ fields_fault (dues_of from to) row (as_job j) }
{
    range_fault(row, Field::Number, j.number, 1, 65535)?;
    range_fault(row, Field::Work, j.work, 1, 60000)?;
    range_fault(row, Field::Deadline, j.deadline, from, to)?;
    range_fault(row, Field::Bound, j.bound, 1, 64)
}

// Row i of the list.
#[tactic(auto, unfolding(promise::specs::Rows::row_at))]
fn row(rows: &[u32], i: usize) -> Job
    requires { (i < 32) × (4 * i + 3 < length rows.now) }
    ensures { as_job result ≡ row_at rows.now i }
{
    let at = 4 * i;
    Job {
        number: rows[at],
        work: rows[at + 1],
        deadline: rows[at + 2],
        bound: rows[at + 3],
    }
}

// The number stands in one of the rows before row i.
fn seen(rows: &[u32], number: u32, i: usize) -> bool
    requires { (i < 32) × (4 * i ≤ length rows.now) }
    ensures { result ≡ seen_before rows.now number i }
{
    (0..i).rev().any(|k| rows[4 * k] == number)
}

// The first fault of row i: its fields in order, then its number.
#[tactic(auto, using(promise::proofs::Exits::exits), unfolding(promise::specs::Rows::row_fault, promise::specs::Rows::seen_fault))]
fn row_fault(rows: &[u32], i: usize) -> Result<(), Refusal>
    requires { (i < 32) × (4 * i + 3 < length rows.now) }
    ensures { as_answer result ≡ row_fault rows.now i }
{
    let j = row(rows, i);
    fields_fault(i as u32, j, 1, 168)?;
    if seen(rows, j.number, i) {
        return Err(Refusal::SeenNumber { row: i as u32 });
    }
    Ok(())
}

// The first fault of the rows, row by row from 0.
#[tactic(auto, using(promise::proofs::Exits::exits, crate::proofs::Rows::rows_next), unfolding(promise::specs::Rows::row_count))]
fn rows_fault(rows: &[u32]) -> Result<(), Refusal>
    requires { row_count rows.now ≤ 32 }
    ensures { as_answer result ≡ rows_fault rows.now 0 (row_count rows.now) }
{
    for i in 0..rows.len() / 4 {
        row_fault(rows, i)?;
    }
    Ok(())
}

// A 1 if there are no machines, or more than 64.
#[tactic(auto, unfolding(promise::specs::Rows::count_fault))]
pub fn count_fault(machines: u32) -> Result<(), Refusal>
    ensures { as_answer result ≡ count_fault machines }
{
    if !(1..=64).contains(&machines) {
        return Err(Refusal::MachineCount);
    }
    Ok(())
}

// 1, 2, 3, of a list of so many numbers or bytes, of which a row has `row`.
#[tactic(auto, using(promise::proofs::Exits::exits), unfolding(crate::specs::Rows::shape_fault))]
pub fn shape_fault(machines: u32, len: usize, row: usize) -> Result<(), Refusal>
    requires { 1 ≤ row }
    ensures answer { as_answer result ≡ shape_fault machines len row }
    ensures shaped { IfOk result (λ _. (len % row ≡ 0) × (len / row ≤ 32)) }
{
    count_fault(machines)?;
    if len % row != 0 {
        return Err(Refusal::ListLength);
    }
    if 32 < len / row {
        return Err(Refusal::ManyRows);
    }
    Ok(())
}

// 1, 2, 3, then row by row.
#[tactic(auto, using(crate::proofs::Rows::shape_exits), unfolding(promise::specs::Rows::row_count))]
pub fn list_fault(machines: u32, rows: &[u32]) -> Result<(), Refusal>
    ensures { as_answer result ≡ list_fault machines rows.now }
{
    shape_fault(machines, rows.len(), 4)?;
    rows_fault(rows)
}

// The jobs of a list, as they count in a room of so many machines.
#[tactic(auto, unfolding(promise::specs::Rows::row_count, promise::specs::Rows::jobs_of, promise::specs::Lists::planned, model::specs::Jobs::counted))]
pub fn load(rows: &[u32], machines: u32) -> Jobs
    requires { row_count rows.now ≤ 32 }
    ensures { as_jobs result.items ≡ planned machines rows.now }
{
    let mut jobs = Jobs::new();
    for i in 0..rows.len() / 4 {
        let j = row(rows, i);
        jobs.push(Job {
            bound: figures::width(machines, j.bound),
            ..j
        });
    }
    jobs
}
