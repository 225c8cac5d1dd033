// The printed text: from the bytes of a job file to the bytes that the program prints.
#![tactic(auto)]

ghost use Rattle.std.specs.Prelude.{◌≡◌, ◌++◌, ◌+◌, ◌*◌, ◌≤◌, ◌<◌, length, IfErr, OnOk, OnErr};
ghost use Rattle.arrayvec.specs.ArrayVec.{array_vec_len};
ghost use Rattle.promise.specs.Rows.{row_count};
ghost use Rattle.promise.specs.Texts.{padded};
ghost use Rattle.promise.specs.PlanText.{refusal_text, rows_text, plan_text, TextPromise};
ghost use Rattle.promise.specs.Refusals.{numbered};
ghost use Rattle.plantext.specs.Rows.{job_lines, rows_lines, plan_lines};

use promise::{Answer, Refusal, Text};
use writer::Page;

// The two lines of a job: its number, and its machines in slots 1, 2, ..
#[tactic(auto, unfolding(crate::specs::Rows::job_lines))]
fn write_job(page: &mut Page, number: u32, machines: &[u16])
    requires slots { length machines.now ≤ 168 }
    requires fits { length page.old.items + length (job_lines number machines.now) ≤ 40960 }
    ensures { page.new.items ≡ page.old.items ++ job_lines number machines.now }
{
    writer::write_line(page, b"job=", number);
    writer::write_run(page, machines);
}

// The lines of all rows, of which each has its part of the plan.
#[tactic(auto, using(crate::proofs::Lines::rows_laws), unfolding(promise::specs::Rows::row_count))]
fn write_rows(page: &mut Page, rows: &[u32], plan: &[u16])
    requires parts { 168 * row_count rows.now ≤ length plan.now }
    requires fits { length page.old.items + length (rows_lines rows.now plan.now) ≤ 40960 }
    ensures { page.new.items ≡ page.old.items ++ rows_lines rows.now plan.now }
{
    for (row, machines) in rows.chunks_exact(4).zip(plan.chunks_exact(168)) {
        write_job(page, row[0], machines);
    }
}

#[tactic(auto, unfolding(crate::specs::Rows::plan_lines))]
fn write_plan(page: &mut Page, machines: u32, rows: &[u32], plan: &[u16])
    requires parts { 168 * row_count rows.now ≤ length plan.now }
    requires fits { length page.old.items + length (plan_lines machines rows.now plan.now) ≤ 40960 }
    ensures { page.new.items ≡ page.old.items ++ plan_lines machines rows.now plan.now }
{
    writer::write_line(page, b"machines=", machines);
    writer::write(page, b"result=plan\n");
    write_rows(page, rows, plan);
}

// The text of at most 32 rows: the plan is made in a buffer of its own.
#[tactic(auto, using(crate::proofs::Lines::list_laws))]
fn write_list(page: &mut Page, machines: u32, rows: &[u32]) -> Result<(), Refusal>
    requires few { row_count rows.now ≤ 32 }
    requires fits { length page.old.items + length (rows_text machines rows.now) ≤ 40960 }
    ensures ok { OnOk result (page.new.items ≡ page.old.items ++ rows_text machines rows.now) }
    ensures err { OnErr result (page.new ≡ page.old) }
    ensures refused { IfErr result (λ e. refusal_text (numbered e) ≡ rows_text machines rows.now) }
{
    let mut plan = [0; 5376];
    planner::plan(machines, rows, &mut plan)?;
    write_plan(page, machines, rows, &plan);
    Ok(())
}

// What a file says, planned and printed: more than 32 groups are a 3, after 1.
#[tactic(auto, using(crate::proofs::Files::file_laws))]
fn write_file(page: &mut Page, bytes: &[u8]) -> Result<(), Refusal>
    requires { length page.old.items + length (plan_text bytes.now) ≤ 40960 }
    ensures ok { OnOk result (page.new.items ≡ page.old.items ++ plan_text bytes.now) }
    ensures err { OnErr result (page.new ≡ page.old) }
    ensures refused { IfErr result (λ e. refusal_text (numbered e) ≡ plan_text bytes.now) }
{
    let file = jobfile::read(bytes)?;
    if 32 < file.groups {
        rows::count_fault(file.machines)?;
        return Err(Refusal::ManyRows);
    }
    let n = 4 * file.groups as usize;
    write_list(page, file.machines, &file.rows[..n])
}

// A page as a text: zeros come after what is printed.
fn text_of(page: &Page) -> Text
    ensures printed { result.bytes ≡ padded 40960 page.now.items }
    ensures counted { result.len ≡ array_vec_len page.now }
{
    let mut bytes = [0; 40960];
    bytes[..page.len()].copy_from_slice(page.as_slice());
    Text {
        bytes,
        len: page.len(),
    }
}

// The whole program but for reading and writing: what is printed for any bytes.
#[tactic(auto, using(promise::proofs::TextSize::text_fits))]
pub fn plan_text(bytes: &[u8]) -> Text
    ensures { TextPromise bytes.now result }
{
    let mut page = Page::new();
    if let Err(refusal) = write_file(&mut page, bytes) {
        writer::write_refusal(&mut page, Answer::from(refusal));
    }
    text_of(&page)
}
