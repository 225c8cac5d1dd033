// Writers: numbers, lines, a refusal, a run line, each put at the end of a page.
#![tactic(auto)]

ghost use Rattle.std.specs.Prelude.{◌≡◌, false, [], ◌∷◌, ◌++◌, ◌+◌, ◌≤◌, ◌<◌, length};
ghost use Rattle.arrayvec.specs.ArrayVec.{array_vec_len};
ghost use Rattle.promise.specs.Texts.{decimal, newline};
ghost use Rattle.promise.specs.PlanText.{refusal_text, pair_text, run_line};
ghost use Rattle.writer.specs.Writing.{line, digit_at, slot_text, slots_text};

use arrayvec::ArrayVec;
use promise::Answer;

// What is printed so far, of at most the size of a text. That another text fits is the caller's to know: a writer that
// tested it could fail.
pub type Page = ArrayVec<u8, 40960>;

pub fn write(page: &mut Page, text: &[u8])
    requires { length page.old.items + length text.now ≤ 40960 }
    ensures { page.new.items ≡ page.old.items ++ text.now }
{
    page.try_extend_from_slice(text).unwrap();
}

// The digit of n at a power of ten; nothing if n does not reach it.
#[tactic(auto, unfolding(crate::specs::Writing::digit_at))]
fn write_digit(page: &mut Page, n: u32, power: u32)
    requires power { 1 ≤ power }
    requires fits { length page.old.items + length (digit_at n power) ≤ 40960 }
    ensures { page.new.items ≡ page.old.items ++ digit_at n power }
{
    if power <= n {
        page.push(b'0' + (n / power % 10) as u8);
    }
}

// Digit by digit, since `decimal` has seven at most, where `Display` has all.
#[tactic(auto, using(crate::proofs::Laws::number_laws))]
fn write_number(page: &mut Page, n: u32)
    requires { length page.old.items + length (decimal n) ≤ 40960 }
    ensures { page.new.items ≡ page.old.items ++ decimal n }
{
    for power in [1_000_000, 100_000, 10_000, 1_000, 100, 10] {
        write_digit(page, n, power);
    }
    page.push(b'0' + (n % 10) as u8);
}

// A line: its key and a number.
pub fn write_line(page: &mut Page, key: &[u8], n: u32)
    requires { length page.old.items + length (line key.now n) ≤ 40960 }
    ensures { page.new.items ≡ page.old.items ++ line key.now n }
{
    write(page, key);
    write_number(page, n);
    write(page, b"\n");
}

#[tactic(auto, unfolding(promise::specs::PlanText::refusal_text))]
pub fn write_refusal(page: &mut Page, answer: Answer)
    requires { length page.old.items + length (refusal_text answer) ≤ 40960 }
    ensures { page.new.items ≡ page.old.items ++ refusal_text answer }
{
    write(page, b"result=refused\n");
    write_line(page, b"code=", answer.number);
    write_line(page, b"at=", answer.place);
    write_line(page, b"amount=", answer.amount);
}

#[tactic(auto, unfolding(promise::specs::PlanText::pair_text))]
fn write_pair(page: &mut Page, slot: u32, machines: u32)
    requires { length page.old.items + length (pair_text slot machines) ≤ 40960 }
    ensures { page.new.items ≡ page.old.items ++ pair_text slot machines }
{
    write_number(page, slot);
    write(page, b":");
    write_number(page, machines);
}

// One slot of a run line, with a comma if a pair stands before it; nothing for a slot without machines.
#[tactic(auto, unfolding(crate::specs::Writing::slot_text))]
fn write_slot(page: &mut Page, comma: bool, slot: u32, machines: u32)
    requires { length page.old.items + length (slot_text comma slot machines) ≤ 40960 }
    ensures { page.new.items ≡ page.old.items ++ slot_text comma slot machines }
{
    if machines == 0 {
        return;
    }
    if comma {
        write(page, b",");
    }
    write_pair(page, slot, machines);
}

// The pairs of a run line, from the machines in slots 1, 2, .. on.
#[tactic(auto, using(crate::proofs::Laws::slot_laws))]
fn write_slots(page: &mut Page, machines: &[u16])
    requires fits { length page.old.items + length (slots_text false 1 machines.now) ≤ 40960 }
    requires slots { length machines.now ≤ 168 }
    ensures { page.new.items ≡ page.old.items ++ slots_text false 1 machines.now }
{
    let mut comma = false;
    for (i, &m) in machines.iter().enumerate() {
        write_slot(page, comma, i as u32 + 1, u32::from(m));
        comma |= 0 < m;
    }
}

// The run line, and its newline, of a job whose machines in slots 1, 2, .. are these.
#[tactic(auto, using(crate::proofs::Laws::run_laws))]
pub fn write_run(page: &mut Page, machines: &[u16])
    requires fits { length page.old.items + length (run_line machines.now ++ (newline ∷ [])) ≤ 40960 }
    requires slots { length machines.now ≤ 168 }
    ensures { page.new.items ≡ page.old.items ++ (run_line machines.now ++ (newline ∷ [])) }
{
    write(page, b"run=");
    write_slots(page, machines);
    write(page, b"\n");
}
