// The desk's record as bytes, read and written, and numbers as bytes.
#![tactic(auto)]

ghost use Rattle.std.specs.Prelude.{◌≡◌, ◌+◌, ◌*◌, ◌≤◌, ◌<◌, length};
ghost use Rattle.promise.specs.Window.{word_at};
ghost use Rattle.promise.specs.DeskWindow.{desk_bytes, seat_at, desk_read, sent_over, pair_numbers};
ghost use Rattle.record.specs.Figures.{figure_numbers};
ghost use mathlib.Core.List.{map, flatten};

use promise::{Desk, Figures, Given, Held};

// The bytes of a desk.
pub type Record = [u8; 776];

// Number i of the bytes, lowest byte first.
#[tactic(auto, unfolding(promise::specs::Window::word_at))]
pub fn word_at(bytes: &[u8], i: usize) -> u32
    requires { 4 * i + 3 < length bytes.now }
    ensures { result ≡ word_at bytes.now i }
{
    let at = 4 * i;
    u32::from_le_bytes([bytes[at], bytes[at + 1], bytes[at + 2], bytes[at + 3]])
}

// Seat i of a record.
#[tactic(auto, unfolding(promise::specs::DeskWindow::seat_at))]
fn seat_at(bytes: &Record, i: usize) -> Held
    requires { i < 32 }
    ensures { result ≡ seat_at bytes.now i }
{
    Held {
        number: word_at(bytes, 6 * i + 2),
        work: word_at(bytes, 6 * i + 3),
        left: word_at(bytes, 6 * i + 4),
        deadline: word_at(bytes, 6 * i + 5),
        bound: word_at(bytes, 6 * i + 6),
        slots: word_at(bytes, 6 * i + 7),
    }
}

// The desk of a record, sound or not.
pub fn read_desk(bytes: &Record) -> Desk
    ensures { result ≡ desk_read bytes.now }
{
    Desk {
        machines: word_at(bytes, 0),
        clock: word_at(bytes, 1),
        seats: std::array::from_fn(|i| seat_at(bytes, i)),
    }
}

// Numbers at the start of a buffer, each lowest byte first.
#[tactic(auto, using(crate::proofs::Buffers::word_step))]
fn put_words(out: &mut [u8], words: &[u32])
    requires { 4 * length words.now ≤ length out.old }
    ensures { out.new ≡ sent_over words.now out.old }
{
    for (i, word) in words.iter().enumerate() {
        out[4 * i..4 * i + 4].copy_from_slice(&word.to_le_bytes());
    }
}

// A desk as its record: the machine count and the clock, then six numbers a seat.
#[tactic(auto, using(crate::proofs::Buffers::no_rows))]
pub fn write_desk(desk: &Desk, out: &mut Record)
    ensures { out.new ≡ desk_bytes desk.now }
{
    put_words(out, &[desk.machines, desk.clock]);
    for (i, h) in desk.seats.iter().enumerate() {
        put_words(
            &mut out[24 * i + 8..],
            &[h.number, h.work, h.left, h.deadline, h.bound, h.slots],
        );
    }
}

// Look's four figures, at the start of a buffer.
pub fn write_figures(told: &Figures, out: &mut [u8])
    requires { 16 ≤ length out.old }
    ensures { out.new ≡ sent_over (figure_numbers told.now) out.old }
{
    put_words(out, &[told.left, told.deadline, told.bound, told.leeway]);
}

// Run's 32 pairs, at the start of a buffer.
#[tactic(auto, using(crate::proofs::Buffers::no_rows))]
pub fn write_pairs(given: &[Given; 32], out: &mut [u8])
    requires { 256 ≤ length out.old }
    ensures { out.new ≡ sent_over (flatten (map pair_numbers given.now)) out.old }
{
    for (i, pair) in given.iter().enumerate() {
        put_words(&mut out[8 * i..], &[pair.number, pair.machines]);
    }
}
