// The desk's table: the search for a job number, a job seated by rising number, a job taken out.
#![tactic(auto)]

ghost use Rattle.std.specs.Prelude.{◌≡◌, ◌<◌, ◌++◌, ◌∷◌, [], length, take};
ghost use Rattle.std.specs.List.{insert, remove};
ghost use Rattle.promise.specs.Desk.{unused, held_of, table, desk_of};
ghost use Rattle.promise.specs.DeskCalls.{seated, without};
ghost use Rattle.seats.specs.Seats.{find_in, rank_in, found};

use promise::{Desk, Held};

// The seat of a job number, among held jobs.
pub fn find(held: &[Held], number: u32) -> Option<usize>
    ensures { result ≡ find_in number 0 held.now }
{
    held.iter().position(|h| h.number == number)
}

// How many held jobs stand before a new one of this number.
fn rank(held: &[Held], number: u32) -> usize
    ensures { result ≡ rank_in number held.now }
{
    held.iter()
        .position(|h| number < h.number)
        .unwrap_or(held.len())
}

// The seats with a job put in; the last seat falls off. A loop here and in `remove`, since the library's `rotate_right` and `rotate_left` would have the
// static library for C ask its host for `memmove`.
#[tactic(auto, using(crate::proofs::Laws::passed_on, crate::proofs::Laws::fallen_off))]
fn insert(seats: &mut [Held], at: usize, h: Held)
    requires { at < length seats.old }
    ensures { seats.new ≡ take (length seats.old) (insert seats.old at h) }
{
    let mut carried = h;
    for i in at..seats.len() {
        let old = seats[i];
        seats[i] = carried;
        carried = old;
    }
}

// The seats with one taken out; the later ones move up, and a free one stands at the end.
#[tactic(auto, using(crate::proofs::Laws::moved_up, crate::proofs::Laws::last_freed))]
fn remove(seats: &mut [Held], at: usize)
    requires { at < length seats.old }
    ensures { seats.new ≡ remove seats.old at ++ unused ∷ [] }
{
    let last = seats.len() - 1;
    for i in at..last {
        seats[i] = seats[i + 1];
    }
    seats[last] = Held::default();
}

// A new job in its seat, by rising number, at a desk that holds n.
#[tactic(auto, using(crate::proofs::Laws::ranked_within, crate::proofs::Laws::seated_in))]
pub fn seat_in(desk: Desk, n: usize, h: Held) -> Desk
    requires { (n ≡ length (held_of desk)) × (n < 32) × (desk.seats ≡ table (held_of desk)) }
    ensures { result ≡ desk_of desk.machines desk.clock (seated h (held_of desk)) }
{
    let at = rank(&desk.seats[..n], h.number);
    let mut next = desk;
    insert(&mut next.seats, at, h);
    next
}

// The desk without the job number that is held at a seat.
#[tactic(auto, using(crate::proofs::Laws::found_within, crate::proofs::Laws::taken_out))]
pub fn take_out(desk: Desk, at: usize, number: u32) -> Desk
    requires { (desk.seats ≡ table (held_of desk)) × (find_in number 0 (held_of desk) ≡ found at) }
    ensures { result ≡ desk_of desk.machines desk.clock (without number (held_of desk)) }
{
    let mut next = desk;
    remove(&mut next.seats, at);
    next
}
