// The one planning core: 01's rule in one slot, machine by machine.
#![tactic(auto)]

ghost use Rattle.std.specs.Prelude.{◌≡◌, ◌+◌, ◌≤◌, ◌<◌, [], ◌∷◌, ◌++◌, map, length};
ghost use Rattle.model.specs.Rule.{qualifies, before, fill};
ghost use Rattle.rule.specs.Shares.{as_share, as_shares, fresh_of, Apart, bumped, cleared, Picked, Ready};

use figures::Job;
use std::marker::Model;

// A job while a plan is made: what is left of its work, and the machines given to it in the slot at hand.
#[derive(Clone, Copy, Default)]
pub struct Share {
    pub job: Job,
    pub left: u32,
    pub given: u32,
}

// The shares of the jobs: at most 32, and Copy as the jobs are.
#[derive(Clone, Copy)]
pub struct Shares {
    cells: [Share; 32],
    len: usize,
}

impl Model for Shares {
    ghost use Rattle.std.specs.Prelude.{◌≡◌, ◌≤◌, ◌++◌, length, take, drop};
    ghost use Rattle.std.proofs.Common.{arith, take-append-drop, length-take-le};
    ghost use Rattle.figures.specs.Filled.{Filled};
    ghost use Rattle.rule.specs.declared.Share.{Share as Item};

    ghost Value = { Filled Item };

    ghost view = { λ shares. record { items = take shares.len shares.cells; spare = drop shares.len shares.cells } };

    ghost invariant = { λ shares. (shares.len ≤ 32) × (length shares.cells ≡ 32) };

    ghost inverse = { λ shares. record { cells = shares.items ++ shares.spare; len = length shares.items } };

    ghost inverse_ok = { λ shares h i. record {
      cells = take-append-drop shares.len shares.cells i;
      len = length-take-le shares.len shares.cells (omega (arith, h.0, h.1)) i;
    } };
}

impl Share {
    // A job before any slot is filled.
    pub fn new(job: Job) -> Share
        ensures { result ≡ fresh_of job }
    {
        Share {
            job,
            left: job.work,
            given: 0,
        }
    }

    // It can take one more machine in slot t.
    #[tactic(auto, unfolding(model::specs::Rule::qualifies))]
    fn may_take(&self, t: u32) -> bool
        ensures { result ≡ qualifies t (as_share self.now) }
    {
        t <= self.job.deadline && 0 < self.left && self.given < self.job.bound
    }

    // It goes before another: the greater run length first, of equal ones the smaller job number. No derive has this order:
    // its keys run in opposite directions, and the first is worked out.
    #[tactic(auto, unfolding(model::specs::Rule::before, model::specs::Rule::run_left))]
    fn goes_before(&self, other: &Share) -> bool
        ensures { result ≡ before (as_share self.now) (as_share other.now) }
    {
        let own = figures::run_length(self.left, self.job.bound);
        let others = figures::run_length(other.left, other.job.bound);
        others < own || own == others && self.job.number < other.job.number
    }

    // One machine more for it.
    fn give(&mut self)
        requires { Ready self.old }
        ensures { self.new ≡ bumped self.old }
    {
        self.left -= 1;
        self.given += 1;
    }
}

// The index of the share that the next machine of slot t goes to, if one qualifies.
#[tactic(auto, using(crate::proofs::Laws::picked_still, crate::proofs::Laws::picked_first, crate::proofs::Laws::picked_new, crate::proofs::Laws::picked_old))]
fn pick(shares: &[Share], t: u32) -> Option<usize>
    requires { Apart shares.now }
    ensures { Picked t shares.now result }
{
    let mut best = None;
    for (i, share) in shares.iter().enumerate() {
        if share.may_take(t) && best.is_none_or(|k| share.goes_before(&shares[k])) {
            best = Some(i);
        }
    }
    best
}

// A new slot: nothing is given in it yet.
#[tactic(auto, using(crate::proofs::Laws::clear_more))]
fn clear(shares: &mut [Share])
    ensures { shares.new ≡ map cleared shares.old }
{
    for share in shares.iter_mut() {
        share.given = 0;
    }
}

// Slot t filled with at most so many machines, handed out one at a time.
#[tactic(auto, using(crate::proofs::Laws::clear_fill, crate::proofs::Laws::clear_apart, crate::proofs::Laws::hand_none))]
pub fn fill_slot(shares: &mut [Share], t: u32, machines: u32)
    requires { Apart shares.old }
    ensures { as_shares shares.new ≡ fill machines t (as_shares shares.old) }
{
    clear(shares);
    for _ in 0..machines {
        let Some(i) = pick(shares, t) else {
            return;
        };
        shares[i].give();
    }
}

impl Shares {
    pub fn new() -> Shares
        ensures { result.items ≡ [] }
    {
        Shares {
            cells: [Share::default(); 32],
            len: 0,
        }
    }

    // One share more, behind the others.
    pub fn push(&mut self, share: Share)
        requires { length self.old.items < 32 }
        ensures items { self.new.items ≡ self.old.items ++ share ∷ [] }
        ensures len { length self.new.items ≡ length self.old.items + 1 }
    {
        let len = self.len;
        self.cells[len] = share;
        self.len = len + 1;
    }

    pub fn as_slice(&self) -> &[Share]
        ensures value { result.now ≡ self.now.items }
        ensures fits { length result.now ≤ 32 }
    {
        &self.cells[..self.len]
    }

    // Slot t filled: fill_slot on the shares in the list. Inlined, as the loops over the slots are a tenth slower with a call.
    #[inline]
    pub fn fill_slot(&mut self, t: u32, machines: u32)
        requires { Apart self.old.items }
        ensures { as_shares self.new.items ≡ fill machines t (as_shares self.old.items) }
    {
        fill_slot(&mut self.cells[..self.len], t, machines);
    }
}
