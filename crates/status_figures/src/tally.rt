//! What is counted of the statements that came.
ghost use Rattle.std.specs.Prelude.{◌≡◌, ◌<◌, ℕ, slice_index};
ghost use Rattle.status_figures.specs.Layout.{kind_number};

use crate::kind::Kind;

/// How many statements came since this was last taken. Mostly it is one, of one kind.
#[derive(Clone, Copy)]
pub struct Tally {
    counts: [u32; 12],
    last: Kind,
    all: u32,
    ghost none: { all ≡ 0 → (k : ℕ) → k < 12 → slice_index counts k ≡ 0 },
    ghost one: { all ≡ 1 → slice_index counts (kind_number last) ≡ 1 },
}

impl Tally {
    ghost use Rattle.std.specs.Prelude.{◌≡◌, ◌+◌, min, slice_index, slice_set, IfSome};
    ghost use Rattle.status_figures.specs.Layout.{kind_number};

    /// None came yet.
    pub fn new() -> Tally
        ensures none { (k : Kind) → slice_index result.counts (kind_number k) ≡ 0 }
    {
        Tally {
            counts: [0; 12],
            last: Kind::Other,
            all: 0,
        }
    }

    // Promise: A statement that came is counted once, as its kind, and no other kind's count changes
    // With: Tally::of
    /// Counts a statement. No count passes the greatest number.
    pub fn count(&mut self, kind: Kind)
        ensures counts { self.new.counts ≡ slice_set self.old.counts (kind_number kind) (min (slice_index self.old.counts (kind_number kind) + 1) 4294967295) }
    {
        let at = kind.number();
        self.counts[at] = self.counts[at].saturating_add(1);
        self.last = kind;
        self.all = self.all.saturating_add(1);
    }

    /// The kind of the statement, if it is one.
    pub fn single(&self) -> Option<Kind>
        ensures one { IfSome result (λ kind. slice_index self.now.counts (kind_number kind) ≡ 1) }
    {
        if self.all == 1 { Some(self.last) } else { None }
    }

    /// How many there are of a kind.
    pub fn of(&self, kind: Kind) -> u32
        ensures { result ≡ slice_index self.now.counts (kind_number kind) }
    {
        self.counts[kind.number()]
    }

    /// Whether there is none.
    pub fn is_empty(&self) -> bool {
        self.all == 0
    }
}
