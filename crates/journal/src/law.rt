//! What a user of the journal decides: what entries are, which may follow a run, and which table of words a seat belongs to.
ghost use Rattle.std.specs.Prelude.{ℕ, List, Option};
ghost use Rattle.atomic_table.specs.Seated.{TableId};

use std::marker::Brand;

/// What entries are, and which may follow a run.
pub trait Law {
    /// What is appended.
    type Entry: Drop + Send;

    // The slot that an entry is on.
    ghost slot_of: { Self.Entry → ℕ };

    // The session and the statement's number of a commit; nothing for other entries.
    ghost commit_of: { Self.Entry → Option (ℕ × ℕ) };

    // The entry may come next after the run.
    ghost may_follow: { List Self.Entry → Self.Entry → Type 0 };
}

/// Which table of words a seat, a pass or an opener belongs to. A program picks it by a call with `Brand` once the
/// table is opened, so that those of two tables never mix.
pub trait Naming {
    ghost table: { TableId };
}

impl Naming for Brand {
    ghost use Rattle.journal.specs.Names.{no_table_id};

    ghost table = { no_table_id };
}
