//! Finds numbers of a list in n log n: a client chooses how long the list is.
ghost use Rattle.std.specs.Prelude.{◌≡◌, ◌==◌, ℕ, IfOk};
ghost use Rattle.vschema.specs.Schema.{ordinal_from};
ghost use Rattle.vschema.specs.FirstOrdinals.{first_ordinal};

use std::alloc::{AllocError, Global};
use std::collections::BTreeMap;

/// Where the numbers of a list come first, each found in time logarithmic in how many different ones there are.
#[derive(Drop)]
pub struct FirstOrdinals {
    by_number: BTreeMap<usize, usize>,
}

impl FirstOrdinals {
    /// Those of these numbers. Refuses only for want of memory.
    pub fn of(alloc: Global, numbers: &[usize]) -> Result<FirstOrdinals, AllocError>
        ensures { IfOk result (λ ordinals. (n : ℕ) → first_ordinal ordinals n ≡ ordinal_from (λ m. m == n) 0 numbers.now) }
    {
        let mut by_number = BTreeMap::new(alloc);
        for i in (0..numbers.len()).rev() {
            by_number.insert(numbers[i], i)?;
        }
        Ok(FirstOrdinals { by_number })
    }

    /// Where the number comes first, if it is there.
    pub fn get(&self, number: usize) -> Option<usize>
        ensures { result ≡ first_ordinal self.now number }
    {
        self.by_number.get(&number).copied()
    }
}
