//! The ordinals of names, found in time logarithmic in how many there are.
ghost use Rattle.std.specs.Prelude.{◌≡◌, ℕ, List, map, IfOk, bytes_eq};
ghost use Rattle.std.specs.List.{list_any};
ghost use Rattle.vschema_json.specs.Places.{ordinal_from};
ghost use Rattle.vschema_json.specs.inner.NameOrdinals.{first_in};
ghost use denote.Ref.{Bor};

use sql_tree::Name;
use std::alloc::{AllocError, Global};
use std::collections::BTreeMap;
use std::marker::Model;

/// Texts in their order, each found where it comes first. Contracts see the list of the texts.
#[derive(Drop)]
pub struct NameOrdinals<'n> {
    texts: Vec<&'n [u8]>,
    by_name: BTreeMap<&'n [u8], usize>,
}

impl<'n> Model for NameOrdinals<'n> {
    ghost use Rattle.std.specs.Prelude.{◌≡◌, ℕ, List, map, bytes_eq};
    ghost use Rattle.vschema_json.specs.Places.{ordinal_from};
    ghost use Rattle.vschema_json.specs.inner.NameOrdinals.{first_in};
    ghost use denote.Ref.{Bor};

    ghost Value = { List (List ℕ) };

    ghost view = { λ p. map (λ n. n.now) p.texts.items };

    ghost invariant = { λ p. (q : Bor (List ℕ)) → first_in p.by_name q ≡ ordinal_from (λ n. bytes_eq n q.now) 0 (map (λ n. n.now) p.texts.items) };
}

fn first_ordinals<'n>(
    alloc: Global,
    names: &[&'n [u8]],
) -> Result<BTreeMap<&'n [u8], usize>, AllocError>
    ensures { IfOk result (λ ordinals. (q : Bor (List ℕ)) → first_in ordinals q ≡ ordinal_from (λ n. bytes_eq n q.now) 0 (map (λ n. n.now) names.now)) }
{
    let mut ordinals = BTreeMap::new(alloc);
    for i in (0..names.len()).rev() {
        ordinals.insert(names[i], i)?;
    }
    Ok(ordinals)
}

impl<'n> NameOrdinals<'n> {
    /// Those of these texts. Refuses only for want of memory.
    pub fn of(alloc: Global, texts: Vec<&'n [u8]>) -> Result<NameOrdinals<'n>, AllocError>
        ensures { IfOk result (λ ordinals. ordinals ≡ map (λ n. n.now) texts.entry.items) }
    {
        let by_name = first_ordinals(alloc, &texts)?;
        Ok(NameOrdinals { texts, by_name })
    }

    /// Where the name comes first, if it is there.
    pub fn ordinal_of(&self, name: &'n Name) -> Option<usize>
        ensures { result ≡ ordinal_from (λ n. bytes_eq n name.now) 0 self.now }
    {
        self.by_name.get(&name.as_slice()).copied()
    }

    /// Whether the name is there.
    pub fn has(&self, name: &'n Name) -> bool
        ensures { result ≡ list_any (bytes_eq name.now) self.now }
    {
        self.ordinal_of(name).is_some()
    }
}
