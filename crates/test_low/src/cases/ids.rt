//! Keyspace ids.
use std::alloc::Global;
use test_fields::{CaseAnswer, Unanswered, bytes_of, fields, value_of};
use vindex::{
    AnyVindex, Binary, BinaryMd5, Ksid, Numeric, ReverseBits, Reversible, Vindex, map_and_reverse,
};

fn vindex_named(name: &str) -> Result<AnyVindex, Unanswered> {
    match name {
        "numeric" => Ok(AnyVindex::Numeric),
        "reverse_bits" => Ok(AnyVindex::ReverseBits),
        "binary" => Ok(AnyVindex::Binary),
        "binary_md5" => Ok(AnyVindex::BinaryMd5),
        _ => Err(Unanswered::BadLine),
    }
}

/// The keyspace id of a value.
pub(crate) fn ksid(alloc: Global, case: &str, told: &mut CaseAnswer) -> Result<(), Unanswered> {
    let (name, field) = fields(case)?;
    let vindex = vindex_named(name)?;
    let value = value_of(alloc, field)?;
    match vindex.map(&value) {
        Some(id) => told.put_some_bytes(id.as_slice()),
        None => told.put("none"),
    }
    Ok(())
}

// The number that has an id, which then is the number's.
fn number_with<V: Reversible<Key = u64>>(id: &[u8]) -> Option<u64> {
    let number = V::reverse(&Ksid::Key(id))?;
    map_and_reverse::<V>(&number)
}

/// The number that has an id.
pub(crate) fn key(alloc: Global, case: &str, told: &mut CaseAnswer) -> Result<(), Unanswered> {
    let (name, digits) = fields(case)?;
    let vindex = vindex_named(name)?;
    let id = bytes_of(alloc, digits)?;
    let number = match vindex {
        AnyVindex::Numeric => number_with::<Numeric>(&id),
        AnyVindex::ReverseBits => number_with::<ReverseBits>(&id),
        AnyVindex::Binary | AnyVindex::BinaryMd5 => None,
    };
    match number {
        Some(number) => told.put_number(number),
        None => told.put("none"),
    }
    Ok(())
}

/// The cost of a vindex.
pub(crate) fn cost(case: &str, told: &mut CaseAnswer) -> Result<(), Unanswered> {
    let cost = match vindex_named(case)? {
        AnyVindex::Numeric => Numeric::COST,
        AnyVindex::ReverseBits => ReverseBits::COST,
        AnyVindex::Binary => Binary::COST,
        AnyVindex::BinaryMd5 => BinaryMd5::COST,
    };
    told.show(&cost);
    Ok(())
}
