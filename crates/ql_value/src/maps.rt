ghost use Rattle.std.specs.Prelude.{◌≡◌, IfOk, OnOk};
ghost use Rattle.ql_value.specs.Order.{key_cmp};
ghost use Rattle.ql_value.specs.Places.{IsPlace, place};
ghost use Rattle.ql_value.specs.Collections.{
  Ascends,
  IsMap,
  dropped,
  int_of,
  put_in,
  sum_of,
  value_for_key,
};

use crate::copying::{copy_entries, copy_scalar};
use crate::ordering::{same_scalar, scalar_order};
use crate::saturating::sat_add;
use crate::scalar::Scalar;
use crate::value::MapVal;
use ql_base::{MAX_ENTRIES, NoMemory};
use std::alloc::Global;

/// The map in which `key` has the value `value`; unchanged if it has 256 other keys.
pub fn put(alloc: Global, map: &MapVal, key: &Scalar, value: &Scalar) -> Result<MapVal, NoMemory>
    ensures { IfOk result (λ answer. answer ≡ put_in map.now key.now value.now) }
{
    let entry = (copy_scalar(alloc, key)?, copy_scalar(alloc, value)?);
    let mut entries = copy_entries(alloc, map.items(), 1)?;
    set_entry(&mut entries, entry)?;
    Ok(MapVal::of(entries))
}

/// The map without the key.
pub fn drop_key(alloc: Global, map: &MapVal, key: &Scalar) -> Result<MapVal, NoMemory>
    ensures { IfOk result (λ answer. answer ≡ dropped map.now key.now) }
{
    let mut entries = Vec::with_capacity(alloc, map.items().len())?;
    for entry in map.items() {
        if !same_scalar(&entry.0, key) {
            entries.push((copy_scalar(alloc, &entry.0)?, copy_scalar(alloc, &entry.1)?))?;
        }
    }
    Ok(MapVal::of(entries))
}

/// The value that the map has for the key, or `otherwise` if it has no such key.
pub fn get(
    alloc: Global,
    map: &MapVal,
    key: &Scalar,
    otherwise: &Scalar,
) -> Result<Scalar, NoMemory>
    ensures { IfOk result (λ answer. answer ≡ value_for_key map.now key.now otherwise.now) }
{
    match map.items().iter().find(|entry| same_scalar(&entry.0, key)) {
        Some(entry) => copy_scalar(alloc, &entry.1),
        None => copy_scalar(alloc, otherwise),
    }
}

/// The saturating sum of the map's numbers, by ascending key, from 0. What isn't a number counts
/// as 0.
pub fn sum(map: &MapVal) -> i64
    ensures { result ≡ sum_of map.now }
{
    let mut total = 0;
    for entry in map.items() {
        total = sat_add(total, number_in(&entry.1));
    }
    total
}

// The number that a scalar is, or 0 if it isn't one.
fn number_in(scalar: &Scalar) -> i64
    ensures { result ≡ int_of scalar.now }
{
    match scalar {
        Scalar::Int(n) => *n,
        _ => 0,
    }
}

// Replaces the entry with the same key, or inserts the entry in order if there is room.
fn set_entry(entries: &mut Vec<(Scalar, Scalar)>, entry: (Scalar, Scalar)) -> Result<(), NoMemory>
    requires { IsMap entries.old.items }
    ensures gives { OnOk result (entries.new.items ≡ put_in entries.old.items entry.0 entry.1) }
    ensures map { OnOk result (IsMap entries.new.items) }
{
    match place_of(entries, &entry) {
        Ok(at) => entries[at] = entry,
        Err(at) => {
            if entries.len() < MAX_ENTRIES {
                entries.insert(at, entry)?;
            }
        }
    }
    Ok(())
}

// The index of the entry's key, or the index where it would be inserted.
fn place_of(entries: &[(Scalar, Scalar)], entry: &(Scalar, Scalar)) -> Result<usize, usize>
    requires { Ascends key_cmp entries.now }
    ensures { IsPlace key_cmp entry.now entries.now result }
{
    let at = count_below(entries, entry);
    if at < entries.len() && same_scalar(&entries[at].0, &entry.0) {
        Ok(at)
    } else {
        Err(at)
    }
}

// The length of the longest prefix of entries whose keys are below the given one's.
fn count_below(entries: &[(Scalar, Scalar)], entry: &(Scalar, Scalar)) -> usize
    ensures { result ≡ place key_cmp entry.now entries.now }
{
    entries
        .iter()
        .take_while(|other| scalar_order(&other.0, &entry.0).is_lt())
        .count()
}
