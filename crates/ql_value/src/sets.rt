ghost use Rattle.std.specs.Prelude.{◌≡◌, IfOk, OnOk};
ghost use Rattle.ql_value.specs.Order.{scalar_cmp};
ghost use Rattle.ql_value.specs.Collections.{Ascends, IsSet, added, removed, united};
ghost use Rattle.ql_value.specs.Places.{IsPlace, place};

use crate::copying::{copy_elements, copy_scalar};
use crate::ordering::{same_scalar, scalar_order};
use crate::scalar::Scalar;
use crate::value::SetVal;
use ql_base::{MAX_ENTRIES, NoMemory};
use std::alloc::Global;

/// The set with the element; unchanged if it has 256 others.
pub fn add(alloc: Global, set: &SetVal, element: &Scalar) -> Result<SetVal, NoMemory>
    ensures { IfOk result (λ answer. answer ≡ added set.now element.now) }
{
    let mut elements = copy_elements(alloc, set.items(), 1)?;
    include(alloc, &mut elements, element)?;
    Ok(SetVal::of(elements))
}

/// The set without the element.
pub fn remove(alloc: Global, set: &SetVal, element: &Scalar) -> Result<SetVal, NoMemory>
    ensures { IfOk result (λ answer. answer ≡ removed set.now element.now) }
{
    let mut elements = Vec::with_capacity(alloc, set.items().len())?;
    for other in set.items() {
        if !same_scalar(other, element) {
            elements.push(copy_scalar(alloc, other)?)?;
        }
    }
    Ok(SetVal::of(elements))
}

/// The first set with the second's elements, added in ascending order as long as there is room.
pub fn union(alloc: Global, first: &SetVal, second: &SetVal) -> Result<SetVal, NoMemory>
    ensures { IfOk result (λ answer. answer ≡ united first.now second.now) }
{
    let mut elements = copy_elements(alloc, first.items(), second.items().len())?;
    for element in second.items() {
        include(alloc, &mut elements, element)?;
    }
    Ok(SetVal::of(elements))
}

// Adds the element if it isn't there yet and there is room.
fn include(alloc: Global, elements: &mut Vec<Scalar>, element: &Scalar) -> Result<(), NoMemory>
    requires { IsSet elements.old.items }
    ensures gives { OnOk result (elements.new.items ≡ added elements.old.items element.now) }
    ensures set { OnOk result (IsSet elements.new.items) }
{
    match place_of(elements, element) {
        Ok(_) => Ok(()),
        Err(at) => {
            if elements.len() < MAX_ENTRIES {
                elements.insert(at, copy_scalar(alloc, element)?)?;
            }
            Ok(())
        }
    }
}

// The index of the element, or the index where it would be inserted.
fn place_of(elements: &[Scalar], element: &Scalar) -> Result<usize, usize>
    requires { Ascends scalar_cmp elements.now }
    ensures { IsPlace scalar_cmp element.now elements.now result }
{
    let at = count_below(elements, element);
    if at < elements.len() && same_scalar(&elements[at], element) {
        Ok(at)
    } else {
        Err(at)
    }
}

// The length of the longest prefix of elements below the given one.
fn count_below(elements: &[Scalar], element: &Scalar) -> usize
    ensures { result ≡ place scalar_cmp element.now elements.now }
{
    elements
        .iter()
        .take_while(|other| scalar_order(other, element).is_lt())
        .count()
}
