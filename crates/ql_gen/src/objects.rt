ghost use Rattle.std.specs.Prelude.{◌≡◌, ◌≤◌, ◌<◌, ◌+◌, IfOk, OnOk, length};
ghost use Rattle.ql_gen.specs.Objects.{first_objects, object_kinds, drawn_object_name, drawn_object_names};

use ql_base::{IdSet, Names, NoMemory, TypeId, push_bytes, push_number};
use ql_schedule::TypeIds;
use std::alloc::Global;

/// The names of two objects of each of the first types.
#[tactic(auto, unfolding(crate::specs::Objects::drawn_object_names))]
pub(crate) fn object_names(alloc: Global, types: u32) -> Result<Names, NoMemory>
    requires { types ≤ 16 }
    ensures { IfOk result (λ names. names ≡ drawn_object_names types) }
{
    let mut names = Names::new(alloc);
    for i in 0..types {
        name_two(alloc, &mut names, i)?;
    }
    Ok(names)
}

// Names the two objects of a type, after those of the types before it.
#[tactic(auto, unfolding(crate::specs::Objects::drawn_object_names), using(crate::proofs::ObjectLaws::absent, crate::proofs::ObjectLaws::absent_second, crate::proofs::ObjectLaws::length_names))]
fn name_two(alloc: Global, names: &mut Names, i: u32) -> Result<(), NoMemory>
    requires few { i < 16 }
    requires before { names.old ≡ drawn_object_names i }
    ensures { OnOk result (names.new ≡ drawn_object_names (i + 1)) }
{
    names.number(&object_name(alloc, i, 0)?)?;
    names.number(&object_name(alloc, i, 1)?)?;
    Ok(())
}

#[tactic(auto, using(crate::proofs::ObjectLaws::name_short))]
fn object_name(alloc: Global, i: u32, k: u32) -> Result<Vec<u8>, NoMemory>
    requires { k < 10 }
    ensures name { IfOk result (λ name. name.items ≡ drawn_object_name i k) }
    ensures some { IfOk result (λ name. 1 ≤ length name.items) }
    ensures short { IfOk result (λ name. length name.items ≤ 32) }
{
    let mut name = Vec::new(alloc);
    push_bytes(&mut name, b"o")?;
    push_number(&mut name, i)?;
    push_bytes(&mut name, b"_")?;
    push_number(&mut name, k)?;
    Ok(name)
}

/// The types of these objects.
#[tactic(auto, unfolding(crate::specs::Objects::object_kinds))]
pub(crate) fn object_kinds(alloc: Global, types: u32) -> Result<TypeIds, NoMemory>
    ensures { IfOk result (λ kinds. kinds ≡ object_kinds types) }
{
    let mut kinds = Vec::new(alloc);
    for i in 0..types {
        kinds.push(TypeId(i))?;
        kinds.push(TypeId(i))?;
    }
    Ok(TypeIds::of(kinds))
}

/// The first object of each of the first types.
#[tactic(auto, unfolding(crate::specs::Objects::first_objects), using(crate::proofs::ObjectLaws::next_first))]
pub(crate) fn first_objects(alloc: Global, types: u32) -> Result<IdSet, NoMemory>
    requires { types ≤ 16 }
    ensures { IfOk result (λ ids. ids ≡ first_objects types) }
{
    let mut ids = IdSet::new(alloc);
    for i in 0..types {
        ids.insert(2 * i)?;
    }
    Ok(ids)
}
