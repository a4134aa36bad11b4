use ql_atoms::{Atom, PairKind, Shape, atom_of, number as number_of_atom};
use ql_base::{NoMemory, push_bytes, push_number};
use ql_test_inputs::{check_table, number};
use std::alloc::Global;
use std::test::Fail;

// How many constants and operations there are, the number of an atom, and the atom with its number.
const ATOMS: &str = "
6 32 1 -> eq 0 0 = 1
6 32 124 -> vis 2 3 = 124
6 32 252 -> sametxn 5 5 = 252
6 32 255 -> current 2 = 255
6 32 450 -> is 31 5 = 450
6 32 0 -> none
6 32 451 -> none
1 1 6 -> hb 0 0 = 6
1 1 9 -> is 0 0 = 9
";

#[test]
fn atoms_and_their_numbers(rt: HostRuntime) -> Result<(), Fail> {
    check_table(rt.alloc(), ATOMS, spelled)
}

fn spelled(alloc: Global, row: &str) -> Result<Vec<u8>, NoMemory> {
    let shape = Shape {
        constants: number(row, 0).min(6),
        operations: number(row, 1).min(32),
    };
    let Some(atom) = atom_of(number(row, 2), shape) else {
        return Ok(Vec::from_slice(alloc, b"none")?);
    };
    let mut out = Vec::new(alloc);
    push_atom(&mut out, atom)?;
    push_bytes(&mut out, b" = ")?;
    push_number(&mut out, number_of_atom(atom, shape))?;
    Ok(out)
}

fn push_atom(out: &mut Vec<u8>, atom: Atom) -> Result<(), NoMemory> {
    match atom {
        Atom::Pair(kind, i, j) => push_fields(out, word(kind), &[i, j]),
        Atom::Current(i) => push_fields(out, b"current", &[i]),
        Atom::Is(o, i) => push_fields(out, b"is", &[o.0, i]),
    }
}

fn push_fields(out: &mut Vec<u8>, word: &[u8], numbers: &[u32]) -> Result<(), NoMemory> {
    push_bytes(out, word)?;
    for number in numbers {
        push_bytes(out, b" ")?;
        push_number(out, *number)?;
    }
    Ok(())
}

fn word(kind: PairKind) -> &'static [u8] {
    match kind {
        PairKind::Eq => b"eq",
        PairKind::So => b"so",
        PairKind::SameObj => b"sameobj",
        PairKind::Vis => b"vis",
        PairKind::Hbo => b"hbo",
        PairKind::Hb => b"hb",
        PairKind::SameTxn => b"sametxn",
    }
}
