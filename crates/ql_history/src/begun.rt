use ql_base::{Word, is_name, number_of};

/// A begun transaction: its number, from 1, and the name of its declaration.
#[derive(Clone, Copy)]
pub struct Begun {
    pub number: u32,
    pub name: Word,
}

/// Parses a begun transaction, as `2:move`.
pub(crate) fn begun_of(field: &[u8]) -> Option<Begun> {
    let colon = field.iter().position(|b| *b == b':')?;
    let number = number_of(&field[..colon], u64::from(u32::MAX))?;
    let name = &field[colon + 1..];
    if number == 0 || !is_name(name) {
        return None;
    }
    Some(Begun {
        number: number as u32,
        name: Word::of(name),
    })
}
