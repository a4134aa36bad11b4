use ql_base::{NoMemory, push_bytes};
use ql_value::{Values, print_value};

/// Appends values in round brackets.
pub fn push_values(out: &mut Vec<u8>, values: &Values) -> Result<(), NoMemory> {
    let mut mark: &[u8] = b"(";
    for value in values.items() {
        push_bytes(out, mark)?;
        print_value(out, value)?;
        mark = b", ";
    }
    push_bytes(out, b")")
}
