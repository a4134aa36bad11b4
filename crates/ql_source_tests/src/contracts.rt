use ql_base::{Names, NoMemory, push_bytes, push_number};
use ql_parse::{few_operations, parse_contract};
use ql_test_inputs::check_table;
use ql_typing::{TypeFault, resolve};
use std::alloc::Global;
use std::test::Fail;

// Contracts of operations that are resolved one after another, with how many operations there are then, and the operations
// in the order of their numbers.
const NUMBERED: &str = "
forall a: x. true; forall a: g | x | f, b: f, c. [vis | eq](a, cur) => b = c -> resolved 1, resolved 3, x g f
forall a: q. vis(b, cur) -> a fault,
forall a: g | f, b: f | h. true; forall f: f. vis(f, f) -> resolved 3, resolved 3, g f h
";

#[test]
fn operations_are_numbered_by_their_first_occurrence(rt: HostRuntime) -> Result<(), Fail> {
    check_table(rt.alloc(), NUMBERED, numbered)
}

fn numbered(alloc: Global, row: &str) -> Result<Vec<u8>, NoMemory> {
    let mut operations = Names::new(alloc);
    let mut out = Vec::new(alloc);
    for text in row.split("; ") {
        let reported = resolution(alloc, text, false, &mut operations)?;
        push_bytes(&mut out, &reported)?;
        push_bytes(&mut out, b", ")?;
    }
    for index in 0..operations.len() {
        push_bytes(&mut out, operations.name(index).bytes())?;
        push_bytes(&mut out, b" ")?;
    }
    out.pop();
    Ok(out)
}

fn resolution(
    alloc: Global,
    text: &str,
    for_transaction: bool,
    operations: &mut Names,
) -> Result<Vec<u8>, NoMemory> {
    if text.len() > 1_048_576 || operations.len() > 1_048_576 {
        return Err(NoMemory);
    }
    few_operations();
    let Ok(contract) = parse_contract(alloc, text.as_bytes()) else {
        return Ok(Vec::from_slice(alloc, b"not a contract")?);
    };
    match resolve(alloc, &contract, operations, for_transaction) {
        Ok(_) => {
            let mut out = Vec::from_slice(alloc, b"resolved ")?;
            push_number(&mut out, operations.len())?;
            Ok(out)
        }
        Err(TypeFault::NoMemory) => Err(NoMemory),
        Err(_) => Ok(Vec::from_slice(alloc, b"a fault")?),
    }
}
