use ql_base::NoMemory;
use ql_test_inputs::spelled;
use std::alloc::Global;

/// A printed text, where printing what is read of it yields the same text again.
pub(crate) fn once_and_again(
    alloc: Global,
    once: Vec<u8>,
    again: &[u8],
) -> Result<Vec<u8>, NoMemory> {
    if once.as_slice() == again {
        Ok(once)
    } else {
        spelled(alloc, "another text the second time")
    }
}
