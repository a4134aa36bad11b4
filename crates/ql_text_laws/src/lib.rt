// Laws of texts. Its one contract: what is printed of a contract or a source is in the grammar and is read again as the same
// tree, up to offsets; the bytes before a fault of a source, a contract or a value are the beginning of a text of its grammar;
// and the circuits of a source's contracts are small.
#![tactic(auto)]

mod contract_prefixes;
mod printed_contracts;
mod printed_sources;
mod small_bodies;
mod source_prefixes;
mod value_prefixes;

pub use contract_prefixes::contracts_begin_before_faults;
pub use printed_contracts::printed_again;
pub use printed_sources::source_printed_again;
pub use small_bodies::sources_have_small_bodies;
pub use source_prefixes::sources_begin_before_faults;
pub use value_prefixes::values_begin_before_faults;
