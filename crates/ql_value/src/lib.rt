// The values of fields, arguments and answers: numbers, truth values, texts, sets and maps.
// Its one contract: arithmetic saturates, sets and maps are strictly ascending and of bounded size,
// and the text of a value is read back as that value, or its first fault is reported.
#![tactic(auto)]

mod contents;
mod copying;
mod fault;
mod maps;
mod ordering;
mod printing;
mod reading;
mod reading_scalar;
mod saturating;
mod scalar;
mod sets;
mod value;

pub use contents::{has, size};
pub use copying::{copy, copy_map, copy_scalar, copy_set, copy_text};
pub use fault::ValueFault;
pub use maps::{drop_key, get, put, sum};
pub use ordering::{order, same_scalar, scalar_order};
pub use printing::print_value;
pub use reading::parse_value;
pub use saturating::{sat_add, sat_mul, sat_neg, sat_sub};
pub use scalar::{Scalar, TextVal};
pub use sets::{add, remove, union};
pub use value::{MapVal, SetVal, Value, Values};
