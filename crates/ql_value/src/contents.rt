ghost use Rattle.std.specs.Prelude.{◌≡◌, pos, length};
ghost use Rattle.ql_value.specs.Collections.{contains};
ghost use Rattle.ql_value.specs.Contents.{elements_of};

use crate::ordering::same_scalar;
use crate::scalar::Scalar;
use crate::value::Value;

/// Whether a set has the element, or a map has the key; false for any other value.
pub fn has(collection: &Value, key: &Scalar) -> bool
    ensures { result ≡ contains (elements_of collection.now) key.now }
{
    match collection {
        Value::Set(set) => set.items().iter().any(|element| same_scalar(element, key)),
        Value::Map(map) => map.items().iter().any(|entry| same_scalar(&entry.0, key)),
        _ => false,
    }
}

/// The number of elements of a set, or of entries of a map; 0 for any other value.
pub fn size(collection: &Value) -> i64
    ensures { result ≡ pos (length (elements_of collection.now)) }
{
    match collection {
        Value::Set(set) => set.items().len() as i64,
        Value::Map(map) => map.items().len() as i64,
        _ => 0,
    }
}
