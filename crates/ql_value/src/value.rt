ghost use Rattle.std.specs.Prelude.{◌≡◌};
ghost use Rattle.ql_value.specs.Collections.{IsMap, IsSet};

use crate::scalar::{Scalar, TextVal};
use std::marker::Model;

/// A set: at most 256 scalars, strictly ascending. Seen as the list of its elements.
pub struct SetVal {
    elements: Vec<Scalar>,
}

// Written out, so that a crate above proves one call for it.
impl Drop for SetVal {
    fn drop(self) {
        let SetVal { elements: _ } = self;
    }
}

impl Model for SetVal {
    ghost use Rattle.std.specs.Prelude.{List};
    ghost use Rattle.ql_value.specs.declared.scalar.Scalar.{Scalar};

    ghost Value = { List Scalar };

    ghost use Rattle.ql_value.specs.Collections.{IsSet};

    ghost view = { λ s. s.elements.items };

    ghost invariant = { λ s. IsSet s.elements.items };
}

impl SetVal {
    /// The set of these elements.
    pub fn of(elements: Vec<Scalar>) -> SetVal
        requires { IsSet elements.items }
        ensures { result ≡ elements.items }
    {
        SetVal { elements }
    }

    /// The elements, in ascending order.
    pub fn items(&self) -> &[Scalar]
        ensures same { result.now ≡ self.now }
        ensures set { IsSet self.now }
    {
        &self.elements
    }

    /// The elements, in ascending order.
    pub fn into_items(self) -> Vec<Scalar>
        ensures same { result.items ≡ self }
        ensures set { IsSet self }
    {
        let SetVal { elements } = self;
        elements
    }
}

/// A map: at most 256 pairs of a key and a value, strictly ascending by key. Seen as the list of its
/// pairs.
pub struct MapVal {
    entries: Vec<(Scalar, Scalar)>,
}

// Written out, so that a crate above proves one call for it.
impl Drop for MapVal {
    fn drop(self) {
        let MapVal { entries: _ } = self;
    }
}

impl Model for MapVal {
    ghost use Rattle.std.specs.Prelude.{List};
    ghost use Rattle.ql_value.specs.declared.scalar.Scalar.{Scalar};

    ghost Value = { List (Scalar × Scalar) };

    ghost use Rattle.ql_value.specs.Collections.{IsMap};

    ghost view = { λ m. m.entries.items };

    ghost invariant = { λ m. IsMap m.entries.items };
}

impl MapVal {
    /// The map of these entries.
    pub fn of(entries: Vec<(Scalar, Scalar)>) -> MapVal
        requires { IsMap entries.items }
        ensures { result ≡ entries.items }
    {
        MapVal { entries }
    }

    /// The entries, in ascending order of their keys.
    pub fn items(&self) -> &[(Scalar, Scalar)]
        ensures same { result.now ≡ self.now }
        ensures map { IsMap self.now }
    {
        &self.entries
    }

    /// The entries, in ascending order of their keys.
    pub fn into_items(self) -> Vec<(Scalar, Scalar)>
        ensures same { result.items ≡ self }
        ensures map { IsMap self }
    {
        let MapVal { entries } = self;
        entries
    }
}

/// What a field, an argument or an answer may be.
#[derive(Drop)]
pub enum Value {
    Unit,
    Int(i64),
    Bool(bool),
    Text(TextVal),
    Set(SetVal),
    Map(MapVal),
}

/// A list of values.
pub struct Values {
    items: Vec<Value>,
}

// Written out, so that a crate above proves one call for it.
impl Drop for Values {
    fn drop(self) {
        let Values { items: _ } = self;
    }
}

impl Model for Values {
    ghost use Rattle.std.specs.Prelude.{List};
    ghost use Rattle.ql_value.specs.declared.value.Value.{Value as OneValue};

    ghost Value = { List OneValue };

    ghost view = { λ v. v.items.items };
}

impl Values {
    /// The list of these values.
    pub fn of(items: Vec<Value>) -> Values
        ensures { result ≡ items.items }
    {
        Values { items }
    }

    /// The values.
    pub fn items(&self) -> &[Value]
        ensures { result.now ≡ self.now }
    {
        &self.items
    }

    /// The values.
    pub fn into_items(self) -> Vec<Value>
        ensures { result.items ≡ self }
    {
        let Values { items } = self;
        items
    }
}
