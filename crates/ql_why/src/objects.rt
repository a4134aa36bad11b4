ghost use Rattle.std.specs.Prelude.{◌≡◌, IfOk};
ghost use Rattle.ql_why.specs.Why.{object_names};

use ql_base::{Names, NoMemory};
use std::alloc::Global;

/// The names of a countermodel's objects.
pub fn object_names(alloc: Global) -> Result<Names, NoMemory>
    ensures { IfOk result (λ names. names ≡ object_names) }
{
    let mut names = Names::new(alloc);
    names.number(b"o0")?;
    names.number(b"o1")?;
    names.number(b"o2")?;
    names.number(b"o3")?;
    names.number(b"o4")?;
    names.number(b"o5")?;
    names.number(b"o6")?;
    Ok(names)
}
