ghost use Rattle.std.specs.Prelude.{◌≡◌, Some, None};
ghost use Rattle.ql_typing.specs.Functions.{arity_of, function_named, of_base, signature_of};

use ql_lang::{Base, Kind};

/// The functions of the language.
#[derive(Clone, Copy)]
pub enum Function {
    Has,
    Size,
    Add,
    Remove,
    Union,
    Put,
    Drop,
    Get,
    Sum,
}

/// The kinds that a function expects after its first argument, and the kind of its result.
#[derive(Clone, Copy)]
pub struct Signature {
    pub second: Option<Kind>,
    pub third: Option<Kind>,
    pub gives: Kind,
}

/// The function with a name.
pub fn find_function(word: &[u8]) -> Option<Function>
    ensures { result ≡ function_named word.now }
{
    if word == b"has".as_slice() {
        Some(Function::Has)
    } else if word == b"size".as_slice() {
        Some(Function::Size)
    } else if word == b"add".as_slice() {
        Some(Function::Add)
    } else if word == b"remove".as_slice() {
        Some(Function::Remove)
    } else if word == b"union".as_slice() {
        Some(Function::Union)
    } else if word == b"put".as_slice() {
        Some(Function::Put)
    } else if word == b"drop".as_slice() {
        Some(Function::Drop)
    } else if word == b"get".as_slice() {
        Some(Function::Get)
    } else if word == b"sum".as_slice() {
        Some(Function::Sum)
    } else {
        None
    }
}

impl Function {
    /// How many arguments a function takes.
    pub fn arity(self) -> usize
        ensures { result ≡ arity_of self }
    {
        match self {
            Function::Size | Function::Sum => 1,
            Function::Put | Function::Get => 3,
            Function::Has | Function::Add | Function::Remove | Function::Union | Function::Drop =>
                2,
        }
    }

    /// A function's signature by the kind of its first argument; `None` if that doesn't fit.
    pub fn signature(self, first: Kind) -> Option<Signature>
        ensures { result ≡ signature_of self first }
    {
        match (self, first) {
            (Function::Has, Kind::Set(b) | Kind::Map(b, _)) => Some(two(b, Kind::Bool)),
            (Function::Size, Kind::Set(_) | Kind::Map(_, _)) => Some(one(Kind::Int)),
            (Function::Add | Function::Remove, Kind::Set(b)) => Some(two(b, first)),
            (Function::Union, Kind::Set(_)) => Some(Signature {
                second: Some(first),
                third: None,
                gives: first,
            }),
            (Function::Put, Kind::Map(b, c)) => Some(three(b, c, first)),
            (Function::Drop, Kind::Map(b, _)) => Some(two(b, first)),
            (Function::Get, Kind::Map(b, c)) => Some(three(b, c, kind_of_base(c))),
            (Function::Sum, Kind::Map(_, Base::Int)) => Some(one(Kind::Int)),
            _ => None,
        }
    }
}

fn one(gives: Kind) -> Signature
    ensures { result ≡ record { second = None; third = None; gives = gives } }
{
    Signature {
        second: None,
        third: None,
        gives,
    }
}

fn two(second: Base, gives: Kind) -> Signature
    ensures { result ≡ record { second = Some (of_base second); third = None; gives = gives } }
{
    Signature {
        second: Some(kind_of_base(second)),
        third: None,
        gives,
    }
}

fn three(second: Base, third: Base, gives: Kind) -> Signature
    ensures { result ≡ record
        { second = Some (of_base second); third = Some (of_base third); gives = gives } }
{
    Signature {
        second: Some(kind_of_base(second)),
        third: Some(kind_of_base(third)),
        gives,
    }
}

/// A base kind as a kind.
pub fn kind_of_base(base: Base) -> Kind
    ensures { result ≡ of_base base }
{
    match base {
        Base::Int => Kind::Int,
        Base::Bool => Kind::Bool,
        Base::Text => Kind::Text,
    }
}
