ghost use Rattle.std.specs.Prelude.{◌≡◌};
ghost use Rattle.ql_lex.specs.Marks.{is_mark_byte, is_mark_pair};

// The marks of one byte.
#[tactic(auto, unfolding(crate::specs::Marks::is_mark_byte))]
pub(crate) fn is_mark_byte(b: u8) -> bool
    ensures { result ≡ is_mark_byte b }
{
    matches!(
        b,
        b'{' | b'}'
            | b'('
            | b')'
            | b'['
            | b']'
            | b','
            | b';'
            | b':'
            | b'.'
            | b'='
            | b'<'
            | b'>'
            | b'+'
            | b'-'
            | b'*'
            | b'|'
            | b'&'
    )
}

// The marks of two bytes.
#[tactic(auto, unfolding(crate::specs::Marks::is_mark_pair))]
pub(crate) fn is_mark_pair(a: u8, b: u8) -> bool
    ensures { result ≡ is_mark_pair a b }
{
    match b {
        b'=' => matches!(a, b':' | b'=' | b'!' | b'<' | b'>'),
        b'>' => a == b'=',
        b'\\' => a == b'/',
        b'/' => a == b'\\',
        _ => false,
    }
}
