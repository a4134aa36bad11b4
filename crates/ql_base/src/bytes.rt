ghost use Rattle.std.specs.Prelude.{◌≡◌};
ghost use Rattle.std.specs.List.{list_all};
ghost use Rattle.ql_base.specs.Bytes.{
  is_blank,
  is_digit,
  is_lower,
  is_name_byte,
  is_text_byte,
  is_word_byte,
};

/// Space, tab, line feed or carriage return.
#[tactic(auto, unfolding(crate::specs::Bytes::is_blank))]
pub fn is_blank(b: u8) -> bool
    ensures { result ≡ is_blank b }
{
    matches!(b, b' ' | b'\t' | b'\n' | b'\r')
}

/// `a` to `z`.
#[tactic(auto, unfolding(crate::specs::Bytes::is_lower))]
pub fn is_lower(b: u8) -> bool
    ensures { result ≡ is_lower b }
{
    matches!(b, b'a'..=b'z')
}

/// `0` to `9`.
#[tactic(auto, unfolding(crate::specs::Bytes::is_digit))]
pub fn is_digit(b: u8) -> bool
    ensures { result ≡ is_digit b }
{
    matches!(b, b'0'..=b'9')
}

/// What a name may continue with: a lower-case letter, a digit or `_`.
#[tactic(auto, unfolding(crate::specs::Bytes::is_name_byte))]
pub fn is_name_byte(b: u8) -> bool
    ensures { result ≡ is_name_byte b }
{
    matches!(b, b'a'..=b'z' | b'0'..=b'9' | b'_')
}

/// What may not directly follow a number: a letter of either case, a digit or `_`.
#[tactic(auto, unfolding(crate::specs::Bytes::is_word_byte))]
pub fn is_word_byte(b: u8) -> bool
    ensures { result ≡ is_word_byte b }
{
    matches!(b, b'a'..=b'z' | b'A'..=b'Z' | b'0'..=b'9' | b'_')
}

/// What a text may contain: printable ASCII except `"` and `\`.
#[tactic(auto, unfolding(crate::specs::Bytes::is_text_byte))]
pub fn is_text_byte(b: u8) -> bool
    ensures { result ≡ is_text_byte b }
{
    matches!(b, b' '..=b'~') && b != b'"' && b != b'\\'
}

/// Whether a text may contain each of these bytes. All are tested, which is faster than stopping early.
pub fn are_text_bytes(text: &[u8]) -> bool
    ensures { result ≡ list_all is_text_byte text.now }
{
    let mut all = true;
    for b in text {
        all = all & is_text_byte(*b);
    }
    all
}
