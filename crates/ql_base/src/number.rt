ghost use Rattle.std.specs.Prelude.{◌≡◌, ◌≤◌, ◌<◌, ◌↔◌, IsTrue, MatchOption};
ghost use Rattle.std.specs.List.{prefix_len, AllPass};
ghost use Rattle.std.specs.Str.Parse.{digits_value};
ghost use Rattle.ql_base.specs.Bytes.{is_digit};
ghost use Rattle.ql_base.specs.Numbers.{IsNumberOf, IsNumeral};

use crate::bytes::is_digit;

/// The number of digits at the start of `text`.
pub fn digit_bytes(text: &[u8]) -> usize
    ensures { result ≡ prefix_len is_digit text.now }
{
    text.iter().take_while(|b| is_digit(**b)).count()
}

/// The number up to `most` whose decimal text is `text`, without a sign, a leading zero or a blank;
/// `None` if there is none.
pub fn number_of(text: &[u8], most: u64) -> Option<u64>
    ensures { IsNumberOf most text.now result }
{
    if is_numeral(text) {
        value_of(text, most)
    } else {
        None
    }
}

// Whether a text is digits without a leading zero.
fn is_numeral(text: &[u8]) -> bool
    ensures { IsTrue result ↔ IsNumeral text.now }
{
    digit_bytes(text) == text.len() && (text.len() == 1 || text.len() > 1 && text[0] != b'0')
}

// The value of decimal digits; `None` if it is greater than `most`.
fn value_of(digits: &[u8], most: u64) -> Option<u64>
    requires { AllPass is_digit digits.now }
    ensures { MatchOption result (most < digits_value 10 digits.now)
        (λ n. (n ≤ most) × (n ≡ digits_value 10 digits.now)) }
{
    let mut value = 0;
    for b in digits {
        let next = value as u128 * 10 + (*b - b'0') as u128;
        if next > most as u128 {
            return None;
        }
        value = next as u64;
    }
    Some(value)
}
