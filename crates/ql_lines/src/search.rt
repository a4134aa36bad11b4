ghost use Rattle.std.specs.Prelude.{◌≡◌, ◌≤◌, ◌==◌, length};
ghost use Rattle.std.specs.List.{position_or_len};

use memchr::memchr;

/// The number of bytes before the first `byte`, or of all bytes if there is none.
pub fn bytes_before(text: &[u8], byte: u8) -> usize
    ensures longest { result ≡ position_or_len (λ b. b == byte) text.now }
    ensures within { result ≤ length text.now }
{
    match memchr(byte, text) {
        Some(found) => found,
        None => text.len(),
    }
}
