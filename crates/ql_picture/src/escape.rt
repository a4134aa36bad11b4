ghost use Rattle.std.specs.Prelude.{◌≡◌, ◌++◌, OnOk};
ghost use Rattle.std.specs.List.{flat_map};
ghost use Rattle.ql_picture.specs.Escapes.{escaped, is_printable};

use ql_base::{NoMemory, push_bytes};

/// Appends a text so that XML reads it as text.
pub(crate) fn push_escaped(out: &mut Vec<u8>, text: &[u8]) -> Result<(), NoMemory>
    ensures { OnOk result (out.new.items ≡ out.old.items ++ flat_map escaped text.now) }
{
    for b in text {
        push_byte(out, *b)?;
    }
    Ok(())
}

fn push_byte(out: &mut Vec<u8>, b: u8) -> Result<(), NoMemory>
    ensures { OnOk result (out.new.items ≡ out.old.items ++ escaped b) }
{
    if b == b'&' {
        push_bytes(out, b"&amp;")
    } else if b == b'<' {
        push_bytes(out, b"&lt;")
    } else if b == b'>' {
        push_bytes(out, b"&gt;")
    } else if is_printable(b) {
        push_bytes(out, &[b])
    } else {
        push_bytes(out, b"?")
    }
}

#[tactic(auto, unfolding(crate::specs::Escapes::is_printable))]
fn is_printable(b: u8) -> bool
    ensures { result ≡ is_printable b }
{
    matches!(b, b' '..=b'~')
}
