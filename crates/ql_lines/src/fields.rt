ghost use Rattle.std.specs.Prelude.{◌≡◌, ◌≤◌, [], MatchOption, drop, length};
ghost use Rattle.std.specs.List.{position_or_len, prefix_len};
ghost use Rattle.ql_lines.specs.Fields.{FirstField, fields_of, is_space};

/// The first field of a line and what directly follows it; `None` if the line has no field.
pub fn first_field(text: &[u8]) -> Option<(&[u8], &[u8])>
    ensures { MatchOption result (fields_of text.now ≡ [])
        (λ x. FirstField text.now x.0.now x.1.now) }
{
    let start = after_spaces(text);
    if start.is_empty() {
        return None;
    }
    Some(start.split_at(field_bytes(start)))
}

/// A text without the spaces that it begins with.
pub fn after_spaces(text: &[u8]) -> &[u8]
    ensures spaces { result.now ≡ drop (prefix_len is_space text.now) text.now }
    ensures shorter { length result.now ≤ length text.now }
{
    let (_, rest) = text.split_at(spaces(text));
    rest
}

// The number of spaces at the start.
fn spaces(text: &[u8]) -> usize
    ensures longest { result ≡ prefix_len is_space text.now }
    ensures within { result ≤ length text.now }
{
    text.iter().take_while(|b| **b == b' ').count()
}

// The number of bytes before the first space.
fn field_bytes(text: &[u8]) -> usize
    ensures longest { result ≡ position_or_len is_space text.now }
    ensures within { result ≤ length text.now }
{
    text.iter().take_while(|b| **b != b' ').count()
}
