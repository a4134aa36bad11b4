ghost use Rattle.std.specs.Prelude.{◌≡◌, map};
ghost use Rattle.std.specs.Option.{option_map};
ghost use Rattle.std.specs.String.{string_bytes};
ghost use Rattle.ql_draw.specs.Words.{after_file, picture_asked, picture_asked_of, breach_of, of_files, with_breach};
ghost use Rattle.ql_reply.specs.Arguments.{word_texts};

use ql_reply::is_file_name;

/// What the arguments ask to be drawn.
#[derive(Clone, Copy)]
pub struct Request<'a> {
    /// Whether the arrows that a third effect implies are drawn, too.
    pub all: bool,
    pub file: &'a str,
    pub schedule: Option<&'a str>,
    /// The description of a breach.
    pub breach: &'a [String],
}

/// The request that the arguments make, if they ask for a picture.
pub fn parse_words(words: &Vec<String>) -> Option<Request>
    ensures { option_map picture_asked_of result ≡ picture_asked (word_texts words.now) }
{
    match words.split_first() {
        None => None,
        Some((first, rest)) => {
            if first.as_str() == "--all" {
                parse_files(true, rest)
            } else {
                parse_files(false, words)
            }
        }
    }
}

fn parse_files(all: bool, words: &[String]) -> Option<Request>
    ensures { option_map picture_asked_of result ≡ of_files all (map string_bytes words.now) }
{
    match words.split_first() {
        None => None,
        Some((file, rest)) => {
            if is_file_name(file.as_str()) {
                parse_rest(all, file.as_str(), rest)
            } else {
                None
            }
        }
    }
}

// The request from the arguments after the name of the first file.
fn parse_rest<'a>(all: bool, file: &'a str, words: &'a [String]) -> Option<Request<'a>>
    ensures { option_map picture_asked_of result ≡ after_file all file.now (map string_bytes words.now) }
{
    match words.split_first() {
        None => request_of(all, file, None, Some(words)),
        Some((name, remaining)) => {
            if is_file_name(name.as_str()) {
                request_of(all, file, Some(name.as_str()), parse_breach(remaining))
            } else {
                request_of(all, file, None, parse_breach(words))
            }
        }
    }
}

// The request, if the arguments that describe a breach are in order.
fn request_of<'a>(
    all: bool,
    file: &'a str,
    schedule: Option<&'a str>,
    breach: Option<&'a [String]>,
) -> Option<Request<'a>>
    ensures { option_map picture_asked_of result
        ≡ with_breach all file.now (option_map (λ name. name.now) schedule.entry)
        (option_map (λ words. map string_bytes words.now) breach.entry) }
{
    match breach {
        Some(breach) => Some(Request {
            all,
            file,
            schedule,
            breach,
        }),
        None => None,
    }
}

// The arguments after `--breach`, or no arguments where none are left; nothing where another one comes first.
fn parse_breach(words: &[String]) -> Option<&[String]>
    ensures { option_map (λ rest. map string_bytes rest.now) result
        ≡ breach_of (map string_bytes words.now) }
{
    match words.split_first() {
        None => Some(words),
        Some((option, rest)) => {
            if option.as_str() == "--breach" {
                Some(rest)
            } else {
                None
            }
        }
    }
}
