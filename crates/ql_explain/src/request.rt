ghost use Rattle.std.specs.Prelude.{◌≡◌, map};
ghost use Rattle.std.specs.Option.{option_map};
ghost use Rattle.std.specs.String.{string_bytes};
ghost use Rattle.ql_explain.specs.Words.{Compared, against_of, inquiry, inquiry_of, json_of, one_name, only_name, plain_of};
ghost use Rattle.ql_reply.specs.Arguments.{word_texts};

use ql_reply::is_file_name;

/// The form of an explanation.
#[derive(Clone, Copy)]
pub(crate) enum Form {
    Text,
    Json,
}

/// The names of the files of a stored answer and of a source.
#[derive(Clone, Copy)]
pub(crate) struct Pair<'a> {
    pub(crate) baseline: &'a str,
    pub(crate) source: &'a str,
}

/// What the arguments ask for.
#[derive(Clone, Copy)]
pub(crate) enum Request<'a> {
    /// What is found of the source in a file.
    Explained(Form, &'a str),
    /// Which levels of a source are higher than in a stored answer.
    Compared(Pair<'a>),
}

/// The request that the arguments make, if they make one.
pub(crate) fn parse_words(words: &Vec<String>) -> Option<Request>
    ensures { option_map inquiry_of result ≡ inquiry (word_texts words.now) }
{
    match words.split_first() {
        None => None,
        Some((word, rest)) => {
            if word.as_str() == "--json" {
                json(rest)
            } else if word.as_str() == "--baseline" {
                against(rest)
            } else {
                plain(word.as_str(), rest)
            }
        }
    }
}

fn json(words: &[String]) -> Option<Request>
    ensures { option_map inquiry_of result ≡ json_of (map string_bytes words.now) }
{
    match one_name(words) {
        None => None,
        Some(name) => Some(Request::Explained(Form::Json, name)),
    }
}

fn plain<'a>(word: &'a str, rest: &[String]) -> Option<Request<'a>>
    ensures { option_map inquiry_of result ≡ plain_of word.now (map string_bytes rest.now) }
{
    match only_name(word, rest) {
        None => None,
        Some(name) => Some(Request::Explained(Form::Text, name)),
    }
}

// The request that the arguments after `--baseline` make: the names of a stored answer and of a source.
fn against(words: &[String]) -> Option<Request>
    ensures { option_map inquiry_of result ≡ against_of (map string_bytes words.now) }
{
    match words.split_first() {
        None => None,
        Some((word, rest)) => {
            if is_file_name(word.as_str()) {
                compared(word.as_str(), one_name(rest))
            } else {
                None
            }
        }
    }
}

fn compared<'a>(baseline: &'a str, source: Option<&'a str>) -> Option<Request<'a>>
    ensures { option_map inquiry_of result
        ≡ option_map (λ name. Compared baseline.now name)
        (option_map (λ name. name.now) source.entry) }
{
    match source {
        None => None,
        Some(source) => Some(Request::Compared(Pair { baseline, source })),
    }
}

// The name, if it is the only argument.
fn one_name(words: &[String]) -> Option<&str>
    ensures { option_map (λ name. name.now) result ≡ one_name (map string_bytes words.now) }
{
    match words.split_first() {
        None => None,
        Some((word, rest)) => only_name(word.as_str(), rest),
    }
}

fn only_name<'a>(word: &'a str, rest: &[String]) -> Option<&'a str>
    ensures { option_map (λ name. name.now) result
        ≡ only_name word.now (map string_bytes rest.now) }
{
    match rest.split_first() {
        None => { if is_file_name(word) { Some(word) } else { None } }
        Some(_) => None,
    }
}
