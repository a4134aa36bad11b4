ghost use Rattle.std.specs.Prelude.{◌≡◌, ◌≢◌, ◌∷◌, [], ◌≤◌, ℕ, List, MatchOption, codes, decimal, length};
ghost use Rattle.ql_app.specs.declared.words.Command.{Command};
ghost use Rattle.ql_app.specs.declared.words.PairCommand.{PairCommand};
ghost use Rattle.ql_app.specs.Requests.{named_request_of};
ghost use Rattle.ql_app.specs.Words.{
  NamedRequest,
  IsInRange,
  IsPairInRange,
  IsRequest,
  OneFile,
  TwoFiles,
  command_words,
  pair_words,
};
ghost use Rattle.ql_reply.specs.Arguments.{IsFileName, word_texts};

use ql_base::{MAX_EVENTS, MAX_REPLICAS, number_of};
use ql_reply::is_file_name;
use ql_running::Form;

// The greatest number of a schedule.
const MAX_NUMBER: u32 = 2_147_483_647;

// The highest number of a replica.
const MAX_REPLICA: u32 = MAX_REPLICAS - 1;

// The highest number of a call at which a disk may be stopped.
const MAX_CUT: u32 = 1_000_000;

/// What the program can be asked for of one file.
#[derive(Clone, Copy)]
pub enum Command {
    /// Whether a contract holds at an effect of an execution.
    Holds,
    /// Whether a refutation shows that no assignment satisfies some clauses.
    Proof,
    /// The least levels of a source's operations and transactions.
    Classify,
    /// The same with countermodels, which show why no lower level is enough.
    ClassifyWhy,
    /// The certificate of these levels.
    Prove,
    /// The schedule of a number, with this number of events.
    Gen { number: u32, events: u32 },
    /// The summary of the run of 4000 generated events.
    Soak { number: u32 },
}

/// What it can be asked for of two files.
#[derive(Clone, Copy)]
pub enum PairCommand {
    /// Whether a certificate shows that levels are enough for a source.
    Check,
    /// Whether a source's contracts hold in an execution.
    Verify,
    /// What becomes of a schedule in a store of a source's program, written in a form.
    Run(Form),
    /// What is stable after a schedule, and what each replica answers when that is kept.
    Slim,
    /// What a replica has after a schedule that journals what it receives, on a disk that stops at the call of a number.
    Restart { replica: u32, cut: u32 },
}

/// A command with the names of its files.
#[derive(Clone, Copy)]
pub enum Request<'a> {
    OneFile(Command, &'a str),
    TwoFiles(PairCommand, &'a str, &'a str),
}

/// The command that the arguments ask for, with the names of its files; none where they ask for nothing.
pub fn parse_words(words: &Vec<String>) -> Option<Request>
    ensures { MatchOption result
        ((named : NamedRequest) → IsRequest (word_texts words.now) named → ⊥)
        (λ request. IsRequest (word_texts words.now) (named_request_of request)) }
{
    if let [word, name] = words.as_slice() {
        return on_one_file(plain_command(word.as_str())?, name.as_str());
    }
    if let [word, name, last] = words.as_slice() {
        return three_words(word.as_str(), name.as_str(), last.as_str());
    }
    if let [word, second, third, last] = words.as_slice() {
        return four_words(
            word.as_str(),
            second.as_str(),
            third.as_str(),
            last.as_str(),
        );
    }
    many_words(words)
}

// What five arguments ask for. Other numbers than two to five ask for nothing.
fn many_words(words: &Vec<String>) -> Option<Request>
    requires two { length words.now.items ≢ 2 }
    requires three { length words.now.items ≢ 3 }
    requires four { length words.now.items ≢ 4 }
    ensures { MatchOption result
        ((named : NamedRequest) → IsRequest (word_texts words.now) named → ⊥)
        (λ request. IsRequest (word_texts words.now) (named_request_of request)) }
{
    if let [word, name, other, replica, cut] = words.as_slice() {
        return five_words(
            word.as_str(),
            name.as_str(),
            other.as_str(),
            replica.as_str(),
            cut.as_str(),
        );
    }
    None
}

fn three_words<'a>(word: &str, name: &'a str, last: &'a str) -> Option<Request<'a>>
    ensures { MatchOption result
        ((named : NamedRequest) → IsRequest (word.now ∷ name.now ∷ last.now ∷ []) named → ⊥)
        (λ request. IsRequest (word.now ∷ name.now ∷ last.now ∷ []) (named_request_of request)) }
{
    match word {
        "classify" => why_request(name, last),
        "soak" => soak_request(name, last),
        _ => on_two_files(pair_command(word)?, name, last),
    }
}

// What `classify`, a flag and a name ask for.
fn why_request<'a>(flag: &str, name: &'a str) -> Option<Request<'a>>
    ensures { MatchOption result
        ((named : NamedRequest) → IsRequest (codes "classify" ∷ flag.now ∷ name.now ∷ []) named → ⊥)
        (λ request. IsRequest (codes "classify" ∷ flag.now ∷ name.now ∷ [])
        (named_request_of request)) }
{
    if flag == "--why" {
        on_one_file(Command::ClassifyWhy, name)
    } else {
        None
    }
}

// What `soak`, a name and a number ask for.
fn soak_request<'a>(name: &'a str, number: &str) -> Option<Request<'a>>
    ensures { MatchOption result
        ((named : NamedRequest) → IsRequest (codes "soak" ∷ name.now ∷ number.now ∷ []) named → ⊥)
        (λ request. IsRequest (codes "soak" ∷ name.now ∷ number.now ∷ [])
        (named_request_of request)) }
{
    let number = number_up_to(number, MAX_NUMBER)?;
    on_one_file(Command::Soak { number }, name)
}

fn four_words<'a>(word: &str, second: &'a str, third: &'a str, last: &'a str) -> Option<Request<'a>>
    ensures { MatchOption result
        ((named : NamedRequest)
        → IsRequest (word.now ∷ second.now ∷ third.now ∷ last.now ∷ []) named → ⊥)
        (λ request. IsRequest (word.now ∷ second.now ∷ third.now ∷ last.now ∷ [])
        (named_request_of request)) }
{
    match word {
        "gen" => gen_request(second, third, last),
        "run" => json_request(second, third, last),
        _ => None,
    }
}

// What `gen`, a name and two numbers ask for.
fn gen_request<'a>(name: &'a str, number: &str, events: &str) -> Option<Request<'a>>
    ensures { MatchOption result
        ((named : NamedRequest)
        → IsRequest (codes "gen" ∷ name.now ∷ number.now ∷ events.now ∷ []) named → ⊥)
        (λ request. IsRequest (codes "gen" ∷ name.now ∷ number.now ∷ events.now ∷ [])
        (named_request_of request)) }
{
    let number = number_up_to(number, MAX_NUMBER)?;
    let events = number_up_to(events, MAX_EVENTS as u32)?;
    on_one_file(Command::Gen { number, events }, name)
}

// What `run`, an option and two names ask for.
fn json_request<'a>(option: &str, name: &'a str, other: &'a str) -> Option<Request<'a>>
    ensures { MatchOption result
        ((named : NamedRequest)
        → IsRequest (codes "run" ∷ option.now ∷ name.now ∷ other.now ∷ []) named → ⊥)
        (λ request. IsRequest (codes "run" ∷ option.now ∷ name.now ∷ other.now ∷ [])
        (named_request_of request)) }
{
    if option == "--json" {
        on_two_files(PairCommand::Run(Form::Json), name, other)
    } else {
        None
    }
}

// What `restart`, two names and two numbers ask for.
fn five_words<'a>(
    word: &str,
    name: &'a str,
    other: &'a str,
    replica: &str,
    cut: &str,
) -> Option<Request<'a>>
    ensures { MatchOption result
        ((named : NamedRequest)
        → IsRequest (word.now ∷ name.now ∷ other.now ∷ replica.now ∷ cut.now ∷ []) named → ⊥)
        (λ request. IsRequest (word.now ∷ name.now ∷ other.now ∷ replica.now ∷ cut.now ∷ [])
        (named_request_of request)) }
{
    match word {
        "restart" => restart_request(name, other, replica, cut),
        _ => None,
    }
}

fn restart_request<'a>(
    name: &'a str,
    other: &'a str,
    replica: &str,
    cut: &str,
) -> Option<Request<'a>>
    ensures { MatchOption result
        ((named : NamedRequest)
        → IsRequest (codes "restart" ∷ name.now ∷ other.now ∷ replica.now ∷ cut.now ∷ []) named
        → ⊥)
        (λ request. IsRequest (codes "restart" ∷ name.now ∷ other.now ∷ replica.now ∷ cut.now ∷ [])
        (named_request_of request)) }
{
    let replica = number_up_to(replica, MAX_REPLICA)?;
    let cut = cut_of(cut)?;
    on_two_files(PairCommand::Restart { replica, cut }, name, other)
}

fn on_one_file(command: Command, name: &str) -> Option<Request>
    ensures { MatchOption result (IsFileName name.now → ⊥)
        (λ request. IsFileName name.now × (named_request_of request ≡ OneFile command name.now)) }
{
    if is_file_name(name) {
        Some(Request::OneFile(command, name))
    } else {
        None
    }
}

fn on_two_files<'a>(command: PairCommand, name: &'a str, other: &'a str) -> Option<Request<'a>>
    ensures { MatchOption result (IsFileName name.now → IsFileName other.now → ⊥)
        (λ request. IsFileName name.now × IsFileName other.now
        × (named_request_of request ≡ TwoFiles command name.now other.now)) }
{
    if is_file_name(name) && is_file_name(other) {
        Some(Request::TwoFiles(command, name, other))
    } else {
        None
    }
}

// The command of a word, which is followed by the name of a file.
fn plain_command(word: &str) -> Option<Command>
    ensures { MatchOption result
        ((command : Command) (name : List ℕ) → command_words command name ≡ word.now ∷ name ∷ []
        → ⊥)
        (λ command. IsInRange command
        × ((name : List ℕ) → command_words command name ≡ word.now ∷ name ∷ [])) }
{
    match word {
        "holds" => Some(Command::Holds),
        "proof" => Some(Command::Proof),
        "classify" => Some(Command::Classify),
        "prove" => Some(Command::Prove),
        _ => None,
    }
}

fn pair_command(word: &str) -> Option<PairCommand>
    ensures { MatchOption result
        ((command : PairCommand) (name other : List ℕ)
        → pair_words command name other ≡ word.now ∷ name ∷ other ∷ [] → ⊥)
        (λ command. IsPairInRange command
        × ((name other : List ℕ)
        → pair_words command name other ≡ word.now ∷ name ∷ other ∷ [])) }
{
    match word {
        "check" => Some(PairCommand::Check),
        "verify" => Some(PairCommand::Verify),
        "run" => Some(PairCommand::Run(Form::Text)),
        "slim" => Some(PairCommand::Slim),
        _ => None,
    }
}

// The number that an argument spells in decimal, up to the greatest.
fn number_up_to(word: &str, most: u32) -> Option<u32>
    ensures { MatchOption result
        ((n : ℕ) → n ≤ most → word.now ≡ decimal n → ⊥)
        (λ n. (n ≤ most) × (word.now ≡ decimal n)) }
{
    let number = number_of(word.as_bytes(), u64::from(most))?;
    Some(number as u32)
}

// The number of a call of a disk, from 1, that an argument spells.
fn cut_of(word: &str) -> Option<u32>
    ensures { MatchOption result
        ((n : ℕ) → 1 ≤ n → n ≤ 1000000 → word.now ≡ decimal n → ⊥)
        (λ n. (1 ≤ n) × (n ≤ 1000000) × (word.now ≡ decimal n)) }
{
    let cut = number_up_to(word, MAX_CUT)?;
    if cut == 0 { None } else { Some(cut) }
}
