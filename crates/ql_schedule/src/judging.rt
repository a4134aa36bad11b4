ghost use Rattle.std.specs.Prelude.{◌≡◌, ◌<◌, Some, IfSome, length, nat_le, slice_get};
ghost use Rattle.std.specs.List.{list_any};
ghost use Rattle.std.specs.Str.{bytes_eq};
ghost use Rattle.std.specs.Option.{option_map};
ghost use Rattle.ql_typing.specs.Operations.{all_ops};
ghost use Rattle.ql_schedule.specs.Arguments.{fit, is_too_great};
ghost use Rattle.ql_schedule.specs.Known.{AreNumbers};
ghost use Rattle.ql_schedule.specs.Judging.{
  are_groups_out,
  declaration_faults,
  declares_too_many,
  event_faults,
  has_repeat,
  is_caller_out,
  is_full,
  is_misfit,
  is_number_out,
  is_out,
  is_same_type,
  is_twice,
  is_unknown,
  may_call,
  replicas_faults,
};

use crate::argument::Argument;
use crate::event_line::EventLine;
use crate::event_parts::Caller;
use crate::header::Declaration;
use crate::known::Known;
use crate::rules::Faults;
use crate::schedule::Schedule;
use ql_base::{
    MAX_DECLARED_OBJECTS, MAX_EVENTS, MAX_OBJECTS, MAX_REPLICAS, MAX_SESSIONS, OpId, TypeId, Word,
};
use ql_lang::Param;
use ql_typing::Typed;

/// The rules that a number of replicas breaks.
pub(crate) fn replicas_faults(number: u64) -> Faults
    ensures { result ≡ replicas_faults number }
{
    Faults {
        unknown: false,
        kind: false,
        range: number == 0 || number > u64::from(MAX_REPLICAS),
        too_many: false,
        twice: false,
    }
}

/// The rules that a declaration breaks after the earlier declarations.
pub(crate) fn declaration_faults(t: &Typed, so_far: &Schedule, line: &Declaration) -> Faults
    ensures { result ≡ declaration_faults t.now.program so_far.now line.now }
{
    match line {
        Declaration::Object { name, kind } => Faults {
            unknown: t.type_named(kind.bytes()).is_none(),
            kind: false,
            range: false,
            too_many: so_far.objects.len() as usize >= MAX_OBJECTS,
            twice: so_far.objects.find(name.bytes()).is_some(),
        },
        Declaration::Events => Faults {
            unknown: false,
            kind: false,
            range: false,
            too_many: false,
            twice: false,
        },
    }
}

/// The rules that an event breaks after the earlier lines, when there are this many replicas.
pub(crate) fn event_faults(
    t: &Typed,
    so_far: &Schedule,
    replicas: u32,
    line: &EventLine,
    known: &Known,
) -> Faults
    requires { AreNumbers t.now.program so_far.now line.now known.now }
    ensures { result ≡ event_faults t.now.program so_far.now replicas line.now }
{
    Faults {
        unknown: is_unknown(t, so_far, line, known),
        kind: is_misfit(t, so_far, line, known),
        range: is_out(replicas, line),
        too_many: so_far.events.items().len() >= MAX_EVENTS
            || declares_too_many(line)
            || is_full(replicas, line),
        twice: is_twice(line),
    }
}

fn is_unknown(t: &Typed, so_far: &Schedule, line: &EventLine, known: &Known) -> bool
    requires { AreNumbers t.now.program so_far.now line.now known.now }
    ensures { result ≡ is_unknown t.now.program so_far.now line.now }
{
    match line {
        EventLine::Call { .. } => known.object.is_none() || known.op.is_none(),
        EventLine::Begin { .. } => known.decl.is_none() || known.objects.is_none(),
        _ => false,
    }
}

fn is_misfit(t: &Typed, so_far: &Schedule, line: &EventLine, known: &Known) -> bool
    requires { AreNumbers t.now.program so_far.now line.now known.now }
    ensures { result ≡ is_misfit t.now.program so_far.now line.now }
{
    match line {
        EventLine::Call { args, .. } => !may_call(t, so_far, known.object, known.op, args.items()),
        _ => false,
    }
}

// Whether an operation is of an object's type, and arguments fit it. Unknown names are accepted here.
fn may_call(
    t: &Typed,
    so_far: &Schedule,
    object: Option<u32>,
    op: Option<OpId>,
    args: &[Argument],
) -> bool
    requires { IfSome op (λ o. o.0 < length (all_ops t.now.program.types)) }
    ensures { result ≡ may_call t.now.program so_far.now object (option_map (λ o. o.0) op)
        args.now }
{
    match (object, op) {
        (Some(object), Some(op)) => {
            is_of_type(so_far, object, t.kind_of(op)) && fit(t.op(op).params.items(), args)
        }
        _ => true,
    }
}

// Whether an object is of a type.
fn is_of_type(so_far: &Schedule, object: u32, kind: TypeId) -> bool
    ensures { result ≡ is_same_type (slice_get so_far.now.kinds object) (Some kind.0) }
{
    match so_far.kinds.items().get(object as usize) {
        Some(of) => of.0 == kind.0,
        None => false,
    }
}

#[tactic(auto, unfolding(crate::specs::Arguments::fit))]
// Whether arguments are of the kinds of parameters, one for each.
fn fit(params: &[Param], args: &[Argument]) -> bool
    ensures { result ≡ fit params.now args.now }
{
    match (params.split_first(), args.split_first()) {
        (Some((param, params)), Some((arg, args))) => arg.has_base(param.base) && fit(params, args),
        (None, None) => true,
        _ => false,
    }
}

fn is_out(replicas: u32, line: &EventLine) -> bool
    ensures { result ≡ is_out replicas line.now }
{
    let count = u64::from(replicas);
    match line {
        EventLine::Call { caller, args, .. } => {
            is_caller_out(replicas, *caller) || has_too_great(args.items())
        }
        EventLine::Begin { caller, .. } | EventLine::Commit(caller) => is_caller_out(
            replicas, *caller,
        ),
        EventLine::Deliver(n) | EventLine::Repeat(n) | EventLine::Lose(n) => is_number_out(*n),
        EventLine::Resend { effect, from, to } => {
            is_number_out(*effect) || *from >= count || *to >= count
        }
        EventLine::Partition(groups) => are_groups_out(replicas, groups.items()),
        EventLine::Heal => false,
        EventLine::Join { near, .. } => *near >= count,
    }
}

fn is_caller_out(replicas: u32, caller: Caller) -> bool
    ensures { result ≡ is_caller_out replicas caller }
{
    caller.session >= u64::from(MAX_SESSIONS) || caller.replica >= u64::from(replicas)
}

fn is_number_out(number: u64) -> bool
    ensures { result ≡ is_number_out number }
{
    number > u64::from(u32::MAX)
}

// Each replica has its group, of which there are 16.
fn are_groups_out(replicas: u32, groups: &[u64]) -> bool
    ensures { result ≡ are_groups_out replicas groups.now }
{
    groups.len() != replicas as usize || has_great_group(groups)
}

fn has_great_group(groups: &[u64]) -> bool
    ensures { result ≡ list_any (λ g. nat_le 16 g) groups.now }
{
    groups.iter().any(|group| *group >= 16)
}

fn has_too_great(arguments: &[Argument]) -> bool
    ensures { result ≡ list_any is_too_great arguments.now }
{
    arguments.iter().any(is_too_great)
}

fn is_too_great(argument: &Argument) -> bool
    ensures { result ≡ is_too_great argument.now }
{
    matches!(argument, Argument::TooGreat)
}

fn declares_too_many(line: &EventLine) -> bool
    ensures { result ≡ declares_too_many line.now }
{
    match line {
        EventLine::Begin { objects, .. } => objects.items().len() > MAX_DECLARED_OBJECTS,
        _ => false,
    }
}

// Whether a replica joins although there are already as many as allowed.
fn is_full(replicas: u32, line: &EventLine) -> bool
    ensures { result ≡ is_full replicas line.now }
{
    match line {
        EventLine::Join { .. } => replicas >= MAX_REPLICAS,
        _ => false,
    }
}

fn is_twice(line: &EventLine) -> bool
    ensures { result ≡ is_twice line.now }
{
    match line {
        EventLine::Begin { objects, .. } => {
            objects.items().len() <= MAX_DECLARED_OBJECTS && has_repeat(objects.items())
        }
        _ => false,
    }
}

#[tactic(auto, unfolding(crate::specs::Judging::has_repeat))]
// Whether a word occurs twice in a short list.
fn has_repeat(words: &[Word]) -> bool
    ensures { result ≡ has_repeat words.now }
{
    match words.split_first() {
        Some((word, words)) => { has_word(words, word) || has_repeat(words) }
        None => false,
    }
}

// Whether a word is in a list.
fn has_word(words: &[Word], word: &Word) -> bool
    ensures { result ≡ list_any (bytes_eq word.now) words.now }
{
    words.iter().any(|other| word.bytes() == other.bytes())
}
