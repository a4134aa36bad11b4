// What a contract or an expression of a source can't say, and what to write instead.

use crate::pieces::{last_of, part_of, piece, piece_before};
use crate::text::Text;
use crate::words::{is, row};
use ql_base::is_name;

// By the token that isn't allowed, in a contract.
const IN_CONTRACTS: &str =
    "!= a contract has no `!=` and no `not`: `a != b /\\ P => Q` is written `P => Q \\/ a = b`
not a contract has no `not`: `P /\\ not Q => R` is written `P => R \\/ Q`, and `P => not Q` is `P /\\ Q => vis(a, a)`, since no effect sees itself
false a contract has no `false`: `vis(a, a)` is never true, since no effect sees itself
forall a contract has one `forall`, at its beginning, before any bracket: list all variables there
and contracts are joined by `/\\`
or contracts are joined by `\\/`
> a contract compares nothing: it says which effects see which, and can't mention arguments, answers or fields
< a contract compares nothing: it says which effects see which, and can't mention arguments, answers or fields
>= a contract compares nothing: it says which effects see which, and can't mention arguments, answers or fields
<= a contract compares nothing: it says which effects see which, and can't mention arguments, answers or fields
== effects are compared by `=`: `a = b` says that they are the same";

// By the token that isn't allowed, in an expression or where statements are.
const ELSEWHERE: &str = "= `==` compares, and `:=` assigns, in `apply` alone
/\\ expressions are joined by `and`
\\/ expressions are joined by `or`
[ `get(m, k, d)` is the value of a key of a map, or `d` where the key is missing
=> an expression has no `=>`: `not a or b` says that a implies b";

const RELATIONS: &[u8] =
    b"  the relations are `vis`, `so`, `soo`, `sameobj`, `eq`, `hb` and `hbo`, each of two effects, and `a = b`\n";

/// Appends what to write instead of what is at a token that isn't allowed, where that is known.
pub(crate) fn push_advice(note: &mut Text, tokens: &[&[u8]], k: usize) {
    let (word, before) = (piece(tokens, k), piece_before(tokens, k));
    let is_contract = is(part_of(tokens, k.saturating_sub(1)).0, b"contract");
    let advice = row(if is_contract { IN_CONTRACTS } else { ELSEWHERE }, word);
    if !advice.is_empty() {
        note.push(b"  ");
        note.push(advice);
        note.push(b"\n");
    } else if is(word, b".") && matches!(before.first(), Some(b'0'..=b'9')) {
        note.push(b"  numbers are whole: there are no fractions\n");
    } else if is_contract && is_name(before) && !is_quantified(tokens, k) {
        push_name_advice(note, word, before);
    }
}

// Whether a token of a contract is among its quantified variables.
fn is_quantified(tokens: &[&[u8]], k: usize) -> bool {
    match last_of(tokens, k.saturating_sub(1), b"forall contract .") {
        Some(j) => is(piece(tokens, j), b"forall"),
        None => false,
    }
}

// What to write instead of a name in a contract, after which a word isn't allowed.
fn push_name_advice(note: &mut Text, word: &[u8], name: &[u8]) {
    if is(word, b".") {
        note.push(
            b"  a contract says which effects see which, and can't mention arguments, answers or fields\n",
        );
    } else if is(word, b"(") {
        note.push_filled(b"  `%` isn't a relation\n", &[name]);
    } else if is_name(word) {
        note.push_filled(
            b"  `%` was read as a variable: a contract begins with `forall` and its variables, and there is no other quantifier\n",
            &[name],
        );
    } else {
        return;
    }
    note.push(RELATIONS);
}
