// Notes on an answer that isn't yes, though no file is faulty: which contract or effect it is about.

use crate::effects::find_effect;
use crate::excerpt::{File, Spot};
use crate::lines::first_read;
use crate::pieces::{Span, anywhere, last_of, next_of, nth_of, piece, piece_after};
use crate::refusals::{line_at, whole_line};
use crate::sources::Reading;
use crate::text::Text;
use crate::words::{is, word_of};
use ql_reply::Part;

/// Appends a note on a contract for which no level is enough: that of the declaration whose keyword is a token.
pub(crate) fn push_no_level(note: &mut Text, source: &Reading, k: Option<usize>) {
    let Some(k) = k else {
        return;
    };
    push_contract(
        note,
        source,
        k,
        b"no level is enough for the contract of `%`",
    );
    note.push_filled(
        b"  `./quelea explain %` shows an execution in which the contract is false even at the highest level\n",
        &[source.file.name],
    );
    note.push_filled(
        b"  `./quelea classify --why %` shows that of each lower level\n",
        &[source.file.name],
    );
}

// Appends a sentence on the contract of the declaration whose keyword is a token, and marks the contract.
fn push_contract(note: &mut Text, source: &Reading, k: usize, sentence: &[u8]) {
    let contract = next_of(source.pieces, k, b"contract").unwrap_or(k);
    let first = source.spot(contract.saturating_add(1));
    let end = next_of(source.pieces, contract, b";").unwrap_or(contract);
    let spot = Spot {
        from: first.from,
        bytes: source.spot(end).from.saturating_sub(first.from),
    };
    note.begin_fault(source.file, spot, "note");
    note.push_filled(sentence, &[piece_after(source.pieces, k)]);
    note.end_fault(source.file, spot);
}

/// Appends a note on the use of a strong operation in a transaction, by the numbers of both in the source.
pub(crate) fn push_strong(note: &mut Text, source: &Reading, txn: u64, op: u64) {
    let pieces = source.pieces;
    let (Some(txn), Some(op)) = (
        nth_of(pieces, b"transaction", txn),
        nth_of(pieces, b"op", op),
    ) else {
        return;
    };
    let name = piece_after(pieces, op);
    let span = Span {
        from: txn,
        to: next_of(pieces, txn, b";").unwrap_or(txn),
        after: b"uses ,",
    };
    let spot = source.spot(span.find(pieces, name).unwrap_or(txn));
    note.begin_fault(source.file, spot, "note");
    note.push_filled(
        b"the least level of `%` is strong, so the transaction `%` can't use it",
        &[name, piece_after(pieces, txn)],
    );
    note.end_fault(source.file, spot);
    push_contract(note, source, op, b"this is the contract of `%`");
    note.push_filled(
        b"  `./quelea explain %` shows what makes it strong, and says what to do instead\n",
        &[source.file.name],
    );
}

/// Appends a note on the effect of a number at which a contract is false, or on the first effect of the begun
/// transaction of that number in which it is. A file of `holds` has no source.
pub(crate) fn push_failing(
    note: &mut Text,
    file: File,
    source: Option<&Reading>,
    number: u64,
    is_txn: bool,
) {
    let part = if source.is_some() {
        Part::Execution
    } else {
        Part::Holds
    };
    let Some(start) = find_effect(file.text, first_read(file.text, part), number, is_txn) else {
        return;
    };
    let spot = whole_line(file.text, start);
    note.begin_fault(file, spot, "note");
    note.push(if is_txn {
        b"in the begun transaction of this effect"
    } else {
        b"at this effect"
    });
    note.push(
        b" the contract is false if its variables stand for the effects that the answer names",
    );
    note.end_fault(file, spot);
    if let Some(source) = source {
        push_failing_contract(note, source, line_at(file.text, start), is_txn);
    }
}

// Appends the contract of an effect's operation, or of its transaction.
fn push_failing_contract(note: &mut Text, source: &Reading, line: &[u8], is_txn: bool) {
    let (keyword, name) = if is_txn {
        (
            b"transaction".as_slice(),
            crate::effects::transaction_of(line),
        )
    } else {
        (b"op".as_slice(), word_of(line, 3))
    };
    if let Some(k) = anywhere(source.pieces, keyword).find(source.pieces, name) {
        push_contract(
            note,
            source,
            k.saturating_sub(1),
            b"this is the contract of `%`",
        );
    }
}
