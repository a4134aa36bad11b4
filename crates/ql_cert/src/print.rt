ghost use Rattle.std.specs.Prelude.{◌≡◌, ◌++◌, ◌∷◌, [], IfOk, List, OnOk, map};
ghost use Rattle.std.specs.List.{AllByRecursion};
ghost use Rattle.ql_lines.specs.Lines.{ahead_from};
ghost use Rattle.ql_lines.specs.Texts.{spaced_fields, file_text, joined};
ghost use Rattle.ql_cert.specs.CertFile.{IsCertOf, IsSection, cert_lines, end_line, kind_word, level_word, section_lines, sections_lines, title};
ghost use Rattle.ql_cert.specs.Faults.{fields_in};
ghost use Rattle.ql_cert.specs.Spelling.{hint_field, line_fields, lit_field, numbered_lines};
ghost use Rattle.ql_cert.specs.declared.cert.Section.{Section};

use crate::cert::{Cert, SectionLevel};
use ql_base::{NoMemory, Word, push_bytes, push_number};
use ql_cnf::Lit;
use ql_levels::{level_word, txn_word};
use ql_refute::{Hint, Line, Refutation};
use std::alloc::Global;

/// The text of a certificate: its lines in order, with one space between fields. If its sections can be
/// spelled in the grammar, reading the text returns them.
pub fn print_cert(alloc: Global, c: &Cert) -> Result<Vec<u8>, NoMemory>
    ensures text { IfOk result (λ text. text.items ≡ file_text (cert_lines c.now.sections)) }
    ensures again { IfOk result
        (λ text. AllByRecursion IsSection c.now.sections
        → IsCertOf c.now.sections (fields_in (ahead_from 1 text.items).lines)) }
{
    let mut text = title_text(alloc)?;
    for section in c.sections.items() {
        text = with_section(text, section.name, section.level, &section.refutation)?;
    }
    with_end(text)
}

/// The first line of a certificate.
#[tactic(auto, unfolding(ql_lines::specs::Texts::file_text))]
pub fn title_text(alloc: Global) -> Result<Vec<u8>, NoMemory>
    ensures { IfOk result (λ text. text.items ≡ file_text (title ∷ [])) }
{
    Ok(Vec::from_slice(alloc, b"quelea certificate 1\n")?)
}

/// Appends the lines of a section to a text.
pub fn with_section(
    text: Vec<u8>,
    name: Word,
    level: SectionLevel,
    refutation: &Refutation,
) -> Result<Vec<u8>, NoMemory>
    ensures { IfOk result
        (λ more. more.items ≡ text.items
        ++ file_text (section_lines
        (record { name = name; level = level; refutation = refutation.now }))) }
{
    let mut more = text;
    push_section(&mut more, name, level, refutation)?;
    Ok(more)
}

#[tactic(auto, using(crate::proofs::Printing::section_pieces))]
fn push_section(
    out: &mut Vec<u8>,
    name: Word,
    level: SectionLevel,
    refutation: &Refutation,
) -> Result<(), NoMemory>
    ensures { OnOk result
        (out.new.items ≡ out.old.items
        ++ file_text (section_lines
        (record { name = name; level = level; refutation = refutation.now }))) }
{
    let (kind, word) = words(level);
    push_bytes(out, kind.as_bytes())?;
    push_bytes(out, b" ")?;
    push_bytes(out, name.bytes())?;
    push_bytes(out, b" ")?;
    push_bytes(out, word.as_bytes())?;
    push_bytes(out, b"\n")?;
    push_lines(out, refutation.lines.items())
}

/// Appends the last line of a certificate to a text.
pub fn with_end(text: Vec<u8>) -> Result<Vec<u8>, NoMemory>
    ensures text { IfOk result (λ more. more.items ≡ text.items ++ file_text (end_line ∷ [])) }

    // After the title and some sections, the result is the certificate of these sections.
    ensures cert { IfOk result
        (λ more. (ss : List Section) → text.items ≡ file_text (title ∷ sections_lines ss)
        → more.items ≡ file_text (cert_lines ss)) }

    // If the sections can be spelled in the grammar, reading the result returns them.
    ensures again { IfOk result
        (λ more. (ss : List Section) → text.items ≡ file_text (title ∷ sections_lines ss)
        → AllByRecursion IsSection ss
        → IsCertOf ss (fields_in (ahead_from 1 more.items).lines)) }
{
    let mut more = text;
    push_bytes(&mut more, b"end\n")?;
    Ok(more)
}

// The keyword of a target's kind and the name of its level.
#[tactic(auto, unfolding(crate::specs::CertFile::kind_word, crate::specs::CertFile::level_word))]
fn words(level: SectionLevel) -> (&'static str, &'static str)
    ensures kind { result.0.now ≡ kind_word level }
    ensures level { result.1.now ≡ level_word level }
{
    match level {
        SectionLevel::Op(level) => ("op", level_word(level)),
        SectionLevel::Txn(level) => ("txn", txn_word(level)),
    }
}

// Lines with their numbers, from 1.
fn push_lines(out: &mut Vec<u8>, lines: &[Line]) -> Result<(), NoMemory>
    ensures { OnOk result
        (out.new.items ≡ out.old.items ++ file_text (numbered_lines 1 lines.now)) }
{
    let mut number = 1;
    for line in lines {
        push_line(out, number, line)?;
        number += 1;
    }
    Ok(())
}

#[tactic(auto, using(crate::proofs::Printing::line_pieces))]
fn push_line(out: &mut Vec<u8>, number: u64, line: &Line) -> Result<(), NoMemory>
    ensures { OnOk result
        (out.new.items ≡ out.old.items ++ (joined (line_fields number line.now) ++ 10 ∷ [])) }
{
    push_number(out, number)?;
    push_literals(out, line.clause.items())?;
    push_bytes(out, b" :")?;
    push_hints(out, line.hints.items())?;
    push_bytes(out, b"\n")
}

fn push_literals(out: &mut Vec<u8>, literals: &[Lit]) -> Result<(), NoMemory>
    ensures { OnOk result (out.new.items ≡ out.old.items ++ spaced_fields (map lit_field literals.now)) }
{
    for literal in literals {
        push_bytes(out, b" ")?;
        push_literal(out, *literal)?;
    }
    Ok(())
}

#[tactic(auto, unfolding(crate::specs::Spelling::signed_field))]
fn push_literal(out: &mut Vec<u8>, literal: Lit) -> Result<(), NoMemory>
    ensures { OnOk result (out.new.items ≡ out.old.items ++ lit_field literal) }
{
    if !literal.positive {
        push_bytes(out, b"-")?;
    }
    push_number(out, literal.var)
}

fn push_hints(out: &mut Vec<u8>, hints: &[Hint]) -> Result<(), NoMemory>
    ensures { OnOk result (out.new.items ≡ out.old.items ++ spaced_fields (map hint_field hints.now)) }
{
    for hint in hints {
        push_bytes(out, b" ")?;
        push_hint(out, *hint)?;
    }
    Ok(())
}

#[tactic(auto, unfolding(crate::specs::Spelling::hint_field))]
fn push_hint(out: &mut Vec<u8>, hint: Hint) -> Result<(), NoMemory>
    ensures { OnOk result (out.new.items ≡ out.old.items ++ hint_field hint) }
{
    match hint {
        Hint::Given(number) => {
            push_bytes(out, b"c")?;
            push_number(out, number)
        }
        Hint::Earlier(number) => {
            push_bytes(out, b"l")?;
            push_number(out, number)
        }
    }
}
