// Certificates and proofs as texts. Its one contract: what is printed is in the grammar, and reading returns
// what the text spells, or the text's first fault; no text has both, or two of either.
#![tactic(auto)]

mod cert;
mod cert_reader;
mod fault;
mod fields;
mod line;
mod numbered;
mod parse;
mod print;
mod proof;
mod proof_reader;
mod unique;

pub use cert::{Cert, Section, SectionLevel, Sections};
pub use fault::CertFault;
pub use parse::parse_cert;
pub use print::{print_cert, title_text, with_end, with_section};
pub use proof::parse_proof;
pub use unique::{one_certificate, one_proof};
