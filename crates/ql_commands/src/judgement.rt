ghost use Rattle.std.specs.Prelude.{◌<◌, ◌^◌, length, IfOk};
ghost use Rattle.ql_commands.specs.Check.{CheckSays, SectionsSay};

use crate::cert_fault::bad_certificate;
use crate::order::{first_out_of_order, out_of_order};
use crate::section_lines::push_sections;
use crate::source::read_source;
use crate::source_fault::bad_source;
use ql_base::NoMemory;
use ql_cert::{Section, parse_cert};
use ql_reply::Reply;
use ql_typing::Typed;
use std::alloc::Global;

/// Whether the sections of a certificate are those of the source's targets, in order, and each refutes
/// the ground problem of its target at its level.
pub fn check(alloc: Global, source: &[u8], certificate: &[u8]) -> Result<Reply, NoMemory>
    requires { length source.now < 2 ^ 32 }
    ensures { IfOk result (λ reply. CheckSays source.now certificate.now reply.status reply.text.items) }
{
    let typed = match read_source(alloc, source) {
        Ok(typed) => typed,
        Err(fault) => return bad_source(alloc, fault),
    };
    let cert = match parse_cert(alloc, certificate) {
        Ok(cert) => cert,
        Err(fault) => return bad_certificate(alloc, fault),
    };
    check_sections(alloc, &typed, cert.sections.items())
}

fn check_sections(alloc: Global, t: &Typed, sections: &[Section]) -> Result<Reply, NoMemory>
    ensures { IfOk result
        (λ reply. SectionsSay t.now.program sections.now reply.status reply.text.items) }
{
    if let Some(place) = first_out_of_order(t, sections) {
        return out_of_order(alloc, place);
    }
    let mut text = Vec::new(alloc);
    let (status, cause) = push_sections(alloc, t, 0, sections, &mut text)?;
    Ok(Reply {
        status,
        text,
        cause,
    })
}
