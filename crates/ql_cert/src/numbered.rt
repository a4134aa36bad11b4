ghost use Rattle.ql_lines.specs.Answers.{IsLineAnswer};
ghost use Rattle.ql_lines.specs.Fields.{fields_of};
ghost use Rattle.ql_cert.specs.Readings.{Extends};

use crate::fault::CertRule;
use crate::line::line_body;
use ql_lines::LineFault;
use ql_refute::Lines;
use std::alloc::Global;

/// The lines of a refutation with one more, which has this number and body.
pub(crate) fn with_line(
    alloc: Global,
    lines: Lines,
    number: u64,
    body: &[u8],
) -> Result<Lines, LineFault<CertRule>>
    ensures { IsLineAnswer (Extends lines number (fields_of body.now)) result }
{
    let Some(line) = line_body(alloc, body)? else {
        return Err(LineFault::Breaks(CertRule::Unexpected));
    };
    let mut more = lines.into_items();
    if number != more.len() as u64 + 1 {
        return Err(LineFault::Breaks(CertRule::Number));
    }
    more.push(line)?;
    Ok(Lines::of(more))
}
