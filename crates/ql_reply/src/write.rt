ghost use Rattle.std.specs.Prelude.{◌≤◌};
ghost use Rattle.ql_reply.specs.Wrote.{IsWritten};

use crate::status::Status;
use ql_ports::{Failed, Sink, write_whole};

/// Writes the text of a reply, and returns how the call ended: with the reply's status, or with `WriteFault`.
pub fn write_reply<K: Sink>(sink: &mut K, status: Status, text: &[u8]) -> Status
    ensures written { IsWritten status text.now (K.written sink.old) (K.written sink.new)
        (K.faults sink.old) (K.faults sink.new) result }
    ensures count_stays { K.faults sink.old ≤ K.faults sink.new }
{
    match write_whole(sink, text) {
        Ok(()) => status,
        Err(Failed) => Status::WriteFault,
    }
}
