use ql_base::{EffId, IdSet, NoMemory, push_bytes, push_number};
use ql_exec::Execution;
use ql_machine::{Reply, Why};
use ql_value::print_value;

/// Appends replies with semicolons between them. A call's reply shows the answer of its effect.
pub(crate) fn push_replies(
    out: &mut Vec<u8>,
    replies: &[Reply],
    x: &Execution,
) -> Result<(), NoMemory> {
    let mut mark: &[u8] = b"";
    for reply in replies {
        push_bytes(out, mark)?;
        push_reply(out, reply, x)?;
        mark = b"; ";
    }
    Ok(())
}

fn push_reply(out: &mut Vec<u8>, reply: &Reply, x: &Execution) -> Result<(), NoMemory> {
    match reply {
        Reply::Ok(id) => push_answer(out, *id, x),
        Reply::Begun => push_bytes(out, b"begun"),
        Reply::Committed(ids) => push_ids(out, b"committed", ids),
        Reply::Blocked(id) => push_numbered(out, b"blocked ", id.0),
        Reply::Unavailable(replica) => push_numbered(out, b"unavailable ", replica.0),
        Reply::Held(session) => push_numbered(out, b"held ", session.0),
        Reply::Cut => push_bytes(out, b"cut"),
        Reply::Gone => push_bytes(out, b"gone"),
        Reply::Again => push_bytes(out, b"again"),
        Reply::Waits(id) => push_numbered(out, b"waits ", id.0),
        Reply::Applies(ids) => push_ids(out, b"applies", ids),
        Reply::Lost => push_bytes(out, b"lost"),
        Reply::Split => push_bytes(out, b"split"),
        Reply::Healed => push_bytes(out, b"healed"),
        Reply::Joined(replica) => push_numbered(out, b"joined ", replica.0),
        Reply::Sent(m) => push_numbered(out, b"sent ", m.0),
        Reply::Refused(why) => push_numbered(out, b"refused ", number_of(*why)),
    }
}

fn push_answer(out: &mut Vec<u8>, id: EffId, x: &Execution) -> Result<(), NoMemory> {
    push_numbered(out, b"ok ", id.0)?;
    if id.0 == 0 || id.0 > x.len() {
        return push_bytes(out, b" of no effect");
    }
    push_bytes(out, b" ")?;
    print_value(out, &x.get(id).answer)
}

fn push_ids(out: &mut Vec<u8>, word: &[u8], ids: &IdSet) -> Result<(), NoMemory> {
    push_bytes(out, word)?;
    for id in ids.items() {
        push_numbered(out, b" ", *id)?;
    }
    Ok(())
}

fn push_numbered(out: &mut Vec<u8>, word: &[u8], number: u32) -> Result<(), NoMemory> {
    push_bytes(out, word)?;
    push_number(out, number)
}

fn number_of(why: Why) -> u32 {
    match why {
        Why::AlreadyOpen => 1,
        Why::NotOpen => 2,
        Why::Undeclared => 3,
        Why::Unused => 4,
        Why::Absent => 5,
    }
}
