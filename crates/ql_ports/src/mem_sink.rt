ghost use Rattle.std.specs.Prelude.{◌≤◌, vec_len, vec_capacity};

use crate::faults::{is_failing_call, next_count};
use crate::ports::{Failed, Sink};
use ql_base::NoMemory;
use std::alloc::Global;

/// A sink in memory, for tests: it takes bytes in pieces while it has room, and fails at chosen
/// puts.
#[derive(Drop)]
pub struct MemSink {
    taken: Vec<u8>,
    room: usize,
    piece: usize,
    failing: Vec<u64>,
    puts: u64,
    faults: u64,
    ghost has_piece: { 1 ≤ piece },
    ghost in_room: { vec_len taken ≤ room },
    ghost has_room: { room ≤ vec_capacity taken },
}

impl MemSink {
    ghost use Rattle.std.specs.Prelude.{◌≡◌, ◌≤◌, IfOk};
    ghost use Rattle.ql_ports.specs.MemSink.{IsNewSink, taken_of};

    /// An empty sink with room for `room` bytes. A put takes at most `piece` bytes, and `failing` has
    /// the numbers of the puts that fail, counted from 1.
    pub fn new(
        alloc: Global,
        room: usize,
        piece: usize,
        failing: Vec<u64>,
    ) -> Result<MemSink, NoMemory>
        requires { 1 ≤ piece }
        ensures { IfOk result (IsNewSink room piece failing.items) }
    {
        Ok(MemSink {
            taken: Vec::with_capacity(alloc, room)?,
            room,
            piece,
            failing,
            puts: 0,
            faults: 0,
        })
    }

    /// The bytes that were taken.
    pub fn bytes(&self) -> &[u8]
        ensures { result.now ≡ taken_of self.now }
    {
        &self.taken
    }
}

impl Sink for MemSink {
    ghost use Rattle.std.specs.Prelude.{◌≡◌, ◌≢◌, ◌<◌, ◌≤◌, List, [], ℕ, length, take, Some, IfOk, OnOk, OnErr};
    ghost use Rattle.std.specs.Result.{result_ok};
    ghost use Rattle.ql_ports.specs.Faults.{Rose};
    ghost use Rattle.ql_ports.specs.Written.{appended};
    ghost use Rattle.ql_ports.specs.MemSink.{taken_of, count_of, put_of, IsPutSink};

    ghost written = { λ sink. Some (taken_of sink) };

    ghost faults = { count_of };

    fn put(&mut self, bytes: &[u8]) -> Result<usize, Failed>
        // As for every sink.
        ensures within { IfOk result (λ count. count ≤ length bytes.now) }
        ensures some { IfOk result (λ count. bytes.now ≢ [] → 0 < count) }
        ensures taken { IfOk result (λ count.
            Some (taken_of self.new) ≡ appended (Some (taken_of self.old)) (take count bytes.now)) }
        ensures kept { OnErr result (Some (taken_of self.new) ≡ Some (taken_of self.old)) }
        ensures failed { OnErr result (Rose (count_of self.old) (count_of self.new)) }
        ensures count_stays { count_of self.old ≤ count_of self.new }

        // What this sink returns.
        ensures answer { result_ok result ≡ put_of self.old bytes.now }
        ensures no_fault { OnOk result (count_of self.new ≡ count_of self.old) }
        ensures put { IsPutSink self.old self.new }
    {
        self.puts = next_count(self.puts);
        let left = self.room - self.taken.len();
        let full = left == 0 && !bytes.is_empty();
        if full || is_failing_call(&self.failing, self.puts) {
            self.faults = next_count(self.faults);
            return Err(Failed);
        }
        let count = self.piece.min(left).min(bytes.len());
        self.taken.extend_from_slice(&bytes[..count]).unwrap();
        Ok(count)
    }
}
