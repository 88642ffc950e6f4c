//! A sink over memory.
ghost use Rattle.std.specs.Prelude.{◌≡◌, ◌||◌, ◌-◌, ◌<◌, ◌≤◌, ◌++◌, [], Some, length, take, IfOk, OnErr, is_err, not, nat_lt, vec_len, vec_capacity, if◌then◌else◌};
ghost use Rattle.zac_io.specs.Outside.{HasCause, Writes};

use crate::calls::Calls;
use crate::{Failed, Memory, Sink};
use std::alloc::Global;
use zac_gates::List;

/// Bytes in memory, which a write adds to.
///
/// Calls are counted from 1, and the listed ones fail and pass no byte. A write past the room passes what fits and
/// fails too. No write takes memory.
#[derive(Drop)]
pub struct MemSink {
    bytes: Vec<u8>,
    room: usize,
    calls: Calls,
    faults: u64,
    ghost has_room: { room ≤ vec_capacity bytes },
}

impl MemSink {
    ghost use Rattle.zac_io.specs.MemSink.{bytes_of, room_of, sink_calls, sink_faults};

    /// An empty sink with room for this many bytes. Calls with a number in `failing` fail.
    pub fn new(alloc: Global, room: usize, failing: List<u64>) -> Result<MemSink, Memory>
        ensures bytes { IfOk result (λ sink. bytes_of sink ≡ []) }
        ensures room { IfOk result (λ sink. room_of sink ≡ room) }
        ensures calls { IfOk result (λ sink. sink_calls sink ≡ record { made = 0; failing = failing }) }
        ensures faults { IfOk result (λ sink. sink_faults sink ≡ 0) }
    {
        let bytes = Vec::with_capacity(alloc, room)?;
        Ok(MemSink {
            bytes,
            room,
            calls: Calls { made: 0, failing },
            faults: 0,
        })
    }

    /// The bytes written so far.
    pub fn bytes(&self) -> &[u8]
        ensures { result.now ≡ bytes_of self.now }
    {
        self.bytes.as_slice()
    }

    /// How many calls failed; it stays at 2^64 - 1.
    pub fn faults(&self) -> u64
        ensures { result ≡ sink_faults self.now }
    {
        self.faults
    }
}

// Adds as many of the bytes as the room takes, which the vector has, and answers whether it took all. It takes no
// memory.
fn add_front(held: &mut Vec<u8>, room: usize, bytes: &[u8]) -> bool
    requires { room ≤ vec_capacity held.old }
    ensures all { result ≡ not (nat_lt (room - vec_len held.old) (length bytes.now)) }
    ensures bytes { held.new.items ≡ held.old.items ++ take (room - vec_len held.old) bytes.now }
    ensures room { room ≤ vec_capacity held.new }
{
    let left = room.saturating_sub(held.len());
    let count = left.min(bytes.len());
    held.extend_from_slice(&bytes[..count]).unwrap();
    left >= bytes.len()
}

impl Sink for MemSink {
    ghost use Rattle.zac_io.specs.Outside.{next_count};
    ghost use Rattle.zac_io.specs.Calls.{fails_next, after_call};
    ghost use Rattle.zac_io.specs.MemSink.{bytes_of, room_of, room_left, sink_calls, sink_faults};

    ghost written = { λ sink. Some (bytes_of sink) };

    ghost faults = { sink_faults };

    fn write(&mut self, bytes: &[u8]) -> Result<(), Failed>
        // What a sink promises.
        ensures bytes { Writes (Some (bytes_of self.old)) (Some (bytes_of self.new)) bytes.now result }
        ensures cause { HasCause result (sink_faults self.old) (sink_faults self.new) }

        // It fails exactly at a listed call, which passes no byte, and past the room, which passes what fits.
        ensures same_room { room_of self.new ≡ room_of self.old }
        ensures counted { sink_calls self.new ≡ after_call (sink_calls self.old) }
        ensures fails { is_err result ≡ (fails_next (sink_calls self.old) || nat_lt (room_left self.old) (length bytes.now)) }
        ensures passed { bytes_of self.new ≡ bytes_of self.old ++ (if fails_next (sink_calls self.old) then [] else take (room_left self.old) bytes.now) }
        ensures one_fault { OnErr result (sink_faults self.new ≡ next_count (sink_faults self.old)) }
    {
        if self.calls.fails() {
            self.faults = self.faults.saturating_add(1);
            return Err(Failed);
        }
        if !add_front(&mut self.bytes, self.room, bytes) {
            self.faults = self.faults.saturating_add(1);
            return Err(Failed);
        }
        Ok(())
    }
}
