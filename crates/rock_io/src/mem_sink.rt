ghost use Rattle.std.specs.Prelude.{◌≡◌, ◌↔◌, ◌⊎◌, ℕ, ◌+◌, ◌<◌, ◌≤◌, min, true, IsErr, IfOk, OnErr, List, [], ◌++◌, length, take, vec_len};
ghost use Rattle.std.specs.Vec.{vec_capacity};
ghost use Rattle.rock_io.specs.Faults.{one_more, Rose, CountsFault};

use crate::{Failed, Memory, Plan, Sink};
use std::alloc::Global;

/// Takes bytes into memory that was reserved at the start, in pieces of a length that is set, and
/// fails at the calls that are listed and where no room is left. It is for trying code out on
/// sinks that fail.
#[derive(Debug, Drop)]
pub struct MemSink {
    bytes: Vec<u8>,
    room: usize,
    most: usize,
    plan: Plan,
    ghost reserved: { vec_len bytes + room ≤ vec_capacity bytes },
    ghost takes_some: { 0 < most },
}

impl MemSink {
    ghost use Rattle.rock_io.specs.MemSink.{taken_of, room_of, most_of, listed_calls_of, calls_of, faults_of};

    /// A sink with room for `room` bytes, which takes at most `most` of them in a call. The calls
    /// are numbered from 0, and those in `fail` fail. It is an error where no memory is left.
    pub fn new(alloc: Global, room: usize, most: usize, fail: Vec<u64>) -> Result<Self, Memory>
        requires { 1 ≤ most }
        ensures taken { IfOk result (λ sink. taken_of sink ≡ []) }
        ensures room { IfOk result (λ sink. room_of sink ≡ room) }
        ensures most { IfOk result (λ sink. most_of sink ≡ most) }
        ensures fail { IfOk result (λ sink. listed_calls_of sink ≡ fail.items) }
        ensures calls { IfOk result (λ sink. calls_of sink ≡ 0) }
        ensures faults { IfOk result (λ sink. faults_of sink ≡ 0) }
    {
        Ok(MemSink {
            bytes: Vec::with_capacity(alloc, room)?,
            room,
            most,
            plan: Plan::new(fail),
        })
    }

    /// The bytes that were taken, in order.
    pub fn taken(&self) -> &[u8]
        ensures { result.now ≡ taken_of self.now }
    {
        &self.bytes
    }
}

impl Sink for MemSink {
    ghost use Rattle.rock_io.specs.MemSink.{taken_of, room_of, most_of, calls_of, faults_of, FailsNext, SameSettings};

    ghost tells = { true };

    ghost taken = { taken_of };

    ghost faults = { faults_of };

    /// Takes as many bytes as the setting, the room and `bytes` allow, or fails, exactly where
    /// there is a byte to take, and this call is listed or no room is left. It takes no memory.
    fn write(&mut self, bytes: &[u8]) -> Result<usize, Failed>
        // What each sink ensures.
        ensures count { IfOk result (λ n. n ≤ length bytes.now) }
        ensures some { IfOk result (λ n. 0 < length bytes.now → 0 < n) }
        ensures taken { IfOk result (λ n.
            taken_of self.new ≡ taken_of self.old ++ take n bytes.now) }
        ensures kept { OnErr result (taken_of self.new ≡ taken_of self.old) }
        ensures faults { faults_of self.old ≤ faults_of self.new }
        ensures failed { OnErr result (Rose (faults_of self.old) (faults_of self.new)) }

        // And what this one does.
        ensures refused { IsErr result
            ↔ ((0 < length bytes.now) × (FailsNext self.old ⊎ (room_of self.old ≡ 0))) }
        ensures exact { IfOk result (λ n.
            n ≡ min (min (most_of self.old) (room_of self.old)) (length bytes.now)) }
        ensures room { length (taken_of self.new) + room_of self.new
            ≡ length (taken_of self.old) + room_of self.old }
        ensures calls { calls_of self.new ≡ one_more (calls_of self.old) }
        ensures counted { CountsFault result (faults_of self.old) (faults_of self.new) }
        ensures settings { SameSettings self.old self.new }
    {
        let listed = self.plan.begin_call();
        if bytes.is_empty() {
            return Ok(0);
        }
        if listed || self.room == 0 {
            return Err(self.plan.fault());
        }
        let count = self.most.min(self.room).min(bytes.len());
        self.room -= count;
        match self.bytes.extend_from_slice(&bytes[..count]) {
            Ok(()) => Ok(count),
            // The room was reserved.
            Err(_) => unreachable!(),
        }
    }
}
