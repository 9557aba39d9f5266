//! Ports over memory.
ghost use Rattle.std.specs.Prelude.{◌≡◌, ◌<◌, ◌≤◌, ◌+◌, ◌-◌, ◌||◌, false, nat_eq, Some, [], length, is_err, IfOk, MatchResult, vec_len, vec_capacity};
ghost use Rattle.byte_ports.specs.SourceCalls.{ReadsInto};
ghost use Rattle.byte_ports.specs.TargetCalls.{FlushesSent, WritesPiece};

use crate::ports::{PortFault, Source, Target};
use std::alloc::{AllocError, Global};

/// How a port over memory moves its bytes: at most `max_piece` per call, with a failure at one of the
/// calls if that is wanted. A flush counts as a call. A call with an empty piece does not.
#[derive(Clone, Copy, Debug)]
pub struct CallPlan {
    pub max_piece: usize,
    /// The number of calls that succeed before one fails, or `None` if all succeed.
    pub good_calls: Option<u64>,
    ghost moves: { 0 < max_piece },
}

impl CallPlan {
    ghost use Rattle.byte_ports.specs.MemoryPorts.{after_call, has_call};

    /// At most `max_piece` bytes per call, and `good_calls` calls before one fails.
    pub fn new(max_piece: usize, good_calls: Option<u64>) -> CallPlan
        requires { 0 < max_piece }
        ensures piece { result.max_piece ≡ max_piece }
        ensures calls { result.good_calls ≡ good_calls }
    {
        CallPlan {
            max_piece,
            good_calls,
        }
    }

    // Counts a call, and returns whether it may succeed.
    fn count_call(&mut self) -> bool
        ensures may_succeed { result ≡ has_call self.old.good_calls }
        ensures after_call { self.new ≡ after_call self.old }
    {
        match self.good_calls {
            None => true,
            Some(0) => false,
            Some(n) => {
                self.good_calls = Some(n - 1);
                true
            }
        }
    }
}

/// Bytes in memory as a source.
#[derive(Drop)]
pub struct MemorySource<'a> {
    rest: &'a [u8],
    plan: CallPlan,
    failed: bool,
    // Whether a read has reported the end.
    ended: bool,
}

impl<'a> MemorySource<'a> {
    ghost use Rattle.byte_ports.specs.MemoryPorts.{source_plan};

    /// The source of these bytes.
    pub fn new(bytes: &'a [u8], plan: CallPlan) -> MemorySource<'a>
        ensures bytes { ⟦<MemorySource<'a> as Source>⟧.left result ≡ Some bytes.now }
        ensures sound { ⟦<MemorySource<'a> as Source>⟧.has_failed result ≡ false }
        ensures unended { ⟦<MemorySource<'a> as Source>⟧.has_ended result ≡ false }
        ensures plan { source_plan result ≡ plan }
    {
        MemorySource {
            rest: bytes,
            plan,
            failed: false,
            ended: false,
        }
    }
}

impl<'a> Source for MemorySource<'a> {
    ghost use Rattle.byte_ports.specs.MemoryPorts.{is_failed_source, is_last_call, moves, plan_after, source_plan};

    ghost left = { λ s. Some s.rest.now };

    ghost has_failed = { λ s. s.failed };

    ghost has_ended = { λ s. s.ended };

    /// Moves the most bytes that the source, the buffer and the plan allow. Fails at the failing call.
    fn read(&mut self, buffer: &mut [u8]) -> Result<usize, PortFault>
        ensures source { ReadsInto ⟦<MemorySource<'a> as Source>⟧ self.old self.new buffer.old buffer.new result }
        ensures count { IfOk result (λ n. n ≡ moves self.old (length buffer.old)) }
        ensures failing_call { is_failed_source self.old ≡ false → 0 < length buffer.old →
            is_err result ≡ is_last_call (source_plan self.old) }
        ensures plan { is_failed_source self.old ≡ false →
            source_plan self.new ≡ plan_after (source_plan self.old) (length buffer.old) }
    {
        if self.failed {
            return Err(PortFault);
        }
        if buffer.is_empty() {
            return Ok(0);
        }
        if !self.plan.count_call() {
            self.failed = true;
            return Err(PortFault);
        }
        let rest = self.rest;
        let count = rest.len().min(buffer.len()).min(self.plan.max_piece);
        let (piece, after) = rest.split_at(count);
        buffer[..count].copy_from_slice(piece);
        self.rest = after;
        self.ended = self.ended || count == 0;
        Ok(count)
    }
}

/// Memory as a target. It allocates nothing after it is made.
#[derive(Drop)]
pub struct MemoryTarget {
    bytes: Vec<u8>,
    // The number of bytes for which there is still room.
    room: usize,
    flushed: usize,
    plan: CallPlan,
    failed: bool,
    ghost holds: { vec_len bytes + room ≤ vec_capacity bytes },
}

impl MemoryTarget {
    ghost use Rattle.byte_ports.specs.MemoryPorts.{room_of, takes, target_plan};

    /// An empty target with room for `room` bytes.
    pub fn new(alloc: Global, room: usize, plan: CallPlan) -> Result<MemoryTarget, AllocError>
        ensures empty { IfOk result (λ target. ⟦<MemoryTarget as Target>⟧.sent target ≡ Some []) }
        ensures unflushed { IfOk result (λ target. ⟦<MemoryTarget as Target>⟧.flushed target ≡ Some 0) }
        ensures sound { IfOk result (λ target. ⟦<MemoryTarget as Target>⟧.has_failed target ≡ false) }
        ensures room { IfOk result (λ target. room_of target ≡ room) }
        ensures plan { IfOk result (λ target. target_plan target ≡ plan) }
    {
        Ok(MemoryTarget {
            bytes: Vec::with_capacity(alloc, room)?,
            room,
            flushed: 0,
            plan,
            failed: false,
        })
    }

    /// The bytes that were sent.
    pub fn bytes(&self) -> &[u8]
        ensures { ⟦<MemoryTarget as Target>⟧.sent self.now ≡ Some result.now }
    {
        self.bytes.as_slice()
    }

    /// The number of sent bytes that are flushed.
    pub fn flushed(&self) -> usize
        ensures { ⟦<MemoryTarget as Target>⟧.flushed self.now ≡ Some result }
    {
        self.flushed
    }

    // The number of bytes that the next write accepts of a piece of this length.
    fn count_for(&self, wanted: usize) -> usize
        ensures { result ≡ takes self.now wanted }
    {
        wanted.min(self.room).min(self.plan.max_piece)
    }
}

impl Target for MemoryTarget {
    ghost use Rattle.byte_ports.specs.MemoryPorts.{after_call, is_failed_target, is_last_call, plan_after, room_of, takes, target_plan};

    ghost sent = { λ t. Some t.bytes.items };

    ghost flushed = { λ t. Some t.flushed };

    ghost has_failed = { λ t. t.failed };

    /// Accepts the most bytes of the piece that the room and the plan allow. Fails at the failing call, and
    /// if there is no room.
    fn write(&mut self, piece: &[u8]) -> Result<usize, PortFault>
        ensures target { WritesPiece ⟦<MemoryTarget as Target>⟧ self.old self.new piece.now result }
        ensures count { IfOk result (λ n. n ≡ takes self.old (length piece.now)) }
        ensures failing_call { is_failed_target self.old ≡ false → 0 < length piece.now →
            is_err result ≡ (is_last_call (target_plan self.old) || nat_eq (room_of self.old) 0) }
        ensures plan { is_failed_target self.old ≡ false →
            target_plan self.new ≡ plan_after (target_plan self.old) (length piece.now) }
        ensures room { MatchResult result
            (λ n. room_of self.new ≡ room_of self.old - n)
            (λ _. room_of self.new ≡ room_of self.old) }
    {
        if self.failed {
            return Err(PortFault);
        }
        if piece.is_empty() {
            return Ok(0);
        }
        let count = self.count_for(piece.len());
        if !self.plan.count_call() || count == 0 {
            self.failed = true;
            return Err(PortFault);
        }
        match self.bytes.extend_from_slice(&piece[..count]) {
            Ok(()) => {
                self.room -= count;
                Ok(count)
            }
            Err(_) => unreachable!(),
        }
    }

    /// Flushes the sent bytes. A flush counts as a call.
    fn flush(&mut self) -> Result<(), PortFault>
        ensures target { FlushesSent ⟦<MemoryTarget as Target>⟧ self.old self.new result }
        ensures failing_call { is_failed_target self.old ≡ false → is_err result ≡ is_last_call (target_plan self.old) }
        ensures plan { is_failed_target self.old ≡ false → target_plan self.new ≡ after_call (target_plan self.old) }
        ensures room { room_of self.new ≡ room_of self.old }
    {
        if self.failed || !self.plan.count_call() {
            self.failed = true;
            return Err(PortFault);
        }
        self.flushed = self.bytes.len();
        Ok(())
    }
}
