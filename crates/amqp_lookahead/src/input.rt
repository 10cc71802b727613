//! The bytes of a source, which are looked at before they are taken.
ghost use Rattle.std.specs.Prelude.{◌≤◌, ◌≡◌, ◌<◌, ◌+◌, ◌%◌, ◌^◌, ◌∷◌, ◌++◌, length, take, drop, min, false, true, Ok, IfOk, IfSome, OnErr, MatchOption};
ghost use Rattle.amqp_wire.specs.Sources.{known, Tells};
ghost use Rattle.amqp_lookahead.specs.State.{after_look, after_bytes, origin_of};

use amqp_wire::{ByteSource, pull_full};
use std::alloc::AllocError;
use std::io::ErrorKind;
use std::marker::Model;

/// How many bytes are looked at before they are taken at most.
pub(crate) const LOOK: usize = 64;

// Copies as many of the bytes as the buffer holds, and returns how many.
#[inline(always)]
fn copy_front(bytes: &[u8], buffer: &mut [u8]) -> usize
    ensures count { result ≡ min (length bytes.now) (length buffer.old) }
    ensures front { buffer.new ≡ take result bytes.now ++ drop result buffer.old }
{
    let count = buffer.len();
    if count <= bytes.len() {
        // The usual case, in which the compiler mostly knows how many bytes there are.
        buffer.copy_from_slice(&bytes[..count]);
        return count;
    }
    buffer[..bytes.len()].copy_from_slice(bytes);
    bytes.len()
}

/// The bytes of a source. Those that were looked at are the next that are taken. If the source has all of its bytes at hand, they stay in
/// it, and the number of those not looked at is kept. Otherwise they are moved to a buffer.
#[derive(Drop)]
pub struct Input<R: ByteSource> {
    source: R,
    // How many bytes a whole source had; of another, how many were taken, as a number of 64 bits.
    count: u64,
    // How many of the last bytes of a whole source weren't looked at.
    unseen: usize,
    start: usize,
    end: usize,
    looked: [u8; LOOK],
}

impl<R: ByteSource> Model for Input<R> {
    ghost use Rattle.std.specs.Prelude.{◌≤◌, ◌≡◌, ◌++◌, ◌-◌, ◌+◌, length, true};
    ghost use Rattle.amqp_wire.specs.Sources.{known};
    ghost use Rattle.amqp_lookahead.specs.State.{State, pending, seen_of, size_of};

    ghost Value = { State };

    ghost view = { λ i. record {
      rest = pending i.start i.end i.looked ++ known (R.remaining i.source);
      ahead = i.end - i.start + seen_of R.is_whole (known (R.remaining i.source)) i.unseen;
      source = record {
        name = R.name i.source;
        size = size_of R.is_whole i.count (pending i.start i.end i.looked ++ known (R.remaining i.source));
      };
      failed = R.failed i.source;
    } };

    ghost invariant = { λ i. (i.start ≤ i.end) × (i.end ≤ 64) × (R.is_whole ≡ true → i.end ≡ i.start)
        × (R.is_whole ≡ true → length (known (R.remaining i.source)) ≤ i.unseen + 64) };
}

impl<R: ByteSource> Input<R> {
    /// Returns the source's bytes, none of which was looked at.
    pub fn new(source: R) -> Self
        ensures { result ≡ record {
          rest = known (R.remaining source);
          ahead = 0;
          source = origin_of (R.name source) (known (R.remaining source));
          failed = R.failed source;
        } }
    {
        let unseen = match source.at_hand() {
            Some(bytes) => bytes.len(),
            None => 0,
        };
        Input {
            source,
            count: unseen as u64,
            unseen,
            start: 0,
            end: 0,
            looked: [0; LOOK],
        }
    }

    /// Returns the source. Bytes that were looked at are gone from it.
    pub fn into_source(self) -> R
        ensures named { R.name result ≡ self.source.name }
        ensures rest { known (R.remaining result) ≡ drop self.ahead self.rest }
        ensures failed { R.failed result ≡ self.failed }
    {
        let Input {
            mut source,
            unseen,
            ..
        } = self;
        if let Some(bytes) = source.at_hand() {
            let seen = bytes.len().saturating_sub(unseen);
            let mut passed = [0; LOOK];
            let _ = pull_full(&mut source, &mut passed[..seen]);
        }
        source
    }

    /// Returns how many bytes of the input were taken, as a number of 64 bits.
    #[inline]
    pub fn place(&self) -> u64
        ensures { (result + length self.now.rest) % 2 ^ 64 ≡ self.now.source.size }
    {
        match self.source.at_hand() {
            Some(bytes) => self.count.wrapping_sub(bytes.len() as u64),
            None => self.count,
        }
    }

    /// Fills the buffer with the next bytes, which are taken, and returns how many. They are fewer than it holds only at the end of the
    /// input. An error is the source's, which has failed.
    pub fn pull(&mut self, buffer: &mut [u8]) -> Result<usize, ErrorKind>
        ensures fits { IfOk result (λ n. n ≤ length buffer.old) }
        ensures bytes { Tells R.remaining → IfOk result (λ n. self.old.rest ≡ take n buffer.new ++ drop n self.old.rest) }
        ensures all { Tells R.remaining → IfOk result (λ n. n < length buffer.old → length self.old.rest ≡ n) }
        ensures new { Tells R.remaining → IfOk result (λ n. self.new ≡ after_bytes n self.old) }
        ensures fails { OnErr result (self.new.failed ≡ true) }
        ensures sound { IfOk result (λ _. self.new.failed ≡ self.old.failed) }
    {
        match self.source.at_hand() {
            Some(_) => pull_full(&mut self.source, buffer),
            None => self.pull_moved(buffer),
        }
    }

    // The same, if the bytes that were looked at are in the buffer.
    fn pull_moved(&mut self, buffer: &mut [u8]) -> Result<usize, ErrorKind>
        requires { R.is_whole ≡ false }
        ensures fits { IfOk result (λ n. n ≤ length buffer.old) }
        ensures bytes { Tells R.remaining → IfOk result (λ n. self.old.rest ≡ take n buffer.new ++ drop n self.old.rest) }
        ensures all { Tells R.remaining → IfOk result (λ n. n < length buffer.old → length self.old.rest ≡ n) }
        ensures new { Tells R.remaining → IfOk result (λ n. self.new ≡ after_bytes n self.old) }
        ensures fails { OnErr result (self.new.failed ≡ true) }
        ensures sound { IfOk result (λ _. self.new.failed ≡ self.old.failed) }
    {
        let count = copy_front(&self.looked[self.start..self.end], buffer);
        self.start += count;
        self.count = self.count.wrapping_add(count as u64);
        if count == buffer.len() {
            return Ok(count);
        }
        let more = pull_full(&mut self.source, &mut buffer[count..])?;
        self.count = self.count.wrapping_add(more as u64);
        Ok(count + more)
    }

    /// Fills the buffer with the next bytes, which are taken, if all of them are at hand in the source, and returns true. Otherwise it
    /// returns false, and takes nothing.
    #[inline(always)]
    pub fn pull_ready(&mut self, buffer: &mut [u8]) -> bool
        ensures bytes { Tells R.remaining → result ≡ true → self.old.rest ≡ buffer.new ++ drop (length buffer.old) self.old.rest }
        ensures new { Tells R.remaining → result ≡ true → self.new ≡ after_bytes (length buffer.old) self.old }
        ensures left { result ≡ false → self.new ≡ self.old }
        ensures sound { self.new.failed ≡ self.old.failed }
    {
        match self.source.at_hand() {
            Some(_) => self.source.pull_ready(buffer),
            None => self.pull_ready_behind(buffer),
        }
    }

    // The same for another source, if nothing that was looked at is left.
    #[inline]
    fn pull_ready_behind(&mut self, buffer: &mut [u8]) -> bool
        requires { R.is_whole ≡ false }
        ensures bytes { Tells R.remaining → result ≡ true → self.old.rest ≡ buffer.new ++ drop (length buffer.old) self.old.rest }
        ensures new { Tells R.remaining → result ≡ true → self.new ≡ after_bytes (length buffer.old) self.old }
        ensures left { result ≡ false → self.new ≡ self.old }
        ensures sound { self.new.failed ≡ self.old.failed }
    {
        if self.start < self.end || !self.source.pull_ready(buffer) {
            return false;
        }
        self.count = self.count.wrapping_add(buffer.len() as u64);
        true
    }

    /// Appends the next `count` bytes, which are taken, if all of them are at hand in the source, and returns true. Otherwise it returns
    /// false, and takes and appends nothing. An error is an allocation that failed, which takes nothing either.
    #[inline(always)]
    pub fn append_ready(&mut self, count: usize, bytes: &mut Vec<u8>) -> Result<bool, AllocError>
        ensures there { Tells R.remaining → result ≡ Ok true → count ≤ length self.old.rest }
        ensures bytes { Tells R.remaining → result ≡ Ok true → bytes.new.items ≡ bytes.old.items ++ take count self.old.rest }
        ensures new { Tells R.remaining → result ≡ Ok true → self.new ≡ after_bytes count self.old }
        ensures left { (result ≡ Ok true → ⊥) → (self.new ≡ self.old) × (bytes.new.items ≡ bytes.old.items) }
        ensures sound { self.new.failed ≡ self.old.failed }
    {
        if self.source.at_hand().is_none() && self.start < self.end {
            return Ok(false);
        }
        if !self.source.append_ready(count, bytes)? {
            return Ok(false);
        }
        self.count_taken(count);
        Ok(true)
    }

    // So many bytes of the source were taken, which are counted if it isn't whole.
    #[inline]
    fn count_taken(&mut self, count: usize)
        ensures whole { R.is_whole ≡ true → self.new ≡ self.old }
        ensures other { R.is_whole ≡ false
            → self.new ≡ record self.old { source = record self.old.source { size = (self.old.source.size + count) % 2 ^ 64 } } }
    {
        if self.source.at_hand().is_none() {
            self.count = self.count.wrapping_add(count as u64);
        }
    }

    /// Copies the next bytes, at most 64, to the buffer, and returns how many. They are fewer than it holds only at the end of the input.
    /// They are looked at, and none of them is taken. An error is the source's, which has failed.
    #[inline(always)]
    pub fn peek(&mut self, buffer: &mut [u8]) -> Result<usize, ErrorKind>
        requires { length buffer.old ≤ 64 }
        ensures fits { IfOk result (λ n. n ≤ length buffer.old) }
        ensures bytes { Tells R.remaining → IfOk result (λ n. self.old.rest ≡ take n buffer.new ++ drop n self.old.rest) }
        ensures all { Tells R.remaining → IfOk result (λ n. n < length buffer.old → length self.old.rest ≡ n) }
        ensures new { Tells R.remaining → IfOk result (λ n. self.new ≡ after_look n self.old) }
        ensures fails { OnErr result (self.new.failed ≡ true) }
        ensures sound { IfOk result (λ _. self.new.failed ≡ self.old.failed) }
    {
        match self.peek_whole(buffer) {
            Some(count) => Ok(count),
            None => self.peek_moved(buffer),
        }
    }

    /// Returns the next byte, which isn't taken, if the source keeps its bytes at hand and has one left.
    #[inline(always)]
    pub fn next_at_hand(&self) -> Option<u8>
        ensures next { IfSome result (λ b. self.now.rest ≡ b ∷ drop 1 self.now.rest) }
    {
        match self.source.at_hand() {
            Some([next, ..]) => Some(*next),
            _ => None,
        }
    }

    /// Looks at the next byte, which isn't taken, if the source keeps its bytes at hand and has one left.
    #[inline(always)]
    pub fn look_at_hand(&mut self) -> Option<u8>
        ensures next { MatchOption result (self.new ≡ self.old)
            (λ b. (self.old.rest ≡ b ∷ drop 1 self.old.rest) × (self.new ≡ after_look 1 self.old)) }
        ensures sound { self.new.failed ≡ self.old.failed }
    {
        match self.source.at_hand() {
            Some([next, others @ ..]) => {
                self.unseen = self.unseen.min(others.len());
                Some(*next)
            }
            _ => None,
        }
    }

    // Copies the next bytes to the buffer, and returns how many, if the source keeps them at hand.
    #[inline(always)]
    fn peek_whole(&mut self, buffer: &mut [u8]) -> Option<usize>
        requires { length buffer.old ≤ 64 }
        ensures whole { MatchOption result ((R.is_whole ≡ false) × (self.new ≡ self.old)) (λ n. (n ≤ length buffer.old)
            × (self.old.rest ≡ take n buffer.new ++ drop n self.old.rest) × (n < length buffer.old → length self.old.rest ≡ n)
            × (self.new ≡ after_look n self.old)) }
        ensures sound { self.new.failed ≡ self.old.failed }
    {
        let bytes = self.source.at_hand()?;
        let count = copy_front(bytes, buffer);
        self.unseen = self.unseen.min(bytes.len() - count);
        Some(count)
    }

    // The same for another source: they are moved out of it.
    #[cold]
    fn peek_moved(&mut self, buffer: &mut [u8]) -> Result<usize, ErrorKind>
        requires moved { R.is_whole ≡ false }
        requires few { length buffer.old ≤ 64 }
        ensures fits { IfOk result (λ n. n ≤ length buffer.old) }
        ensures bytes { Tells R.remaining → IfOk result (λ n. self.old.rest ≡ take n buffer.new ++ drop n self.old.rest) }
        ensures all { Tells R.remaining → IfOk result (λ n. n < length buffer.old → length self.old.rest ≡ n) }
        ensures new { Tells R.remaining → IfOk result (λ n. self.new ≡ after_look n self.old) }
        ensures fails { OnErr result (self.new.failed ≡ true) }
        ensures sound { IfOk result (λ _. self.new.failed ≡ self.old.failed) }
    {
        let ahead = self.end - self.start;
        if buffer.len() <= ahead {
            return Ok(copy_front(&self.looked[self.start..self.end], buffer));
        }
        self.looked.copy_within(self.start..self.end, 0);
        self.start = 0;
        self.end = ahead;
        let more = pull_full(&mut self.source, &mut self.looked[ahead..buffer.len()])?;
        self.end += more;
        Ok(copy_front(&self.looked[..self.end], buffer))
    }
}

impl Input<&[u8]> {
    /// Returns how many bytes are left.
    pub fn unread(&self) -> usize
        ensures count { result ≡ length self.now.rest }
        ensures whole { self.now.failed ≡ false }
    {
        self.source.len()
    }
}
