//! Sources: where the bytes that are read come from.
ghost use Rattle.std.specs.Prelude.{◌≡◌, ℕ, ◌≤◌, ◌<◌, List, [], ◌++◌, length, take, drop, Bool, true, false, Option, Some, IfOk, OnErr, IsErr};
ghost use Rattle.std.specs.Prelude.{◌⊎◌, Ok, IsOk, MatchOption};
ghost use Rattle.std.specs.Io.KnownBytes.{Consumes, IsAtEnd};
ghost use Rattle.amqp_wire.specs.Sources.{known, IsTold, AddsNext};

use std::alloc::AllocError;
use std::io::ErrorKind;

/// A source of bytes. It gives them in order and each once, in pieces of any length. After its first failure every pull fails, and `failed`
/// returns true. A source is specified if its contract states its bytes: that of a slice does, that of a file doesn't.
///
/// `&[u8]` is a source that never fails, `&mut R` is a source if `R` is, and `ReadSource` makes a source of any reader.
pub trait ByteSource {
    // The bytes that it still has, or None if its contract doesn't state them, as for a file.
    ghost remaining: { Self → Option (List ℕ) };

    // It has failed.
    ghost failed: { Self → Bool };

    // A number that distinguishes one borrowed source from another; 0 if it isn't borrowed.
    ghost name: { Self → ℕ };

    // It keeps all of its bytes at hand, and no pull of it fails.
    ghost is_whole: { Bool } = { false };

    // How many of the last bytes of a specified source stay in it while one term is read within limits: none, unless an impl says more.
    ghost reserve: { ℕ } = { 0 };

    /// Moves the source's next bytes to the start of the buffer, and returns how many. They are at most as many as the buffer holds. They
    /// are at least one, unless the source is at its end or the buffer is empty. An `Err` is the kind of a failure; then the source has
    /// failed, and every later pull is an `Err`.
    fn pull(&mut self, buffer: &mut [u8]) -> Result<usize, ErrorKind>
        ensures fits { IfOk result (λ n. n ≤ length buffer.old) }
        ensures bytes { IfOk result (λ n. Consumes (remaining self.old) (remaining self.new) (take n buffer.new)) }
        ensures some { IfOk result (λ n. n ≡ 0 → (length buffer.old ≡ 0) ⊎ IsAtEnd (remaining self.old)) }
        ensures kept { IfOk result (λ _. failed self.new ≡ failed self.old) }
        ensures fails { OnErr result (failed self.new ≡ true) }
        ensures stays { failed self.old ≡ true → IsErr result }
        ensures sure { is_whole ≡ true → IsOk result }
        ensures named { name self.new ≡ name self.old };

    /// Returns all the bytes that the source still has, if it keeps them at hand, and takes none of them. Otherwise it returns `None`.
    fn at_hand(&self) -> Option<&[u8]>
        ensures { MatchOption result (is_whole ≡ false) (λ s. (is_whole ≡ true) × (remaining self.now ≡ Some s.now)) };

    /// Fills the whole buffer with the source's next bytes, if they are at hand, and returns true. Otherwise it takes nothing and returns
    /// false, which says nothing about what a pull would give. A source that has failed returns false. This is the fast way to a few bytes;
    /// `pull` is the general one. By default no bytes are at hand.
    #[inline]
    fn pull_ready(&mut self, buffer: &mut [u8]) -> bool
        ensures taken { result ≡ true → Consumes (remaining self.old) (remaining self.new) buffer.new }
        ensures left { result ≡ false → remaining self.new ≡ remaining self.old }
        ensures kept { failed self.new ≡ failed self.old }
        ensures stays { failed self.old ≡ true → result ≡ false }
        ensures named { name self.new ≡ name self.old }
    {
        false
    }

    /// Appends the source's next `count` bytes, if all of them are at hand, and returns true. Otherwise it takes and appends nothing, and
    /// returns false, as `pull_ready` does. An `Err` is an allocation that failed; then nothing is taken and nothing appended.
    #[inline]
    fn append_ready(&mut self, count: usize, bytes: &mut Vec<u8>) -> Result<bool, AllocError>
        ensures taken { result ≡ Ok true
            → AddsNext (remaining self.old) (remaining self.new) count bytes.old.items bytes.new.items }
        ensures left { (result ≡ Ok true → ⊥) → (remaining self.new ≡ remaining self.old) × (bytes.new.items ≡ bytes.old.items) }
        ensures kept { failed self.new ≡ failed self.old }
        ensures stays { failed self.old ≡ true → result ≡ Ok false }
        ensures named { name self.new ≡ name self.old }
    {
        Ok(false)
    }

    /// Returns whether a pull has failed.
    fn failed(&self) -> bool
        ensures { result ≡ failed self.now };
}

/// Fills the buffer with the source's next bytes, however the source splits them, and returns how many. They are fewer than the buffer
/// holds only at the end of the source. An `Err` is the source's, which has failed; how many bytes were taken before is unspecified.
#[inline]
pub fn pull_full<R: ByteSource>(source: &mut R, buffer: &mut [u8]) -> Result<usize, ErrorKind>
    ensures fits { IfOk result (λ n. n ≤ length buffer.old) }
    ensures bytes { IsTold (R.remaining source.old) → IfOk result
        (λ n. known (R.remaining source.old) ≡ take n buffer.new ++ known (R.remaining source.new)) }
    ensures all { IsTold (R.remaining source.old) → IfOk result
        (λ n. n < length buffer.old → known (R.remaining source.new) ≡ []) }
    ensures kept { IfOk result (λ _. R.failed source.new ≡ R.failed source.old) }
    ensures fails { OnErr result (R.failed source.new ≡ true) }
    ensures sure { R.is_whole ≡ true → IsOk result }
    ensures named { R.name source.new ≡ R.name source.old }
{
    let mut done = 0;
    while done < buffer.len() {
        let count = source.pull(&mut buffer[done..])?;
        if count == 0 {
            return Ok(done);
        }
        done += count;
    }
    Ok(done)
}

impl ByteSource for &[u8] {
    ghost remaining = { λ s. Some s.now };

    ghost failed = { λ _. false };

    ghost name = { λ _. 0 };

    ghost is_whole = { true };

    fn pull(&mut self, buffer: &mut [u8]) -> Result<usize, ErrorKind> {
        let bytes: &[u8] = *self;
        let n = bytes.len().min(buffer.len());
        let (front, rest) = bytes.split_at(n);
        // A byte or four are stored faster than by a call that copies them.
        match front {
            [byte] => buffer[0] = *byte,
            [a, b, c, d] => buffer[..4].copy_from_slice(&[*a, *b, *c, *d]),
            _ => buffer[..n].copy_from_slice(front),
        }
        *self = rest;
        Ok(n)
    }

    #[inline(always)]
    fn at_hand(&self) -> Option<&[u8]> {
        Some(&self[..])
    }

    #[inline(always)]
    fn pull_ready(&mut self, buffer: &mut [u8]) -> bool {
        let bytes: &[u8] = *self;
        if buffer.len() > bytes.len() {
            return false;
        }
        let (taken, left) = bytes.split_at(buffer.len());
        buffer.copy_from_slice(taken);
        *self = left;
        true
    }

    #[inline(always)]
    fn append_ready(&mut self, count: usize, bytes: &mut Vec<u8>) -> Result<bool, AllocError> {
        let all: &[u8] = *self;
        if count > all.len() {
            return Ok(false);
        }
        let (taken, behind) = all.split_at(count);
        bytes.extend_from_slice(taken)?;
        *self = behind;
        Ok(true)
    }

    fn failed(&self) -> bool {
        false
    }
}

impl<R: ByteSource> ByteSource for &mut R {
    ghost remaining = { λ r. R.remaining r.now };

    ghost failed = { λ r. R.failed r.now };

    ghost name = { λ r. r.ghost_name };

    ghost is_whole = { R.is_whole };

    fn pull(&mut self, buffer: &mut [u8]) -> Result<usize, ErrorKind> {
        (**self).pull(buffer)
    }

    #[inline(always)]
    fn at_hand(&self) -> Option<&[u8]> {
        (**self).at_hand()
    }

    #[inline(always)]
    fn pull_ready(&mut self, buffer: &mut [u8]) -> bool {
        (**self).pull_ready(buffer)
    }

    #[inline(always)]
    fn append_ready(&mut self, count: usize, bytes: &mut Vec<u8>) -> Result<bool, AllocError> {
        (**self).append_ready(count, bytes)
    }

    fn failed(&self) -> bool {
        (**self).failed()
    }
}
