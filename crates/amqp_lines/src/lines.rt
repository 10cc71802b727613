//! The lines of a source, one after another.
ghost use Rattle.std.specs.Prelude.{◌≡◌, ◌≤◌, ◌++◌, ◌∷◌, [], List, ℕ, false, true, length, IfOk, IfErr, IfSome, MatchOption, ◌<◌, ◌+◌};
ghost use Rattle.std.specs.Prelude.{take};
ghost use Rattle.std.specs.Io.KnownBytes.{Consumes, Keeps, IsAtEnd};
ghost use Rattle.amqp_wire.specs.declared.error.Error.TheVariants.{Memory};
ghost use Rattle.amqp_lines.specs.Answers.{IsOutside};
ghost use Rattle.amqp_lines.specs.Lines.{HasNo, TakesLine, with_feed};

use amqp_codec::{ByteSource, Error};
use memchr::memchr;
use std::alloc::Global;
use std::marker::Model;

/// How many bytes are pulled at once at most.
const PIECE: usize = 4096;

/// The lines of a source that are still to come, each ended by a line feed, which the last may lack.
#[derive(Drop)]
pub(crate) struct Lines<R: ByteSource> {
    source: R,
    buffer: [u8; PIECE],
    start: usize,
    end: usize,
}

impl<R: ByteSource> Model for Lines<R> {
    ghost use Rattle.std.specs.Prelude.{Option, List, ℕ, take, drop, ◌-◌, ◌≤◌};
    ghost use Rattle.std.specs.Io.KnownBytes.{prepend_known};

    ghost Value = { Option (List ℕ) };

    ghost view = { λ s. prepend_known (take (s.end - s.start) (drop s.start s.buffer)) (R.remaining s.source) };

    ghost invariant = { λ s. (s.start ≤ s.end) × (s.end ≤ 4096) };
}

impl<R: ByteSource> Lines<R> {
    /// Returns the lines of what the source gives from here on.
    pub(crate) fn new(source: R) -> Self
        ensures { Keeps (R.remaining source) result }
    {
        Lines {
            source,
            buffer: [0; PIECE],
            start: 0,
            end: 0,
        }
    }

    // Pulls bytes if none are left, and returns whether there are any now.
    fn refill(&mut self) -> Result<bool, Error>
        ensures kept { IfOk result (λ _. Keeps self.old self.new) }
        ensures err { IfErr result IsOutside }
        ensures ended { IfOk result (λ there. there ≡ false → IsAtEnd self.old) }
    {
        if self.start < self.end {
            return Ok(true);
        }
        match self.source.pull(&mut self.buffer) {
            Ok(n) => {
                self.start = 0;
                self.end = n;
                Ok(n > 0)
            }
            Err(kind) => Err(Error::Read(kind)),
        }
    }

    // Moves what is left of the line from the buffer, and returns whether its end was there.
    fn take_piece(&mut self, line: &mut Vec<u8>) -> Result<bool, Error>
        ensures taken { IfOk result (λ ended. (piece : List ℕ) × HasNo 10 piece × (line.new.items ≡ line.old.items ++ piece)
            × Consumes self.old self.new (with_feed ended piece)) }
        ensures err { IfErr result (λ e. e ≡ Memory) }
    {
        let left = &self.buffer[self.start..self.end];
        let (len, taken, ended) = until_feed(left);
        line.extend_from_slice(&left[..len])?;
        self.start += taken;
        Ok(ended)
    }

    /// Returns the next line, without its line feed, or `None` if the source has ended. An error is `Memory` or the source's.
    pub(crate) fn next_line(&mut self, alloc: Global) -> Result<Option<Vec<u8>>, Error>
        ensures line { IfOk result (λ o. IfSome self.old
            (λ input. MatchOption self.new ⊥ (λ rest. MatchOption o (input ≡ []) (λ line. TakesLine input line.items rest)))) }
        ensures err { IfErr result IsOutside }
    {
        let mut line = Vec::new(alloc);
        for _ in 0..u64::MAX {
            if !self.refill()? {
                if line.is_empty() {
                    return Ok(None);
                }
                return Ok(Some(line));
            }
            if self.take_piece(&mut line)? {
                return Ok(Some(line));
            }
        }
        Err(Error::Memory)
    }
}

// How many bytes come before the first line feed, how many with it, and whether there is one.
fn until_feed(bytes: &[u8]) -> (usize, usize, bool)
    ensures within { result.0 ≤ length bytes.now }
    ensures taken_within { result.1 ≤ length bytes.now }
    ensures none_before { HasNo 10 (take result.0 bytes.now) }
    ensures taken { take result.1 bytes.now ≡ with_feed result.2 (take result.0 bytes.now) }
{
    match memchr(b'\n', bytes) {
        Some(len) => (len, len + 1, true),
        None => (bytes.len(), bytes.len(), false),
    }
}
