//! A source for tests.
use amqp_wire::ByteSource;
use std::io::ErrorKind;

/// A source that gives one byte a call, and fails after a number of calls.
#[derive(Drop)]
pub struct Dripping<'a> {
    /// The bytes that are left.
    pub bytes: &'a [u8],
    /// How many calls are left.
    pub calls: usize,
    failed: bool,
}

impl<'a> Dripping<'a> {
    /// Returns a source of the bytes that fails after so many calls.
    pub fn new(bytes: &'a [u8], calls: usize) -> Dripping<'a> {
        Dripping {
            bytes,
            calls,
            failed: false,
        }
    }
}

impl<'a> ByteSource for Dripping<'a> {
    ghost use Rattle.std.specs.Prelude.{None};

    ghost remaining = { λ _. None };

    ghost failed = { λ s. s.failed };

    ghost name = { λ _. 0 };

    fn pull(&mut self, buffer: &mut [u8]) -> Result<usize, ErrorKind> {
        if self.calls == 0 || self.failed {
            self.failed = true;
            return Err(ErrorKind::NotFound);
        }
        self.calls -= 1;
        if buffer.is_empty() {
            return Ok(0);
        }
        let Some((byte, rest)) = self.bytes.split_first() else {
            return Ok(0);
        };
        buffer[0] = *byte;
        self.bytes = rest;
        Ok(1)
    }

    fn at_hand(&self) -> Option<&[u8]> {
        None
    }

    fn failed(&self) -> bool {
        self.failed
    }
}
