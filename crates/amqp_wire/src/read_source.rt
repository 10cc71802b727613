//! Any reader as a source of bytes.
ghost use Rattle.std.specs.Prelude.{◌≡◌, None, is_some};

use crate::ByteSource;
use std::io::{ErrorKind, Read};

/// Any reader as a source of bytes. Each pull is one read of the reader. No failure is retried, not even `ErrorKind::Interrupted`. After
/// the first one, every pull fails with its kind.
#[derive(Drop)]
pub struct ReadSource<R: Read> {
    /// The reader. What a pull takes is gone from it.
    pub reader: R,
    /// The kind of the first failure, or `None` if the reader hasn't failed.
    pub failed: Option<ErrorKind>,
}

impl<R: Read> ReadSource<R> {
    /// Returns a source of the bytes that the reader gives from here on. The source hasn't failed.
    pub fn new(reader: R) -> Self
        ensures reader { result.reader ≡ reader }
        ensures whole { result.failed ≡ None }
    {
        ReadSource {
            reader,
            failed: None,
        }
    }
}

impl<R: Read> ByteSource for ReadSource<R> {
    ghost remaining = { λ s. R.remaining s.reader };

    ghost failed = { λ s. is_some s.failed };

    ghost name = { λ _. 0 };

    fn pull(&mut self, buffer: &mut [u8]) -> Result<usize, ErrorKind> {
        if let Some(kind) = self.failed {
            return Err(kind);
        }
        match self.reader.read(buffer) {
            Ok(n) => Ok(n),
            Err(error) => {
                let kind = error.kind();
                self.failed = Some(kind);
                Err(kind)
            }
        }
    }

    fn at_hand(&self) -> Option<&[u8]> {
        None
    }

    fn failed(&self) -> bool {
        self.failed.is_some()
    }
}
