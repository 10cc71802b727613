//! A slow reader.
use std::io;
use std::io::Read;

/// Gives one byte a call.
#[derive(Drop)]
pub(crate) struct OneByOne<'a> {
    /// The bytes that are left.
    pub bytes: &'a [u8],
}

impl Read for OneByOne<'_> {
    fn read(&mut self, buffer: &mut [u8]) -> io::Result<usize> {
        if buffer.is_empty() {
            return Ok(0);
        }
        let Some((first, rest)) = self.bytes.split_first() else {
            return Ok(0);
        };
        buffer[0] = *first;
        self.bytes = rest;
        Ok(1)
    }
}
