//! What one direction of a connection has carried.
use std::fmt::{Display, Formatter, Result, Write};

/// How many of each have come.
#[derive(Clone, Copy, Debug, Default, PartialEq, Eq, Drop)]
pub(crate) struct Counts {
    /// Protocol headers.
    pub(crate) headers: u64,
    /// Frames, and those without a body among them.
    pub(crate) frames: u64,
    pub(crate) empty: u64,
    /// Messages of one transfer that were written in canonical text.
    pub(crate) rewritten: u64,
    /// Whole messages of several transfers.
    pub(crate) joined: u64,
    /// Deliveries that were aborted.
    pub(crate) aborted: u64,
    /// Whole messages that can't be read as strict ones.
    pub(crate) unread: u64,
    /// Bytes of the input, and of what was written.
    pub(crate) read: u64,
    pub(crate) written: u64,
}

impl Counts {
    /// Counts bytes of the input, and of what was written.
    pub(crate) fn add_bytes(&mut self, read: usize, written: usize) {
        self.read = self.read.saturating_add(read as u64);
        self.written = self.written.saturating_add(written as u64);
    }
}

impl Display for Counts {
    fn fmt<W: Write>(&self, f: &mut Formatter<W>) -> Result {
        write!(
            f,
            "{} headers, {} frames, {} empty, {} messages rewritten, {} joined, {} aborted, {} unread, {} bytes read, {} written",
            self.headers,
            self.frames,
            self.empty,
            self.rewritten,
            self.joined,
            self.aborted,
            self.unread,
            self.read,
            self.written
        )
    }
}

/// Counts one more.
pub(crate) fn count(counter: &mut u64) {
    *counter = counter.saturating_add(1);
}
