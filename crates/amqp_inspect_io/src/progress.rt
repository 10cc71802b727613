//! How much of the input has been told, on a terminal.
use std::io::IsTerminal;

/// How many bytes are told between two lines.
const STEP: usize = 1 << 20;

/// A line on standard error that tells how far the program is. It is there if standard error is a terminal, and standard output is none.
#[derive(Clone, Copy, Debug, PartialEq, Eq)]
pub struct Progress {
    is_shown: bool,
    // How many bytes have to be told before the next line.
    next: usize,
    has_line: bool,
}

impl Progress {
    /// Nothing has been told yet.
    pub fn new(rt: &HostRuntime) -> Progress {
        Progress {
            is_shown: rt.stderr().is_terminal() && !rt.stdout().is_terminal(),
            next: STEP,
            has_line: false,
        }
    }

    /// So many bytes have been told in all.
    pub fn tell(&mut self, rt: &HostRuntime, told: usize) -> Result<(), anyhow::Error> {
        if self.is_shown && told >= self.next {
            self.next = told.saturating_add(STEP);
            self.has_line = true;
            eprint!(rt; "\r{} MiB", told / STEP)?;
        }
        Ok(())
    }

    /// Clears the line.
    pub fn end(&self, rt: &HostRuntime) -> Result<(), anyhow::Error> {
        if self.has_line {
            eprint!(rt; "\r\x1b[K")?;
        }
        Ok(())
    }
}
