//! The input, read in pieces.
use crate::digits::{DigitError, Digits};
use std::alloc::{AllocError, Global};
use std::io;
use std::io::Read;

/// How many bytes are read at once.
pub const PIECE: usize = 1 << 16;

/// The bytes of the input that have been read, and not been told yet.
#[derive(Drop)]
pub struct Input {
    digits: Option<Digits>,
    bytes: Vec<u8>,
    // How many of the bytes have been told.
    told: usize,
    is_end: bool,
}

/// Why the input can't be read.
#[derive(Debug, Drop, thiserror::Error)]
pub enum InputError {
    /// Its digits are no bytes.
    #[error("{0}")]
    Digits(#[from] DigitError),
    /// It could not be read.
    #[error("{0}")]
    Read(#[from] io::Error),
    /// An allocation failed.
    #[error("out of memory")]
    Memory(#[from] AllocError),
}

impl Input {
    /// An input of bytes, or of hexadecimal digits.
    pub fn new(is_hex: bool, alloc: Global) -> Input {
        Input {
            digits: if is_hex {
                Some(Digits::new(alloc))
            } else {
                None
            },
            bytes: Vec::new(alloc),
            told: 0,
            is_end: false,
        }
    }

    /// The bytes that have been read, and not been told yet.
    pub fn rest(&self) -> &[u8] {
        self.bytes.get(self.told..).unwrap_or_default()
    }

    /// Whether the input ends with them.
    pub fn is_end(&self) -> bool {
        self.is_end
    }

    /// So many more bytes have been told.
    pub fn tell(&mut self, len: usize) {
        self.told = self.told.saturating_add(len).min(self.bytes.len());
    }

    /// Reads one more piece. The bytes that have been told are dropped.
    pub fn fill<R: Read>(&mut self, reader: &mut R, piece: &mut [u8]) -> Result<(), InputError> {
        let told = self.told.min(self.bytes.len());
        self.bytes.drain(..told);
        self.told = 0;
        let count = reader.read(piece)?;
        let text = piece.get(..count).unwrap_or_default();
        self.is_end = text.is_empty();
        self.take(text)
    }

    // Takes a piece of the input, or its end.
    fn take(&mut self, text: &[u8]) -> Result<(), InputError> {
        match &mut self.digits {
            Some(digits) => {
                digits.read(text, &mut self.bytes)?;
                if self.is_end {
                    digits.end(&mut self.bytes)?;
                }
            }
            None => self.bytes.extend_from_slice(text)?,
        }
        Ok(())
    }
}
