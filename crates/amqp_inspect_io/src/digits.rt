//! Bytes that are given as hexadecimal digits, also with the offsets that `xxd` and `tcpdump -x` print.
use std::alloc::{AllocFailed, Global};

/// The most digits that an offset has.
const MOST_DIGITS: usize = 16;

/// Why a text is no bytes.
#[derive(Clone, Copy, Debug, PartialEq, Eq, thiserror::Error)]
pub enum DigitError {
    /// The line with this number has a character that is no digit.
    #[error("line {0} of the input has a character that is no hexadecimal digit")]
    NoDigit(u64),
    /// The last byte has one digit.
    #[error("the number of hexadecimal digits is odd")]
    Odd,
    /// An allocation failed.
    #[error("out of memory")]
    Memory,
}

impl From<AllocFailed<u8>> for DigitError {
    fn from(_error: AllocFailed<u8>) -> DigitError {
        DigitError::Memory
    }
}

// The number that a hexadecimal digit is.
fn digit(byte: u8) -> Option<u8> {
    match byte {
        b'0'..=b'9' => Some(byte - b'0'),
        b'a'..=b'f' => Some(byte - b'a' + 10),
        b'A'..=b'F' => Some(byte - b'A' + 10),
        _ => None,
    }
}

/// Where in a line the text is.
#[derive(Clone, Copy, Debug, PartialEq, Eq)]
enum Place {
    /// Before the first word ends, which is an offset if a colon follows it.
    FirstWord,
    Digits,
    /// Behind an offset, before the digits.
    Offset,
    /// In digits behind an offset. Two spaces end them: the bytes come once more behind these, as text.
    OffsetDigits,
    /// The same, behind one space.
    OffsetSpace,
    /// In what is passed over up to the end of the line.
    Passed,
}

/// A text of digits, as far as it has been read.
#[derive(Drop)]
pub(crate) struct Digits {
    place: Place,
    // The digits of the first word of the line.
    first: Vec<u8>,
    // The first digit of a byte whose second one is missing.
    half: Option<u8>,
    line: u64,
}

impl Digits {
    pub(crate) fn new(alloc: Global) -> Digits {
        Digits {
            place: Place::FirstWord,
            first: Vec::new(alloc),
            half: None,
            line: 1,
        }
    }

    /// Takes more of the text, and appends the bytes that its digits are. White space and comments from `#` to the end of a line are passed
    /// over.
    pub(crate) fn read(&mut self, text: &[u8], bytes: &mut Vec<u8>) -> Result<(), DigitError> {
        for byte in text {
            self.take(*byte, bytes)?;
        }
        Ok(())
    }

    /// Takes the end of the text.
    pub(crate) fn end(&mut self, bytes: &mut Vec<u8>) -> Result<(), DigitError> {
        self.end_first_word(bytes)?;
        match self.half {
            Some(_) => Err(DigitError::Odd),
            None => Ok(()),
        }
    }

    fn take(&mut self, byte: u8, bytes: &mut Vec<u8>) -> Result<(), DigitError> {
        match byte {
            b'\n' => {
                self.end_first_word(bytes)?;
                self.place = Place::FirstWord;
                self.line = self.line.saturating_add(1);
            }
            _ if self.place == Place::Passed => {}
            b'#' => {
                self.end_first_word(bytes)?;
                self.place = Place::Passed;
            }
            b' ' | b'\t' | b'\r' => self.take_space(bytes)?,
            b':' if self.place == Place::FirstWord => {
                self.first.clear();
                self.place = Place::Offset;
            }
            b'x' if self.place == Place::FirstWord && self.first.as_slice() == [0].as_slice() => {
                self.first.clear();
            }
            other => match digit(other) {
                Some(number) => self.take_digit(number, bytes)?,
                None => return Err(DigitError::NoDigit(self.line)),
            },
        }
        Ok(())
    }

    fn take_space(&mut self, bytes: &mut Vec<u8>) -> Result<(), DigitError> {
        match self.place {
            Place::FirstWord if !self.first.is_empty() => {
                self.end_first_word(bytes)?;
                self.place = Place::Digits;
            }
            Place::OffsetDigits => self.place = Place::OffsetSpace,
            Place::OffsetSpace => self.place = Place::Passed,
            _ => {}
        }
        Ok(())
    }

    fn take_digit(&mut self, number: u8, bytes: &mut Vec<u8>) -> Result<(), DigitError> {
        if self.place == Place::FirstWord && self.first.len() < MOST_DIGITS {
            self.first.push(number)?;
            return Ok(());
        }
        self.end_first_word(bytes)?;
        self.place = match self.place {
            Place::FirstWord | Place::Digits => Place::Digits,
            _ => Place::OffsetDigits,
        };
        self.add(number, bytes)
    }

    // Takes the digits of the line's first word as bytes, since it is no offset.
    fn end_first_word(&mut self, bytes: &mut Vec<u8>) -> Result<(), DigitError> {
        for index in 0..self.first.len() {
            if let Some(number) = self.first.get(index).copied() {
                self.add(number, bytes)?;
            }
        }
        self.first.clear();
        Ok(())
    }

    // Adds a digit. The second one of two makes a byte.
    fn add(&mut self, number: u8, bytes: &mut Vec<u8>) -> Result<(), DigitError> {
        match self.half.take() {
            Some(high) => bytes.push(high.wrapping_mul(16) | number)?,
            None => self.half = Some(number),
        }
        Ok(())
    }
}
