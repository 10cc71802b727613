//! The bytes of descriptors (Part 1, sections 1.2 and 1.5).
ghost use Rattle.std.specs.Prelude.{◌≡◌, ◌<◌, ◌^◌, ◌++◌, ℕ, List, length};
ghost use Rattle.amqp_model.specs.Term.{name, code, symbol};
ghost use Rattle.amqp_encoder.specs.Values.{descriptor_of};
ghost use Rattle.amqp_encoder.specs.Measuring.{checked, descriptor_bytes, descriptor_length};
ghost use Rattle.amqp_encoder.specs.Gives.{tail_of};

use amqp_wire::{Descriptor, Error, format_code};
use std::marker::Model;

/// The bytes of a descriptor before its text.
#[derive(Drop)]
pub(crate) struct Head {
    bytes: [u8; 10],
    len: usize,
}

impl Model for Head {
    ghost use Rattle.std.specs.Prelude.{List, ℕ, take, ◌≤◌};

    ghost Value = { List ℕ };

    ghost view = { λ h. take h.len h.bytes };

    ghost invariant = { λ h. h.len ≤ 10 };
}

impl Head {
    pub(crate) fn as_slice(&self) -> &[u8]
        ensures { result.now ≡ self.now }
    {
        &self.bytes[..self.len]
    }
}

/// Returns the text of a descriptor, which is empty for a code.
pub(crate) fn text_of(descriptor: &Descriptor) -> &[u8]
    ensures { result.now ≡ tail_of (descriptor_of descriptor.now) }
{
    match descriptor {
        Descriptor::Name(name) => name.as_str().as_bytes(),
        Descriptor::Code(_) => &[],
    }
}

/// Returns the bytes of a descriptor after the 0 and before its text. Four of them are the length of the text.
pub(crate) fn head_of(descriptor: &Descriptor) -> Head
    requires { length (tail_of (descriptor_of descriptor.now)) < 2 ^ 32 }
    ensures { result ++ tail_of (descriptor_of descriptor.now) ≡ descriptor_bytes (descriptor_of descriptor.now) }
{
    match descriptor {
        Descriptor::Name(name) => head_of_name(name.as_str().len() as u32),
        Descriptor::Code(code) => head_of_code(*code),
    }
}

fn head_of_name(len: u32) -> Head
    ensures { (s : List ℕ) → length s ≡ len → result ++ s ≡ descriptor_bytes (name s) }
{
    if len < 256 {
        return Head {
            bytes: [0, format_code::SYMBOL_8, len as u8, 0, 0, 0, 0, 0, 0, 0],
            len: 3,
        };
    }
    let [a, b, c, d] = len.to_be_bytes();
    Head {
        bytes: [0, format_code::SYMBOL_32, a, b, c, d, 0, 0, 0, 0],
        len: 6,
    }
}

fn head_of_code(number: u64) -> Head
    ensures { result ≡ descriptor_bytes (code number) }
{
    if number == 0 {
        return Head {
            bytes: [0, format_code::ULONG_0, 0, 0, 0, 0, 0, 0, 0, 0],
            len: 2,
        };
    }
    if number < 256 {
        return Head {
            bytes: [
                0,
                format_code::SMALL_ULONG,
                number as u8,
                0,
                0,
                0,
                0,
                0,
                0,
                0,
            ],
            len: 3,
        };
    }
    let [a, b, c, d, e, f, g, h] = number.to_be_bytes();
    Head {
        bytes: [0, format_code::ULONG, a, b, c, d, e, f, g, h],
        len: 10,
    }
}

/// Returns how many bytes a descriptor takes. It is refused if it is a symbol that isn't ASCII or is too long.
pub(crate) fn len_of(descriptor: &Descriptor) -> Result<usize, Error>
    ensures { result ≡ descriptor_length (descriptor_of descriptor.now) }
{
    match descriptor {
        Descriptor::Name(name) => {
            let text = name.as_str();
            check_symbol(text)?;
            Ok(if text.len() < 256 { 3 } else { 6 } + text.len())
        }
        Descriptor::Code(code) => Ok(match *code {
            0 => 2,
            1..=255 => 3,
            _ => 10,
        }),
    }
}

/// Checks that a symbol is ASCII (Part 1, section 1.6.21), and that its length fits in four bytes.
pub(crate) fn check_symbol(text: &str) -> Result<(), Error>
    ensures { result ≡ checked (symbol text.now) }
{
    if !text.is_ascii() {
        return Err(Error::NonAscii);
    }
    if text.len() > 0xffff_ffff {
        return Err(Error::TooLarge);
    }
    Ok(())
}
