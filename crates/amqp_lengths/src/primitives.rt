//! The data of primitives under their codes (Part 1, sections 1.2 and 1.6).
ghost use Rattle.std.specs.Prelude.{◌≡◌, ◌+◌, IfOk, IfErr};
ghost use Rattle.amqp_model.specs.Constructors.{format};
ghost use Rattle.amqp_lengths.specs.Fronts.{IsFront, Refuses};
ghost use Rattle.amqp_lengths.specs.Pieces.{fixed_width, IsPrimitive, IsValue, HasWidth, PrimitiveOf, value_of};
ghost use Rattle.amqp_lengths.specs.Faults.{ValueFault, PrimitiveFault};

use crate::sizes::{fixed, sized, width_of};
use amqp_wire::{Error, format_code};
use std::str;

// How many bytes a value of a fixed width has: the high half of its code says it.
fn fixed_width(code: u8) -> usize
    ensures { result ≡ fixed_width code }
{
    match code / 16 {
        0x4 => 0,
        0x5 => 1,
        0x6 => 2,
        0x7 => 4,
        0x8 => 8,
        _ => 16,
    }
}

// Checks that the bytes are a value under the code.
fn check_value(code: u8, bytes: &[u8]) -> Result<(), Error>
    requires primitive { IsPrimitive (format code) }
    requires width { HasWidth (format code) bytes.now }
    ensures found { IfOk result (λ _. IsValue (format code) bytes.now) }
    ensures refused { IfErr result (λ _. IsValue (format code) bytes.now → ⊥) }
    ensures fault { IfErr result (λ e. ValueFault (value_of (format code) bytes.now) e) }
{
    match code {
        format_code::BOOLEAN => match bytes {
            [byte] if *byte <= 1 => Ok(()),
            _ => Err(Error::BadBool),
        },
        format_code::CHAR => match bytes {
            [a, b, c, d] if char::from_u32(u32::from_be_bytes([*a, *b, *c, *d])).is_some() => Ok(
                (),
            ),
            _ => Err(Error::BadChar),
        },
        format_code::STRING_8 | format_code::STRING_32 => match str::from_utf8(bytes) {
            Ok(_) => Ok(()),
            Err(_) => Err(Error::BadUtf8),
        },
        format_code::SYMBOL_8 | format_code::SYMBOL_32 => {
            if bytes.is_ascii() {
                Ok(())
            } else {
                Err(Error::NonAscii)
            }
        }
        _ => Ok(()),
    }
}

/// Returns the length of the data of a primitive under its code.
pub(crate) fn primitive_len(code: u8, input: &[u8]) -> Result<usize, Error>
    requires { IsPrimitive (format code) }
    ensures found { IfOk result (λ n. IsFront (PrimitiveOf code) input.now n) }
    ensures refused { IfErr result (λ e. Refuses (PrimitiveOf code) input.now e) }
    ensures fault { IfErr result (λ e. PrimitiveFault (format code) input.now e) }
{
    if code < format_code::BINARY_8 {
        let width = fixed_width(code);
        check_value(code, fixed(input, width)?)?;
        Ok(width)
    } else {
        let wide = code >= format_code::BINARY_32;
        let content = sized(input, wide)?;
        check_value(code, content)?;
        Ok(width_of(wide) + content.len())
    }
}
