//! The format codes of constructors (Part 1, sections 1.2 and 1.6). The sections named at each code are those of Part 1.
//! A number of several bytes has its highest byte first; a signed one is in two's complement.
ghost use Rattle.std.specs.Prelude.{◌≡◌, ◌≤◌, ◌⊎◌, ◌↔◌, IsTrue, MatchOption};
ghost use Rattle.amqp_model.specs.Constructors.{format};
ghost use Rattle.amqp_model.specs.Spelling.{IsKnown};
ghost use Rattle.amqp_wire.specs.Codes.{is_defined, refusal_of};

use crate::Error;

/// Begins a described value: a descriptor and a further constructor follow (section 1.2).
pub const DESCRIBED: u8 = 0x00;

/// Null, which has no data (section 1.6.1).
pub const NULL: u8 = 0x40;

/// The boolean true, which has no data (section 1.6.2).
pub const BOOLEAN_TRUE: u8 = 0x41;

/// The boolean false, which has no data (section 1.6.2).
pub const BOOLEAN_FALSE: u8 = 0x42;

/// The uint 0, which has no data (section 1.6.5).
pub const UINT_0: u8 = 0x43;

/// The ulong 0, which has no data (section 1.6.6).
pub const ULONG_0: u8 = 0x44;

/// The list without items, which has no data (section 1.6.22).
pub const LIST_0: u8 = 0x45;

/// A ubyte: an unsigned integer of 8 bits, in one byte (section 1.6.3).
pub const UBYTE: u8 = 0x50;

/// A byte: a signed integer of 8 bits, in one byte (section 1.6.7).
pub const BYTE: u8 = 0x51;

/// A uint from 0 to 255, in one byte (section 1.6.5).
pub const SMALL_UINT: u8 = 0x52;

/// A ulong from 0 to 255, in one byte (section 1.6.6).
pub const SMALL_ULONG: u8 = 0x53;

/// An int from -128 to 127, in one byte (section 1.6.9).
pub const SMALL_INT: u8 = 0x54;

/// A long from -128 to 127, in one byte (section 1.6.10).
pub const SMALL_LONG: u8 = 0x55;

/// A boolean in one byte: 0 is false and 1 is true (section 1.6.2).
pub const BOOLEAN: u8 = 0x56;

/// A ushort: an unsigned integer of 16 bits, in two bytes (section 1.6.4).
pub const USHORT: u8 = 0x60;

/// A short: a signed integer of 16 bits, in two bytes (section 1.6.8).
pub const SHORT: u8 = 0x61;

/// A uint: an unsigned integer of 32 bits, in four bytes (section 1.6.5).
pub const UINT: u8 = 0x70;

/// An int: a signed integer of 32 bits, in four bytes (section 1.6.9).
pub const INT: u8 = 0x71;

/// A float (section 1.6.11), which is not supported: it is refused with `Error::FloatCode`.
pub const FLOAT: u8 = 0x72;

/// A char: a Unicode character in four bytes, UTF-32BE (section 1.6.16).
pub const CHAR: u8 = 0x73;

/// A decimal number of 32 bits, in four bytes (section 1.6.13).
pub const DECIMAL_32: u8 = 0x74;

/// A ulong: an unsigned integer of 64 bits, in eight bytes (section 1.6.6).
pub const ULONG: u8 = 0x80;

/// A long: a signed integer of 64 bits, in eight bytes (section 1.6.10).
pub const LONG: u8 = 0x81;

/// A double (section 1.6.12), which is not supported: it is refused with `Error::FloatCode`.
pub const DOUBLE: u8 = 0x82;

/// A timestamp: milliseconds since the Unix epoch, signed, in eight bytes (section 1.6.17).
pub const TIMESTAMP: u8 = 0x83;

/// A decimal number of 64 bits, in eight bytes (section 1.6.14).
pub const DECIMAL_64: u8 = 0x84;

/// A decimal number of 128 bits, in sixteen bytes (section 1.6.15).
pub const DECIMAL_128: u8 = 0x94;

/// A UUID, in sixteen bytes (section 1.6.18).
pub const UUID: u8 = 0x98;

/// A binary of at most 255 bytes, after a size of one byte (section 1.6.19).
pub const BINARY_8: u8 = 0xa0;

/// A string of at most 255 bytes of UTF-8, after a size of one byte (section 1.6.20).
pub const STRING_8: u8 = 0xa1;

/// A symbol of at most 255 bytes of ASCII, after a size of one byte (section 1.6.21).
pub const SYMBOL_8: u8 = 0xa3;

/// A binary, after a size of four bytes (section 1.6.19).
pub const BINARY_32: u8 = 0xb0;

/// A string in UTF-8, after a size of four bytes (section 1.6.20).
pub const STRING_32: u8 = 0xb1;

/// A symbol in ASCII, after a size of four bytes (section 1.6.21).
pub const SYMBOL_32: u8 = 0xb3;

/// A list whose size and count have one byte each (section 1.6.22).
pub const LIST_8: u8 = 0xc0;

/// A map whose size and count have one byte each (section 1.6.23).
pub const MAP_8: u8 = 0xc1;

/// A list whose size and count have four bytes each (section 1.6.22).
pub const LIST_32: u8 = 0xd0;

/// A map whose size and count have four bytes each (section 1.6.23).
pub const MAP_32: u8 = 0xd1;

/// An array whose size and count have one byte each (section 1.6.24).
pub const ARRAY_8: u8 = 0xe0;

/// An array whose size and count have four bytes each (section 1.6.24).
pub const ARRAY_32: u8 = 0xf0;

// Whether the code begins a described value, or a constructor of section 1.6 but that of a float or a double.
fn is_defined(code: u8) -> bool
    ensures { result ≡ is_defined code }
{
    match code {
        DESCRIBED
        | NULL
        | BOOLEAN_TRUE
        | BOOLEAN_FALSE
        | UINT_0
        | ULONG_0
        | LIST_0
        | UBYTE
        | BYTE
        | SMALL_UINT
        | SMALL_ULONG
        | SMALL_INT
        | SMALL_LONG
        | BOOLEAN
        | USHORT
        | SHORT
        | UINT
        | INT
        | CHAR
        | DECIMAL_32
        | ULONG
        | LONG
        | TIMESTAMP
        | DECIMAL_64
        | DECIMAL_128
        | UUID
        | BINARY_8
        | STRING_8
        | SYMBOL_8
        | BINARY_32
        | STRING_32
        | SYMBOL_32
        | LIST_8
        | MAP_8
        | LIST_32
        | MAP_32
        | ARRAY_8
        | ARRAY_32 => true,
        _ => false,
    }
}

/// Returns the error for a code where a value of another kind is expected. It is `FloatCode` for the code of a float or a double,
/// `WrongType` for any other known code, 0x00 too, and otherwise `UnknownCode`.
#[cold]
pub fn refusal(code: u8) -> Error
    ensures { result ≡ refusal_of code }
{
    if code == FLOAT || code == DOUBLE {
        Error::FloatCode(code)
    } else if is_defined(code) {
        Error::WrongType(code)
    } else {
        Error::UnknownCode(code)
    }
}

/// Returns the error for a code that begins no known constructor, or `None` if one begins with it. The error is `FloatCode` for the code of
/// a float or a double, and `UnknownCode` for a code that isn't in section 1.6.
pub fn unknown(code: u8) -> Option<Error>
    ensures { MatchOption result ((code ≡ 0) ⊎ IsKnown (format code))
        (λ e. (e ≡ refusal_of code) × (IsKnown (format code) → ⊥) × (code ≡ 0 → ⊥)) }
{
    if is_defined(code) {
        return None;
    }
    Some(refusal(code))
}

/// Returns whether it is one of the codes 0x40 to 0x45, whose values have no data.
pub fn has_width_zero(code: u8) -> bool
    ensures { IsTrue result ↔ ((0x40 ≤ code) × (code ≤ 0x45)) }
{
    NULL <= code && code <= LIST_0
}

/// Returns whether a known code is that of a list, a map or an array.
pub fn is_compound(code: u8) -> bool
    ensures { IsTrue result ↔ ((code ≡ 0x45) ⊎ (0xc0 ≤ code)) }
{
    code == LIST_0 || code >= LIST_8
}
