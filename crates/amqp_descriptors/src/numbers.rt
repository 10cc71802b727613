//! The numbers that the data of fixed widths encodes (Part 1, section 1.6).

/// Returns the number that bytes are, the first of them the most significant. More than eight bytes give the number of the last eight.
pub fn unsigned(bytes: &[u8]) -> u64 {
    let mut number = 0u64;
    for byte in bytes {
        number = number.wrapping_mul(256) | u64::from(*byte);
    }
    number
}

/// Returns the number that one, two, four or eight bytes are in two's complement, and 0 for any other length.
pub fn signed(bytes: &[u8]) -> i64 {
    match bytes {
        [a] => i64::from(i8::from_be_bytes([*a])),
        [a, b] => i64::from(i16::from_be_bytes([*a, *b])),
        [a, b, c, d] => i64::from(i32::from_be_bytes([*a, *b, *c, *d])),
        [a, b, c, d, e, f, g, h] => i64::from_be_bytes([*a, *b, *c, *d, *e, *f, *g, *h]),
        _ => 0,
    }
}

/// Returns the character that the data of a char is, if it is one (Part 1, section 1.6.16).
pub fn character(bytes: &[u8]) -> Option<char> {
    let number = u32::try_from(unsigned(bytes)).ok()?;
    char::from_u32(number)
}

/// Returns whether the data of a boolean means true: its code alone says so, or its one byte does (Part 1, section 1.6.2).
pub fn is_true(code: u8, bytes: &[u8]) -> bool {
    code == 0x41 || bytes == [1].as_slice()
}
