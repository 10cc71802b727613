//! The primitive kinds (Part 1, sections 1.6.2 to 1.6.21).
ghost use Rattle.std.specs.Prelude.{[], ◌∷◌};
ghost use Rattle.amqp_model.specs.Term.{boolean, ubyte, ushort, uint, ulong, byte, short, int, long, char, timestamp, decimal32, decimal64};
ghost use Rattle.amqp_model.specs.Term.{decimal128, uuid, binary, string};
ghost use Rattle.amqp_encoder.specs.Tokens.{put};
ghost use Rattle.amqp_encoder.specs.Writes.{Writes};
ghost use Rattle.amqp_encoder.specs.Passes.{answer_of};

use crate::places::Shortest;
use crate::{Encoder, Pass};
use amqp_wire::{Error, format_code};

impl<P: Pass> Encoder<P> {
    /// Writes a boolean (Part 1, section 1.6.2).
    #[inline(always)]
    pub fn write_bool(&mut self, value: bool) -> Result<(), Error>
        ensures { Writes self.old (put (boolean value) ∷ []) result self.new }
    {
        if value {
            self.put(
                Shortest::Code(format_code::BOOLEAN_TRUE),
                [format_code::BOOLEAN, 1],
            )
        } else {
            self.put(
                Shortest::Code(format_code::BOOLEAN_FALSE),
                [format_code::BOOLEAN, 0],
            )
        }
    }

    /// Writes an unsigned integer of 8 bits (Part 1, section 1.6.3).
    #[inline(always)]
    pub fn write_ubyte(&mut self, value: u8) -> Result<(), Error>
        ensures { Writes self.old (put (ubyte value) ∷ []) result self.new }
    {
        self.put(Shortest::Wide, [format_code::UBYTE, value])
    }

    /// Writes an unsigned integer of 16 bits (Part 1, section 1.6.4).
    #[inline(always)]
    pub fn write_ushort(&mut self, value: u16) -> Result<(), Error>
        ensures { Writes self.old (put (ushort value) ∷ []) result self.new }
    {
        let [a, b] = value.to_be_bytes();
        self.put(Shortest::Wide, [format_code::USHORT, a, b])
    }

    /// Writes an unsigned integer of 32 bits (Part 1, section 1.6.5).
    #[inline(always)]
    pub fn write_uint(&mut self, value: u32) -> Result<(), Error>
        ensures { Writes self.old (put (uint value) ∷ []) result self.new }
    {
        let [a, b, c, d] = value.to_be_bytes();
        if self.puts_plain(Shortest::of_uint(value), [format_code::UINT, a, b, c, d]) {
            return Ok(());
        }
        self.write_uint_apart(value);
        self.check()
    }

    #[inline(never)]
    fn write_uint_apart(&mut self, value: u32)
        ensures { Writes self.old (put (uint value) ∷ []) (answer_of self.new) self.new }
    {
        let [a, b, c, d] = value.to_be_bytes();
        self.put_any(Shortest::of_uint(value), [format_code::UINT, a, b, c, d])
    }

    /// Writes an unsigned integer of 64 bits (Part 1, section 1.6.6).
    #[inline(always)]
    pub fn write_ulong(&mut self, value: u64) -> Result<(), Error>
        ensures { Writes self.old (put (ulong value) ∷ []) result self.new }
    {
        let [a, b, c, d, e, f, g, h] = value.to_be_bytes();
        if self.puts_plain(
            Shortest::of_ulong(value),
            [format_code::ULONG, a, b, c, d, e, f, g, h],
        ) {
            return Ok(());
        }
        self.write_ulong_apart(value);
        self.check()
    }

    #[inline(never)]
    fn write_ulong_apart(&mut self, value: u64)
        ensures { Writes self.old (put (ulong value) ∷ []) (answer_of self.new) self.new }
    {
        let [a, b, c, d, e, f, g, h] = value.to_be_bytes();
        self.put_any(
            Shortest::of_ulong(value),
            [format_code::ULONG, a, b, c, d, e, f, g, h],
        )
    }

    /// Writes a signed integer of 8 bits (Part 1, section 1.6.7).
    #[inline(always)]
    pub fn write_byte(&mut self, value: i8) -> Result<(), Error>
        ensures { Writes self.old (put (byte value) ∷ []) result self.new }
    {
        let [a] = value.to_be_bytes();
        self.put(Shortest::Wide, [format_code::BYTE, a])
    }

    /// Writes a signed integer of 16 bits (Part 1, section 1.6.8).
    #[inline(always)]
    pub fn write_short(&mut self, value: i16) -> Result<(), Error>
        ensures { Writes self.old (put (short value) ∷ []) result self.new }
    {
        let [a, b] = value.to_be_bytes();
        self.put(Shortest::Wide, [format_code::SHORT, a, b])
    }

    /// Writes a signed integer of 32 bits (Part 1, section 1.6.9).
    #[inline(always)]
    pub fn write_int(&mut self, value: i32) -> Result<(), Error>
        ensures { Writes self.old (put (int value) ∷ []) result self.new }
    {
        let [a, b, c, d] = value.to_be_bytes();
        if self.puts_plain(Shortest::of_int(value), [format_code::INT, a, b, c, d]) {
            return Ok(());
        }
        self.write_int_apart(value);
        self.check()
    }

    #[inline(never)]
    fn write_int_apart(&mut self, value: i32)
        ensures { Writes self.old (put (int value) ∷ []) (answer_of self.new) self.new }
    {
        let [a, b, c, d] = value.to_be_bytes();
        self.put_any(Shortest::of_int(value), [format_code::INT, a, b, c, d])
    }

    /// Writes a signed integer of 64 bits (Part 1, section 1.6.10).
    #[inline(always)]
    pub fn write_long(&mut self, value: i64) -> Result<(), Error>
        ensures { Writes self.old (put (long value) ∷ []) result self.new }
    {
        let [a, b, c, d, e, f, g, h] = value.to_be_bytes();
        if self.puts_plain(
            Shortest::of_long(value),
            [format_code::LONG, a, b, c, d, e, f, g, h],
        ) {
            return Ok(());
        }
        self.write_long_apart(value);
        self.check()
    }

    #[inline(never)]
    fn write_long_apart(&mut self, value: i64)
        ensures { Writes self.old (put (long value) ∷ []) (answer_of self.new) self.new }
    {
        let [a, b, c, d, e, f, g, h] = value.to_be_bytes();
        self.put_any(
            Shortest::of_long(value),
            [format_code::LONG, a, b, c, d, e, f, g, h],
        )
    }

    /// Writes a decimal number of 32 bits, as its bytes (Part 1, section 1.6.13).
    pub fn write_dec32(&mut self, value: [u8; 4]) -> Result<(), Error>
        ensures { Writes self.old (put (decimal32 value) ∷ []) result self.new }
    {
        let mut wide = [format_code::DECIMAL_32; 5];
        wide[1..].copy_from_slice(&value);
        self.put(Shortest::Wide, wide)
    }

    /// Writes a decimal number of 64 bits, as its bytes (Part 1, section 1.6.14).
    pub fn write_dec64(&mut self, value: [u8; 8]) -> Result<(), Error>
        ensures { Writes self.old (put (decimal64 value) ∷ []) result self.new }
    {
        let mut wide = [format_code::DECIMAL_64; 9];
        wide[1..].copy_from_slice(&value);
        self.put(Shortest::Wide, wide)
    }

    /// Writes a decimal number of 128 bits, as its bytes (Part 1, section 1.6.15).
    pub fn write_dec128(&mut self, value: [u8; 16]) -> Result<(), Error>
        ensures { Writes self.old (put (decimal128 value) ∷ []) result self.new }
    {
        let mut wide = [format_code::DECIMAL_128; 17];
        wide[1..].copy_from_slice(&value);
        self.put(Shortest::Wide, wide)
    }

    /// Writes a Unicode character (Part 1, section 1.6.16).
    #[inline(always)]
    pub fn write_char(&mut self, value: char) -> Result<(), Error>
        ensures { Writes self.old (put (char value) ∷ []) result self.new }
    {
        let [a, b, c, d] = (value as u32).to_be_bytes();
        self.put(Shortest::Wide, [format_code::CHAR, a, b, c, d])
    }

    /// Writes a point in time, in milliseconds since 1970 (Part 1, section 1.6.17).
    #[inline(always)]
    pub fn write_timestamp(&mut self, value: i64) -> Result<(), Error>
        ensures { Writes self.old (put (timestamp value) ∷ []) result self.new }
    {
        let [a, b, c, d, e, f, g, h] = value.to_be_bytes();
        self.put(
            Shortest::Wide,
            [format_code::TIMESTAMP, a, b, c, d, e, f, g, h],
        )
    }

    /// Writes a universally unique identifier, as its bytes (Part 1, section 1.6.18).
    pub fn write_uuid(&mut self, value: [u8; 16]) -> Result<(), Error>
        ensures { Writes self.old (put (uuid value) ∷ []) result self.new }
    {
        let mut wide = [format_code::UUID; 17];
        wide[1..].copy_from_slice(&value);
        self.put(Shortest::Wide, wide)
    }

    /// Writes bytes (Part 1, section 1.6.19).
    pub fn write_binary(&mut self, value: &[u8]) -> Result<(), Error>
        ensures { Writes self.old (put (binary value.now) ∷ []) result self.new }
    {
        self.put_bytes(format_code::BINARY_8, format_code::BINARY_32, value)
    }

    /// Writes a text (Part 1, section 1.6.20).
    pub fn write_string(&mut self, value: &str) -> Result<(), Error>
        ensures { Writes self.old (put (string value.now) ∷ []) result self.new }
    {
        self.put_bytes(
            format_code::STRING_8,
            format_code::STRING_32,
            value.as_bytes(),
        )
    }
}
