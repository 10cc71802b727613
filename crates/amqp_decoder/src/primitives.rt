//! The calls that read primitives whose data has a known width (Part 1, section 1.6).
ghost use Rattle.std.specs.Prelude.{◌<◌, ◌≡◌, Some, None, MatchOption, IfSome, IfOk, IfErr, false};
ghost use Rattle.amqp_model.specs.Term.{null, boolean, ubyte, ushort, uint, ulong, byte, short, int, long, char, timestamp, decimal32};
ghost use Rattle.amqp_model.specs.Term.{decimal64, decimal128, uuid};
ghost use Rattle.amqp_wire.specs.Sources.{Tells};
ghost use Rattle.amqp_decoder.specs.Reading.{AnswersRead};
ghost use Rattle.amqp_decoder.specs.Primitives.{ReadsFixed, FixedFault, AnswersFault, ReadsValue, Means, PrimitiveFault, ReadsData};
ghost use Rattle.amqp_decoder.specs.Primitives.{LacksDataOf};
ghost use Rattle.amqp_lookahead.specs.Kinds.{kind_at, nulls, booleans, ubytes, ushorts, uints, ulongs, bytes, shorts, ints, longs, decimals32};
ghost use Rattle.amqp_lookahead.specs.Kinds.{decimals64, decimals128, chars, timestamps, uuids};
ghost use Rattle.amqp_decoder.specs.Steps.{Began, Goes, Tries};
ghost use Rattle.amqp_decoder.specs.Places.{StandsHere};

use crate::Decoder;
use amqp_wire::{ByteSource, Error, format_code};

impl<R: ByteSource> Decoder<R> {
    // The data of a value that has one constructor.
    #[inline]
    fn fixed<const N: usize>(&mut self, code: u8) -> Result<[u8; N], Error>
        requires coded { 0 < code }
        requires few { N < 256 }
        ensures ok { Tells R.remaining → IfOk result (λ b. ReadsFixed code N self.old b self.new) }
        ensures err { Tells R.remaining → IfErr result (λ e. AnswersFault false (FixedFault code N) self.old e self.new) }
        ensures tries { Tries false self.old result self.new }
        ensures place { IfErr result (λ _. StandsHere self.old self.new) }
    {
        match self.element(code) {
            Some(data) => Ok(data),
            None => self.any_fixed(code),
        }
    }

    // The same, however the source gives it.
    #[inline]
    fn any_fixed<const N: usize>(&mut self, code: u8) -> Result<[u8; N], Error>
        requires { N < 256 }
        ensures ok { Tells R.remaining → IfOk result (λ b. ReadsFixed code N self.old b self.new) }
        ensures err { Tells R.remaining → IfErr result (λ e. AnswersFault false (FixedFault code N) self.old e self.new) }
        ensures tries { Tries false self.old result self.new }
        ensures place { IfErr result (λ _. StandsHere self.old self.new) }
    {
        let start = self.start();
        let answer = self.fixed_data(code);
        self.placed(start, answer)
    }

    // The same, wherever it refuses.
    #[inline(always)]
    fn fixed_data<const N: usize>(&mut self, code: u8) -> Result<[u8; N], Error>
        requires { N < 256 }
        ensures ok { Tells R.remaining → IfOk result (λ b. ReadsFixed code N self.old b self.new) }
        ensures err { Tells R.remaining → IfErr result (λ e. AnswersFault false (FixedFault code N) self.old e self.new) }
        ensures tries { Tries false self.old result self.new }
    {
        let found = self.begin()?;
        if found != code {
            return Err(self.refuse_code(found));
        }
        self.take()
    }

    /// Reads a null (Part 1, section 1.6.1).
    #[inline]
    pub fn read_null(&mut self) -> Result<(), Error>
        ensures read { Tells R.remaining → AnswersRead false (ReadsValue (Means (λ _. null))) (PrimitiveFault nulls) self.old result self.new }
        ensures tries { Tries false self.old result self.new }
        ensures place { IfErr result (λ _. StandsHere self.old self.new) }
    {
        if let Some(_) = self.quick::<1>(format_code::NULL) {
            return Ok(());
        }
        self.read_any_null()
    }

    // The same, however the source gives it.
    #[inline(never)]
    fn read_any_null(&mut self) -> Result<(), Error>
        ensures read { Tells R.remaining → AnswersRead false (ReadsValue (Means (λ _. null))) (PrimitiveFault nulls) self.old result self.new }
        ensures tries { Tries false self.old result self.new }
        ensures place { IfErr result (λ _. StandsHere self.old self.new) }
    {
        let _data = self.fixed::<0>(format_code::NULL)?;
        Ok(())
    }

    // A boolean of one byte that is at hand. `None` takes nothing, and says nothing about what comes next.
    #[inline(always)]
    fn quick_bool(&mut self) -> Option<bool>
        ensures none { result ≡ None → self.new ≡ self.old }
        ensures read { IfSome result (λ v. Tells R.remaining → ReadsValue (Means boolean) self.old v self.new) }
        ensures began { IfSome result (λ _. Began self.old self.new) }
    {
        match self.plain_code()? {
            format_code::BOOLEAN_TRUE => {
                let _code = self.take_plain::<1>(format_code::BOOLEAN_TRUE)?;
                Some(true)
            }
            format_code::BOOLEAN_FALSE => {
                let _code = self.take_plain::<1>(format_code::BOOLEAN_FALSE)?;
                Some(false)
            }
            _ => None,
        }
    }

    /// Reads a boolean (Part 1, section 1.6.2). It returns `BadBool` if the boolean's byte is above 1.
    #[inline]
    pub fn read_bool(&mut self) -> Result<bool, Error>
        ensures read { Tells R.remaining → AnswersRead false (ReadsValue (Means boolean)) (PrimitiveFault booleans) self.old result self.new }
        ensures tries { Tries false self.old result self.new }
        ensures place { IfErr result (λ _. StandsHere self.old self.new) }
    {
        match self.quick_bool() {
            Some(value) => Ok(value),
            None => self.read_any_bool(),
        }
    }

    // The same, however the source gives it.
    #[inline(never)]
    fn read_any_bool(&mut self) -> Result<bool, Error>
        ensures read { Tells R.remaining → AnswersRead false (ReadsValue (Means boolean)) (PrimitiveFault booleans) self.old result self.new }
        ensures tries { Tries false self.old result self.new }
        ensures place { IfErr result (λ _. StandsHere self.old self.new) }
    {
        let start = self.start();
        let answer = self.any_bool();
        self.placed(start, answer)
    }

    // The same, wherever it refuses.
    #[inline(always)]
    fn any_bool(&mut self) -> Result<bool, Error>
        ensures read { Tells R.remaining → AnswersRead false (ReadsValue (Means boolean)) (PrimitiveFault booleans) self.old result self.new }
        ensures tries { Tries false self.old result self.new }
    {
        match self.begin()? {
            format_code::BOOLEAN_TRUE => Ok(true),
            format_code::BOOLEAN_FALSE => Ok(false),
            format_code::BOOLEAN => match self.byte()? {
                0 => Ok(false),
                1 => Ok(true),
                _ => Err(self.stop(Error::BadBool)),
            },
            code => Err(self.refuse_code(code)),
        }
    }

    /// Reads an unsigned integer of 8 bits (Part 1, section 1.6.3).
    #[inline]
    pub fn read_ubyte(&mut self) -> Result<u8, Error>
        ensures read { Tells R.remaining → AnswersRead false (ReadsValue (Means ubyte)) (PrimitiveFault ubytes) self.old result self.new }
        ensures tries { Tries false self.old result self.new }
        ensures place { IfErr result (λ _. StandsHere self.old self.new) }
    {
        Ok(u8::from_be_bytes(self.fixed(format_code::UBYTE)?))
    }

    /// Reads an unsigned integer of 16 bits (Part 1, section 1.6.4).
    #[inline]
    pub fn read_ushort(&mut self) -> Result<u16, Error>
        ensures read { Tells R.remaining → AnswersRead false (ReadsValue (Means ushort)) (PrimitiveFault ushorts) self.old result self.new }
        ensures tries { Tries false self.old result self.new }
        ensures place { IfErr result (λ _. StandsHere self.old self.new) }
    {
        Ok(u16::from_be_bytes(self.fixed(format_code::USHORT)?))
    }

    // An unsigned integer of 32 bits whose bytes are at hand. `None` takes nothing, and says nothing about what comes next.
    #[inline(always)]
    fn quick_uint(&mut self) -> Option<u32>
        ensures none { result ≡ None → self.new ≡ self.old }
        ensures read { IfSome result (λ v. Tells R.remaining → ReadsValue (Means uint) self.old v self.new) }
        ensures began { IfSome result (λ _. Began self.old self.new) }
    {
        match self.plain_code()? {
            format_code::UINT => {
                let bytes = self.take_plain::<5>(format_code::UINT)?;
                let [_, a, b, c, d] = bytes;
                Some(u32::from_be_bytes([a, b, c, d]))
            }
            format_code::SMALL_UINT => {
                let bytes = self.take_plain::<2>(format_code::SMALL_UINT)?;
                Some(u32::from(bytes[1]))
            }
            format_code::UINT_0 => {
                let _code = self.take_plain::<1>(format_code::UINT_0)?;
                Some(0)
            }
            _ => None,
        }
    }

    /// Reads an unsigned integer of 32 bits (Part 1, section 1.6.5).
    #[inline]
    pub fn read_uint(&mut self) -> Result<u32, Error>
        ensures read { Tells R.remaining → AnswersRead false (ReadsValue (Means uint)) (PrimitiveFault uints) self.old result self.new }
        ensures tries { Tries false self.old result self.new }
        ensures place { IfErr result (λ _. StandsHere self.old self.new) }
    {
        match self.quick_uint() {
            Some(value) => Ok(value),
            None => self.read_any_uint(),
        }
    }

    // The same in an array, if its bytes are at hand and as many as the code of the array has. `None` takes nothing, and says nothing about
    // what comes next.
    #[inline(always)]
    fn uint_element(&mut self) -> Option<u32>
        ensures none { result ≡ None → self.new ≡ self.old }
        ensures read { IfSome result (λ v. Tells R.remaining → ReadsValue (Means uint) self.old v self.new) }
        ensures began { IfSome result (λ _. Began self.old self.new) }
    {
        let data = self.element(format_code::UINT)?;
        Some(u32::from_be_bytes(data))
    }

    // The same, however the source gives it.
    #[inline(never)]
    fn read_any_uint(&mut self) -> Result<u32, Error>
        ensures read { Tells R.remaining → AnswersRead false (ReadsValue (Means uint)) (PrimitiveFault uints) self.old result self.new }
        ensures tries { Tries false self.old result self.new }
        ensures place { IfErr result (λ _. StandsHere self.old self.new) }
    {
        match self.uint_element() {
            Some(value) => Ok(value),
            None => self.uint_from_start(),
        }
    }

    // The same, wherever its bytes are.
    #[inline(always)]
    fn uint_from_start(&mut self) -> Result<u32, Error>
        ensures read { Tells R.remaining → AnswersRead false (ReadsValue (Means uint)) (PrimitiveFault uints) self.old result self.new }
        ensures tries { Tries false self.old result self.new }
        ensures place { IfErr result (λ _. StandsHere self.old self.new) }
    {
        let start = self.start();
        let answer = self.any_uint();
        self.placed(start, answer)
    }

    // The same, wherever it refuses.
    #[inline(always)]
    fn any_uint(&mut self) -> Result<u32, Error>
        ensures read { Tells R.remaining → AnswersRead false (ReadsValue (Means uint)) (PrimitiveFault uints) self.old result self.new }
        ensures tries { Tries false self.old result self.new }
    {
        match self.begin()? {
            format_code::UINT_0 => Ok(0),
            format_code::SMALL_UINT => Ok(u32::from(self.byte()?)),
            format_code::UINT => Ok(u32::from_be_bytes(self.take()?)),
            // A return of its own keeps the number apart from the parts of an error, so that it stays in a register.
            code => return Err(self.refuse_code(code)),
        }
    }

    // The data of a ulong under its code, or `None` if the code is another kind's.
    #[inline(always)]
    pub(crate) fn ulong_data(&mut self, code: u8) -> Result<Option<u64>, Error>
        ensures ok { Tells R.remaining → IfOk result
            (λ o. MatchOption o ((kind_at code ≡ Some ulongs → ⊥) × (self.new ≡ self.old))
            (λ v. ReadsData code (ulong v) self.old self.new)) }
        ensures err { Tells R.remaining → IfErr result (λ e. LacksDataOf ulongs code self.old e self.new) }
        ensures goes { Goes false self.old result self.new }
    {
        match code {
            format_code::ULONG_0 => Ok(Some(0)),
            format_code::SMALL_ULONG => Ok(Some(u64::from(self.byte()?))),
            format_code::ULONG => Ok(Some(u64::from_be_bytes(self.take()?))),
            _ => Ok(None),
        }
    }

    // An unsigned integer of 64 bits whose bytes are at hand. `None` takes nothing, and says nothing about what comes next.
    #[inline(always)]
    fn quick_ulong(&mut self) -> Option<u64>
        ensures none { result ≡ None → self.new ≡ self.old }
        ensures read { IfSome result (λ v. Tells R.remaining → ReadsValue (Means ulong) self.old v self.new) }
        ensures began { IfSome result (λ _. Began self.old self.new) }
    {
        match self.plain_code()? {
            format_code::SMALL_ULONG => {
                let bytes = self.take_plain::<2>(format_code::SMALL_ULONG)?;
                Some(u64::from(bytes[1]))
            }
            format_code::ULONG_0 => {
                let _code = self.take_plain::<1>(format_code::ULONG_0)?;
                Some(0)
            }
            format_code::ULONG => {
                let bytes = self.take_plain::<9>(format_code::ULONG)?;
                let [_, a, b, c, d, e, f, g, h] = bytes;
                Some(u64::from_be_bytes([a, b, c, d, e, f, g, h]))
            }
            _ => None,
        }
    }

    /// Reads an unsigned integer of 64 bits (Part 1, section 1.6.6).
    #[inline]
    pub fn read_ulong(&mut self) -> Result<u64, Error>
        ensures read { Tells R.remaining → AnswersRead false (ReadsValue (Means ulong)) (PrimitiveFault ulongs) self.old result self.new }
        ensures tries { Tries false self.old result self.new }
        ensures place { IfErr result (λ _. StandsHere self.old self.new) }
    {
        match self.quick_ulong() {
            Some(value) => Ok(value),
            None => self.read_any_ulong(),
        }
    }

    // The same in an array, if its bytes are at hand and as many as the code of the array has. `None` takes nothing, and says nothing about
    // what comes next.
    #[inline(always)]
    fn ulong_element(&mut self) -> Option<u64>
        ensures none { result ≡ None → self.new ≡ self.old }
        ensures read { IfSome result (λ v. Tells R.remaining → ReadsValue (Means ulong) self.old v self.new) }
        ensures began { IfSome result (λ _. Began self.old self.new) }
    {
        let data = self.element(format_code::ULONG)?;
        Some(u64::from_be_bytes(data))
    }

    // The same, however the source gives it.
    #[inline(never)]
    fn read_any_ulong(&mut self) -> Result<u64, Error>
        ensures read { Tells R.remaining → AnswersRead false (ReadsValue (Means ulong)) (PrimitiveFault ulongs) self.old result self.new }
        ensures tries { Tries false self.old result self.new }
        ensures place { IfErr result (λ _. StandsHere self.old self.new) }
    {
        match self.ulong_element() {
            Some(value) => Ok(value),
            None => self.ulong_from_start(),
        }
    }

    // The same, wherever its bytes are.
    #[inline(always)]
    fn ulong_from_start(&mut self) -> Result<u64, Error>
        ensures read { Tells R.remaining → AnswersRead false (ReadsValue (Means ulong)) (PrimitiveFault ulongs) self.old result self.new }
        ensures tries { Tries false self.old result self.new }
        ensures place { IfErr result (λ _. StandsHere self.old self.new) }
    {
        let start = self.start();
        let answer = self.any_ulong();
        self.placed(start, answer)
    }

    // The same, wherever it refuses.
    #[inline(always)]
    fn any_ulong(&mut self) -> Result<u64, Error>
        ensures read { Tells R.remaining → AnswersRead false (ReadsValue (Means ulong)) (PrimitiveFault ulongs) self.old result self.new }
        ensures tries { Tries false self.old result self.new }
    {
        let code = self.begin()?;
        match self.ulong_data(code)? {
            Some(value) => Ok(value),
            None => Err(self.refuse_code(code)),
        }
    }

    /// Reads a signed integer of 8 bits (Part 1, section 1.6.7).
    #[inline]
    pub fn read_byte(&mut self) -> Result<i8, Error>
        ensures read { Tells R.remaining → AnswersRead false (ReadsValue (Means byte)) (PrimitiveFault bytes) self.old result self.new }
        ensures tries { Tries false self.old result self.new }
        ensures place { IfErr result (λ _. StandsHere self.old self.new) }
    {
        Ok(i8::from_be_bytes(self.fixed(format_code::BYTE)?))
    }

    /// Reads a signed integer of 16 bits (Part 1, section 1.6.8).
    #[inline]
    pub fn read_short(&mut self) -> Result<i16, Error>
        ensures read { Tells R.remaining → AnswersRead false (ReadsValue (Means short)) (PrimitiveFault shorts) self.old result self.new }
        ensures tries { Tries false self.old result self.new }
        ensures place { IfErr result (λ _. StandsHere self.old self.new) }
    {
        Ok(i16::from_be_bytes(self.fixed(format_code::SHORT)?))
    }

    /// Reads a signed integer of 32 bits (Part 1, section 1.6.9).
    #[inline]
    pub fn read_int(&mut self) -> Result<i32, Error>
        ensures read { Tells R.remaining → AnswersRead false (ReadsValue (Means int)) (PrimitiveFault ints) self.old result self.new }
        ensures tries { Tries false self.old result self.new }
        ensures place { IfErr result (λ _. StandsHere self.old self.new) }
    {
        let start = self.start();
        let answer = self.any_int();
        self.placed(start, answer)
    }

    // The same, wherever it refuses.
    #[inline(always)]
    fn any_int(&mut self) -> Result<i32, Error>
        ensures read { Tells R.remaining → AnswersRead false (ReadsValue (Means int)) (PrimitiveFault ints) self.old result self.new }
        ensures tries { Tries false self.old result self.new }
    {
        match self.begin()? {
            format_code::SMALL_INT => Ok(i32::from(i8::from_be_bytes(self.take()?))),
            format_code::INT => Ok(i32::from_be_bytes(self.take()?)),
            code => Err(self.refuse_code(code)),
        }
    }

    /// Reads a signed integer of 64 bits (Part 1, section 1.6.10).
    #[inline]
    pub fn read_long(&mut self) -> Result<i64, Error>
        ensures read { Tells R.remaining → AnswersRead false (ReadsValue (Means long)) (PrimitiveFault longs) self.old result self.new }
        ensures tries { Tries false self.old result self.new }
        ensures place { IfErr result (λ _. StandsHere self.old self.new) }
    {
        let start = self.start();
        let answer = self.any_long();
        self.placed(start, answer)
    }

    // The same, wherever it refuses.
    #[inline(always)]
    fn any_long(&mut self) -> Result<i64, Error>
        ensures read { Tells R.remaining → AnswersRead false (ReadsValue (Means long)) (PrimitiveFault longs) self.old result self.new }
        ensures tries { Tries false self.old result self.new }
    {
        match self.begin()? {
            format_code::SMALL_LONG => Ok(i64::from(i8::from_be_bytes(self.take()?))),
            format_code::LONG => Ok(i64::from_be_bytes(self.take()?)),
            code => Err(self.refuse_code(code)),
        }
    }

    /// Reads the bytes of a decimal of 32 bits (Part 1, section 1.6.13).
    #[inline]
    pub fn read_dec32(&mut self) -> Result<[u8; 4], Error>
        ensures read { Tells R.remaining
            → AnswersRead false (ReadsValue (Means decimal32)) (PrimitiveFault decimals32) self.old result self.new }
        ensures tries { Tries false self.old result self.new }
        ensures place { IfErr result (λ _. StandsHere self.old self.new) }
    {
        self.fixed(format_code::DECIMAL_32)
    }

    /// Reads the bytes of a decimal of 64 bits (Part 1, section 1.6.14).
    #[inline]
    pub fn read_dec64(&mut self) -> Result<[u8; 8], Error>
        ensures read { Tells R.remaining
            → AnswersRead false (ReadsValue (Means decimal64)) (PrimitiveFault decimals64) self.old result self.new }
        ensures tries { Tries false self.old result self.new }
        ensures place { IfErr result (λ _. StandsHere self.old self.new) }
    {
        self.fixed(format_code::DECIMAL_64)
    }

    /// Reads the bytes of a decimal of 128 bits (Part 1, section 1.6.15).
    #[inline]
    pub fn read_dec128(&mut self) -> Result<[u8; 16], Error>
        ensures read { Tells R.remaining → AnswersRead false (ReadsValue (Means decimal128)) (PrimitiveFault decimals128)
            self.old result self.new }
        ensures tries { Tries false self.old result self.new }
        ensures place { IfErr result (λ _. StandsHere self.old self.new) }
    {
        self.fixed(format_code::DECIMAL_128)
    }

    /// Reads a character (Part 1, section 1.6.16). It returns `BadChar` if the character isn't a Unicode scalar value.
    #[inline]
    pub fn read_char(&mut self) -> Result<char, Error>
        ensures read { Tells R.remaining → AnswersRead false (ReadsValue (Means char)) (PrimitiveFault chars) self.old result self.new }
        ensures tries { Tries false self.old result self.new }
        ensures place { IfErr result (λ _. StandsHere self.old self.new) }
    {
        let start = self.start();
        let answer = self.any_char();
        self.placed(start, answer)
    }

    // The same, wherever it refuses.
    #[inline(always)]
    fn any_char(&mut self) -> Result<char, Error>
        ensures read { Tells R.remaining → AnswersRead false (ReadsValue (Means char)) (PrimitiveFault chars) self.old result self.new }
        ensures tries { Tries false self.old result self.new }
    {
        let number = u32::from_be_bytes(self.fixed(format_code::CHAR)?);
        match char::from_u32(number) {
            Some(value) => Ok(value),
            None => Err(self.stop(Error::BadChar)),
        }
    }

    /// Reads the milliseconds of a timestamp (Part 1, section 1.6.17).
    #[inline]
    pub fn read_timestamp(&mut self) -> Result<i64, Error>
        ensures read { Tells R.remaining
            → AnswersRead false (ReadsValue (Means timestamp)) (PrimitiveFault timestamps) self.old result self.new }
        ensures tries { Tries false self.old result self.new }
        ensures place { IfErr result (λ _. StandsHere self.old self.new) }
    {
        Ok(i64::from_be_bytes(self.fixed(format_code::TIMESTAMP)?))
    }

    /// Reads the bytes of a UUID (Part 1, section 1.6.18).
    #[inline]
    pub fn read_uuid(&mut self) -> Result<[u8; 16], Error>
        ensures read { Tells R.remaining → AnswersRead false (ReadsValue (Means uuid)) (PrimitiveFault uuids) self.old result self.new }
        ensures tries { Tries false self.old result self.new }
        ensures place { IfErr result (λ _. StandsHere self.old self.new) }
    {
        self.fixed(format_code::UUID)
    }
}
