//! The calls that read texts and binaries (Part 1, sections 1.6.19 to 1.6.21).
ghost use Rattle.std.specs.Prelude.{◌<◌, ◌≤◌, ◌≡◌, ◌++◌, length, take, cond, IsAscii, string_bytes, IfOk, IfErr, true};
ghost use Rattle.std.specs.Prelude.{false, None, IfSome};
ghost use Rattle.amqp_model.specs.Term.{binary, string, symbol};
ghost use Rattle.amqp_wire.specs.Sources.{Tells};
ghost use Rattle.amqp_lookahead.specs.Kinds.{binaries, strings, symbols};
ghost use Rattle.amqp_decoder.specs.State.{after_bytes};
ghost use Rattle.amqp_decoder.specs.Quick.{ReadsLen};
ghost use Rattle.amqp_decoder.specs.Reserve.{Spares};
ghost use Rattle.amqp_decoder.specs.Places.{StandsHere};
ghost use Rattle.amqp_decoder.specs.Steps.{Answers, Began, Misses, Takes, Lacks, Stops, Goes, Tries};
ghost use Rattle.amqp_decoder.specs.Reading.{AnswersRead};
ghost use Rattle.amqp_decoder.specs.Primitives.{ReadsSize, SizedFault, ReadsSized, ReadsText, TextFault, AnswersFault, ReadsValue, Means};
ghost use Rattle.amqp_decoder.specs.Primitives.{PrimitiveFault};

use crate::Decoder;
use amqp_wire::{ByteSource, Error, Symbol, format_code};
use std::alloc::Global;

/// A text of at most so many bytes is pulled at once.
const SHORT: u32 = 64;

/// The most bytes of a longer text that are pulled at once.
const PIECE: usize = 4096;

impl<R: ByteSource> Decoder<R> {
    // Adds the next so many bytes, which the open container no longer counts. Each piece is held only once it is there.
    fn keep_pieces<const N: usize>(&mut self, len: u32, text: &mut Vec<u8>) -> Result<(), Error>
        requires some { 0 < N }
        requires few { N ≤ 4096 }
        requires spares { Tells R.remaining → Spares R.reserve len self.old }
        ensures ok { Tells R.remaining → IfOk result (λ _. (len ≤ length self.old.rest)
            × (text.new.items ≡ text.old.items ++ take len self.old.rest) × (self.new ≡ after_bytes len self.old)) }
        ensures err { Tells R.remaining → IfErr result (λ e. Misses true len self.old e self.new) }
        ensures goes { Goes true self.old result self.new }
    {
        let mut buffer = [0; N];
        let mut left = len as usize;
        while left > 0 {
            let n = left.min(N);
            let piece = &mut buffer[..n];
            self.pull_all(piece)?;
            if text.extend_from_slice(piece).is_err() {
                return Err(self.stop(Error::Memory));
            }
            left -= n;
        }
        Ok(())
    }

    // The same, in pieces that suit the length.
    #[cold]
    fn keep_in_pieces(&mut self, len: u32, text: &mut Vec<u8>) -> Result<(), Error>
        requires { Tells R.remaining → Spares R.reserve len self.old }
        ensures ok { Tells R.remaining → IfOk result (λ _. (len ≤ length self.old.rest)
            × (text.new.items ≡ text.old.items ++ take len self.old.rest) × (self.new ≡ after_bytes len self.old)) }
        ensures err { Tells R.remaining → IfErr result (λ e. Misses true len self.old e self.new) }
        ensures goes { Goes true self.old result self.new }
    {
        if len <= SHORT {
            self.keep_pieces::<64>(len, text)
        } else {
            self.keep_pieces::<PIECE>(len, text)
        }
    }

    // The same, at once if the bytes are at hand.
    #[inline(always)]
    pub(crate) fn keep(&mut self, len: u32, text: &mut Vec<u8>) -> Result<(), Error>
        requires { Tells R.remaining → Spares R.reserve len self.old }
        ensures ok { Tells R.remaining → IfOk result (λ _. (len ≤ length self.old.rest)
            × (text.new.items ≡ text.old.items ++ take len self.old.rest) × (self.new ≡ after_bytes len self.old)) }
        ensures err { Tells R.remaining → IfErr result (λ e. Misses true len self.old e self.new) }
        ensures goes { Goes true self.old result self.new }
    {
        if self.append_ready(len, text)? {
            return Ok(());
        }
        self.keep_in_pieces(len, text)
    }

    // The length of what a size of one byte or of four announces.
    #[inline(always)]
    pub(crate) fn text_len(&mut self, wide: bool) -> Result<u32, Error>
        ensures ok { Tells R.remaining → IfOk result (λ n. ReadsSize (cond wide 4 1) self.old n self.new) }
        ensures spares { Tells R.remaining → IfOk result (λ n. Spares R.reserve n self.new) }
        ensures err { Tells R.remaining → IfErr result (λ e. SizedFault false (cond wide 4 1) self.old e self.new) }
        ensures goes { Goes false self.old result self.new }
    {
        let len = self.number(wide)?;
        self.lower(len)?;
        Ok(len)
    }

    // What a size of one byte or of four announces.
    #[inline(always)]
    pub(crate) fn text_data(&mut self, wide: bool, alloc: Global) -> Result<Vec<u8>, Error>
        ensures ok { Tells R.remaining → IfOk result (λ text. ReadsSized (cond wide 4 1) self.old text.items self.new) }
        ensures err { Tells R.remaining → IfErr result (λ e. SizedFault true (cond wide 4 1) self.old e self.new) }
        ensures goes { Goes true self.old result self.new }
    {
        let len = self.text_len(wide)?;
        let mut text = Vec::new(alloc);
        self.keep(len, &mut text)?;
        Ok(text)
    }

    // The next so many bytes of a value.
    #[inline(always)]
    fn bytes_of(&mut self, len: u32, alloc: Global) -> Result<Vec<u8>, Error>
        ensures ok { Tells R.remaining → IfOk result (λ bytes. Takes self.old bytes.items self.new × (length bytes.items ≡ len)) }
        ensures err { Tells R.remaining → IfErr result (λ e. Stops true (Lacks len self.old) self.old e self.new) }
        ensures goes { Goes true self.old result self.new }
    {
        self.lower(len)?;
        let mut bytes = Vec::new(alloc);
        self.keep(len, &mut bytes)?;
        Ok(bytes)
    }

    // The size that a plain value with one of these two codes begins with, if the code and the size are at hand. Else nothing is taken, and
    // that says nothing about the value.
    #[inline(always)]
    fn plain_len(&mut self, narrow: u8, wide: u8) -> Option<u32>
        ensures none { result ≡ None → self.new ≡ self.old }
        ensures read { IfSome result (λ n. Tells R.remaining → ReadsLen narrow wide self.old n self.new) }
        ensures began { IfSome result (λ _. Began self.old self.new) }
    {
        let code = self.plain_code()?;
        if code == narrow {
            let head = self.take_plain::<2>(narrow)?;
            return Some(u32::from(head[1]));
        }
        if code == wide {
            let head = self.take_plain::<5>(wide)?;
            let [_, a, b, c, d] = head;
            return Some(u32::from_be_bytes([a, b, c, d]));
        }
        None
    }

    // The same of an array's item.
    #[inline(always)]
    fn element_len(&mut self, narrow: u8, wide: u8) -> Option<u32>
        requires narrow { 0 < narrow }
        requires wide { 0 < wide }
        ensures none { result ≡ None → self.new ≡ self.old }
        ensures read { IfSome result (λ n. Tells R.remaining → ReadsLen narrow wide self.old n self.new) }
        ensures began { IfSome result (λ _. Began self.old self.new) }
    {
        if let Some(size) = self.element::<1>(narrow) {
            return Some(u32::from(size[0]));
        }
        match self.element(wide) {
            Some(size) => Some(u32::from_be_bytes(size)),
            None => None,
        }
    }

    // The content of a value that has these two constructors, wherever it refuses.
    #[inline(always)]
    fn content(&mut self, narrow: u8, wide: u8, alloc: Global) -> Result<Vec<u8>, Error>
        requires narrow { 0 < narrow }
        requires wide { 0 < wide }
        ensures ok { Tells R.remaining → IfOk result (λ text. ReadsText narrow wide self.old text.items self.new) }
        ensures err { Tells R.remaining → IfErr result (λ e. AnswersFault true (TextFault narrow wide) self.old e self.new) }
        ensures tries { Tries true self.old result self.new }
    {
        if let Some(len) = self.plain_len(narrow, wide) {
            return self.bytes_of(len, alloc);
        }
        if let Some(len) = self.element_len(narrow, wide) {
            return self.bytes_of(len, alloc);
        }
        self.any_content(narrow, wide, alloc)
    }

    // The same, however the source gives it.
    #[inline(never)]
    fn any_content(&mut self, narrow: u8, wide: u8, alloc: Global) -> Result<Vec<u8>, Error>
        ensures ok { Tells R.remaining → IfOk result (λ text. ReadsText narrow wide self.old text.items self.new) }
        ensures err { Tells R.remaining → IfErr result (λ e. AnswersFault true (TextFault narrow wide) self.old e self.new) }
        ensures tries { Tries true self.old result self.new }
    {
        let code = self.begin()?;
        if code == narrow {
            self.text_data(false, alloc)
        } else if code == wide {
            self.text_data(true, alloc)
        } else {
            Err(self.refuse_code(code))
        }
    }

    // The ASCII text of the bytes.
    #[inline]
    pub(crate) fn ascii(&mut self, text: Vec<u8>) -> Result<Symbol, Error>
        ensures ok { IfOk result (λ symbol. IsAscii text.items × (string_bytes symbol.0 ≡ text.items) × (self.new ≡ self.old)) }
        ensures err { IfErr result (λ e. (IsAscii text.items → ⊥) × (e ≡ Error.NonAscii) × Answers self.old e self.new) }
        ensures goes { Goes false self.old result self.new }
    {
        if !text.is_ascii() {
            drop(text);
            return Err(self.stop(Error::NonAscii));
        }
        match String::from_utf8(text) {
            Ok(text) => Ok(Symbol(text)),
            Err(_) => Err(self.stop(Error::NonAscii)),
        }
    }

    /// Reads bytes (Part 1, section 1.6.19).
    pub fn read_binary(&mut self, alloc: Global) -> Result<Vec<u8>, Error>
        ensures read { Tells R.remaining → AnswersRead true (ReadsValue (Means (λ bytes. binary bytes.items))) (PrimitiveFault binaries)
            self.old result self.new }
        ensures tries { Tries true self.old result self.new }
        ensures place { IfErr result (λ _. StandsHere self.old self.new) }
    {
        let start = self.start();
        let answer = self.any_binary(alloc);
        self.placed(start, answer)
    }

    // The same, wherever it refuses.
    #[inline(always)]
    fn any_binary(&mut self, alloc: Global) -> Result<Vec<u8>, Error>
        ensures read { Tells R.remaining → AnswersRead true (ReadsValue (Means (λ bytes. binary bytes.items))) (PrimitiveFault binaries)
            self.old result self.new }
        ensures tries { Tries true self.old result self.new }
    {
        self.content(format_code::BINARY_8, format_code::BINARY_32, alloc)
    }

    /// Reads a text (Part 1, section 1.6.20). It returns `BadUtf8` if the text isn't UTF-8.
    pub fn read_string(&mut self, alloc: Global) -> Result<String, Error>
        ensures read { Tells R.remaining → AnswersRead true (ReadsValue (Means (λ text. string (string_bytes text)))) (PrimitiveFault strings)
            self.old result self.new }
        ensures tries { Tries true self.old result self.new }
        ensures place { IfErr result (λ _. StandsHere self.old self.new) }
    {
        let start = self.start();
        let answer = self.any_string(alloc);
        self.placed(start, answer)
    }

    // The same, wherever it refuses.
    #[inline(always)]
    fn any_string(&mut self, alloc: Global) -> Result<String, Error>
        ensures read { Tells R.remaining → AnswersRead true (ReadsValue (Means (λ text. string (string_bytes text)))) (PrimitiveFault strings)
            self.old result self.new }
        ensures tries { Tries true self.old result self.new }
    {
        let text = self.content(format_code::STRING_8, format_code::STRING_32, alloc)?;
        match String::from_utf8(text) {
            Ok(text) => Ok(text),
            Err(_) => Err(self.stop(Error::BadUtf8)),
        }
    }

    /// Reads a symbol (Part 1, section 1.6.21). It returns `NonAscii` if a byte is above 0x7f.
    pub fn read_symbol(&mut self, alloc: Global) -> Result<Symbol, Error>
        ensures read { Tells R.remaining → AnswersRead true (ReadsValue (Means (λ text. symbol (string_bytes text.0)))) (PrimitiveFault symbols)
            self.old result self.new }
        ensures tries { Tries true self.old result self.new }
        ensures place { IfErr result (λ _. StandsHere self.old self.new) }
    {
        let start = self.start();
        let answer = self.any_symbol(alloc);
        self.placed(start, answer)
    }

    // The same, wherever it refuses.
    #[inline(always)]
    fn any_symbol(&mut self, alloc: Global) -> Result<Symbol, Error>
        ensures read { Tells R.remaining → AnswersRead true (ReadsValue (Means (λ text. symbol (string_bytes text.0)))) (PrimitiveFault symbols)
            self.old result self.new }
        ensures tries { Tries true self.old result self.new }
    {
        let text = self.content(format_code::SYMBOL_8, format_code::SYMBOL_32, alloc)?;
        self.ascii(text)
    }
}
