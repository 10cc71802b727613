//! The bytes of whole terms (Part 1, section 1.2).
ghost use Rattle.std.specs.Prelude.{◌≡◌, ◌<◌, ◌+◌, ◌%◌, ◌^◌, ◌-◌, ◌∷◌, [], ℕ, cond, length, Some, Err, IfOk};
ghost use Rattle.std.specs.Prelude.{IfErr, true, false};
ghost use Rattle.std.specs.Int.{bytes_high_first};
ghost use Rattle.amqp_model.specs.Constructors.{format};
ghost use Rattle.amqp_model.specs.Spelling.{IsKnown};
ghost use Rattle.amqp_wire.specs.Sources.{Tells};
ghost use Rattle.amqp_wire.specs.declared.error.Error.{Error};
ghost use Rattle.amqp_lengths.specs.Fronts.{IsFront};
ghost use Rattle.amqp_lengths.specs.Pieces.{NamesAny};
ghost use Rattle.amqp_lengths.specs.Lengths.{IsTerm};
ghost use Rattle.amqp_lengths.specs.Announced.{IsAnnounced};
ghost use Rattle.amqp_decoder.specs.Steps.{Takes, Lacks, Stops, Goes, Tries};
ghost use Rattle.amqp_decoder.specs.Places.{Here, At, StopsAt, AnswersAt};
ghost use Rattle.amqp_decoder.specs.Described.{DescriptorFault};
ghost use Rattle.amqp_decoder.specs.Arrays.{constructor_left};
ghost use Rattle.amqp_decoder.specs.Terms.{Keeps, IsSymbol, SymbolFault, IsConstructor, Announces, LacksAnnounced, term_left, spelling_left};
ghost use Rattle.amqp_decoder.specs.Terms.{TakesTerm, term_fault_left};

use crate::Decoder;
use crate::containers::width;
use amqp_lengths::len_of_term_located;
use amqp_wire::nesting::NESTING;
use amqp_wire::{ByteSource, Error, Refusal, format_code};
use std::alloc::Global;

/// What a code announces: data of a known width, or a size of one byte or of four and as many bytes.
enum Data {
    Fixed(u32),
    Sized { wide: bool, is_list: bool },
}

fn data_of(code: u8) -> Data
    ensures { IsKnown (format code) → Announces (format code) result }
{
    match code {
        0x00..=0x4f => Data::Fixed(0),
        0x50..=0x5f => Data::Fixed(1),
        0x60..=0x6f => Data::Fixed(2),
        0x70..=0x7f => Data::Fixed(4),
        0x80..=0x8f => Data::Fixed(8),
        0x90..=0x9f => Data::Fixed(16),
        _ => Data::Sized {
            wide: code / 16 % 2 == 1,
            is_list: code == format_code::LIST_8 || code == format_code::LIST_32,
        },
    }
}

// How many bytes follow a size: as many as it says, or the count of a list whose size is 0.
fn content_len(size: u32, wide: bool, is_list: bool) -> u32
    ensures empty { is_list ≡ true → size ≡ 0 → result ≡ cond wide 4 1 }
    ensures other { is_list ≡ false → result ≡ size }
    ensures some { 0 < size → result ≡ size }
{
    if is_list && size == 0 {
        width(wide)
    } else {
        size
    }
}

impl<R: ByteSource> Decoder<R> {
    // Takes the next byte, and adds it.
    fn keep_code(&mut self, bytes: &mut Vec<u8>) -> Result<u8, Error>
        ensures ok { Tells R.remaining
            → IfOk result (λ code. Keeps (λ s. s ≡ code ∷ []) bytes.old.items self.old bytes.new.items self.new) }
        ensures err { Tells R.remaining → IfErr result (λ e. StopsAt true (Here (Lacks 1) self.old) self.old e self.new) }
        ensures goes { Goes true self.old result self.new }
    {
        let code = self.next_code()?;
        match bytes.push(code) {
            Ok(()) => Ok(code),
            Err(_) => Err(self.stop(Error::Memory)),
        }
    }

    // Adds the next so many bytes of the open container.
    fn keep_next(&mut self, len: u32, bytes: &mut Vec<u8>) -> Result<(), Error>
        ensures ok { Tells R.remaining → IfOk result (λ _. Keeps (λ s. length s ≡ len) bytes.old.items self.old bytes.new.items self.new) }
        ensures err { Tells R.remaining → IfErr result (λ e. Stops true (Lacks len self.old) self.old e self.new) }
        ensures goes { Goes true self.old result self.new }
    {
        self.lower(len)?;
        self.keep(len, bytes)
    }

    // Adds a number of one byte or of four, and returns it.
    fn keep_number(&mut self, wide: bool, bytes: &mut Vec<u8>) -> Result<u32, Error>
        ensures ok { Tells R.remaining → IfOk result
            (λ n. Keeps (λ s. s ≡ bytes_high_first (cond wide 4 1) n) bytes.old.items self.old bytes.new.items self.new) }
        ensures err { Tells R.remaining → IfErr result (λ e. Stops true (Lacks (cond wide 4 1) self.old) self.old e self.new) }
        ensures fits { IfOk result (λ n. n < 256 ^ cond wide 4 1) }
        ensures goes { Goes true self.old result self.new }
    {
        let number = self.number(wide)?;
        let digits = number.to_be_bytes();
        match bytes.extend_from_slice(&digits[4 - width(wide) as usize..]) {
            Ok(()) => Ok(number),
            Err(_) => Err(self.stop(Error::Memory)),
        }
    }

    // Adds a size of one byte or of four and the text that it announces.
    fn keep_symbol(&mut self, wide: bool, bytes: &mut Vec<u8>) -> Result<(), Error>
        ensures ok { Tells R.remaining → IfOk result
            (λ _. Keeps (IsSymbol (cond wide 4 1)) bytes.old.items self.old bytes.new.items self.new) }
        ensures err { Tells R.remaining → IfErr result (λ e. Stops true (SymbolFault (cond wide 4 1) self.old) self.old e self.new) }
        ensures goes { Goes true self.old result self.new }
    {
        let len = self.keep_number(wide, bytes)?;
        let start = bytes.len();
        self.keep_next(len, bytes)?;
        match bytes.get(start..) {
            Some(text) if text.is_ascii() => Ok(()),
            _ => Err(self.stop(Error::NonAscii)),
        }
    }

    // Adds a descriptor.
    fn keep_descriptor_bytes(&mut self, bytes: &mut Vec<u8>) -> Result<(), Error>
        ensures ok { Tells R.remaining → IfOk result (λ _. Keeps NamesAny bytes.old.items self.old bytes.new.items self.new) }
        ensures err { Tells R.remaining → IfErr result (λ e. StopsAt true (Here DescriptorFault self.old) self.old e self.new) }
        ensures goes { Goes true self.old result self.new }
    {
        let place = self.place();
        let kept = self.keep_any_descriptor(bytes);
        self.placed(place, kept)
    }

    // The same, wherever it refuses.
    fn keep_any_descriptor(&mut self, bytes: &mut Vec<u8>) -> Result<(), Error>
        ensures ok { Tells R.remaining → IfOk result (λ _. Keeps NamesAny bytes.old.items self.old bytes.new.items self.new) }
        ensures err { Tells R.remaining → IfErr result (λ e. Stops true (DescriptorFault self.old) self.old e self.new) }
        ensures goes { Goes true self.old result self.new }
    {
        let code = self.keep_code(bytes)?;
        match code {
            format_code::ULONG_0 => Ok(()),
            format_code::SMALL_ULONG => self.keep_next(1, bytes),
            format_code::ULONG => self.keep_next(8, bytes),
            format_code::SYMBOL_8 => self.keep_symbol(false, bytes),
            format_code::SYMBOL_32 => self.keep_symbol(true, bytes),
            _ => Err(self.refuse_descriptor(code)),
        }
    }

    // Adds the constructor that comes next, and returns its code.
    fn keep_constructor(&mut self, bytes: &mut Vec<u8>) -> Result<u8, Error>
        ensures ok { Tells R.remaining
            → IfOk result (λ code. Keeps (IsConstructor code) bytes.old.items self.old bytes.new.items self.new) }
        ensures err { Tells R.remaining → IfErr result (λ e. StopsAt true (At constructor_left self.old) self.old e self.new) }
        ensures goes { Goes true self.old result self.new }
    {
        let mut code = self.keep_code(bytes)?;
        let mut count = 0;
        while code == format_code::DESCRIBED {
            if count == NESTING {
                return Err(self.stop_before(Error::Depth));
            }
            self.keep_descriptor_bytes(bytes)?;
            code = self.keep_code(bytes)?;
            count += 1;
        }
        self.check_known(code)?;
        Ok(code)
    }

    // Adds the data under a known code, of a term that begins there.
    fn keep_data(&mut self, start: u64, code: u8, bytes: &mut Vec<u8>) -> Result<(), Error>
        ensures ok { Tells R.remaining → IsKnown (format code)
            → IfOk result (λ _. Keeps (IsAnnounced (format code)) bytes.old.items self.old bytes.new.items self.new) }
        ensures err { Tells R.remaining → IsKnown (format code)
            → IfErr result (λ e. Stops true (LacksAnnounced (format code) self.old) self.old e self.new) }
        ensures goes { Goes true self.old result self.new }
        ensures place { IfErr result (λ _. self.new.source.fault ≡ start) }
    {
        let kept = self.keep_any_data(code, bytes);
        self.placed(start, kept)
    }

    // The same, wherever it refuses.
    fn keep_any_data(&mut self, code: u8, bytes: &mut Vec<u8>) -> Result<(), Error>
        ensures ok { Tells R.remaining → IsKnown (format code)
            → IfOk result (λ _. Keeps (IsAnnounced (format code)) bytes.old.items self.old bytes.new.items self.new) }
        ensures err { Tells R.remaining → IsKnown (format code)
            → IfErr result (λ e. Stops true (LacksAnnounced (format code) self.old) self.old e self.new) }
        ensures goes { Goes true self.old result self.new }
    {
        match data_of(code) {
            Data::Fixed(width) => self.keep_next(width, bytes),
            Data::Sized { wide, is_list } => {
                let size = self.keep_number(wide, bytes)?;
                self.keep_next(content_len(size, wide, is_list), bytes)
            }
        }
    }

    // Checks that a constructor and the data that its code announces are a term, which begins there. A term that they begin with is all of
    // them.
    fn check_term(&mut self, start: u64, bytes: &[u8]) -> Result<(), Error>
        ensures ok { IfOk result (λ _. (n : ℕ) × IsFront (IsTerm (self.old.nesting - length self.old.saved)) bytes.now n
            × (self.new ≡ self.old)) }
        ensures err { Tells R.remaining → (start + (length bytes.now + length self.old.rest)) % 2 ^ 64 ≡ self.old.failed.size
            → IfErr result (λ e. StopsAt false (At (term_left (self.old.nesting - length self.old.saved) bytes.now) self.old)
            self.old e self.new) }
        ensures goes { Goes false self.old result self.new }
    {
        match len_of_term_located(bytes, self.nesting_left(), self.depth_error()) {
            Ok(_) => Ok(()),
            Err(
                Refusal {
                    error: Error::Size,
                    at,
                },
            ) => Err(self.refuse_size_at(start.wrapping_add(at as u64))),
            Err(Refusal { error, at }) => Err(self.stop_at(start.wrapping_add(at as u64), error)),
        }
    }

    // The bytes of the next term, which are taken.
    fn term_bytes(&mut self, alloc: Global) -> Result<Vec<u8>, Error>
        ensures ok { Tells R.remaining → IfOk result (λ bytes. Takes self.old bytes.items self.new
            × IsTerm (self.old.nesting - length self.old.saved) bytes.items) }
        ensures err { Tells R.remaining → IfErr result (λ e. StopsAt true (At spelling_left self.old) self.old e self.new) }
        ensures goes { Goes true self.old result self.new }
    {
        let start = self.place();
        let mut bytes = Vec::new(alloc);
        let code = self.keep_constructor(&mut bytes)?;
        self.keep_data(start, code, &mut bytes)?;
        self.check_term(start, bytes.as_slice())?;
        Ok(bytes)
    }

    /// Reads the next term of any kind, and returns the bytes that encode it, its constructor included (Part 1, section 1.2).
    ///
    /// # Errors
    ///
    /// It returns `LazyInArray` if the term is the item of an array, whose constructor isn't its own, and otherwise the errors of
    /// `term_len`. In an open container, a wrong size is `Size` if all bytes are present that the outermost one announces, and otherwise
    /// `Cut`.
    pub fn read_term(&mut self, alloc: Global) -> Result<Vec<u8>, Error>
        ensures read { Tells R.remaining → AnswersAt true (λ st bytes st'. TakesTerm st bytes.items st') (At term_fault_left)
            self.old result self.new }
        ensures again { (e : Error) → self.old.error ≡ Some e → (result ≡ Err e) × (self.new ≡ self.old) }
        ensures tries { Tries true self.old result self.new }
    {
        self.check_item()?;
        if self.shared_code().is_some() {
            return Err(self.stop(Error::LazyInArray));
        }
        let start = self.place();
        let bytes = self.term_bytes(alloc)?;
        self.room();
        self.count_term(start, bytes.as_slice())?;
        self.take_item();
        Ok(bytes)
    }
}
