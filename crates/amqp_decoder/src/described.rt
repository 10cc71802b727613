//! Described values (Part 1, section 1.2).
ghost use Rattle.amqp_decoder.specs.declared.frame.Place.TheVariants.{InDescribed};
ghost use Rattle.amqp_decoder.specs.Reading.{AnswersRead};
ghost use Rattle.amqp_decoder.specs.Containers.{ClosesDescribed, EndFault};
ghost use Rattle.std.specs.Prelude.{◌≡◌, ◌≤◌, ◌<◌, length, take, Some, None, IfOk, IfErr, IsAscii, true, false, IfSome};
ghost use Rattle.amqp_wire.specs.declared.error.Error.TheVariants.{Memory};
ghost use Rattle.amqp_model.specs.Term.{name as of_name};
ghost use Rattle.amqp_wire.specs.Sources.{Tells};
ghost use Rattle.amqp_wire.specs.Codes.{refusal_of};
ghost use Rattle.amqp_lookahead.specs.Members.{place_of as place_in};
ghost use Rattle.amqp_decoder.specs.State.{IsPlaceOf, refused_at, after_bytes, descriptor_of};
ghost use Rattle.amqp_decoder.specs.Places.{StandsHere, At, AnswersAt};
ghost use Rattle.amqp_decoder.specs.Steps.{Began, Answers, Fails, Goes, Tries};
ghost use Rattle.amqp_decoder.specs.Reading.{ReadsCode};
ghost use Rattle.amqp_decoder.specs.Primitives.{AnswersFault};
ghost use Rattle.amqp_decoder.specs.Reserve.{Spares};
ghost use Rattle.amqp_decoder.specs.Rooms.{HasRoom};
ghost use Rattle.amqp_decoder.specs.Described.{TakesDescriptor, OpensDescribed, open_left, one_of_left, other_kind, symbol_code};
ghost use Rattle.amqp_decoder.specs.Described.{IsDescribable, DescribedFault, MissesDescriptor, TakesPlace, MissesName, OpensOneOf};

use crate::Decoder;
use crate::frame::Place;
use amqp_lookahead::names::{Members, next_front, place_of, place_of_code, place_of_name};
use amqp_wire::{ByteSource, Descriptor, Error, format_code};
use std::alloc::Global;

/// The most bytes of a name that are compared at once.
const PIECE: usize = 256;

impl<R: ByteSource> Decoder<R> {
    // Takes the code of a described value that may nest where it stands, if the code is at hand. Else nothing is taken, and that says nothing
    // about what comes next.
    #[inline(always)]
    fn quick_descriptor(&mut self) -> Option<()>
        ensures none { result ≡ None → self.new ≡ self.old }
        ensures read { IfSome result (λ _. Tells R.remaining → ReadsCode self.old 0 self.new) }
        ensures few { IfSome result (λ _. length self.new.saved < self.new.nesting) }
        ensures began { IfSome result (λ _. Began self.old self.new) }
    {
        if self.nesting_left() == 0 {
            return None;
        }
        let _code = self.quick::<1>(format_code::DESCRIBED)?;
        Some(())
    }

    // Takes the code of a described value, which may nest where it stands.
    #[inline(always)]
    fn begin_descriptor(&mut self) -> Result<(), Error>
        ensures ok { Tells R.remaining → IfOk result (λ _. ReadsCode self.old 0 self.new) }
        ensures few { IfOk result (λ _. length self.new.saved < self.new.nesting) }
        ensures err { Tells R.remaining → IfErr result (λ e. AnswersFault false DescribedFault self.old e self.new) }
        ensures tries { Tries false self.old result self.new }
        ensures place { IfErr result (λ _. StandsHere self.old self.new) }
    {
        match self.quick_descriptor() {
            Some(()) => Ok(()),
            None => self.begin_any_descriptor(),
        }
    }

    // The same, however the source gives it.
    #[inline(never)]
    fn begin_any_descriptor(&mut self) -> Result<(), Error>
        ensures ok { Tells R.remaining → IfOk result (λ _. ReadsCode self.old 0 self.new) }
        ensures few { IfOk result (λ _. length self.new.saved < self.new.nesting) }
        ensures err { Tells R.remaining → IfErr result (λ e. AnswersFault false DescribedFault self.old e self.new) }
        ensures tries { Tries false self.old result self.new }
        ensures place { IfErr result (λ _. StandsHere self.old self.new) }
    {
        let start = self.start();
        let answer = self.any_begun();
        self.placed(start, answer)
    }

    // The same, wherever it refuses.
    #[inline(always)]
    fn any_begun(&mut self) -> Result<(), Error>
        ensures ok { Tells R.remaining → IfOk result (λ _. ReadsCode self.old 0 self.new) }
        ensures few { IfOk result (λ _. length self.new.saved < self.new.nesting) }
        ensures err { Tells R.remaining → IfErr result (λ e. AnswersFault false DescribedFault self.old e self.new) }
        ensures tries { Tries false self.old result self.new }
    {
        let code = self.begin()?;
        if code != format_code::DESCRIBED {
            return Err(self.refuse_code(code));
        }
        if self.nesting_left() == 0 {
            return Err(self.refuse_depth());
        }
        Ok(())
    }

    // Neither a ulong nor a symbol.
    #[cold]
    pub(crate) fn refuse_descriptor(&mut self, code: u8) -> Error
        ensures answer { result ≡ other_kind (refusal_of code) }
        ensures kept { self.new ≡ refused_at result self.new.source.fault self.old }
        ensures fails { Fails false self.old result self.new }
    {
        match format_code::refusal(code) {
            Error::WrongType(_) => self.stop(Error::BadDescriptor),
            error => self.stop(error),
        }
    }

    // Whether the size of a symbol under this code has four bytes.
    #[inline]
    fn is_wide_symbol(&mut self, code: u8) -> Result<bool, Error>
        ensures ok { IfOk result (λ wide. (code ≡ symbol_code wide) × (self.new ≡ self.old)) }
        ensures err { IfErr result (λ e. (code ≡ 0xa3 → ⊥) × (code ≡ 0xb3 → ⊥) × (e ≡ other_kind (refusal_of code))
            × Answers self.old e self.new) }
        ensures goes { Goes false self.old result self.new }
    {
        match code {
            format_code::SYMBOL_8 => Ok(false),
            format_code::SYMBOL_32 => Ok(true),
            _ => Err(self.refuse_descriptor(code)),
        }
    }

    // A descriptor.
    pub(crate) fn descriptor(&mut self, alloc: Global) -> Result<Descriptor, Error>
        ensures ok { Tells R.remaining → self.old.top.shared ≡ None
            → IfOk result (λ d. TakesDescriptor self.old (descriptor_of d) self.new) }
        ensures err { Tells R.remaining → self.old.top.shared ≡ None → IfErr result (λ e. MissesDescriptor true self.old e self.new) }
        ensures goes { Goes true self.old result self.new }
        ensures place { IfErr result (λ _. IsPlaceOf self.new.source.fault self.old) }
    {
        let place = self.place();
        let answer = self.any_descriptor(alloc);
        self.placed(place, answer)
    }

    // The same, wherever it refuses.
    #[inline(always)]
    fn any_descriptor(&mut self, alloc: Global) -> Result<Descriptor, Error>
        ensures ok { Tells R.remaining → self.old.top.shared ≡ None
            → IfOk result (λ d. TakesDescriptor self.old (descriptor_of d) self.new) }
        ensures err { Tells R.remaining → self.old.top.shared ≡ None → IfErr result (λ e. MissesDescriptor true self.old e self.new) }
        ensures goes { Goes true self.old result self.new }
    {
        let code = self.byte()?;
        if let Some(value) = self.ulong_data(code)? {
            return Ok(Descriptor::Code(value));
        }
        let wide = self.is_wide_symbol(code)?;
        let text = self.text_data(wide, alloc)?;
        Ok(Descriptor::Name(self.ascii(text)?))
    }

    // The descriptor that comes next, or is shared.
    fn next_descriptor(&mut self, alloc: Global) -> Result<Descriptor, Error>
        ensures ok { Tells R.remaining → IsDescribable self.old.top.shared
            → IfOk result (λ d. TakesDescriptor self.old (descriptor_of d) self.new) }
        ensures err { Tells R.remaining → IsDescribable self.old.top.shared
            → IfErr result (λ e. MissesDescriptor true self.old e self.new) }
        ensures goes { Goes true self.old result self.new }
        ensures place { IfErr result (λ _. IsPlaceOf self.new.source.fault self.old) }
    {
        let Some(descriptor) = self.shared_descriptor() else {
            return self.descriptor(alloc);
        };
        match descriptor.clone() {
            Ok(descriptor) => Ok(descriptor),
            Err(_) => Err(self.stop(Error::Memory)),
        }
    }

    /// Begins a described value (Part 1, section 1.2), and returns its descriptor.
    ///
    /// # Errors
    ///
    /// - `BadDescriptor`, if the descriptor is neither a symbol nor a ulong.
    /// - `NonAscii`, if it is a symbol with a byte above 0x7f.
    /// - `Depth`, if values nest more than 128 deep.
    pub fn begin_described(&mut self, alloc: Global) -> Result<Descriptor, Error>
        ensures opened { Tells R.remaining → AnswersAt true (λ st d st'. OpensDescribed st (descriptor_of d) st') (At open_left)
            self.old result self.new }
        ensures nesting { self.old.nesting ≤ 128 }
        ensures tries { Tries true self.old result self.new }
    {
        self.room();
        self.begin_descriptor()?;
        let descriptor = self.next_descriptor(alloc)?;
        match self.enter_described() {
            Ok(()) => Ok(descriptor),
            Err(error) => Err(error),
        }
    }

    // The place of the member whose name the next so many bytes are.
    fn place_of_text(&mut self, members: Members<'_>, len: u32) -> Result<Option<usize>, Error>
        requires { Tells R.remaining → Spares R.reserve len self.old }
        ensures ok { Tells R.remaining → IfOk result (λ place. (len ≤ length self.old.rest) × IsAscii (take len self.old.rest)
            × (place ≡ place_in members.now (of_name (take len self.old.rest))) × (self.new ≡ after_bytes len self.old)) }
        ensures err { Tells R.remaining → IfErr result (λ e. MissesName len self.old e self.new) }
        ensures goes { Goes false self.old result self.new }
    {
        let mut buffer = [0; PIECE];
        let mut known: Option<&[u8]> = Some(&[]);
        let mut is_ascii = true;
        let mut left = len as usize;
        while left > 0 {
            let n = left.min(PIECE);
            let piece = &mut buffer[..n];
            self.pull_all(piece)?;
            is_ascii &= piece.is_ascii();
            known = next_front(members, known, piece, len as usize);
            left -= n;
        }
        if !is_ascii {
            return Err(self.stop(Error::NonAscii));
        }
        match known {
            Some(name) => Ok(place_of_name(members, name)),
            None => Ok(None),
        }
    }

    // The place of the member whose descriptor comes next.
    fn place_of_next(&mut self, members: Members<'_>) -> Result<Option<usize>, Error>
        ensures ok { Tells R.remaining → IsDescribable self.old.top.shared
            → IfOk result (λ place. TakesPlace members.now self.old place self.new) }
        ensures err { Tells R.remaining → IsDescribable self.old.top.shared
            → IfErr result (λ e. MissesDescriptor false self.old e self.new) }
        ensures goes { Goes false self.old result self.new }
        ensures place { IfErr result (λ _. IsPlaceOf self.new.source.fault self.old) }
    {
        let place = self.place();
        let answer = self.any_place(members);
        self.placed(place, answer)
    }

    // The same, wherever it refuses.
    #[inline(always)]
    fn any_place(&mut self, members: Members<'_>) -> Result<Option<usize>, Error>
        ensures ok { Tells R.remaining → IsDescribable self.old.top.shared
            → IfOk result (λ place. TakesPlace members.now self.old place self.new) }
        ensures err { Tells R.remaining → IsDescribable self.old.top.shared
            → IfErr result (λ e. MissesDescriptor false self.old e self.new) }
        ensures goes { Goes false self.old result self.new }
    {
        if let Some(descriptor) = self.shared_descriptor() {
            return Ok(place_of(members, descriptor));
        }
        let code = self.byte()?;
        if let Some(value) = self.ulong_data(code)? {
            return Ok(place_of_code(members, value));
        }
        let wide = self.is_wide_symbol(code)?;
        let len = self.text_len(wide)?;
        self.place_of_text(members, len)
    }

    /// Begins a described value, and returns the place of the pair whose code or name is its descriptor. It doesn't allocate. It returns
    /// `WrongDescriptor` if there is no such pair, and otherwise the errors of `begin_described`.
    pub fn begin_one_of(&mut self, members: &[(u64, &str)]) -> Result<usize, Error>
        ensures opened { Tells R.remaining → AnswersAt false (OpensOneOf members.now) (At (one_of_left members.now)) self.old result self.new }
        ensures nesting { Tells R.remaining → IfOk result (λ _. self.old.nesting ≤ 128) }
        ensures room { HasRoom self.old }
        ensures tries { Tries false self.old result self.new }
    {
        self.room();
        self.begin_descriptor()?;
        let start = self.place();
        let Some(place) = self.place_of_next(members)? else {
            return Err(self.stop_at(start, Error::WrongDescriptor));
        };
        self.enter_described()?;
        Ok(place)
    }

    /// Ends the described value that is open. It returns `Surplus` if its value is left, and `InvalidValue` if no described value is open.
    #[inline(always)]
    pub fn end_described(&mut self) -> Result<(), Error>
        ensures read { AnswersRead false (λ st _ st'. ClosesDescribed InDescribed st st') (EndFault InDescribed) self.old result self.new }
        ensures tries { Tries false self.old result self.new }
        ensures place { IfErr result (λ _. StandsHere self.old self.new) }
    {
        self.check_end(Place::InDescribed)?;
        self.leave_described();
        Ok(())
    }
}
