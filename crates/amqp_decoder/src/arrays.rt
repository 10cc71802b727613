//! Arrays, whose items share a constructor (Part 1, sections 1.2.4 and 1.6.24).
ghost use Rattle.std.specs.Prelude.{◌≡◌, ◌<◌, ◌≤◌, ◌+◌, ◌%◌, ◌^◌, ◌++◌, ◌∷◌, [], ◌⊎◌, ◌↔◌, IsTrue, ℕ, suc, cond, length, map, Some, None, OnOk, IfOk};
ghost use Rattle.std.specs.Prelude.{IfErr, vec_len, true, false};
ghost use Rattle.amqp_model.specs.Constructors.{format};
ghost use Rattle.amqp_model.specs.Spelling.{IsKnown};
ghost use Rattle.amqp_wire.specs.Codes.{refusal_of};
ghost use Rattle.amqp_wire.specs.Sources.{Tells};
ghost use Rattle.amqp_wire.specs.declared.descriptor.Descriptor.{Descriptor as DescriptorValue};
ghost use Rattle.amqp_decoder.specs.declared.frame.Place.TheVariants.{InArray};
ghost use Rattle.amqp_decoder.specs.State.{IsPlaceOf, depth_error, Has, descriptor_of, in_container};
ghost use Rattle.amqp_decoder.specs.Places.{StandsHere, StandsBefore, At, StopsAt, AnswersAt};
ghost use Rattle.amqp_decoder.specs.Steps.{Answers, Takes, Lacks, NoRoom, Stops, Goes, Tries};
ghost use Rattle.amqp_decoder.specs.Reading.{AnswersRead};
ghost use Rattle.amqp_decoder.specs.Containers.{Closes, CloseFault};
ghost use Rattle.amqp_decoder.specs.Described.{TakesDescriptor};
ghost use Rattle.amqp_decoder.specs.Rooms.{HasRoom};
ghost use Rattle.amqp_decoder.specs.Arrays.{TakesConstructor, constructor_left, NoMarked, IsFlat, Shares, shares_left, EntersArray, enter_left};
ghost use Rattle.amqp_decoder.specs.Arrays.{OpenItemsFault, OpensItems, OpensArray, array_left};

use crate::Decoder;
use crate::frame::Place;
use amqp_wire::nesting::NESTING;
use amqp_wire::{ByteSource, Descriptor, Error, format_code};
use std::alloc::Global;

// The items of this constructor hold no others.
fn is_flat(descriptors: &[Descriptor], code: u8) -> bool
    ensures is { IsKnown (format code) → IsTrue result ↔ IsFlat (map descriptor_of descriptors.now) (format code) }
    ensures flat { IsTrue result → IsFlat (map descriptor_of descriptors.now) (format code) }
{
    descriptors.is_empty() && !format_code::is_compound(code)
}

impl<R: ByteSource> Decoder<R> {
    // Adds the descriptor that comes next.
    fn keep_descriptor(
        &mut self,
        descriptors: &mut Vec<Descriptor>,
        alloc: Global,
    ) -> Result<(), Error>
        ensures few { OnOk result ((vec_len descriptors.old < 128) × (vec_len descriptors.new ≡ vec_len descriptors.old + 1)) }
        ensures ok { Tells R.remaining → self.old.top.shared ≡ None
            → IfOk result (λ _. (d : DescriptorValue) × TakesDescriptor self.old (descriptor_of d) self.new
            × (descriptors.new.items ≡ descriptors.old.items ++ (d ∷ []))) }
        ensures err { Tells R.remaining → self.old.top.shared ≡ None
            → IfErr result (λ e. StopsAt true (NoMarked (length descriptors.old.items) self.old) self.old e self.new) }
        ensures goes { Goes true self.old result self.new }
    {
        if descriptors.len() >= NESTING {
            return Err(self.stop_before(Error::Depth));
        }
        match descriptors.push(self.descriptor(alloc)?) {
            Ok(()) => Ok(()),
            Err(_) => Err(self.stop(Error::Memory)),
        }
    }

    // A code that ends a constructor, and was taken, is known.
    pub(crate) fn check_known(&mut self, code: u8) -> Result<(), Error>
        ensures ok { IfOk result (λ _. ((code ≡ 0) ⊎ IsKnown (format code)) × (self.new ≡ self.old)) }
        ensures err { IfErr result (λ e. (code ≡ 0 → ⊥) × (IsKnown (format code) → ⊥) × (e ≡ refusal_of code)
            × Answers self.old e self.new) }
        ensures goes { Goes false self.old result self.new }
        ensures place { IfErr result (λ _. StandsBefore (suc (length self.old.rest)) self.old self.new) }
    {
        match format_code::unknown(code) {
            None => Ok(()),
            Some(error) => Err(self.stop_before(error)),
        }
    }

    // The next code of a constructor, which stands here if it is refused.
    pub(crate) fn next_code(&mut self) -> Result<u8, Error>
        ensures ok { Tells R.remaining → IfOk result (λ b. Takes self.old (b ∷ []) self.new) }
        ensures err { Tells R.remaining → IfErr result (λ e. Stops true (Lacks 1 self.old) self.old e self.new) }
        ensures goes { Goes false self.old result self.new }
        ensures place { IfErr result (λ _. IsPlaceOf self.new.source.fault self.old) }
    {
        let place = self.place();
        let code = self.byte();
        self.placed(place, code)
    }

    // The constructor that comes next: its descriptors, and its code.
    fn constructor(&mut self, alloc: Global) -> Result<(Vec<Descriptor>, u8), Error>
        ensures code { IfOk result (λ found. 0 < found.1) }
        ensures few { IfOk result (λ found. vec_len found.0 ≤ 128) }
        ensures ok { Tells R.remaining → self.old.top.shared ≡ None
            → IfOk result (λ found. TakesConstructor self.old (map descriptor_of found.0.items) found.1 self.new) }
        ensures err { Tells R.remaining → self.old.top.shared ≡ None
            → IfErr result (λ e. StopsAt true (At constructor_left self.old) self.old e self.new) }
        ensures goes { Goes true self.old result self.new }
    {
        let mut descriptors = Vec::new(alloc);
        let mut code = self.next_code()?;
        while code == format_code::DESCRIBED {
            self.keep_descriptor(&mut descriptors, alloc)?;
            code = self.next_code()?;
        }
        self.check_known(code)?;
        Ok((descriptors, code))
    }

    // So many items of the open array share the constructor that comes next.
    fn take_constructor(&mut self, count: u32, alloc: Global) -> Result<(), Error>
        ensures ok { Tells R.remaining → self.old.top.shared ≡ None → self.old.top.place ≡ InArray
            → IfOk result (λ _. Shares count self.old self.new) }
        ensures err { Tells R.remaining → self.old.top.shared ≡ None
            → IfErr result (λ e. StopsAt true (At (shares_left count) self.old) self.old e self.new) }
        ensures goes { Goes true self.old result self.new }
    {
        let start = self.place();
        let (descriptors, code) = self.constructor(alloc)?;
        if count == 0 {
            return Ok(());
        }
        if format_code::has_width_zero(code) {
            return Err(self.stop_at(start, Error::ZeroWidthItems));
        }
        self.check_items(is_flat(&descriptors, code), start)?;
        self.share(descriptors, code, count)
    }

    // Opens an array of so many bytes, whose constructor isn't known yet: none of its items is left.
    fn open_items(&mut self, content: u32) -> Result<(), Error>
        ensures ok { IfOk result (λ _. Has self.old.top.left content × (length self.old.saved ≤ self.old.nesting)
            × (self.new ≡ in_container InArray 0 content self.old)) }
        ensures err { Tells R.remaining → IfErr result
            (λ e. Stops false (λ e. NoRoom content self.old e
            ⊎ ((self.old.nesting < length self.old.saved) × (e ≡ depth_error self.old.nesting))) self.old e self.new) }
        ensures goes { Goes false self.old result self.new }
    {
        self.lower(content)?;
        self.enter(Place::InArray, 0, content)
    }

    // Opens an array of so many bytes whose code was taken, and returns its count and these, wherever it refuses.
    fn open_any(&mut self, wide: bool) -> Result<(u32, u32), Error>
        ensures ok { Tells R.remaining → IfOk result (λ h. OpensItems (cond wide 4 1) self.old h.0 h.1 self.new) }
        ensures err { Tells R.remaining → IfErr result (λ e. Stops true (OpenItemsFault (cond wide 4 1) self.old) self.old e self.new) }
        ensures goes { Goes true self.old result self.new }
    {
        let (count, content) = self.header(wide, false)?;
        self.open_items(content)?;
        Ok((count, content))
    }

    // The same for an array that begins there.
    fn open_from(&mut self, start: u64, wide: bool) -> Result<(u32, u32), Error>
        ensures ok { Tells R.remaining → IfOk result (λ h. OpensItems (cond wide 4 1) self.old h.0 h.1 self.new) }
        ensures err { Tells R.remaining → IfErr result (λ e. Stops true (OpenItemsFault (cond wide 4 1) self.old) self.old e self.new) }
        ensures goes { Goes true self.old result self.new }
        ensures place { IfErr result (λ _. self.new.source.fault ≡ start) }
    {
        let opened = self.open_any(wide);
        self.placed(start, opened)
    }

    // Opens an array that begins there and whose code was taken.
    fn open_array(&mut self, start: u64, wide: bool, alloc: Global) -> Result<u32, Error>
        ensures ok { Tells R.remaining → IfOk result (λ n. EntersArray (cond wide 4 1) self.old n self.new) }
        ensures err { Tells R.remaining → (own : ℕ) → (start + own) % 2 ^ 64 ≡ self.old.failed.size
            → IfErr result (λ e. StopsAt true (At (enter_left own (cond wide 4 1)) self.old) self.old e self.new) }
        ensures goes { Goes true self.old result self.new }
    {
        let (count, content) = self.open_from(start, wide)?;
        if count.max(content) == 0 {
            return Ok(count);
        }
        self.take_constructor(count, alloc)?;
        Ok(count)
    }

    /// Begins an array (Part 1, section 1.6.24), and returns how many items it holds. The constructor that they share is the constructor of
    /// each of them in turn.
    ///
    /// # Errors
    ///
    /// - `ZeroWidthItems`, if the constructor's code has no data.
    /// - `BadDescriptor` and `NonAscii`, as for `begin_described`.
    /// - `Depth`, if there are more than 128 descriptors, or values nest more than 128 deep.
    pub fn begin_array(&mut self, alloc: Global) -> Result<u32, Error>
        ensures opened { Tells R.remaining → AnswersAt true OpensArray (At array_left) self.old result self.new }
        ensures room { HasRoom self.old }
        ensures tries { Tries true self.old result self.new }
    {
        self.room();
        let start = self.start();
        match self.begin_from(start)? {
            format_code::ARRAY_8 => self.open_array(start, false, alloc),
            format_code::ARRAY_32 => self.open_array(start, true, alloc),
            code => Err(self.refuse_code_from(start, code)),
        }
    }

    /// Ends the array that is open. It returns `Surplus` if items are left, and `InvalidValue` if no array is open.
    pub fn end_array(&mut self) -> Result<(), Error>
        ensures read { Tells R.remaining → AnswersRead false (λ st _ st'. Closes InArray st st') (CloseFault InArray) self.old result self.new }
        ensures tries { Tries false self.old result self.new }
        ensures place { IfErr result (λ _. StandsHere self.old self.new) }
    {
        self.check_end(Place::InArray)?;
        self.check_bytes()?;
        self.leave();
        self.drop_descriptors();
        Ok(())
    }
}
