//! Where in the input a call refuses.
ghost use Rattle.std.specs.Prelude.{◌≡◌, suc, length, None, Some, IfErr, false};
ghost use Rattle.amqp_wire.specs.Codes.{refusal_of};
ghost use Rattle.amqp_wire.specs.Sources.{Tells};
ghost use Rattle.amqp_wire.specs.declared.error.Error.{Error};
ghost use Rattle.amqp_decoder.specs.Places.{Starts, StandsHere, StandsBefore, placed};
ghost use Rattle.amqp_decoder.specs.Reading.{AnswersRead, ReadsCode, BeginFault};
ghost use Rattle.amqp_decoder.specs.Steps.{RefusesBy, Fails, Tries};
ghost use Rattle.amqp_decoder.specs.State.{IsPlaceOf, refused_at};

use super::Decoder;
use amqp_wire::{ByteSource, Error, format_code};

impl<R: ByteSource> Decoder<R> {
    /// Returns how many bytes of the input are before what comes next, as a number of 64 bits. It is for `refuse_at`, which is called after
    /// more was read.
    #[inline(always)]
    pub fn place(&self) -> u64
        ensures { IsPlaceOf result self.now }
    {
        self.input.place()
    }

    /// Keeps the error as `refuse` does. What is at fault has so many bytes of the input before it.
    pub fn refuse_at(&mut self, place: u64, error: Error) -> Error
        ensures first { RefusesBy error self.old result self.new }
        ensures again { (kept : Error) → self.old.error ≡ Some kept → (result ≡ kept) × (self.new ≡ self.old) }
        ensures place { self.old.error ≡ None → self.new.source.fault ≡ place }
    {
        match self.error {
            Some(kept) => kept,
            None => self.stop_at(place, error),
        }
    }

    /// Keeps the error as `refuse` does. What is at fault is the byte that was taken last, such as a null.
    pub fn refuse_before(&mut self, error: Error) -> Error
        ensures first { RefusesBy error self.old result self.new }
        ensures again { (kept : Error) → self.old.error ≡ Some kept → (result ≡ kept) × (self.new ≡ self.old) }
        ensures place { self.old.error ≡ None → StandsBefore (suc (length self.old.rest)) self.old self.new }
    {
        match self.error {
            Some(kept) => kept,
            None => self.stop_before(error),
        }
    }

    /// Returns how many bytes of the input are before what is at fault, as a number of 64 bits, and 0 if nothing was refused.
    #[inline]
    pub fn fault(&self) -> u64
        ensures { result ≡ self.now.source.fault }
    {
        self.fault
    }

    // Keeps the error of a decoder that hasn't refused. What is at fault stands there.
    pub(crate) fn stop_at(&mut self, place: u64, error: Error) -> Error
        ensures answer { result ≡ error }
        ensures kept { self.new ≡ refused_at error self.new.source.fault self.old }
        ensures place { self.new.source.fault ≡ place }
    {
        let error = self.stop(error);
        self.set_fault(place);
        error
    }

    // Keeps the error of a decoder that hasn't refused. What is at fault is the byte that was taken last.
    pub(crate) fn stop_before(&mut self, error: Error) -> Error
        ensures answer { result ≡ error }
        ensures kept { self.new ≡ refused_at error self.new.source.fault self.old }
        ensures place { StandsBefore (suc (length self.old.rest)) self.old self.new }
    {
        let place = self.place().wrapping_sub(1);
        self.stop_at(place, error)
    }

    // What was refused stands there.
    #[inline(always)]
    pub(crate) fn set_fault(&mut self, place: u64)
        ensures { self.new ≡ record self.old { source = record self.old.source { fault = place } } }
    {
        self.fault = place;
    }

    // Where a call begins: how many bytes of the input are before it, as a number of 64 bits. If the decoder has refused, where that was.
    #[inline(always)]
    pub(crate) fn start(&self) -> u64
        ensures { Starts result self.now }
    {
        match self.error {
            Some(_) => self.fault,
            None => self.place(),
        }
    }

    // The answer of a call that began there: what it refuses stands there.
    #[inline(always)]
    pub(crate) fn placed<T>(&mut self, start: u64, answer: Result<T, Error>) -> Result<T, Error>
        ensures same { result ≡ answer }
        ensures kept { self.new ≡ placed start answer self.old }
    {
        if answer.is_err() {
            self.set_fault(start);
        }
        answer
    }

    // The next value's first code, which is taken, of a call that began there.
    pub(crate) fn begin_from(&mut self, start: u64) -> Result<u8, Error>
        requires { Starts start self.old }
        ensures read { Tells R.remaining → AnswersRead false ReadsCode BeginFault self.old result self.new }
        ensures tries { Tries false self.old result self.new }
        ensures place { IfErr result (λ _. StandsHere self.old self.new) }
    {
        let begun = self.begin();
        self.placed(start, begun)
    }

    // A code that isn't one of the kind that is read, by a call that began there.
    #[cold]
    pub(crate) fn refuse_code_from(&mut self, start: u64, code: u8) -> Error
        ensures answer { result ≡ refusal_of code }
        ensures kept { self.new ≡ refused_at result self.new.source.fault self.old }
        ensures place { self.new.source.fault ≡ start }
        ensures fails { Fails false self.old result self.new }
    {
        self.stop_at(start, format_code::refusal(code))
    }
}
