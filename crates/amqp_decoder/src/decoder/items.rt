//! The items of the open container, and the code that the next one begins with.
ghost use Rattle.std.specs.Prelude.{◌≡◌, [], ◌∷◌, length, drop, min, false, Some, IfOk, IfErr, IfSome, None, ◌↔◌, IsTrue, MatchOption};
ghost use Rattle.amqp_wire.specs.Sources.{Tells};
ghost use Rattle.amqp_decoder.specs.State.{after_look, lower};
ghost use Rattle.amqp_decoder.specs.Reserve.{Shows};
ghost use Rattle.amqp_decoder.specs.Reading.{AnswersRead, ReadsCode, BeginFault, PeeksCode, IsLeft};
ghost use Rattle.amqp_decoder.specs.Places.{StandsHere};
ghost use Rattle.amqp_decoder.specs.Steps.{Answers, SourceFailed, Began, Goes, Tries};

use super::Decoder;
use amqp_wire::{ByteSource, Error};

impl<R: ByteSource> Decoder<R> {
    // No item is left in the open container.
    #[inline(always)]
    pub(crate) fn is_done(&self) -> bool
        ensures { IsTrue result ↔ (self.now.top.items ≡ Some 0) }
    {
        self.top.is_done()
    }

    // A value is left.
    #[inline(always)]
    pub(crate) fn check_item(&mut self) -> Result<(), Error>
        ensures read { AnswersRead false IsLeft (λ st e. (st.top.items ≡ Some 0) × (e ≡ Error.Missing)) self.old result self.new }
        ensures tries { Tries false self.old result self.new }
        ensures place { IfErr result (λ _. StandsHere self.old self.new) }
    {
        self.check()?;
        if self.is_done() {
            return Err(self.stop(Error::Missing));
        }
        Ok(())
    }

    // An item of the open container is taken.
    #[inline(always)]
    pub(crate) fn take_item(&mut self)
        ensures { self.new ≡ record self.old { top = record self.old.top { items = lower self.old.top.items 1 } } }
    {
        self.top.items = self.top.items.saturating_sub(1);
    }

    // The next byte, if there is one, which isn't taken.
    #[inline(always)]
    pub(crate) fn look_next(&mut self) -> Result<Option<u8>, Error>
        requires { Tells R.remaining → Shows R.reserve 1 self.old }
        ensures found { Tells R.remaining → IfOk result
            (λ next. MatchOption next (self.old.rest ≡ []) (λ b. self.old.rest ≡ b ∷ drop 1 self.old.rest)) }
        ensures new { Tells R.remaining → IfOk result (λ _. self.new ≡ after_look (min 1 (length self.old.rest)) self.old) }
        ensures err { IfErr result (λ e. Answers self.old e self.new × SourceFailed e self.new) }
        ensures goes { Goes false self.old result self.new }
    {
        let mut next = [0];
        match self.input.peek(&mut next) {
            Ok(0) => Ok(None),
            Ok(_) => Ok(Some(next[0])),
            Err(kind) => Err(self.stop(Error::Read(kind))),
        }
    }

    // The next value's first code, which is taken.
    #[inline(always)]
    pub(crate) fn begin(&mut self) -> Result<u8, Error>
        ensures read { Tells R.remaining → AnswersRead false ReadsCode BeginFault self.old result self.new }
        ensures tries { Tries false self.old result self.new }
    {
        if let Some(code) = self.quick_code() {
            return Ok(code);
        }
        self.begin_slowly()
    }

    // The same, whatever comes next, however the source gives it.
    #[inline(never)]
    fn begin_slowly(&mut self) -> Result<u8, Error>
        ensures read { Tells R.remaining → AnswersRead false ReadsCode BeginFault self.old result self.new }
        ensures tries { Tries false self.old result self.new }
    {
        self.check_item()?;
        if let Some(code) = self.shared_code() {
            self.count(code)?;
            self.take_item();
            return Ok(code);
        }
        let code = self.byte()?;
        self.count(code)?;
        self.take_item();
        Ok(code)
    }

    /// Returns the first code of the next value's constructor, 0 for a described value, if a value is left and the code is at hand. Nothing
    /// is taken. `None` says nothing about what comes next.
    #[inline(always)]
    pub fn peek_value(&mut self) -> Option<u8>
        ensures left { result ≡ None → self.new ≡ self.old }
        ensures read { IfSome result (λ code. PeeksCode self.old code self.new) }
        ensures began { IfSome result (λ _. Began self.old self.new) }
    {
        self.spares();
        if !self.is_plain() || self.is_spent() {
            return None;
        }
        self.look_at_hand()
    }

    /// Returns the first code of the next value's constructor, 0 for a described value. Nothing is taken. It returns `Missing` if no value
    /// is left.
    #[inline]
    pub fn peek_code(&mut self) -> Result<u8, Error>
        ensures read { Tells R.remaining → AnswersRead false PeeksCode BeginFault self.old result self.new }
        ensures tries { Tries false self.old result self.new }
        ensures place { IfErr result (λ _. StandsHere self.old self.new) }
    {
        match self.peek_value() {
            Some(code) => Ok(code),
            None => self.peek_slowly(),
        }
    }

    // The same, whatever comes next, however the source gives it.
    #[inline(never)]
    fn peek_slowly(&mut self) -> Result<u8, Error>
        ensures read { Tells R.remaining → AnswersRead false PeeksCode BeginFault self.old result self.new }
        ensures tries { Tries false self.old result self.new }
        ensures place { IfErr result (λ _. StandsHere self.old self.new) }
    {
        let start = self.start();
        let answer = self.peek_any();
        self.placed(start, answer)
    }

    // The same, wherever it refuses.
    #[inline(always)]
    fn peek_any(&mut self) -> Result<u8, Error>
        ensures read { Tells R.remaining → AnswersRead false PeeksCode BeginFault self.old result self.new }
        ensures tries { Tries false self.old result self.new }
    {
        self.check_item()?;
        if let Some(code) = self.shared_code() {
            return self.check_count(code);
        }
        if self.is_spent() {
            return Err(self.refuse_size(1));
        }
        self.spares();
        match self.look_next()? {
            Some(code) => self.check_count(code),
            None => Err(self.stop(Error::Cut)),
        }
    }
}
