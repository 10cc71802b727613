//! What comes next at the top level: the end of the input, or the next section of a message (Part 3, section 3.2).
ghost use Rattle.std.specs.Prelude.{◌≡◌, ℕ, [], Some, IfOk, IfErr, ◌↔◌, IsTrue, false};
ghost use Rattle.amqp_wire.specs.Sources.{Tells};
ghost use Rattle.amqp_lookahead.specs.Sections.{IsSectionAhead};
ghost use Rattle.amqp_decoder.specs.State.{top_level};
ghost use Rattle.amqp_decoder.specs.declared.frame.Place.TheVariants.{Top};
ghost use Rattle.amqp_decoder.specs.Sections.{LooksOn};
ghost use Rattle.amqp_decoder.specs.Steps.{Answers, SourceFailed, Goes, Tries};
ghost use Rattle.amqp_decoder.specs.Reading.{AnswersRead};
ghost use Rattle.amqp_decoder.specs.Sections.{IsTop, NotTop, Ends, PeeksSection};
ghost use Rattle.amqp_decoder.specs.Places.{StandsHere, Here, AnswersAt};

use super::Decoder;
use crate::frame::Place;
use amqp_wire::{ByteSource, Error};

impl<R: ByteSource> Decoder<R> {
    // Nothing is open, and what comes next may be looked at.
    fn is_top(&self) -> bool
        ensures is { IsTrue result ↔ ((self.now.top.place ≡ Top) × (self.now.saved ≡ []) × (self.now.failed.alone ≡ false)) }
        ensures level { self.now.top.place ≡ Top → self.now.top ≡ top_level self.now.top.left }
    {
        self.top.place == Place::Top && self.depth == 0 && !self.alone
    }

    // The code of the section whose descriptor comes next.
    fn section_ahead(&mut self) -> Result<Option<u8>, Error>
        requires { self.old.failed.alone ≡ false }
        ensures looks { Tells R.remaining → IfOk result (λ _. LooksOn self.old self.new) }
        ensures ok { Tells R.remaining → IfOk result (λ section. (c : ℕ) → (section ≡ Some c) ↔ IsSectionAhead self.old.rest c) }
        ensures err { IfErr result (λ e. Answers self.old e self.new × SourceFailed e self.new) }
        ensures goes { Goes false self.old result self.new }
    {
        match self.input.section_ahead() {
            Ok(section) => Ok(section),
            Err(kind) => Err(self.stop(Error::Read(kind))),
        }
    }

    // Nothing is open.
    fn check_top(&mut self) -> Result<(), Error>
        ensures read { AnswersRead false IsTop NotTop self.old result self.new }
        ensures tries { Tries false self.old result self.new }
        ensures place { IfErr result (λ _. StandsHere self.old self.new) }
    {
        self.check()?;
        if !self.is_top() {
            return Err(self.stop(Error::InvalidValue));
        }
        Ok(())
    }

    /// Returns whether the input ends here, at the top level. Nothing is taken. It returns `InvalidValue` in a container, or if the decoder reads
    /// one term alone.
    pub fn at_end(&mut self) -> Result<bool, Error>
        ensures read { Tells R.remaining → AnswersAt false Ends (Here NotTop) self.old result self.new }
        ensures tries { Tries false self.old result self.new }
    {
        self.check_top()?;
        Ok(self.look_next()?.is_none())
    }

    /// Returns the code of the section that comes next at the top level, if its whole descriptor, in any of its encodings, ends within 64
    /// bytes; otherwise `None`. Nothing is taken, and at most 64 bytes are looked at. It returns `InvalidValue` in a container.
    pub fn peek_section(&mut self) -> Result<Option<u8>, Error>
        ensures read { Tells R.remaining → AnswersAt false PeeksSection (Here NotTop) self.old result self.new }
        ensures tries { Tries false self.old result self.new }
    {
        self.check_top()?;
        self.section_ahead()
    }
}
