//! How containers and described values are entered and left.
ghost use Rattle.std.specs.Prelude.{◌≤◌, ◌≡◌, ◌<◌, ◌-◌, List, ◌∷◌, length, false, Some, IfOk, IfErr, ◌↔◌, ◌⊎◌, true, IsTrue};
ghost use Rattle.amqp_wire.specs.Sources.{Tells};
ghost use Rattle.amqp_decoder.specs.Containers.{AtEnd, EndFault};
ghost use Rattle.amqp_decoder.specs.Described.{in_described};
ghost use Rattle.amqp_decoder.specs.State.{IsPlaceOf, refused_at, Open, bound_of, depth_error, holding, IsContainer};
ghost use Rattle.amqp_wire.specs.declared.error.Error.TheVariants.{Limit};
ghost use Rattle.amqp_decoder.specs.declared.frame.Place.TheVariants.{InDescribed};
ghost use Rattle.amqp_decoder.specs.Reading.{AnswersRead};
ghost use Rattle.amqp_decoder.specs.Reserve.{Spares};
ghost use Rattle.amqp_decoder.specs.Rooms.{HasRoom};
ghost use Rattle.amqp_decoder.specs.Places.{StandsHere};
ghost use Rattle.amqp_decoder.specs.Steps.{RefusesSize, Fails, Goes, GoesOn, Tries};

use super::Decoder;
use crate::frame::{OpenContainer, Place};
use amqp_wire::nesting::NESTING;
use amqp_wire::{ByteSource, Error};

impl<R: ByteSource> Decoder<R> {
    /// Promises that no more containers and described values are open than may nest, which is at most 128 deep. That isn't promised if
    /// nothing is left in the innermost, or if it is an array of primitives.
    #[inline]
    pub fn room(&self)
        ensures room { HasRoom self.now }
        ensures limit { self.now.nesting ≤ 128 }
    {
        let _depth = &self.depth;
    }

    /// Returns how many containers and described values are open.
    #[inline]
    pub(crate) fn depth(&self) -> usize
        ensures { result ≡ length self.now.saved }
    {
        self.depth
    }

    /// Returns how deep a value that begins here may nest.
    #[inline]
    pub(crate) fn nesting_left(&self) -> usize
        ensures { result ≡ self.now.nesting - length self.now.saved }
    {
        self.nesting.saturating_sub(self.depth)
    }

    // The error for a value that nests too deep.
    #[inline]
    pub(crate) fn depth_error(&self) -> Error
        ensures error { result ≡ depth_error self.now.nesting }
        ensures limited { result ≡ Limit → self.now.failed.free ≡ false }
    {
        if self.nesting < NESTING {
            Error::Limit
        } else {
            Error::Depth
        }
    }

    // A value nests too deep.
    #[cold]
    pub(crate) fn refuse_depth(&mut self) -> Error
        ensures answer { result ≡ depth_error self.old.nesting }
        ensures kept { self.new ≡ refused_at (depth_error self.old.nesting) self.new.source.fault self.old }
        ensures fails { Fails false self.old result self.new }
    {
        let place = self.place();
        self.refuse_depth_at(place)
    }

    // The same, if it begins there.
    #[cold]
    fn refuse_depth_at(&mut self, place: u64) -> Error
        ensures answer { result ≡ depth_error self.old.nesting }
        ensures kept { self.new ≡ refused_at (depth_error self.old.nesting) self.new.source.fault self.old }
        ensures fails { Fails false self.old result self.new }
        ensures place { self.new.source.fault ≡ place }
    {
        let error = self.depth_error();
        self.stop_at(place, error)
    }

    // Opens a container of so many items in so many bytes, which share nothing.
    #[inline]
    pub(crate) fn enter(&mut self, place: Place, items: u32, content: u32) -> Result<(), Error>
        requires container { IsContainer place }
        requires room { (length self.old.saved < self.old.nesting) ⊎ (items ≡ 0) }
        requires spares { Tells R.remaining → Spares R.reserve content self.old }
        ensures ok { IfOk result (λ _. (length self.old.saved ≤ self.old.nesting)
            × (self.new ≡ record self.old { top = holding place items content; saved = self.old.top ∷ self.old.saved })) }
        ensures err { IfErr result (λ e. (e ≡ depth_error self.old.nesting) × (self.old.nesting < length self.old.saved)
            × (self.new ≡ refused_at (depth_error self.old.nesting) self.new.source.fault self.old)) }
        ensures goes { Goes false self.old result self.new }
    {
        if self.depth > self.nesting {
            return Err(self.refuse_depth());
        }
        let last = self.top.last;
        self.frames.set(self.depth, self.top);
        self.depth += 1;
        self.top = OpenContainer {
            items,
            left: Some(content),
            place,
            code: 0,
            first: last,
            last,
        };
        Ok(())
    }

    // Opens a container that counts in nesting.
    #[inline]
    pub(crate) fn enter_counted(
        &mut self,
        place: Place,
        items: u32,
        content: u32,
    ) -> Result<(), Error>
        requires container { IsContainer place }
        requires spares { Tells R.remaining → Spares R.reserve content self.old }
        ensures ok { IfOk result (λ _. (length self.old.saved < self.old.nesting)
            × (self.new ≡ record self.old { top = holding place items content; saved = self.old.top ∷ self.old.saved })) }
        ensures err { IfErr result (λ e. (e ≡ depth_error self.old.nesting) × (self.old.nesting ≤ length self.old.saved)
            × (self.new ≡ refused_at (depth_error self.old.nesting) self.new.source.fault self.old)) }
        ensures goes { Goes false self.old result self.new }
    {
        if self.depth >= self.nesting {
            return Err(self.refuse_depth());
        }
        self.enter(place, items, content)
    }

    // An array's items that hold others, or are described, make it count in nesting. Their constructor begins there.
    #[inline]
    pub(crate) fn check_items(&mut self, is_flat: bool, place: u64) -> Result<(), Error>
        ensures ok { IfOk result (λ _. ((is_flat ≡ true) ⊎ (length self.old.saved ≤ self.old.nesting)) × (self.new ≡ self.old)) }
        ensures err { IfErr result (λ e. (is_flat ≡ false) × (e ≡ depth_error self.old.nesting) × (self.old.nesting < length self.old.saved)
            × (self.new ≡ refused_at (depth_error self.old.nesting) self.new.source.fault self.old)) }
        ensures goes { Goes false self.old result self.new }
        ensures place { IfErr result (λ _. self.new.source.fault ≡ place) }
    {
        if is_flat {
            return Ok(());
        }
        if self.depth > self.nesting {
            return Err(self.refuse_depth_at(place));
        }
        Ok(())
    }

    // Opens what a descriptor describes, which has the bytes of what it is in, and the rest of a shared constructor.
    #[inline]
    pub(crate) fn enter_described(&mut self) -> Result<(), Error>
        ensures ok { IfOk result (λ _. (length self.old.saved < self.old.nesting) × (self.new ≡ in_described self.old)) }
        ensures err { IfErr result (λ e. (e ≡ depth_error self.old.nesting) × (self.old.nesting ≤ length self.old.saved)
            × (self.new ≡ refused_at (depth_error self.old.nesting) self.new.source.fault self.old)) }
        ensures nesting { self.old.nesting ≤ 128 }
        ensures goes { Goes false self.old result self.new }
    {
        if self.depth < self.nesting {
            let outer = self.top;
            let around = OpenContainer {
                left: outer.left.and(Some(0)),
                ..outer
            };
            self.frames.set(self.depth, around);
            self.depth += 1;
            self.top = OpenContainer {
                items: 1,
                place: Place::InDescribed,
                first: outer.first.saturating_add(1),
                ..outer
            };
            return Ok(());
        }
        Err(self.refuse_depth())
    }

    // The open container is of this kind.
    #[inline]
    pub(crate) fn is_in(&self, place: Place) -> bool
        ensures { IsTrue result ↔ (self.now.top.place ≡ place) }
    {
        self.top.place == place
    }

    // The open container is of this kind, and no item of it is left.
    #[inline]
    pub(crate) fn check_end(&mut self, place: Place) -> Result<(), Error>
        ensures read { AnswersRead false (λ st _ st'. AtEnd place st st') (EndFault place) self.old result self.new }
        ensures tries { Tries false self.old result self.new }
        ensures place { IfErr result (λ _. StandsHere self.old self.new) }
    {
        self.check()?;
        if !self.is_in(place) {
            return Err(self.stop(Error::InvalidValue));
        }
        if self.depth() == 0 {
            return Err(self.stop(Error::InvalidValue));
        }
        if !self.is_done() {
            return Err(self.stop(Error::Surplus));
        }
        Ok(())
    }

    // No byte of the open container is left.
    #[inline]
    pub(crate) fn check_bytes(&mut self) -> Result<(), Error>
        ensures ok { IfOk result (λ _. (bound_of self.old.top ≡ Some 0) × (self.new ≡ self.old)) }
        ensures err { Tells R.remaining → IfErr result (λ e. (bound_of self.old.top ≡ Some 0 → ⊥) × RefusesSize 0 self.old e self.new) }
        ensures goes { Goes false self.old result self.new }
        ensures place { IfErr result (λ _. IsPlaceOf self.new.source.fault self.old) }
    {
        if self.left() != Some(0) {
            return Err(self.refuse_size(0));
        }
        Ok(())
    }

    // Leaves the open container, of which no byte is left.
    #[inline]
    pub(crate) fn leave(&mut self)
        requires { bound_of self.old.top ≡ Some 0 }
        ensures left { (outer : Open) (others : List Open) → self.old.saved ≡ outer ∷ others
            → self.new ≡ record self.old { top = outer; saved = others } }
        ensures goes { GoesOn self.old self.new }
    {
        if self.depth == 0 {
            return;
        }
        self.depth -= 1;
        self.top = self.frames.get(self.depth);
    }

    // Leaves a described value, whose bytes are those of what it is in.
    #[inline]
    pub(crate) fn leave_described(&mut self)
        requires { self.old.top.place ≡ InDescribed }
        ensures left { (outer : Open) (others : List Open) → self.old.saved ≡ outer ∷ others
            → self.new ≡ record self.old { top = record outer { left = self.old.top.left; sized = self.old.top.sized }; saved = others } }
        ensures goes { GoesOn self.old self.new }
    {
        if self.depth == 0 {
            return;
        }
        self.depth -= 1;
        self.top = OpenContainer {
            left: self.top.left,
            ..self.frames.get(self.depth)
        };
    }
}
