//! The values that are open around the innermost one.
ghost use Rattle.std.specs.Prelude.{◌≡◌, ◌≤◌, ◌<◌, ◌⊎◌, ◌∷◌, [], length, OnOk, OnErr, IfSome, IfNone, OnSome, MatchOption};
ghost use Rattle.std.specs.Bool.{OnTrue, OnFalse};
ghost use Rattle.amqp_encoder.specs.State.{seen};
ghost use Rattle.amqp_encoder.specs.Measuring.{IsUnfilled};
ghost use Rattle.amqp_encoder.specs.Enclosed.{CanBeBrief, IsBrief, MayBeKept, HasRoom, brief_open, none_around};

use crate::frame::MeasuredContainer;
use crate::places::{Opened, Place};
use amqp_wire::nesting::LEVELS;
use std::alloc::{AllocError, Global};
use std::marker::Model;

/// How many of them are kept whole without allocating.
const OUTERMOST: usize = 8;
/// How many there may be within those.
const INNER: usize = LEVELS - OUTERMOST;

/// The outermost ones.
#[derive(Drop)]
struct Outermost {
    frames: [MeasuredContainer; OUTERMOST],
    len: usize,
}

impl Model for Outermost {
    ghost use Rattle.std.specs.Prelude.{◌≡◌, map, reverse, take, length, ◌≤◌, List};
    ghost use Rattle.amqp_encoder.specs.State.{Open, seen};

    ghost Value = { List Open };

    ghost view = { λ o. map seen (reverse (take o.len o.frames)) };

    ghost invariant = { λ o. (o.len ≤ 8) × (length o.frames ≡ 8) };
}

impl Outermost {
    fn new() -> Outermost
        ensures { result ≡ [] }
    {
        Outermost {
            frames: [MeasuredContainer::outermost(); OUTERMOST],
            len: 0,
        }
    }

    #[inline(always)]
    fn len(&self) -> usize
        ensures { result ≡ length self.now }
    {
        self.len
    }

    #[inline(always)]
    fn push(&mut self, frame: MeasuredContainer)
        requires { length self.old < 8 }
        ensures { self.new ≡ seen frame ∷ self.old }
    {
        self.frames[self.len] = frame;
        self.len += 1;
    }

    #[inline(always)]
    fn push_two(&mut self, outer: MeasuredContainer, inner: MeasuredContainer)
        requires { length self.old ≤ 6 }
        ensures { self.new ≡ seen inner ∷ seen outer ∷ self.old }
    {
        self.frames[self.len] = outer;
        self.frames[self.len + 1] = inner;
        self.len += 2;
    }

    #[inline(always)]
    fn pop_unfilled(&mut self, place: &mut MeasuredContainer) -> Option<MeasuredContainer>
        ensures some { IfSome result (λ described. self.old ≡ seen described ∷ seen place.new ∷ self.new) }
        ensures unfilled { IfSome result (λ described. IsUnfilled (seen described)) }
        ensures left { IfNone result (self.new ≡ self.old) }
        ensures unchanged { IfNone result (place.new ≡ place.old) }
    {
        if self.len < 2 {
            return None;
        }
        let described = self.frames[self.len - 1];
        if !described.is_unfilled() {
            return None;
        }
        *place = self.frames[self.len - 2];
        self.len -= 2;
        Some(described)
    }

    #[inline(always)]
    fn pop_into(&mut self, place: &mut MeasuredContainer) -> bool
        ensures popped { OnTrue result (self.old ≡ seen place.new ∷ self.new) }
        ensures none { OnFalse result (self.old ≡ []) }
        ensures left { OnFalse result (self.new ≡ []) }
        ensures unchanged { OnFalse result (place.new ≡ place.old) }
    {
        if self.len == 0 {
            return false;
        }
        self.len -= 1;
        *place = self.frames[self.len];
        true
    }
}

/// A described value without a value yet, in a few bytes: one that is by itself, or an item of an array that has no bytes of its own.
#[derive(Clone, Copy)]
struct Brief {
    /// For one by itself, its bytes so far, which are its descriptor's; for an item, where its constructor goes on.
    number: [u8; 8],
    place: Place,
    code: u8,
}

impl Brief {
    fn of(frame: MeasuredContainer) -> Brief
        requires { CanBeBrief (seen frame) }
        ensures { brief_open result ≡ seen frame }
    {
        let number = match frame.place {
            Place::Alone => frame.content,
            Place::First | Place::Later => frame.form,
        };
        Brief {
            number: number.to_le_bytes(),
            place: frame.place,
            code: frame.code,
        }
    }

    fn frame(self) -> MeasuredContainer
        ensures { seen result ≡ brief_open self }
    {
        let number = usize::from_le_bytes(self.number);
        let (content, form) = match self.place {
            Place::Alone => (number, 0),
            Place::First | Place::Later => (0, number),
        };
        MeasuredContainer {
            opened: Opened::Described,
            place: self.place,
            code: self.code,
            content,
            count: 0,
            index: 0,
            form,
        }
    }
}

/// Described values within the outermost ones, in a few bytes each.
#[derive(Drop)]
struct DescribedInner {
    briefs: [Brief; INNER],
    len: usize,
}

impl Model for DescribedInner {
    ghost use Rattle.std.specs.Prelude.{◌≡◌, map, reverse, take, length, ◌≤◌, List};
    ghost use Rattle.amqp_encoder.specs.State.{Open};
    ghost use Rattle.amqp_encoder.specs.Enclosed.{brief_open};

    ghost Value = { List Open };

    ghost view = { λ d. map brief_open (reverse (take d.len d.briefs)) };

    ghost invariant = { λ d. (d.len ≤ 121) × (length d.briefs ≡ 121) };
}

impl DescribedInner {
    fn new() -> DescribedInner
        ensures { result ≡ [] }
    {
        let brief = Brief {
            number: [0; 8],
            place: Place::Alone,
            code: 0,
        };
        DescribedInner {
            briefs: [brief; INNER],
            len: 0,
        }
    }

    fn len(&self) -> usize
        ensures { result ≡ length self.now }
    {
        self.len
    }

    fn push(&mut self, frame: MeasuredContainer)
        requires room { length self.old < 121 }
        requires brief { CanBeBrief (seen frame) }
        ensures { self.new ≡ seen frame ∷ self.old }
    {
        self.briefs[self.len] = Brief::of(frame);
        self.len += 1;
    }

    #[tactic(auto, using(crate::proofs::Enclosed::is_brief))]
    fn pop(&mut self) -> Option<MeasuredContainer>
        ensures { MatchOption result ((self.old ≡ []) × (self.new ≡ [])) (λ frame. (self.old ≡ seen frame ∷ self.new) × IsBrief (seen frame)) }
    {
        if self.len == 0 {
            return None;
        }
        self.len -= 1;
        Some(self.briefs[self.len].frame())
    }
}

/// The values that are open around the innermost one. The outermost ones are kept without allocating. Of those within, described values are
/// kept in a few bytes each, until memory is allocated for all.
#[derive(Drop)]
pub(crate) struct Enclosing {
    outermost: Outermost,
    described: DescribedInner,
    inner: Vec<MeasuredContainer>,
}

impl Model for Enclosing {
    ghost use Rattle.std.specs.Prelude.{◌≡◌, ◌⊎◌, map, reverse, ◌++◌, length, ◌≤◌, []};
    ghost use Rattle.std.specs.Vec.{vec_capacity};
    ghost use Rattle.amqp_encoder.specs.State.{seen};
    ghost use Rattle.amqp_encoder.specs.Enclosed.{Enclosed, IsFilledInTurn};

    ghost Value = { Enclosed };

    ghost view = { λ e. record {
      items = map seen (reverse e.inner.items) ++ (e.described ++ e.outermost);
      room = vec_capacity e.inner;
    } };

    ghost invariant = { λ e. IsFilledInTurn e.inner.items e.described e.outermost (vec_capacity e.inner) };
}

impl Enclosing {
    pub(crate) fn new(alloc: Global) -> Enclosing
        ensures { result ≡ none_around }
    {
        Enclosing {
            outermost: Outermost::new(),
            described: DescribedInner::new(),
            inner: Vec::new(alloc),
        }
    }

    #[inline(always)]
    pub(crate) fn len(&self) -> usize
        ensures { result ≡ length self.now.items }
    {
        self.inner.len() + self.described.len() + self.outermost.len()
    }

    /// Allocates the memory to keep whatever is opened next and within that.
    #[inline(always)]
    pub(crate) fn reserve(&mut self) -> Result<(), AllocError>
        ensures items { self.new.items ≡ self.old.items }
        ensures room { OnOk result ((length self.new.items < 7) ⊎ (121 ≤ self.new.room)) }
        ensures refused { OnErr result (self.new ≡ self.old) }
    {
        if self.outermost.len() < OUTERMOST - 1 {
            return Ok(());
        }
        self.reserve_inner()
    }

    #[inline(never)]
    fn reserve_inner(&mut self) -> Result<(), AllocError>
        ensures items { self.new.items ≡ self.old.items }
        ensures room { OnOk result (121 ≤ self.new.room) }
        ensures refused { OnErr result (self.new ≡ self.old) }
    {
        if self.inner.capacity() >= INNER {
            return Ok(());
        }
        self.inner.reserve_exact(INNER)
    }

    /// Adds one more, within the others.
    #[inline(always)]
    pub(crate) fn push(&mut self, frame: MeasuredContainer)
        requires levels { length self.old.items < 129 }
        requires room { HasRoom self.old (seen frame) }
        ensures items { self.new.items ≡ seen frame ∷ self.old.items }
        ensures room { self.new.room ≡ self.old.room }
    {
        if self.outermost.len() < OUTERMOST {
            self.outermost.push(frame)
        } else {
            self.push_inner(frame)
        }
    }

    #[inline(never)]
    fn push_inner(&mut self, frame: MeasuredContainer)
        requires inner { 8 ≤ length self.old.items }
        requires levels { length self.old.items < 129 }
        requires room { HasRoom self.old (seen frame) }
        ensures items { self.new.items ≡ seen frame ∷ self.old.items }
        ensures room { self.new.room ≡ self.old.room }
    {
        if self.inner.capacity() >= INNER {
            self.inner.push_reserved(frame)
        } else {
            self.described.push(frame)
        }
    }

    /// Returns whether two more are kept among the outermost ones.
    #[inline(always)]
    pub(crate) fn has_two_places(&self) -> bool
        ensures { OnTrue result (length self.now.items ≤ 5) }
    {
        self.outermost.len() < OUTERMOST - 2
    }

    /// Adds two more among the outermost ones.
    #[inline(always)]
    pub(crate) fn push_two(&mut self, outer: MeasuredContainer, inner: MeasuredContainer)
        requires places { length self.old.items ≤ 5 }
        ensures items { self.new.items ≡ seen inner ∷ seen outer ∷ self.old.items }
        ensures room { self.new.room ≡ self.old.room }
    {
        self.outermost.push_two(outer, inner)
    }

    /// Removes the innermost one, if it is a described value by itself that has no value yet and both it and the next one are kept among the
    /// outermost. The next one goes to a place.
    #[inline(always)]
    pub(crate) fn pop_unfilled(
        &mut self,
        place: &mut MeasuredContainer,
    ) -> Option<MeasuredContainer>
        ensures some { IfSome result (λ described. self.old.items ≡ seen described ∷ seen place.new ∷ self.new.items) }
        ensures unfilled { IfSome result (λ described. IsUnfilled (seen described)) }
        ensures kept { OnSome result (MayBeKept self.new (seen place.new)) }
        ensures left { IfNone result (self.new ≡ self.old) }
        ensures unchanged { IfNone result (place.new ≡ place.old) }
    {
        if self.outermost.len() < OUTERMOST {
            self.outermost.pop_unfilled(place)
        } else {
            None
        }
    }

    /// Removes the innermost one into a place, and returns true. It returns false if there is none.
    #[inline(always)]
    pub(crate) fn pop_into(&mut self, place: &mut MeasuredContainer) -> bool
        ensures popped { OnTrue result (self.old.items ≡ seen place.new ∷ self.new.items) }
        ensures kept { OnTrue result (MayBeKept self.new (seen place.new)) }
        ensures none { OnFalse result (self.old.items ≡ []) }
        ensures left { OnFalse result (self.new ≡ self.old) }
        ensures unchanged { OnFalse result (place.new ≡ place.old) }
    {
        if self.outermost.len() < OUTERMOST {
            return self.outermost.pop_into(place);
        }
        self.pop_inner(place)
    }

    #[inline(never)]
    fn pop_inner(&mut self, place: &mut MeasuredContainer) -> bool
        ensures popped { OnTrue result (self.old.items ≡ seen place.new ∷ self.new.items) }
        ensures kept { OnTrue result (MayBeKept self.new (seen place.new)) }
        ensures none { OnFalse result (self.old.items ≡ []) }
        ensures left { OnFalse result (self.new ≡ self.old) }
        ensures unchanged { OnFalse result (place.new ≡ place.old) }
    {
        if let Some(frame) = self.inner.pop() {
            *place = frame;
            return true;
        }
        if let Some(frame) = self.described.pop() {
            *place = frame;
            return true;
        }
        self.outermost.pop_into(place)
    }
}
