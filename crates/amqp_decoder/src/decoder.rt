//! The state of a decoder.
ghost use Rattle.std.specs.Prelude.{◌≡◌, ◌≤◌, ℕ, length, drop, false, true, Some, None, MatchResult};
ghost use Rattle.amqp_wire.specs.Sources.{known, Tells};
ghost use Rattle.amqp_decoder.specs.State.{bound_of, started, greatest, refused_at, IsPlaceOf};
ghost use Rattle.amqp_wire.specs.Limits.{limit_of};
ghost use Rattle.amqp_decoder.specs.Reserve.{Leaves};
ghost use Rattle.amqp_decoder.specs.Places.{StandsHere};
ghost use Rattle.amqp_decoder.specs.Rooms.{HasRoom};
ghost use Rattle.amqp_decoder.specs.Steps.{RefusesBy};
ghost use Rattle.amqp_wire.specs.declared.error.Error.{Error};

mod bytes;
mod counts;
mod items;
mod nesting;
mod places;
mod quick;
mod sections;
mod shared;

use crate::frame::OpenContainer;
use crate::row::Row;
use amqp_lookahead::Input;
use amqp_wire::{ByteSource, Descriptor, Error, Limits};
use std::alloc::Global;
use std::marker::Model;

/// A cursor over the terms of a source (Part 1, section 1.2). After an error, every call returns the same error.
///
/// # Errors
///
/// These are the errors of each call that reads a value; each call's comment adds its own.
///
/// - `Missing`, if what is open has no item left.
/// - `Cut`, if the input ends in the value.
/// - `Size`, if a size is wrong, and all bytes are present that the outermost size announces.
/// - `UnknownCode` and `FloatCode` for such a code, and `WrongType` for the code of another kind.
/// - `Memory`, if the call allocates and an allocation fails.
/// - `Read`, if the source fails.
/// - `Limit`, if the value is past a limit of the caller.
#[derive(Drop)]
pub struct Decoder<R: ByteSource> {
    input: Input<R>,
    top: OpenContainer,
    error: Option<Error>,
    // How many bytes of the input are before what is at fault, as a number of 64 bits; 0 if nothing was refused.
    fault: u64,
    depth: usize,
    nesting: usize,
    bytes: u64,
    items: u64,
    hash_seed: u64,
    // For how many items memory may still be reserved before they come.
    reservable: u64,
    // One term is read, and what comes after it isn't looked at.
    alone: bool,
    descriptors: Vec<Descriptor>,
    frames: Row,
}

impl<R: ByteSource> Model for Decoder<R> {
    ghost use Rattle.std.specs.Prelude.{◌≡◌, ◌≤◌, ◌<◌, ◌+◌, [], ◌∷◌, true, false, length, vec_len};
    ghost use Rattle.amqp_decoder.specs.State.{State, stack, open_of, limit_around, is_free, AreNested, IsLevel, AreBounded};
    ghost use Rattle.amqp_wire.specs.Limits.{limit_of};
    ghost use Rattle.amqp_wire.specs.Sources.{Tells};
    ghost use Rattle.amqp_decoder.specs.Rooms.{IsRoomy};
    ghost use Rattle.amqp_decoder.specs.Reserve.{Spared};

    ghost Value = { State };

    ghost view = { λ d. record {
      rest = d.input.rest;
      ahead = d.input.ahead;
      source = record { name = d.input.source.name; fault = d.fault };
      top = open_of d.descriptors.items (limit_of d.bytes) d.top;
      saved = stack d.descriptors.items (limit_around d.top.left (limit_of d.bytes)) d.depth d.frames;
      nesting = d.nesting;
      quota = limit_of d.items;
      error = d.error;
      failed = record { size = d.input.source.size; broken = d.input.failed; alone = d.alone; free = is_free d.nesting d.bytes d.items };
    } };

    ghost invariant = { λ d. (d.depth ≤ d.nesting + 1) × AreNested d.depth d.frames d.top.last × (d.top.last ≤ vec_len d.descriptors) × IsLevel d.top
        × AreBounded d.depth d.frames d.top.place d.top.left × IsRoomy d.nesting d.depth (open_of d.descriptors.items (limit_of d.bytes) d.top)
        × (d.nesting ≤ 128) × (length d.frames ≡ 129)
        × (Tells R.remaining → d.alone ≡ true → d.input.failed ≡ false → 0 < R.reserve
        → Spared R.reserve 0 (length d.input.rest) d.input.ahead (open_of [] (limit_of d.bytes) d.top
        ∷ stack [] (limit_around d.top.left (limit_of d.bytes)) d.depth d.frames)) };
}

impl<R: ByteSource> Decoder<R> {
    /// Keeps the error, which every later call returns, for what comes next. If the decoder has kept an error before, it keeps and returns
    /// that first one.
    pub fn refuse(&mut self, error: Error) -> Error
        ensures first { RefusesBy error self.old result self.new }
        ensures again { (kept : Error) → self.old.error ≡ Some kept → (result ≡ kept) × (self.new ≡ self.old) }
        ensures place { StandsHere self.old self.new }
    {
        match self.error {
            Some(kept) => kept,
            None => self.stop(error),
        }
    }

    /// Returns the seed by which the keys of maps are hashed, which the limits give; 0 for none.
    #[inline(always)]
    pub fn hash_seed(&self) -> u64 {
        self.hash_seed
    }

    /// Returns for how many of so many items memory may be reserved before they come. They are at most as many as the open container has
    /// bytes left, since each takes a byte. All calls together return at most as many as the source had bytes at hand at first, which is
    /// none for a reader. So what is reserved is no more than the input is long, whatever counts it announces.
    #[inline]
    pub fn reservable_items(&mut self, count: u32) -> usize
        ensures few { result ≤ count }
        ensures fit { (left : ℕ) → bound_of self.old.top ≡ Some left → result ≤ left }
        ensures kept { self.new ≡ self.old }
    {
        let left = self.left().unwrap_or(0);
        let items = u64::from(count.min(left)).min(self.reservable);
        self.reservable -= items;
        items as usize
    }

    // Keeps the error of a decoder that hasn't refused.
    #[inline(always)]
    pub(crate) fn stop(&mut self, error: Error) -> Error
        ensures answer { result ≡ error }
        ensures kept { self.new ≡ refused_at error self.new.source.fault self.old }
        ensures place { IsPlaceOf self.new.source.fault self.old }
    {
        self.fault = self.input.place();
        self.error = Some(error);
        error
    }

    /// Returns the decoder's error, if it has refused.
    #[inline(always)]
    pub fn check(&self) -> Result<(), Error>
        ensures error { MatchResult result (λ _. self.now.error ≡ None) (λ e. self.now.error ≡ Some e) }
        ensures room { HasRoom self.now }
    {
        match self.error {
            Some(error) => Err(error),
            None => Ok(()),
        }
    }
}

/// Returns a decoder of the source's bytes, at the top level, which reads everything that nests at most 128 deep.
pub fn decoder_of<R: ByteSource>(source: R, alloc: Global) -> Decoder<R>
    ensures { result ≡ started (known (R.remaining source)) (R.name source) (R.failed source) false greatest }
{
    decoder_within(source, &Limits::greatest(), alloc)
}

/// Returns a decoder of the source's bytes, at the top level, within these limits.
pub fn decoder_within<R: ByteSource>(source: R, limits: &Limits, alloc: Global) -> Decoder<R>
    ensures { result ≡ started (known (R.remaining source)) (R.name source) (R.failed source) false limits.now }
{
    decoder_at_top(source, limits, false, alloc)
}

/// Returns a decoder of the source's bytes, at the top level, within these limits. It reads one term and looks at nothing after it. It
/// takes no more bytes than the limit allows, even if it refuses.
pub fn decoder_of_term<R: ByteSource>(source: R, limits: &Limits, alloc: Global) -> Decoder<R>
    requires { Tells R.remaining → Leaves R.reserve (limit_of limits.now.bytes) (length (known (R.remaining source))) }
    ensures { result ≡ started (known (R.remaining source)) (R.name source) (R.failed source) true limits.now }
{
    decoder_at_top(source, limits, true, alloc)
}

// How many bytes a source keeps at hand, if it keeps all of them there.
fn bytes_at_hand<R: ByteSource>(source: &R) -> u64
    ensures all { R.is_whole ≡ true → result ≡ length (known (R.remaining source.now)) }
    ensures none { R.is_whole ≡ false → result ≡ 0 }
{
    match source.at_hand() {
        Some(bytes) => bytes.len() as u64,
        None => 0,
    }
}

// The same, which reads one term alone or not.
fn decoder_at_top<R: ByteSource>(
    source: R,
    limits: &Limits,
    alone: bool,
    alloc: Global,
) -> Decoder<R>
    requires { Tells R.remaining → alone ≡ true
        → Leaves R.reserve (limit_of limits.now.bytes) (length (known (R.remaining source))) }
    ensures { result ≡ started (known (R.remaining source)) (R.name source) (R.failed source) alone limits.now }
{
    let reservable = bytes_at_hand(&source);
    Decoder {
        input: Input::new(source),
        top: OpenContainer::TOP,
        error: None,
        fault: 0,
        depth: 0,
        nesting: limits.nesting() as usize,
        bytes: limits.bytes(),
        items: limits.items(),
        hash_seed: limits.hash_seed(),
        reservable,
        alone,
        descriptors: Vec::new(alloc),
        frames: Row::new(),
    }
}

/// Returns the source. Bytes that were looked at are gone from it.
pub fn source_of<R: ByteSource>(decoder: Decoder<R>) -> R
    ensures named { R.name result ≡ decoder.source.name }
    ensures rest { known (R.remaining result) ≡ drop decoder.ahead decoder.rest }
    ensures failed { R.failed result ≡ decoder.failed.broken }
    ensures kept { Tells R.remaining → decoder.failed.alone ≡ true → decoder.failed.broken ≡ false
        → R.reserve ≤ length (known (R.remaining result)) }
{
    let Decoder { input, .. } = decoder;
    input.into_source()
}

/// Returns how many bytes of the decoder's input are left.
pub fn unread(decoder: &Decoder<&[u8]>) -> usize
    ensures count { result ≡ length decoder.now.rest }
    ensures whole { decoder.now.failed.broken ≡ false }
{
    decoder.input.unread()
}
