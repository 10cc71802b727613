//! How bytes are taken, within those that the open container has left.
ghost use Rattle.std.specs.Prelude.{◌≤◌, ◌≡◌, ◌<◌, ◌-◌, [], ◌∷◌, ◌++◌, length, take, true, false, Ok, Some, None, IfOk, IfErr, cond, ◌^◌, ℕ, ◌↔◌, IsTrue};
ghost use Rattle.std.specs.Int.{bytes_high_first};
ghost use Rattle.amqp_wire.specs.Codes.{refusal_of};
ghost use Rattle.amqp_wire.specs.declared.error.Error.TheVariants.{Memory};
ghost use Rattle.amqp_wire.specs.Sources.{Tells};
ghost use Rattle.amqp_decoder.specs.State.{refused_at, IsPlaceOf, after_bytes, announced, bound_of, holding, Has, lower};
ghost use Rattle.amqp_decoder.specs.declared.frame.Place.TheVariants.{InList};
ghost use Rattle.amqp_decoder.specs.Reserve.{Spares};
ghost use Rattle.amqp_decoder.specs.Steps.{Answers, Pulls, Misses, Takes, FallsShort, RefusesSize, NoRoom, Stops, Fails, Goes, GoesOn};

use super::Decoder;
use crate::frame::{OpenContainer, Place};
use amqp_wire::{ByteSource, Error, format_code};

/// How many bytes of skipped content are pulled at once at most.
const SKIP: usize = 256;

impl<R: ByteSource> Decoder<R> {
    // Promises that the reserve of the source stays.
    #[inline(always)]
    pub(super) fn spares(&self)
        ensures { Tells R.remaining → Spares R.reserve 0 self.now }
    {
        let _alone = &self.alone;
    }

    // How many bytes the size of the open container leaves, if one is open.
    #[inline(always)]
    pub(crate) fn left(&self) -> Option<u32>
        ensures { result ≡ bound_of self.now.top }
    {
        self.top.left
    }

    // So many bytes are left in the open container.
    #[inline(always)]
    fn set_left(&mut self, left: u32)
        requires { (l : ℕ) × (bound_of self.old.top ≡ Some l) × (left ≤ l) }
        ensures { self.new ≡ record self.old { top = record self.old.top { left = Some left } } }
    {
        self.top.left = Some(left);
    }

    // No byte is left, by a size or by the limit.
    #[inline]
    pub(crate) fn is_spent(&self) -> bool
        ensures { IsTrue result ↔ (self.now.top.left ≡ Some 0) }
    {
        match self.top.left {
            Some(left) => left == 0,
            None => self.bytes == 0,
        }
    }

    // The limit doesn't leave so many bytes, if no size bounds them.
    #[inline(always)]
    fn passes_limit(&self, count: u32) -> bool
        ensures past { result ≡ true → (bound_of self.now.top ≡ None) × (Has self.now.top.left count → ⊥) }
        ensures within { result ≡ false → bound_of self.now.top ≡ None → Has self.now.top.left count }
        ensures limited { result ≡ true → self.now.failed.free ≡ false }
    {
        match self.top.left {
            Some(_) => false,
            None => u64::from(count) > self.bytes,
        }
    }

    // So many bytes of the limit are taken, if there is one.
    #[inline(always)]
    fn lower_limit(&mut self, count: u32)
        requires unbounded { bound_of self.old.top ≡ None }
        requires room { Has self.old.top.left count }
        ensures { self.new ≡ record self.old { top = record self.old.top { left = lower self.old.top.left count } } }
    {
        if self.bytes == u64::MAX {
            return;
        }
        self.bytes -= u64::from(count);
    }

    // The bytes of the outermost container that are left.
    fn announced(&self) -> u64
        ensures { result ≡ announced self.now }
    {
        let own = u64::from(self.left().unwrap_or(0));
        own + self.frames.left_in(self.depth)
    }

    // Fills the whole buffer with the next bytes.
    #[inline]
    pub(crate) fn pull_all(&mut self, buffer: &mut [u8]) -> Result<(), Error>
        requires { Tells R.remaining → Spares R.reserve (length buffer.old) self.old }
        ensures ok { Tells R.remaining → IfOk result (λ _. Pulls self.old buffer.new self.new) }
        ensures err { Tells R.remaining → IfErr result (λ e. Misses false (length buffer.old) self.old e self.new) }
        ensures goes { Goes false self.old result self.new }
    {
        let count = match self.input.pull(buffer) {
            Ok(count) => count,
            Err(kind) => return Err(self.stop(Error::Read(kind))),
        };
        if count < buffer.len() {
            return Err(self.stop(Error::Cut));
        }
        Ok(())
    }

    // Fills the whole buffer with the next bytes, if they are at hand; else nothing is taken.
    #[inline(always)]
    pub(super) fn pull_ready(&mut self, buffer: &mut [u8]) -> bool
        requires { Tells R.remaining → Spares R.reserve (length buffer.old) self.old }
        ensures taken { Tells R.remaining → result ≡ true → Pulls self.old buffer.new self.new }
        ensures left { result ≡ false → self.new ≡ self.old }
        ensures open { self.new.top ≡ self.old.top }
        ensures quota { self.new.quota ≡ self.old.quota }
        ensures goes { GoesOn self.old self.new }
    {
        self.input.pull_ready(buffer)
    }

    // Fills the whole buffer with the next bytes of a value, of which as many are left, if they are at hand; else nothing is taken.
    #[inline(always)]
    pub(super) fn take_ready(&mut self, buffer: &mut [u8]) -> bool
        requires few { length buffer.old < 256 }
        requires room { Has self.old.top.left (length buffer.old) }
        ensures taken { Tells R.remaining → result ≡ true → Takes self.old buffer.new self.new }
        ensures left { result ≡ false → self.new ≡ self.old }
        ensures quota { self.new.quota ≡ self.old.quota }
        ensures levels { self.new.nesting - length self.new.saved ≡ self.old.nesting - length self.old.saved }
        ensures goes { GoesOn self.old self.new }
    {
        if !self.input.pull_ready(buffer) {
            return false;
        }
        let count = buffer.len() as u32;
        match self.top.left {
            Some(left) => self.top.left = Some(left.saturating_sub(count)),
            None if self.bytes == u64::MAX => {}
            None => self.bytes = self.bytes.saturating_sub(u64::from(count)),
        }
        true
    }

    // The next bytes, however the source gives them.
    #[cold]
    fn pull_bytes<const N: usize>(&mut self) -> Result<[u8; N], Error>
        requires { Tells R.remaining → Spares R.reserve N self.old }
        ensures ok { Tells R.remaining → IfOk result (λ bytes. Pulls self.old bytes self.new) }
        ensures err { Tells R.remaining → IfErr result (λ e. Misses false N self.old e self.new) }
        ensures goes { Goes false self.old result self.new }
    {
        let mut bytes = [0; N];
        self.pull_all(&mut bytes)?;
        Ok(bytes)
    }

    // Adds the next so many bytes, if they are at hand; else nothing is taken and nothing added.
    #[inline(always)]
    pub(crate) fn append_ready(&mut self, count: u32, bytes: &mut Vec<u8>) -> Result<bool, Error>
        requires { Tells R.remaining → Spares R.reserve count self.old }
        ensures taken { Tells R.remaining → result ≡ Ok true → (count ≤ length self.old.rest)
            × (bytes.new.items ≡ bytes.old.items ++ take count self.old.rest) × (self.new ≡ after_bytes count self.old) }
        ensures left { result ≡ Ok false → (self.new ≡ self.old) × (bytes.new.items ≡ bytes.old.items) }
        ensures err { IfErr result (λ e. (e ≡ Memory) × Answers self.old e self.new) }
        ensures goes { Goes true self.old result self.new }
    {
        match self.input.append_ready(count as usize, bytes) {
            Ok(done) => Ok(done),
            Err(_) => Err(self.stop(Error::Memory)),
        }
    }

    // Takes and drops so many bytes.
    fn skip(&mut self, count: u64) -> Result<(), Error>
        requires { Tells R.remaining → Spares R.reserve count self.old }
        ensures ok { Tells R.remaining → IfOk result (λ _. count ≤ length self.old.rest) }
        ensures new { Tells R.remaining → IfOk result (λ _. self.new ≡ after_bytes count self.old) }
        ensures err { Tells R.remaining → IfErr result (λ e. Misses false count self.old e self.new) }
        ensures goes { Goes false self.old result self.new }
    {
        let mut buffer = [0; SKIP];
        let mut left = count;
        while left > 0 {
            let n = left.min(SKIP as u64);
            self.pull_all(&mut buffer[..n as usize])?;
            left -= n;
        }
        Ok(())
    }

    // An empty list is open, and nothing around it.
    fn close_all(&mut self)
        ensures new { self.new ≡ record self.old { top = holding InList 0 0; saved = [] } }
        ensures spares { Tells R.remaining → Spares R.reserve (announced self.old) self.new }
        ensures own { Tells R.remaining → (own : ℕ) → Has self.old.top.left own → Spares R.reserve own self.new }
    {
        self.depth = 0;
        self.top = OpenContainer {
            items: 0,
            left: Some(0),
            place: Place::InList,
            ..OpenContainer::TOP
        };
    }

    // A size is wrong: all bytes must be present that the outermost size announces, else the input is cut. Outside of a container it is the
    // value's own size, of which `own` bytes are left, and these must be within the limit.
    #[cold]
    pub(crate) fn refuse_size(&mut self, own: u32) -> Error
        ensures refused { Tells R.remaining → RefusesSize own self.old result self.new }
        ensures fails { Fails false self.old result self.new }
        ensures place { IsPlaceOf self.new.source.fault self.old }
    {
        let place = self.place();
        let error = self.refuse_behind(own);
        self.set_fault(place);
        error
    }

    // The bytes behind what was taken are wrong, at this place.
    #[cold]
    pub(crate) fn refuse_size_at(&mut self, place: u64) -> Error
        ensures refused { Tells R.remaining → RefusesSize 0 self.old result self.new }
        ensures fails { Fails false self.old result self.new }
        ensures place { self.new.source.fault ≡ place }
    {
        let error = self.refuse_behind(0);
        self.set_fault(place);
        error
    }

    // The same, at a place behind the bytes that it passes over.
    fn refuse_behind(&mut self, own: u32) -> Error
        ensures refused { Tells R.remaining → RefusesSize own self.old result self.new }
        ensures fails { Fails false self.old result self.new }
    {
        if self.passes_limit(own) {
            return self.stop(Error::Limit);
        }
        let count = match self.left() {
            Some(_) => self.announced(),
            None => u64::from(own),
        };
        self.close_all();
        match self.skip(count) {
            Ok(()) => self.stop(Error::Size),
            Err(error) => error,
        }
    }

    // A code that isn't one of the kind that is read.
    #[cold]
    pub(crate) fn refuse_code(&mut self, code: u8) -> Error
        ensures answer { result ≡ refusal_of code }
        ensures kept { self.new ≡ refused_at result self.new.source.fault self.old }
        ensures fails { Fails false self.old result self.new }
    {
        self.stop(format_code::refusal(code))
    }

    // So many bytes are left, by a size or by the limit.
    #[inline(always)]
    pub(super) fn has_left(&self, count: u32) -> bool
        ensures { IsTrue result ↔ Has self.now.top.left count }
    {
        match self.top.left {
            Some(left) => count <= left,
            None => u64::from(count) <= self.bytes,
        }
    }

    // So many bytes of those that are left are taken.
    #[inline(always)]
    pub(super) fn take_left(&mut self, count: u32)
        requires { Has self.old.top.left count }
        ensures new { self.new ≡ record self.old { top = record self.old.top { left = lower self.old.top.left count } } }
        ensures goes { GoesOn self.old self.new }
    {
        match self.left() {
            Some(left) => self.set_left(left.saturating_sub(count)),
            None => self.lower_limit(count),
        }
    }

    // So many bytes of the open container, or else of the limit, are taken.
    #[inline(always)]
    pub(crate) fn lower(&mut self, count: u32) -> Result<(), Error>
        ensures room { IfOk result (λ _. Has self.old.top.left count) }
        ensures spares { Tells R.remaining → IfOk result (λ _. Spares R.reserve count self.new) }
        ensures new { IfOk result (λ _. self.new ≡ record self.old { top = record self.old.top { left = lower self.old.top.left count } }) }
        ensures err { Tells R.remaining → IfErr result (λ e. FallsShort count self.old e self.new) }
        ensures full { Tells R.remaining → IfErr result (λ e. Stops false (NoRoom count self.old) self.old e self.new) }
        ensures goes { Goes false self.old result self.new }
    {
        self.spares();
        if !self.has_left(count) {
            return Err(self.refuse_size(count));
        }
        self.take_left(count);
        Ok(())
    }

    // The next bytes of a value.
    #[inline(always)]
    pub(crate) fn take<const N: usize>(&mut self) -> Result<[u8; N], Error>
        requires { N < 256 }
        ensures ok { Tells R.remaining → IfOk result (λ bytes. Takes self.old bytes self.new) }
        ensures err { Tells R.remaining → IfErr result (λ e. FallsShort N self.old e self.new) }
        ensures goes { Goes false self.old result self.new }
    {
        self.lower(N as u32)?;
        let mut bytes = [0; N];
        if self.pull_ready(&mut bytes) {
            return Ok(bytes);
        }
        self.pull_bytes()
    }

    // The next byte of a value.
    #[inline(always)]
    pub(crate) fn byte(&mut self) -> Result<u8, Error>
        ensures ok { Tells R.remaining → IfOk result (λ b. Takes self.old (b ∷ []) self.new) }
        ensures err { Tells R.remaining → IfErr result (λ e. FallsShort 1 self.old e self.new) }
        ensures goes { Goes false self.old result self.new }
    {
        let byte = self.take::<1>()?;
        Ok(byte[0])
    }

    // A number of one byte, or of four.
    #[inline(always)]
    pub(crate) fn number(&mut self, wide: bool) -> Result<u32, Error>
        ensures ok { Tells R.remaining → IfOk result (λ n. Takes self.old (bytes_high_first (cond wide 4 1) n) self.new) }
        ensures err { Tells R.remaining → IfErr result (λ e. FallsShort (cond wide 4 1) self.old e self.new) }
        ensures fits { IfOk result (λ n. n < 256 ^ cond wide 4 1) }
        ensures goes { Goes false self.old result self.new }
    {
        if wide {
            Ok(u32::from_be_bytes(self.take()?))
        } else {
            Ok(u32::from(self.byte()?))
        }
    }
}
