//! What values are written to.
ghost use Rattle.std.specs.Prelude.{◌≡◌, ◌≤◌, true, ℕ, [], ◌∷◌, List, Ok, Err, IfOk, IfErr};
ghost use Rattle.std.specs.Bool.{Decides, OnTrue, OnFalse};
ghost use Rattle.amqp_model.specs.Term.{Primitive, null, symbol, list, map, array, code as code_descriptor};
ghost use Rattle.amqp_wire.specs.Containers.{container_of};
ghost use Rattle.amqp_encoder.specs.Values.{descriptor_of};
ghost use Rattle.amqp_encoder.specs.Spelled.{IsFixed, IsVariable};
ghost use Rattle.amqp_encoder.specs.Tokens.{Token, put, nulls, keep, begin, end, begin_described, end_described, refuse};
ghost use Rattle.amqp_encoder.specs.Writes.{Writes, Fills, IsGoing, pass_of, bytes_of, loan_of, settled};
ghost use Rattle.amqp_encoder.specs.Standings.{encoder_of, StandsFor};
ghost use Rattle.amqp_encoder.specs.Passes.{BeginsMeasuring, BeginsFilling, Finds, FindsNone, answer_of};

use crate::fill::Fill;
use crate::measure::Measure;
use crate::pass::Pass;
use crate::places::Shortest;
use crate::room::Room;
use crate::size::Size;
use amqp_wire::{Container, Descriptor, Error};
use std::alloc::Global;
use std::marker::Model;

/// What may come next.
#[derive(Clone, Copy)]
pub(crate) enum Standing {
    /// A value by itself, in a list or a map or in none.
    Plain,
    /// Some value or some end.
    Going,
    /// Nothing, since a call was refused.
    Refused,
}

/// Measures what is written to it, or fills a buffer with its canonical text (Part 1, section 1.6), as its pass says. After an error, every
/// call returns the same error. The encoder allocates, and may return `Memory`, only while it measures. It does so at the beginning of a
/// list, map or array, and of a described value that is the first item of an array.
#[derive(Drop)]
pub struct Encoder<P: Pass> {
    standing: Standing,
    // Why it was refused.
    error: Error,
    pass: P,
}

impl<P: Pass> Model for Encoder<P> {
    ghost use Rattle.amqp_encoder.specs.State.{Encoder};

    ghost Value = { Encoder };

    ghost use Rattle.amqp_encoder.specs.Standings.{encoder_of, StandsFor};

    ghost view = { λ e. encoder_of e.standing e.error (P.seen e.pass) (P.out e.pass) };

    ghost invariant = { λ e. StandsFor e.standing (P.seen e.pass) };
}

impl<P: Pass> Encoder<P> {
    /// Returns the encoder's error, if it has refused.
    #[inline(always)]
    pub fn check(&self) -> Result<(), Error>
        ensures { result ≡ answer_of self.now }
    {
        match self.standing {
            Standing::Plain | Standing::Going => Ok(()),
            Standing::Refused => Err(self.error),
        }
    }

    #[inline(always)]
    fn has_refused(&self) -> bool
        ensures refused { OnTrue result ((calls : List Token) → Writes self.now calls (answer_of self.now) self.now) }
        ensures going { OnFalse result (IsGoing (pass_of self.now)) }
    {
        match self.standing {
            Standing::Plain | Standing::Going => false,
            Standing::Refused => true,
        }
    }

    // Takes up how a call of the pass was answered.
    #[inline(always)]
    fn settle(&mut self, outcome: Result<(), Error>)
        ensures settled { self.new ≡ record { pass = settled outcome self.old.pass; buffer = self.old.buffer } }
        ensures bytes { bytes_of self.new ≡ bytes_of self.old }
    {
        match outcome {
            Ok(()) => {
                if let Standing::Going = self.standing
                    && self.pass.is_plain()
                {
                    self.standing = Standing::Plain;
                }
            }
            Err(error) => {
                self.standing = Standing::Refused;
                self.error = error;
            }
        }
    }

    /// Returns whether it fills a buffer with what was measured before.
    #[inline(always)]
    pub fn fills(&self) -> bool
        ensures { Decides result (Fills (pass_of self.now)) }
    {
        match self.standing {
            Standing::Plain | Standing::Going => self.pass.fills(),
            Standing::Refused => false,
        }
    }

    /// Refuses the value for a reason of its type's own, or because the type couldn't allocate.
    pub fn refuse(&mut self, error: Error) -> Result<(), Error>
        ensures { Writes self.old (refuse error ∷ []) result self.new }
    {
        if self.has_refused() {
            return self.check();
        }
        self.settle(Err(error));
        Err(error)
    }

    /// Writes a primitive of fixed width, with its code and its data as the first item of an array.
    #[inline(always)]
    pub(crate) fn put<const N: usize>(
        &mut self,
        shortest: Shortest,
        wide: [u8; N],
    ) -> Result<(), Error>
        requires { 1 ≤ N }
        ensures { (p : Primitive) → IsFixed p shortest wide.entry → Writes self.old (put p ∷ []) result self.new }
    {
        if self.puts_plain(shortest, wide) {
            return Ok(());
        }
        self.put_apart(shortest, wide);
        self.check()
    }

    /// Writes a primitive of fixed width, if it may be written by itself. Otherwise it returns false, and does nothing.
    #[inline(always)]
    pub(crate) fn puts_plain<const N: usize>(&mut self, shortest: Shortest, wide: [u8; N]) -> bool
        ensures written { OnTrue result ((p : Primitive) → IsFixed p shortest wide.entry → Writes self.old (put p ∷ []) (Ok tt) self.new) }
        ensures left { OnFalse result (self.new ≡ self.old) }
    {
        match self.standing {
            Standing::Plain => self.pass.put_plain(shortest, &wide),
            Standing::Going | Standing::Refused => false,
        }
    }

    #[inline(never)]
    fn put_apart<const N: usize>(&mut self, shortest: Shortest, wide: [u8; N])
        requires { 1 ≤ N }
        ensures { (p : Primitive) → IsFixed p shortest wide.entry → Writes self.old (put p ∷ []) (answer_of self.new) self.new }
    {
        self.put_any(shortest, wide)
    }

    #[inline(always)]
    pub(crate) fn put_any<const N: usize>(&mut self, shortest: Shortest, wide: [u8; N])
        requires { 1 ≤ N }
        ensures { (p : Primitive) → IsFixed p shortest wide.entry → Writes self.old (put p ∷ []) (answer_of self.new) self.new }
    {
        if self.has_refused() {
            return;
        }
        self.standing = Standing::Going;
        let outcome = self.pass.put(shortest, &wide);
        self.settle(outcome);
    }

    /// Writes a binary or a string, with its codes.
    #[inline(always)]
    pub(crate) fn put_bytes(&mut self, short: u8, wide: u8, bytes: &[u8]) -> Result<(), Error>
        ensures { (p : Primitive) → IsVariable p short wide bytes.now → Writes self.old (put p ∷ []) result self.new }
    {
        self.put_bytes_apart(short, wide, bytes);
        self.check()
    }

    #[inline(never)]
    fn put_bytes_apart(&mut self, short: u8, wide: u8, bytes: &[u8])
        ensures { (p : Primitive) → IsVariable p short wide bytes.now → Writes self.old (put p ∷ []) (answer_of self.new) self.new }
    {
        if self.has_refused() {
            return;
        }
        self.standing = Standing::Going;
        let outcome = self.pass.put_bytes(short, wide, bytes);
        self.settle(outcome);
    }

    /// Writes a symbol (Part 1, section 1.6.21). It returns `NonAscii` if the text isn't ASCII.
    #[inline(always)]
    pub fn write_symbol(&mut self, text: &str) -> Result<(), Error>
        ensures { Writes self.old (put (symbol text.now) ∷ []) result self.new }
    {
        self.write_symbol_apart(text);
        self.check()
    }

    #[inline(never)]
    fn write_symbol_apart(&mut self, text: &str)
        ensures { Writes self.old (put (symbol text.now) ∷ []) (answer_of self.new) self.new }
    {
        if self.has_refused() {
            return;
        }
        self.standing = Standing::Going;
        let outcome = self.pass.put_symbol(text);
        self.settle(outcome);
    }

    /// Writes null (Part 1, section 1.6.1). It returns `ZeroWidthItems` for the item of an array.
    #[inline(always)]
    pub fn write_null(&mut self) -> Result<(), Error>
        ensures { Writes self.old (put null ∷ []) result self.new }
    {
        if self.puts_plain_nulls(1) {
            return Ok(());
        }
        self.write_null_apart();
        self.check()
    }

    #[inline(never)]
    fn write_null_apart(&mut self)
        ensures { Writes self.old (put null ∷ []) (answer_of self.new) self.new }
    {
        if self.has_refused() {
            return;
        }
        self.standing = Standing::Going;
        let outcome = self.pass.put_null();
        self.settle(outcome);
    }

    /// Writes so many nulls, one after another.
    #[inline(always)]
    pub fn write_nulls(&mut self, count: usize) -> Result<(), Error>
        ensures { Writes self.old (nulls count) result self.new }
    {
        if self.puts_plain_nulls(count) {
            return Ok(());
        }
        self.write_nulls_apart(count);
        self.check()
    }

    /// Writes so many nulls, if they may be written by themselves. Otherwise it returns false, and does nothing.
    #[inline(always)]
    fn puts_plain_nulls(&mut self, count: usize) -> bool
        ensures written { OnTrue result (Writes self.old (nulls count) (Ok tt) self.new) }
        ensures left { OnFalse result (self.new ≡ self.old) }
    {
        match self.standing {
            Standing::Plain => self.pass.put_plain_nulls(count),
            Standing::Going | Standing::Refused => false,
        }
    }

    #[inline(never)]
    fn write_nulls_apart(&mut self, count: usize)
        ensures { Writes self.old (nulls count) (answer_of self.new) self.new }
    {
        for _ in 0..count {
            self.write_null_apart();
        }
    }

    /// Writes the bytes of one term, as they are. The caller must make sure that they are one term, and that it nests so deep. It returns
    /// `LazyInArray` for the item of an array, also under descriptors.
    pub fn write_term(&mut self, bytes: &[u8], nesting: usize) -> Result<(), Error>
        ensures { Writes self.old (keep bytes.now nesting ∷ []) result self.new }
    {
        self.write_term_apart(bytes, nesting);
        self.check()
    }

    #[inline(never)]
    fn write_term_apart(&mut self, bytes: &[u8], nesting: usize)
        ensures { Writes self.old (keep bytes.now nesting ∷ []) (answer_of self.new) self.new }
    {
        if self.has_refused() {
            return;
        }
        self.standing = Standing::Going;
        let outcome = self.pass.keep(bytes, nesting);
        self.settle(outcome);
    }

    #[inline(always)]
    fn begin(&mut self, container: Container)
        ensures { Writes self.old (begin (container_of container) ∷ []) (answer_of self.new) self.new }
    {
        if self.has_refused() {
            return;
        }
        self.standing = Standing::Going;
        let outcome = self.pass.begin(container);
        self.settle(outcome);
    }

    #[inline(always)]
    fn end(&mut self, container: Container)
        ensures { Writes self.old (end (container_of container) ∷ []) (answer_of self.new) self.new }
    {
        if self.has_refused() {
            return;
        }
        self.standing = Standing::Going;
        let outcome = self.pass.end(container);
        self.settle(outcome);
    }

    /// Begins a list (Part 1, section 1.6.22). It returns `Depth` if values nest more than 128 deep.
    #[inline(always)]
    pub fn begin_list(&mut self) -> Result<(), Error>
        ensures { Writes self.old (begin list ∷ []) result self.new }
    {
        self.begin_list_apart();
        self.check()
    }

    #[inline(never)]
    fn begin_list_apart(&mut self)
        ensures { Writes self.old (begin list ∷ []) (answer_of self.new) self.new }
    {
        self.begin(Container::List);
    }

    /// Ends the list that is open. It returns `InvalidValue` if no list is open.
    #[inline(always)]
    pub fn end_list(&mut self) -> Result<(), Error>
        ensures { Writes self.old (end list ∷ []) result self.new }
    {
        self.end_list_apart();
        self.check()
    }

    #[inline(never)]
    fn end_list_apart(&mut self)
        ensures { Writes self.old (end list ∷ []) (answer_of self.new) self.new }
    {
        self.end(Container::List);
    }

    /// Begins a map, whose keys and values follow in turn (Part 1, section 1.6.23).
    #[inline(always)]
    pub fn begin_map(&mut self) -> Result<(), Error>
        ensures { Writes self.old (begin map ∷ []) result self.new }
    {
        self.begin_map_apart();
        self.check()
    }

    #[inline(never)]
    fn begin_map_apart(&mut self)
        ensures { Writes self.old (begin map ∷ []) (answer_of self.new) self.new }
    {
        self.begin(Container::Map);
    }

    /// Ends the map that is open. It returns `OddCount` if a key has no value.
    #[inline(always)]
    pub fn end_map(&mut self) -> Result<(), Error>
        ensures { Writes self.old (end map ∷ []) result self.new }
    {
        self.end_map_apart();
        self.check()
    }

    #[inline(never)]
    fn end_map_apart(&mut self)
        ensures { Writes self.old (end map ∷ []) (answer_of self.new) self.new }
    {
        self.end(Container::Map);
    }

    /// Begins an array (Part 1, section 1.6.24). Its items need one constructor; otherwise the error is `MixedArray`.
    #[inline(always)]
    pub fn begin_array(&mut self) -> Result<(), Error>
        ensures { Writes self.old (begin array ∷ []) result self.new }
    {
        self.begin_array_apart();
        self.check()
    }

    #[inline(never)]
    fn begin_array_apart(&mut self)
        ensures { Writes self.old (begin array ∷ []) (answer_of self.new) self.new }
    {
        self.begin(Container::Array);
    }

    /// Ends the array that is open. It returns `InvalidValue` if no array is open.
    #[inline(always)]
    pub fn end_array(&mut self) -> Result<(), Error>
        ensures { Writes self.old (end array ∷ []) result self.new }
    {
        self.end_array_apart();
        self.check()
    }

    #[inline(never)]
    fn end_array_apart(&mut self)
        ensures { Writes self.old (end array ∷ []) (answer_of self.new) self.new }
    {
        self.end(Container::Array);
    }

    /// Begins a described value (Part 1, section 1.2). One value must follow.
    #[inline(always)]
    pub fn begin_described(&mut self, descriptor: &Descriptor) -> Result<(), Error>
        ensures { Writes self.old (begin_described (descriptor_of descriptor.now) ∷ []) result self.new }
    {
        self.begin_described_apart(descriptor);
        self.check()
    }

    #[inline(never)]
    fn begin_described_apart(&mut self, descriptor: &Descriptor)
        ensures { Writes self.old (begin_described (descriptor_of descriptor.now) ∷ []) (answer_of self.new) self.new }
    {
        if self.has_refused() {
            return;
        }
        self.standing = Standing::Going;
        let outcome = self.pass.begin_described(descriptor);
        self.settle(outcome);
    }

    /// Ends the described value that is open. It returns `InvalidValue` if that doesn't hold exactly one value.
    #[inline(always)]
    pub fn end_described(&mut self) -> Result<(), Error>
        ensures { Writes self.old (end_described ∷ []) result self.new }
    {
        self.end_described_apart();
        self.check()
    }

    #[inline(never)]
    fn end_described_apart(&mut self)
        ensures { Writes self.old (end_described ∷ []) (answer_of self.new) self.new }
    {
        if self.has_refused() {
            return;
        }
        self.standing = Standing::Going;
        let outcome = self.pass.end_described();
        self.settle(outcome);
    }

    /// Begins a composite, which is a list that is described by a code (Part 1, section 1.4).
    #[inline(always)]
    pub fn begin_composite(&mut self, code: u64) -> Result<(), Error>
        ensures { Writes self.old (begin_described (code_descriptor code) ∷ begin list ∷ []) result self.new }
    {
        self.begin_composite_apart(code);
        self.check()
    }

    #[inline(never)]
    fn begin_composite_apart(&mut self, code: u64)
        ensures { Writes self.old (begin_described (code_descriptor code) ∷ begin list ∷ []) (answer_of self.new) self.new }
    {
        if self.has_refused() {
            return;
        }
        self.standing = Standing::Going;
        let outcome = self.pass.begin_composite(code);
        self.settle(outcome);
    }

    /// Ends the composite that is open. It returns `InvalidValue` if none is open.
    #[inline(always)]
    pub fn end_composite(&mut self) -> Result<(), Error>
        ensures { Writes self.old (end list ∷ end_described ∷ []) result self.new }
    {
        self.end_composite_apart();
        self.check()
    }

    #[inline(never)]
    fn end_composite_apart(&mut self)
        ensures { Writes self.old (end list ∷ end_described ∷ []) (answer_of self.new) self.new }
    {
        if self.has_refused() {
            return;
        }
        self.standing = Standing::Going;
        let outcome = self.pass.end_composite();
        self.settle(outcome);
    }
}

/// Returns an encoder that measures, and makes every refusal.
pub fn measuring_encoder(alloc: Global) -> Encoder<Measure>
    ensures { BeginsMeasuring result }
{
    Encoder {
        standing: Standing::Plain,
        error: Error::InvalidValue,
        pass: Measure::new(alloc),
    }
}

/// Returns the length of what was measured. An error is the encoder's own; if it has none, it is `InvalidValue`, because a container is
/// still open.
#[inline(always)]
pub fn measured_len(encoder: &Encoder<Measure>) -> Result<usize, Error>
    ensures found { IfOk result (λ len. (sizes : List Size) × Finds encoder.now len sizes) }
    ensures refused { IfErr result (λ e. FindsNone encoder.now e) }
{
    match encoder.check() {
        Ok(()) => encoder.pass.measured(),
        Err(error) => Err(error),
    }
}

/// Returns an encoder that fills the room, up to `limit` bytes in all, with the sizes that were measured. Of an encoder that has refused,
/// it returns one that has the same error.
#[inline(always)]
pub fn filling_encoder<R: Room>(
    measured: &mut Encoder<Measure>,
    alloc: Global,
    room: R,
    limit: usize,
) -> Encoder<Fill<R>>
    requires { limit ≤ R.holds room }
    ensures begun { (len : ℕ) (sizes : List Size) → Finds measured.old len sizes
        → BeginsFilling result sizes (R.bytes room) limit }
    ensures lent { (len : ℕ) (sizes : List Size) → Finds measured.old len sizes → loan_of result ≡ R.loan room }
    ensures stays { (e : Error) → answer_of measured.old ≡ Err e
        → (answer_of result ≡ Err e) × (bytes_of result ≡ R.bytes room) }
{
    let standing = match measured.standing {
        Standing::Plain | Standing::Going => Standing::Plain,
        Standing::Refused => Standing::Refused,
    };
    Encoder {
        standing,
        error: measured.error,
        pass: Fill::new(measured.pass.take_sizes(alloc), room, limit),
    }
}

/// Returns the room, also after an error.
#[inline(always)]
pub fn buffer_of<R: Room>(encoder: Encoder<Fill<R>>) -> R
    ensures bytes { R.bytes result ≡ bytes_of encoder }
    ensures lent { Fills (pass_of encoder) → R.loan result ≡ loan_of encoder }
{
    let Encoder {
        standing: _,
        error: _,
        pass,
    } = encoder;
    pass.into_room()
}
