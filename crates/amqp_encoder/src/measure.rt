//! The measuring pass: every refusal, and the size of every container.
ghost use Rattle.std.specs.Prelude.{◌≡◌, nat_eq, ◌≤◌, ◌<◌, ◌∷◌, [], ◌+◌, ◌++◌, ◌^◌, List, length, slice_index, set, take};
ghost use Rattle.std.specs.Prelude.{MatchResult, OnOk, IfErr, Result, Ok, Err, false};
ghost use Rattle.std.specs.Cmp.Lexicographic.{pointwise};
ghost use Rattle.std.specs.Bool.{OnTrue, OnFalse};
ghost use Rattle.amqp_wire.specs.declared.error.Error.TheVariants.{InvalidValue, Memory};
ghost use Rattle.amqp_wire.specs.Containers.{container_of};
ghost use Rattle.amqp_encoder.specs.Values.{descriptor_of};
ghost use Rattle.amqp_encoder.specs.Tokens.{TakesMemory, begin, end, begin_described, end_described};
ghost use Rattle.amqp_encoder.specs.Writes.{Passes, IsPlain};
ghost use Rattle.amqp_model.specs.Term.{list};
ghost use Rattle.amqp_model.specs.Term.{code as code_descriptor};
ghost use Rattle.amqp_encoder.specs.State.{Measuring, at_start, seen};
ghost use Rattle.amqp_encoder.specs.Opening.{opening};
ghost use Rattle.amqp_encoder.specs.Measuring.{enter, leave, measure_value, measure_null_at, measure_keep, measure_begin, measure_end};
ghost use Rattle.amqp_encoder.specs.Measuring.{measure_begin_described, measure_end_described, form_after, describe, describe_at, is_full, opened, leave_in, end_composite_in, IsUnfilled};
ghost use Rattle.amqp_encoder.specs.Measuring.{MAX, counted, descriptor_bytes, descriptor_length};
ghost use Rattle.amqp_model.specs.Text.{Alone, First, Later};
ghost use Rattle.amqp_encoder.specs.Enclosed.{IsShort};
ghost use Rattle.amqp_encoder.specs.Gives.{Gives, Does, tail_of, fixed_text, variable_length, measure_bytes, measure_symbol, Closes};

use crate::descriptors::{check_symbol, head_of, len_of, text_of};
use crate::enclosing::Enclosing;
use crate::frame::{MeasuredContainer, opening_len};
use crate::pass::Pass;
use crate::places::{Place, Shortest, around, is_odd, wide_code};
use crate::size::{Size, Sizes};
use amqp_wire::nesting::NESTING;
use amqp_wire::{Container, Descriptor, Error, format_code};
use std::alloc::Global;
use std::marker::Model;

/// The measuring pass: it refuses what can't be written, and finds the size of each container.
#[derive(Drop)]
pub struct Measure {
    top: MeasuredContainer,
    enclosing: Enclosing,
    sizes: Sizes,
    /// The descriptors of the items of the arrays that are open, in canonical form, outermost array first.
    descriptors: Vec<u8>,
}

impl Model for Measure {
    ghost use Rattle.std.specs.Prelude.{length, ◌≤◌};
    ghost use Rattle.amqp_encoder.specs.State.{Measured, seen};
    ghost use Rattle.amqp_encoder.specs.Enclosed.{MayBeKept};

    ghost Value = { Measured };

    ghost view = { λ m. record {
      frame = seen m.top;
      outer = m.enclosing.items;
      sizes = m.sizes;
      descriptors = m.descriptors.items;
    } };

    ghost invariant = { λ m. (length m.enclosing.items ≤ 129) × MayBeKept m.enclosing (seen m.top) };
}

impl Measure {
    pub(crate) fn new(alloc: Global) -> Measure
        ensures { result ≡ at_start }
    {
        Measure {
            top: MeasuredContainer::outermost(),
            enclosing: Enclosing::new(alloc),
            sizes: Sizes::new(alloc),
            descriptors: Vec::new(alloc),
        }
    }

    /// Returns the length of all that was written. It is refused if a container is still open.
    #[inline(always)]
    pub(crate) fn measured(&self) -> Result<usize, Error>
        ensures { MatchResult result (λ len. (self.now.outer ≡ []) × (len ≡ self.now.frame.content))
            (λ e. (e ≡ InvalidValue) × (1 ≤ length self.now.outer)) }
    {
        if self.is_open() {
            return Err(Error::InvalidValue);
        }
        Ok(self.top.content)
    }

    /// Moves the sizes of the containers out of it, in the order in which they begin.
    #[inline(always)]
    pub(crate) fn take_sizes(&mut self, alloc: Global) -> Sizes
        ensures sizes { result ≡ self.old.sizes }
        ensures rest { self.new ≡ record self.old { sizes = [] } }
    {
        std::mem::replace(&mut self.sizes, Sizes::new(alloc))
    }

    fn is_open(&self) -> bool
        ensures open { OnTrue result (1 ≤ length self.now.outer) }
        ensures closed { OnFalse result (self.now.outer ≡ []) }
    {
        self.enclosing.len() != 0
    }

    /// Begins a value whose constructor ends in this code. The items of an array share one constructor.
    #[inline(always)]
    fn enter(&mut self, code: u8) -> Result<(), Error>
        ensures does { Does (enter code self.old) result self.new }
        ensures within { self.new.outer ≡ self.old.outer }
    {
        if self.top.is_full() {
            return Err(Error::InvalidValue);
        }
        match self.top.place {
            Place::Alone => {}
            Place::First => self.top.code = code,
            Place::Later => {
                if self.top.code != code || self.top.form != self.descriptors.len() {
                    return Err(Error::MixedArray);
                }
            }
        }
        Ok(())
    }

    /// Ends a value of so many bytes.
    #[inline(always)]
    fn leave(&mut self, len: usize) -> Result<(), Error>
        ensures { Does (leave len self.old) result self.new }
    {
        let Some(content) = self.top.content.checked_add(len) else {
            return Err(Error::TooLarge);
        };
        let Some(count) = self.top.count.checked_add(1) else {
            return Err(Error::TooLarge);
        };
        self.top.content = content;
        self.top.count = count;
        self.top.place = self.top.place.next();
        Ok(())
    }

    /// Measures values that are by themselves, and take so many bytes in all. It returns false, and does nothing, if the machine can't
    /// count them.
    #[inline(always)]
    fn count_plain(&mut self, bytes: usize, count: usize) -> bool
        requires { IsPlain (Measuring self.old) }
        ensures counted { OnTrue result (self.new ≡ counted bytes count self.old) }
        ensures content { OnTrue result (self.old.frame.content + bytes ≤ MAX) }
        ensures count { OnTrue result (self.old.frame.count + count ≤ MAX) }
        ensures left { OnFalse result (self.new ≡ self.old) }
    {
        let Some(content) = self.top.content.checked_add(bytes) else {
            return false;
        };
        let Some(count) = self.top.count.checked_add(count) else {
            return false;
        };
        self.top.content = content;
        self.top.count = count;
        true
    }

    /// Measures a primitive, with its code and its data as the first item of an array.
    #[inline(always)]
    fn measure_fixed(&mut self, shortest: Shortest, wide: &[u8]) -> Result<(), Error>
        requires { 1 ≤ length wide.now }
        ensures { Does (measure_value (slice_index wide.now 0) (length (fixed_text self.old.frame.place shortest wide.now)) self.old) result
            self.new }
    {
        match self.top.place {
            Place::Alone => self.count(wide[0], shortest.len(wide.len())),
            Place::First => self.count_item(wide[0], wide.len()),
            Place::Later => self.count_item(wide[0], wide.len() - 1),
        }
    }

    /// Measures a value of so many bytes, whose constructor ends in this code.
    #[inline(always)]
    fn count(&mut self, code: u8, len: usize) -> Result<(), Error>
        ensures { Does (measure_value code len self.old) result self.new }
    {
        self.enter(code)?;
        self.leave(len)
    }

    #[inline(always)]
    fn count_item(&mut self, code: u8, len: usize) -> Result<(), Error>
        ensures { Does (measure_value code len self.old) result self.new }
    {
        self.count_apart(code, len)
    }

    // It is separate, so that what `put` inlines stays small.
    #[inline(never)]
    fn count_apart(&mut self, code: u8, len: usize) -> Result<(), Error>
        ensures { Does (measure_value code len self.old) result self.new }
    {
        self.count(code, len)
    }

    /// Measures a binary or a string, with the code that it has in an array.
    #[inline(always)]
    fn measure_bytes(&mut self, code: u8, len: usize) -> Result<(), Error>
        ensures { Does (measure_bytes code len self.old) result self.new }
    {
        if len > 0xffff_ffff {
            return Err(Error::TooLarge);
        }
        self.put_variable(code, len)
    }

    #[inline(always)]
    fn put_variable(&mut self, code: u8, len: usize) -> Result<(), Error>
        requires { len < 2 ^ 32 }
        ensures { Does (measure_value code (variable_length self.old.frame.place len) self.old) result self.new }
    {
        let head = match self.top.place {
            Place::Alone if len < 256 => 2,
            Place::Alone | Place::First => 5,
            Place::Later => 4,
        };
        self.count(code, head + len)
    }

    #[inline(always)]
    fn measure_symbol(&mut self, code: u8, text: &str) -> Result<(), Error>
        ensures { Does (measure_symbol code text.now self.old) result self.new }
    {
        check_symbol(text)?;
        self.put_variable(code, text.len())
    }

    /// Measures null. It has no data, so it can't be an item of an array (Part 1, section 1.2.4).
    #[inline(always)]
    fn measure_null(&mut self) -> Result<(), Error>
        ensures { Does (measure_null_at self.old.frame.place self.old) result self.new }
    {
        match self.top.place {
            Place::Alone => self.count(0x40, 1),
            Place::First | Place::Later => Err(Error::ZeroWidthItems),
        }
    }

    /// Measures the bytes of a term, which nests so deep. They have a constructor of their own.
    #[inline(always)]
    fn measure_keep(&mut self, len: usize, nesting: usize) -> Result<(), Error>
        ensures { Does (measure_keep len nesting self.old) result self.new }
    {
        match self.top.place {
            Place::Alone => {
                if nesting > NESTING || self.enclosing.len() > NESTING - nesting {
                    return Err(Error::Depth);
                }
                self.count(0, len)
            }
            Place::First | Place::Later => Err(Error::LazyInArray),
        }
    }

    /// Begins a value within the open one, in a call that may allocate.
    #[inline(always)]
    fn open(&mut self, frame: MeasuredContainer) -> Result<(), Error>
        requires { length self.old.outer < 129 }
        ensures opened { OnOk result (self.new ≡ record {
          frame = seen frame;
          outer = self.old.frame ∷ self.old.outer;
          sizes = self.old.sizes;
          descriptors = self.old.descriptors;
        }) }
        ensures memory { IfErr result (λ e. e ≡ Memory) }
    {
        self.enclosing.reserve()?;
        self.enclosing.push(self.top);
        self.top = frame;
        Ok(())
    }

    /// Begins a described value within the open one, in a call that doesn't allocate.
    #[inline(always)]
    fn open_described(&mut self, content: usize, form: usize)
        requires levels { length self.old.outer < 129 }
        requires unfilled { is_full self.old.frame ≡ false }
        requires short { IsShort self.old.frame.place content 0 form }
        ensures { self.new ≡ describe self.old content form self.old.descriptors }
    {
        self.enclosing.push(self.top);
        self.top = self.top.of_described(content, form);
    }

    /// Leaves the open container for the one around it.
    #[inline(always)]
    fn close(&mut self) -> Result<MeasuredContainer, Error>
        ensures { Closes self.old self.old.outer result self.new }
    {
        let inner = self.top;
        if !self.enclosing.pop_into(&mut self.top) {
            return Err(Error::InvalidValue);
        }
        Ok(inner)
    }

    #[inline(always)]
    fn measure_begin(&mut self, container: Container) -> Result<(), Error>
        ensures { Gives (TakesMemory self.old.frame.place (begin (container_of container)))
            (measure_begin (container_of container) self.old) result self.new }
    {
        if self.enclosing.len() > around(container) {
            return Err(Error::Depth);
        }
        self.enter(wide_code(container))?;
        let index = self.sizes.len();
        self.sizes.push(Size {
            content: 0,
            count: 0,
        })?;
        let form = self.descriptors.len();
        self.open(MeasuredContainer::of_container(container, index, form))
    }

    #[inline(always)]
    fn measure_end(&mut self, container: Container) -> Result<(), Error>
        ensures { Does (measure_end (container_of container) self.old) result self.new }
    {
        let inner = self.close()?;
        if !inner.opened.is_container(container) || inner.index >= self.sizes.len() {
            return Err(Error::InvalidValue);
        }
        if is_odd(container, inner.count) {
            return Err(Error::OddCount);
        }
        let size = inner.size()?;
        self.leave_container(container, inner, size)
    }

    /// Keeps the size of a container that was open, which is the next value.
    #[inline(always)]
    fn leave_container(
        &mut self,
        container: Container,
        inner: MeasuredContainer,
        size: Size,
    ) -> Result<(), Error>
        requires known { inner.index < length self.old.sizes }
        requires fits { inner.content < 2 ^ 32 }
        ensures { Does (leave_in (container_of container) self.old inner.index inner.form inner.content size) result self.new }
    {
        self.sizes.set(inner.index, size);
        self.descriptors.truncate(inner.form);
        self.leave(opening_len(self.top.place, container, size) + inner.content)
    }

    #[inline(always)]
    fn measure_begin_described(&mut self, descriptor: &Descriptor) -> Result<(), Error>
        ensures { Gives (TakesMemory self.old.frame.place (begin_described (descriptor_of descriptor.now)))
            (measure_begin_described (descriptor_of descriptor.now) self.old) result self.new }
    {
        if self.enclosing.len() >= NESTING {
            return Err(Error::Depth);
        }
        if self.top.is_full() {
            return Err(Error::InvalidValue);
        }
        let len = len_of(descriptor)?;
        match self.top.place {
            Place::Alone => {
                self.open_described(len, 0);
                Ok(())
            }
            Place::First => self.begin_first_item(descriptor, len),
            Place::Later => self.begin_later_item(descriptor),
        }
    }

    /// Begins a list that is described by a code of one byte, where both are by themselves and kept without allocating.
    #[inline(always)]
    fn begin_plain_composite(&mut self) -> Result<(), Error>
        requires plain { IsPlain (Measuring self.old) }
        requires room { length self.old.outer ≤ 5 }
        ensures opened { OnOk result (self.new ≡ opened list (describe self.old 3 0 self.old.descriptors)) }
        ensures memory { IfErr result (λ e. e ≡ Memory) }
    {
        let index = self.sizes.len();
        self.sizes.push(Size {
            content: 0,
            count: 0,
        })?;
        let form = self.descriptors.len();
        self.enclosing
            .push_two(self.top, self.top.of_described(3, 0));
        self.top = MeasuredContainer::of_container(Container::List, index, form);
        Ok(())
    }

    #[inline(never)]
    fn begin_any_composite(&mut self, code: u64) -> Result<(), Error>
        ensures { Passes (Measuring self.old) (begin_described (code_descriptor code) ∷ begin list ∷ []) result (Measuring self.new) }
    {
        match self.measure_begin_described(&Descriptor::Code(code)) {
            Ok(()) => self.measure_begin(Container::List),
            Err(error) => Err(error),
        }
    }

    /// Leaves a list, and the described value by itself that it is, which had no value yet. What is around both is the open one again.
    #[inline(always)]
    fn leave_composite(
        &mut self,
        inner: MeasuredContainer,
        described: MeasuredContainer,
    ) -> Result<(), Error>
        requires known { inner.index < length self.old.sizes }
        requires unfilled { IsUnfilled (seen described) }
        ensures { Does (end_composite_in (seen inner) (seen described) self.old) result self.new }
    {
        let size = inner.size()?;
        self.sizes.set(inner.index, size);
        self.descriptors.truncate(inner.form);
        self.top.code = described.code;
        let len = opening_len(Place::Alone, Container::List, size) + inner.content;
        let Some(len) = described.content.checked_add(len) else {
            return Err(Error::TooLarge);
        };
        self.leave(len)
    }

    #[inline(never)]
    fn end_any_composite(&mut self) -> Result<(), Error>
        ensures { Passes (Measuring self.old) (end list ∷ end_described ∷ []) result (Measuring self.new) }
    {
        match self.measure_end(Container::List) {
            Ok(()) => self.measure_end_described(),
            Err(error) => Err(error),
        }
    }

    /// Begins a described value as the first item of an array. Its descriptor is kept, for those of the items after it.
    #[inline(never)]
    fn begin_first_item(&mut self, descriptor: &Descriptor, len: usize) -> Result<(), Error>
        requires levels { length self.old.outer < 129 }
        requires known { descriptor_length (descriptor_of descriptor.now) ≡ Ok len }
        ensures opened { OnOk result (Ok self.new ≡ describe_at First (descriptor_bytes (descriptor_of descriptor.now)) self.old) }
        ensures memory { IfErr result (λ e. e ≡ Memory) }
    {
        self.descriptors
            .extend_from_slice(head_of(descriptor).as_slice())?;
        self.descriptors.extend_from_slice(text_of(descriptor))?;
        let form = self.descriptors.len();
        self.open(self.top.of_described(len, form))
    }

    /// Begins a described value as a later item of an array, with the descriptor that the first has.
    #[inline(never)]
    fn begin_later_item(&mut self, descriptor: &Descriptor) -> Result<(), Error>
        requires levels { length self.old.outer < 129 }
        requires unfilled { is_full self.old.frame ≡ false }
        requires later { self.old.frame.place ≡ Later }
        requires fits { length (tail_of (descriptor_of descriptor.now)) < 2 ^ 32 }
        ensures { Does (describe_at Later (descriptor_bytes (descriptor_of descriptor.now)) self.old) result self.new }
    {
        let form = self.form_after(head_of(descriptor).as_slice(), text_of(descriptor))?;
        self.open_described(0, form);
        Ok(())
    }

    /// Returns where the constructor goes on after these bytes, which it must have.
    #[tactic(auto, using(std::proofs::lemmas::List::take_rest, std::proofs::lemmas::List::drop_min))]
    fn form_after(&self, head: &[u8], text: &[u8]) -> Result<usize, Error>
        ensures { result ≡ form_after (head.now ++ text.now) self.now }
    {
        let kept = self.descriptors.as_slice();
        let start = self.top.form;
        if !goes_on(&kept[start.min(kept.len())..], head, text) {
            return Err(Error::MixedArray);
        }
        Ok(start + head.len() + text.len())
    }

    #[inline(always)]
    fn measure_end_described(&mut self) -> Result<(), Error>
        ensures { Does (measure_end_described self.old) result self.new }
    {
        let inner = self.close()?;
        if !inner.opened.is_described() || inner.count != 1 {
            return Err(Error::InvalidValue);
        }
        self.top.code = inner.code;
        self.leave(inner.content)
    }
}

impl Pass for Measure {
    ghost use Rattle.std.specs.Prelude.{[], refl};
    ghost use Rattle.amqp_encoder.specs.State.{Measuring};

    ghost seen = { λ m. Measuring m };

    ghost out = { λ m. [] };

    #[inline(always)]
    fn fills(&self) -> bool {
        false
    }

    #[inline(always)]
    fn is_plain(&self) -> bool {
        match self.top.place {
            Place::Alone => !self.top.opened.is_described(),
            Place::First | Place::Later => false,
        }
    }

    #[inline(always)]
    fn put_plain(&mut self, shortest: Shortest, wide: &[u8]) -> bool {
        self.count_plain(shortest.len(wide.len()), 1)
    }

    #[inline(always)]
    fn put_plain_nulls(&mut self, count: usize) -> bool {
        self.count_plain(count, count)
    }

    #[inline(always)]
    fn put(&mut self, shortest: Shortest, wide: &[u8]) -> Result<(), Error> {
        self.measure_fixed(shortest, wide)
    }

    #[inline(always)]
    fn put_bytes(&mut self, _short: u8, wide: u8, bytes: &[u8]) -> Result<(), Error> {
        self.measure_bytes(wide, bytes.len())
    }

    #[inline(always)]
    fn put_symbol(&mut self, text: &str) -> Result<(), Error> {
        self.measure_symbol(format_code::SYMBOL_32, text)
    }

    #[inline(always)]
    fn put_null(&mut self) -> Result<(), Error> {
        self.measure_null()
    }

    #[inline(always)]
    fn keep(&mut self, bytes: &[u8], nesting: usize) -> Result<(), Error> {
        self.measure_keep(bytes.len(), nesting)
    }

    #[inline(always)]
    fn begin(&mut self, container: Container) -> Result<(), Error> {
        self.measure_begin(container)
    }

    #[inline(always)]
    fn end(&mut self, container: Container) -> Result<(), Error> {
        self.measure_end(container)
    }

    #[inline(always)]
    fn begin_described(&mut self, descriptor: &Descriptor) -> Result<(), Error> {
        self.measure_begin_described(descriptor)
    }

    #[inline(always)]
    fn end_described(&mut self) -> Result<(), Error> {
        self.measure_end_described()
    }

    #[inline(always)]
    fn begin_composite(&mut self, code: u64) -> Result<(), Error> {
        if self.is_plain() && 0 < code && code < 256 && self.enclosing.has_two_places() {
            return self.begin_plain_composite();
        }
        self.begin_any_composite(code)
    }

    #[inline(always)]
    fn end_composite(&mut self) -> Result<(), Error> {
        let inner = self.top;
        if inner.opened.is_container(Container::List)
            && inner.index < self.sizes.len()
            && let Some(described) = self.enclosing.pop_unfilled(&mut self.top)
        {
            return self.leave_composite(inner, described);
        }
        self.end_any_composite()
    }

    ghost going = { λ m. refl };

    ghost same_bytes = { λ m. refl };
}

/// Returns whether bytes begin with `head` and then `text`.
#[tactic(auto, using(crate::proofs::Texts::goes_on_true, crate::proofs::Texts::goes_on_first, crate::proofs::Texts::goes_on_second))]
fn goes_on(bytes: &[u8], head: &[u8], text: &[u8]) -> bool
    ensures value { result ≡ pointwise nat_eq (take (length (head.now ++ text.now)) bytes.now) (head.now ++ text.now) }
    ensures within { OnTrue result (length head.now + length text.now ≤ length bytes.now) }
{
    match bytes.strip_prefix(head) {
        Some(rest) => rest.strip_prefix(text).is_some(),
        None => false,
    }
}
