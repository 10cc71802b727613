//! The filling pass: it writes into room whose size was measured before, and never grows it.
ghost use Rattle.std.specs.Prelude.{◌≡◌, ◌≤◌, ◌<◌, ◌+◌, ◌++◌, [], ◌∷◌, List, length, take, drop, replicate, Ok, OnErr};
ghost use Rattle.std.specs.Bool.{OnTrue, OnFalse};
ghost use Rattle.amqp_model.specs.Term.{list, array};
ghost use Rattle.amqp_model.specs.Term.{code as code_descriptor};
ghost use Rattle.amqp_model.specs.Text.{Alone, head, first_place};
ghost use Rattle.amqp_encoder.specs.Opening.{opening};
ghost use Rattle.amqp_wire.specs.Containers.{container_of};
ghost use Rattle.amqp_encoder.specs.Values.{place_of, descriptor_of, shortest_text};
ghost use Rattle.amqp_encoder.specs.State.{Filling, to_fill};
ghost use Rattle.amqp_encoder.specs.Tokens.{begin, begin_described};
ghost use Rattle.amqp_encoder.specs.Writes.{Passes};
ghost use Rattle.amqp_encoder.specs.declared.places.Shortest.TheVariants.{Wide};
ghost use Rattle.amqp_encoder.specs.Filling.{emit, fill_value, fill_null_at, fill_keep, fill_open, fill_begin, fill_begin_described};
ghost use Rattle.amqp_encoder.specs.Filling.{fill_end, open_composite};
ghost use Rattle.amqp_encoder.specs.Gives.{Does, fixed_text, fill_bytes, fill_described};

use crate::descriptors::{head_of, text_of};
use crate::frame::is_filled_up;
use crate::pass::Pass;
use crate::places::{Place, Shortest, first_place, is_list, short_code, wide_code};
use crate::room::Room;
use crate::size::{MAX_CONTENT, Size, Sizes};
use amqp_wire::nesting::{LEVELS, NESTING};
use amqp_wire::{Container, Descriptor, Error, format_code};
use std::marker::Model;

/// How many bytes are written without a call that copies them.
const SHORT: usize = 8;

/// The filling pass: it writes the canonical text of what was measured.
#[derive(Drop)]
pub struct Fill<R: Room> {
    place: Place,
    places: [Place; LEVELS],
    depth: usize,
    sizes: Sizes,
    next: usize,
    limit: usize,
    out: R,
}

impl<R: Room> Model for Fill<R> {
    ghost use Rattle.std.specs.Prelude.{map, reverse, take, drop, ◌≤◌};
    ghost use Rattle.amqp_encoder.specs.Values.{place_of};
    ghost use Rattle.amqp_encoder.specs.State.{Filled};

    ghost Value = { Filled };

    ghost view = { λ f. record {
      place = place_of f.place;
      outer = map place_of (reverse (take f.depth f.places));
      sizes = drop f.next f.sizes;
      out = R.bytes f.out;
      limit = f.limit;
      loan = R.loan f.out;
    } };

    ghost invariant = { λ f. (f.limit ≤ R.holds f.out) × (f.depth ≤ 129) };
}

impl<R: Room> Fill<R> {
    /// Returns a pass that fills room up to so many bytes.
    #[inline(always)]
    pub(crate) fn new(sizes: Sizes, out: R, limit: usize) -> Fill<R>
        requires { limit ≤ R.holds out }
        ensures { result ≡ to_fill sizes (R.bytes out) limit (R.loan out) }
    {
        Fill {
            place: Place::Alone,
            places: [Place::Alone; LEVELS],
            depth: 0,
            sizes,
            next: 0,
            limit,
            out,
        }
    }

    #[inline(always)]
    pub(crate) fn into_room(self) -> R
        ensures bytes { R.bytes result ≡ self.out }
        ensures loan { R.loan result ≡ self.loan }
    {
        let Fill {
            place: _,
            places: _,
            depth: _,
            sizes: _,
            next: _,
            limit: _,
            out,
        } = self;
        out
    }

    /// Writes the bytes of `head` and then of `body`, if there is room for both.
    #[inline(always)]
    fn emit(&mut self, head: &[u8], body: &[u8]) -> Result<(), Error>
        ensures does { Does (emit (head.now ++ body.now) self.old) result self.new }
        ensures kept { take (length self.old.out) self.new.out ≡ self.old.out }
    {
        if self.out.len() > self.limit {
            return Err(Error::InvalidValue);
        }
        let len = head.len() + body.len();
        if self.limit - self.out.len() < len {
            return Err(Error::InvalidValue);
        }
        if body.len() <= SHORT {
            self.out.push_each(head, body);
        } else {
            self.out.push_copied(head, body);
        }
        Ok(())
    }

    /// Writes a few bytes.
    #[inline(always)]
    fn emit_each(&mut self, bytes: &[u8]) -> Result<(), Error>
        ensures does { Does (emit bytes.now self.old) result self.new }
        ensures kept { take (length self.old.out) self.new.out ≡ self.old.out }
        ensures left { OnErr result (self.new ≡ self.old) }
    {
        if self.out.len() + bytes.len() > self.limit {
            return Err(Error::InvalidValue);
        }
        self.out.push_each(bytes, &[]);
        Ok(())
    }

    /// Writes a value that is the next one in its place.
    #[inline(always)]
    fn emit_value(&mut self, head: &[u8], body: &[u8]) -> Result<(), Error>
        ensures does { Does (fill_value (head.now ++ body.now) self.old) result self.new }
        ensures kept { take (length self.old.out) self.new.out ≡ self.old.out }
    {
        self.emit(head, body)?;
        self.place = self.place.next();
        Ok(())
    }

    /// Writes a primitive, with its code and its data as the first item of an array.
    #[inline(always)]
    fn fill_fixed(&mut self, shortest: Shortest, wide: &[u8]) -> Result<(), Error>
        requires { 1 ≤ length wide.now }
        ensures does { Does (fill_value (fixed_text self.old.place shortest wide.now) self.old) result self.new }
        ensures kept { take (length self.old.out) self.new.out ≡ self.old.out }
    {
        match self.place {
            Place::Alone => self.fill_plain(shortest, wide),
            Place::First | Place::Later => self.fill_item(wide),
        }
    }

    /// Writes a primitive by itself.
    #[inline(always)]
    fn fill_plain(&mut self, shortest: Shortest, wide: &[u8]) -> Result<(), Error>
        ensures does { Does (emit (shortest_text shortest wide.now) self.old) result self.new }
        ensures kept { take (length self.old.out) self.new.out ≡ self.old.out }
        ensures left { OnErr result (self.new ≡ self.old) }
    {
        match shortest {
            Shortest::Code(code) => self.emit_each(&[code]),
            Shortest::Byte(code, byte) => self.emit_each(&[code, byte]),
            Shortest::Wide => self.emit_each(wide),
        }
    }

    #[inline(always)]
    fn fill_item(&mut self, wide: &[u8]) -> Result<(), Error>
        requires { 1 ≤ length wide.now }
        ensures does { Does (fill_value (fixed_text self.old.place Wide wide.now) self.old) result self.new }
        ensures kept { take (length self.old.out) self.new.out ≡ self.old.out }
    {
        match self.place {
            Place::Alone | Place::First => self.emit_value(wide, &[]),
            Place::Later => self.emit_value(&wide[1..], &[]),
        }
    }

    /// Writes a binary, a string or a symbol, with its codes.
    #[inline(always)]
    fn fill_bytes(&mut self, short: u8, wide: u8, bytes: &[u8]) -> Result<(), Error>
        ensures does { Does (fill_bytes short wide bytes.now self.old) result self.new }
        ensures kept { take (length self.old.out) self.new.out ≡ self.old.out }
    {
        if bytes.len() > 0xffff_ffff {
            return Err(Error::TooLarge);
        }
        if let Place::Alone = self.place
            && bytes.len() < 256
        {
            return self.emit(&[short, bytes.len() as u8], bytes);
        }
        let [a, b, c, d] = (bytes.len() as u32).to_be_bytes();
        match self.place {
            Place::Alone => self.emit(&[wide, a, b, c, d], bytes),
            Place::First => self.emit_value(&[wide, a, b, c, d], bytes),
            Place::Later => self.emit_value(&[a, b, c, d], bytes),
        }
    }

    #[inline(always)]
    fn fill_null(&mut self) -> Result<(), Error>
        ensures does { Does (fill_null_at self.old.place self.old) result self.new }
        ensures kept { take (length self.old.out) self.new.out ≡ self.old.out }
    {
        match self.place {
            Place::Alone => self.emit(&[format_code::NULL], &[]),
            Place::First | Place::Later => Err(Error::ZeroWidthItems),
        }
    }

    /// Writes nulls by themselves. It returns false, and does nothing, if there is no room for them.
    #[inline(always)]
    fn fill_nulls(&mut self, count: usize) -> bool
        ensures written { OnTrue result (Ok self.new ≡ emit (replicate count 0x40) self.old) }
        ensures kept { take (length self.old.out) self.new.out ≡ self.old.out }
        ensures left { OnFalse result (self.new ≡ self.old) }
    {
        if self.out.len() > self.limit || self.limit - self.out.len() < count {
            return false;
        }
        self.out.push_nulls(count);
        true
    }

    #[inline(always)]
    fn fill_keep(&mut self, bytes: &[u8]) -> Result<(), Error>
        ensures does { Does (fill_keep bytes.now self.old) result self.new }
        ensures kept { take (length self.old.out) self.new.out ≡ self.old.out }
    {
        match self.place {
            Place::Alone => self.emit(&[], bytes),
            Place::First | Place::Later => Err(Error::LazyInArray),
        }
    }

    /// Writes what comes before the values of a container, whose first value is at this place.
    #[inline(always)]
    fn open(&mut self, head: &[u8], body: &[u8], place: Place) -> Result<(), Error>
        ensures does { Does (fill_open (head.now ++ body.now) (place_of place) self.old) result self.new }
        ensures kept { take (length self.old.out) self.new.out ≡ self.old.out }
    {
        if self.depth >= LEVELS {
            return Err(Error::Depth);
        }
        self.places[self.depth] = self.place;
        self.depth += 1;
        self.emit(head, body)?;
        self.place = place;
        Ok(())
    }

    #[inline(always)]
    fn fill_begin(&mut self, container: Container) -> Result<(), Error>
        ensures does { Does (fill_begin (container_of container) self.old) result self.new }
        ensures kept { take (length self.old.out) self.new.out ≡ self.old.out }
    {
        if self.next >= self.sizes.len() {
            return Err(Error::InvalidValue);
        }
        let size = self.sizes.get(self.next);
        if size.content > MAX_CONTENT {
            return Err(Error::TooLarge);
        }
        self.next += 1;
        self.open_container(container, size)
    }

    #[inline(always)]
    fn open_container(&mut self, container: Container, size: Size) -> Result<(), Error>
        requires { size.content < 0xffff_fffc }
        ensures does { Does (fill_open (opening self.old.place (container_of container) size.count size.content)
            (first_place (container_of container)) self.old) result self.new }
        ensures kept { take (length self.old.out) self.new.out ≡ self.old.out }
    {
        let first = first_place(container);
        if is_filled_up(container, size) {
            return self.open_empty_array(first);
        }
        match self.place {
            Place::Alone => self.open_alone(container, size),
            Place::First => {
                let [a, b, c, d] = (4 + size.content).to_be_bytes();
                let [e, f, g, h] = size.count.to_be_bytes();
                self.open(&[wide_code(container), a, b, c, d, e, f, g, h], &[], first)
            }
            Place::Later => {
                let [a, b, c, d] = (4 + size.content).to_be_bytes();
                let [e, f, g, h] = size.count.to_be_bytes();
                self.open(&[a, b, c, d, e, f, g, h], &[], first)
            }
        }
    }

    /// Writes what comes before the values of a list that is described by a code of one byte, where both are by themselves, and the list
    /// has values and is short.
    #[inline(always)]
    fn open_composite(&mut self, code: u8, size: Size) -> Result<(), Error>
        requires levels { length self.old.outer < 128 }
        requires described { 0 < code }
        requires content { size.content < 255 }
        requires some { 0 < size.count }
        requires count { size.count < 256 }
        ensures does { Does (open_composite code size self.old) result self.new }
        ensures kept { take (length self.old.out) self.new.out ≡ self.old.out }
    {
        self.emit_each(&[
            0,
            format_code::SMALL_ULONG,
            code,
            format_code::LIST_8,
            size.content as u8 + 1,
            size.count as u8,
        ])?;
        self.places[self.depth] = self.place;
        self.places[self.depth + 1] = Place::Alone;
        self.depth += 2;
        self.place = Place::Alone;
        Ok(())
    }

    #[inline(never)]
    fn begin_any_composite(&mut self, code: u64) -> Result<(), Error>
        ensures passes { Passes (Filling self.old) (begin_described (code_descriptor code) ∷ begin list ∷ []) result (Filling self.new) }
        ensures kept { take (length self.old.out) self.new.out ≡ self.old.out }
    {
        match self.fill_begin_described(&Descriptor::Code(code)) {
            Ok(()) => self.fill_begin(Container::List),
            Err(error) => Err(error),
        }
    }

    #[inline(always)]
    fn open_alone(&mut self, container: Container, size: Size) -> Result<(), Error>
        requires fits { size.content < 0xffff_fffc }
        ensures does { Does (fill_open (head Alone (container_of container) size.count size.content) (first_place (container_of container))
            self.old) result self.new }
        ensures kept { take (length self.old.out) self.new.out ≡ self.old.out }
    {
        let first = first_place(container);
        if is_list(container) && size.count == 0 {
            return self.open(&[format_code::LIST_0], &[], first);
        }
        if size.content < 255 && size.count < 256 {
            let short = short_code(container);
            return self.open(
                &[short, size.content as u8 + 1, size.count as u8],
                &[],
                first,
            );
        }
        let [a, b, c, d] = (4 + size.content).to_be_bytes();
        let [e, f, g, h] = size.count.to_be_bytes();
        self.open(&[wide_code(container), a, b, c, d, e, f, g, h], &[], first)
    }

    /// Opens an array without items, which holds the constructor of null.
    #[inline(never)]
    fn open_empty_array(&mut self, first: Place) -> Result<(), Error>
        ensures does { Does (fill_open (opening self.old.place array 0 0) (place_of first) self.old) result self.new }
        ensures kept { take (length self.old.out) self.new.out ≡ self.old.out }
    {
        match self.place {
            Place::Alone => self.open(&[format_code::ARRAY_8, 2, 0, format_code::NULL], &[], first),
            Place::First => self.open(
                &[
                    format_code::ARRAY_32,
                    0,
                    0,
                    0,
                    5,
                    0,
                    0,
                    0,
                    0,
                    format_code::NULL,
                ],
                &[],
                first,
            ),
            Place::Later => self.open(&[0, 0, 0, 5, 0, 0, 0, 0, format_code::NULL], &[], first),
        }
    }

    #[inline(always)]
    fn fill_begin_described(&mut self, descriptor: &Descriptor) -> Result<(), Error>
        ensures does { Does (fill_begin_described (descriptor_of descriptor.now) self.old) result self.new }
        ensures kept { take (length self.old.out) self.new.out ≡ self.old.out }
    {
        let place = self.place;
        match place {
            Place::Alone | Place::First => match descriptor {
                Descriptor::Code(code) if *code != 0 && *code < 256 => {
                    self.open(&[0, format_code::SMALL_ULONG, *code as u8], &[], place)
                }
                _ => self.begin_other_described(descriptor),
            },
            Place::Later => self.open(&[], &[], Place::Later),
        }
    }

    // It is separate, so that what a small code takes stays small.
    #[inline(never)]
    fn begin_other_described(&mut self, descriptor: &Descriptor) -> Result<(), Error>
        ensures does { Does (fill_described (descriptor_of descriptor.now) self.old) result self.new }
        ensures kept { take (length self.old.out) self.new.out ≡ self.old.out }
    {
        if let Descriptor::Code(0) = descriptor {
            let place = self.place;
            return self.open(&[0, format_code::ULONG_0], &[], place);
        }
        let text = text_of(descriptor);
        if text.len() > 0xffff_ffff {
            return Err(Error::TooLarge);
        }
        self.open(head_of(descriptor).as_slice(), text, self.place)
    }

    /// Ends a container or a described value.
    #[inline(always)]
    fn fill_end(&mut self) -> Result<(), Error>
        ensures does { Does (fill_end self.old) result self.new }
        ensures kept { take (length self.old.out) self.new.out ≡ self.old.out }
    {
        if self.depth == 0 {
            return Err(Error::InvalidValue);
        }
        self.depth -= 1;
        self.place = self.places[self.depth].next();
        Ok(())
    }
}

impl<R: Room> Pass for Fill<R> {
    ghost use Rattle.std.specs.Prelude.{refl};
    ghost use Rattle.amqp_encoder.specs.State.{Filling};

    ghost seen = { λ f. Filling f };

    ghost out = { λ f. f.out };

    #[inline(always)]
    fn fills(&self) -> bool {
        true
    }

    #[inline(always)]
    fn is_plain(&self) -> bool {
        matches!(self.place, Place::Alone)
    }

    #[inline(always)]
    fn put_plain(&mut self, shortest: Shortest, wide: &[u8]) -> bool {
        self.fill_plain(shortest, wide).is_ok()
    }

    #[inline(always)]
    fn put_plain_nulls(&mut self, count: usize) -> bool {
        self.fill_nulls(count)
    }

    #[inline(always)]
    fn put(&mut self, shortest: Shortest, wide: &[u8]) -> Result<(), Error> {
        self.fill_fixed(shortest, wide)
    }

    #[inline(always)]
    fn put_bytes(&mut self, short: u8, wide: u8, bytes: &[u8]) -> Result<(), Error> {
        self.fill_bytes(short, wide, bytes)
    }

    #[inline(always)]
    fn put_symbol(&mut self, text: &str) -> Result<(), Error> {
        self.fill_bytes(
            format_code::SYMBOL_8,
            format_code::SYMBOL_32,
            text.as_bytes(),
        )
    }

    #[inline(always)]
    fn put_null(&mut self) -> Result<(), Error> {
        self.fill_null()
    }

    #[inline(always)]
    fn keep(&mut self, bytes: &[u8], _nesting: usize) -> Result<(), Error> {
        self.fill_keep(bytes)
    }

    #[inline(always)]
    fn begin(&mut self, container: Container) -> Result<(), Error> {
        self.fill_begin(container)
    }

    #[inline(always)]
    fn end(&mut self, _container: Container) -> Result<(), Error> {
        self.fill_end()
    }

    #[inline(always)]
    fn begin_described(&mut self, descriptor: &Descriptor) -> Result<(), Error> {
        self.fill_begin_described(descriptor)
    }

    #[inline(always)]
    fn end_described(&mut self) -> Result<(), Error> {
        self.fill_end()
    }

    #[inline(always)]
    fn begin_composite(&mut self, code: u64) -> Result<(), Error> {
        if let Place::Alone = self.place
            && 0 < code
            && code < 256
            && self.depth < NESTING
            && self.next < self.sizes.len()
        {
            let size = self.sizes.get(self.next);
            if size.content < 255 && size.count != 0 && size.count < 256 {
                self.next += 1;
                return self.open_composite(code as u8, size);
            }
        }
        self.begin_any_composite(code)
    }

    #[inline(always)]
    fn end_composite(&mut self) -> Result<(), Error> {
        match self.fill_end() {
            Ok(()) => self.fill_end(),
            Err(error) => Err(error),
        }
    }

    ghost going = { λ f. refl };

    ghost same_bytes = { λ f. refl };
}
