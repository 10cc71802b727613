//! The sections of a message, by the descriptors that they begin with (Part 3, section 3.2).
ghost use Rattle.std.specs.Prelude.{◌≡◌, ◌<◌, ◌≤◌, ◌+◌, ◌^◌, ◌↔◌, ℕ, map, Some, true, IfOk, IfSome, OnErr, option_map};
ghost use Rattle.std.specs.Int.{bytes_high_first};
ghost use Rattle.amqp_model.specs.Term.{code as of_code, name as of_name};
ghost use Rattle.amqp_wire.specs.Sources.{Tells};
ghost use Rattle.amqp_lookahead.specs.Members.{as_name};
ghost use Rattle.amqp_lookahead.specs.Sections.{LooksOn, sections, IsOfSection, IsNameAhead, IsLongNameAhead, IsLongCodeAhead, IsSectionAhead};

use crate::Input;
use crate::input::LOOK;
use crate::names::{Members, place_of_code, place_of_name};
use amqp_wire::{ByteSource, format_code, section_code};
use std::io::ErrorKind;

/// The sections by the codes and names of their descriptors, from the header on.
const SECTIONS: Members<'static> = &[
    (section_code::HEADER as u64, "amqp:header:list"),
    (
        section_code::DELIVERY_ANNOTATIONS as u64,
        "amqp:delivery-annotations:map",
    ),
    (
        section_code::MESSAGE_ANNOTATIONS as u64,
        "amqp:message-annotations:map",
    ),
    (section_code::PROPERTIES as u64, "amqp:properties:list"),
    (
        section_code::APPLICATION_PROPERTIES as u64,
        "amqp:application-properties:map",
    ),
    (section_code::DATA as u64, "amqp:data:binary"),
    (
        section_code::AMQP_SEQUENCE as u64,
        "amqp:amqp-sequence:list",
    ),
    (section_code::AMQP_VALUE as u64, "amqp:amqp-value:*"),
    (section_code::FOOTER as u64, "amqp:footer:map"),
];

/// Returns the members that a section may be.
fn section_members() -> Members<'static>
    ensures { map as_name result.now ≡ sections }
{
    SECTIONS
}

/// Returns the code of the section at a place.
fn section_at(place: Option<usize>) -> Option<u8>
    requires { IfSome place (λ i. i < 9) }
    ensures { result ≡ option_map (λ i. 0x70 + i) place }
{
    match place {
        Some(place) => Some(section_code::HEADER + place as u8),
        None => None,
    }
}

/// Returns the section with this code.
fn section_of_code(code: u64) -> Option<u8>
    ensures { (c : ℕ) → (result ≡ Some c) ↔ IsOfSection c (of_code code) }
{
    section_at(place_of_code(section_members(), code))
}

/// Returns the code of the section with this name.
fn section_of_name(name: &[u8]) -> Option<u8>
    ensures { (c : ℕ) → (result ≡ Some c) ↔ IsOfSection c (of_name name.now) }
{
    section_at(place_of_name(section_members(), name))
}

/// Returns the size of a text that these bytes are.
fn text_size(bytes: [u8; 4]) -> usize
    ensures fits { result < 256 ^ 4 }
    ensures value { bytes_high_first 4 result ≡ bytes }
{
    u32::from_be_bytes(bytes) as usize
}

impl<R: ByteSource> Input<R> {
    // The section that these bytes name: so many bytes, which begin so far after the next one.
    fn section_named(&mut self, start: usize, len: usize) -> Result<Option<u8>, ErrorKind>
        requires { start ≤ 64 }
        ensures ok { Tells R.remaining → IfOk result (λ section. LooksOn self.old self.new
            × ((c : ℕ) → (section ≡ Some c) ↔ IsNameAhead start len self.old.rest c)) }
        ensures fails { OnErr result (self.new.failed ≡ true) }
        ensures sound { IfOk result (λ _. self.new.failed ≡ self.old.failed) }
    {
        if len > LOOK - start {
            return Ok(None);
        }
        let mut next = [0; LOOK];
        let front = &mut next[..start + len];
        if self.peek(front)? < front.len() {
            return Ok(None);
        }
        Ok(section_of_name(&front[start..]))
    }

    // The section whose name comes next after a size of four bytes.
    fn section_of_symbol(&mut self) -> Result<Option<u8>, ErrorKind>
        ensures ok { Tells R.remaining → IfOk result (λ section. LooksOn self.old self.new
            × ((c : ℕ) → (section ≡ Some c) ↔ IsLongNameAhead self.old.rest c)) }
        ensures fails { OnErr result (self.new.failed ≡ true) }
        ensures sound { IfOk result (λ _. self.new.failed ≡ self.old.failed) }
    {
        let mut next = [0; 6];
        if self.peek(&mut next)? < 6 {
            return Ok(None);
        }
        let [_, _, a, b, c, d] = next;
        self.section_named(6, text_size([a, b, c, d]))
    }

    // The section whose code comes next as eight bytes.
    fn section_of_ulong(&mut self) -> Result<Option<u8>, ErrorKind>
        ensures ok { Tells R.remaining → IfOk result (λ section. LooksOn self.old self.new
            × ((c : ℕ) → (section ≡ Some c) ↔ IsLongCodeAhead self.old.rest c)) }
        ensures fails { OnErr result (self.new.failed ≡ true) }
        ensures sound { IfOk result (λ _. self.new.failed ≡ self.old.failed) }
    {
        let mut next = [0; 10];
        if self.peek(&mut next)? < 10 {
            return Ok(None);
        }
        let [_, _, a, b, c, d, e, f, g, h] = next;
        let code = u64::from_be_bytes([a, b, c, d, e, f, g, h]);
        Ok(section_of_code(code))
    }

    /// Returns the code of the section that comes next, if its whole descriptor, in any of its encodings, ends within 64 bytes; otherwise
    /// `None`. Nothing is taken, and at most 64 bytes are looked at. An error is the source's, which has failed.
    pub fn section_ahead(&mut self) -> Result<Option<u8>, ErrorKind>
        ensures ok { Tells R.remaining → IfOk result (λ section. LooksOn self.old self.new
            × ((c : ℕ) → (section ≡ Some c) ↔ IsSectionAhead self.old.rest c)) }
        ensures fails { OnErr result (self.new.failed ≡ true) }
        ensures sound { IfOk result (λ _. self.new.failed ≡ self.old.failed) }
    {
        let mut next = [0; 3];
        if self.peek(&mut next)? < 3 {
            return Ok(None);
        }
        let [first, code, third] = next;
        if first != format_code::DESCRIBED {
            return Ok(None);
        }
        match code {
            format_code::SMALL_ULONG => Ok(section_of_code(u64::from(third))),
            format_code::ULONG => self.section_of_ulong(),
            format_code::SYMBOL_8 => self.section_named(3, usize::from(third)),
            format_code::SYMBOL_32 => self.section_of_symbol(),
            _ => Ok(None),
        }
    }
}
