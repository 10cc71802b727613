//! What a filling pass writes into.
ghost use Rattle.std.specs.Prelude.{◌≡◌, ◌<◌, ◌≤◌, ◌+◌, ◌^◌, ◌++◌, [], length, take, replicate};
ghost use Rattle.std.specs.Vec.{vec_capacity, vec_len};

use amqp_wire::format_code;
use std::mem::{forget, replace};

/// What a filling pass writes into: bytes, and room for more behind them, which never grows. It is a `Vec<u8>`, whose spare capacity is
/// filled, or a `SliceRoom` over memory of the caller.
pub trait Room: Sized + Drop {
    ghost use Rattle.std.specs.Prelude.{ℕ, List};

    // The bytes so far.
    ghost bytes: { Self → List ℕ };

    // How many it can hold.
    ghost holds: { Self → ℕ };

    // The name of the loan of the caller's memory, or 0 if the memory is its own.
    ghost loan: { Self → ℕ };

    /// Returns how many bytes there are.
    fn len(&self) -> usize
        ensures len { result ≡ length (bytes self.now) }
        ensures small { result < 2 ^ 63 };

    /// Pushes the bytes of two short slices, each by itself.
    fn push_each(&mut self, head: &[u8], body: &[u8])
        requires { length (bytes self.old) + (length head.now + length body.now) ≤ holds self.old }
        ensures bytes { bytes self.new ≡ bytes self.old ++ (head.now ++ body.now) }
        ensures holds { holds self.old ≤ holds self.new }
        ensures loan { loan self.new ≡ loan self.old };

    /// Pushes each byte of a short slice, and then a slice by one copy.
    fn push_copied(&mut self, head: &[u8], body: &[u8])
        requires { length (bytes self.old) + (length head.now + length body.now) ≤ holds self.old }
        ensures bytes { bytes self.new ≡ bytes self.old ++ (head.now ++ body.now) }
        ensures holds { holds self.old ≤ holds self.new }
        ensures loan { loan self.new ≡ loan self.old };

    /// Pushes so many nulls.
    fn push_nulls(&mut self, count: usize)
        requires { length (bytes self.old) + count ≤ holds self.old }
        ensures bytes { bytes self.new ≡ bytes self.old ++ replicate count 0x40 }
        ensures holds { holds self.old ≤ holds self.new }
        ensures loan { loan self.new ≡ loan self.old };
}

impl Room for Vec<u8> {
    ghost bytes = { λ v. v.items };

    ghost holds = { λ v. vec_capacity v };

    ghost loan = { λ v. 0 };

    #[inline(always)]
    fn len(&self) -> usize {
        Vec::len(self)
    }

    #[inline(always)]
    fn push_each(&mut self, head: &[u8], body: &[u8]) {
        let mut out = taken(self);
        extend_each(&mut out, head);
        extend_each(&mut out, body);
        put_back(self, out);
    }

    #[inline(always)]
    fn push_copied(&mut self, head: &[u8], body: &[u8]) {
        extend_each(self, head);
        if self.extend_from_slice(body).is_err() {
            unreachable!();
        }
    }

    #[inline(always)]
    fn push_nulls(&mut self, count: usize) {
        let mut out = taken(self);
        extend_nulls(&mut out, count);
        put_back(self, out);
    }
}

// Takes the buffer out of its place for a few writes, so that no byte that is written can be a part of the encoder.
#[inline(always)]
fn taken(place: &mut Vec<u8>) -> Vec<u8>
    ensures items { result.items ≡ place.old.items }
    ensures capacity { vec_capacity result ≡ vec_capacity place.old }
    ensures empty { place.new.items ≡ [] }
{
    let empty = Vec::new(*place.allocator());
    replace(place, empty)
}

// Puts it back into its place, which is empty, so that nothing is freed there.
#[inline(always)]
fn put_back(place: &mut Vec<u8>, out: Vec<u8>)
    ensures items { place.new.items ≡ out.items }
    ensures capacity { vec_capacity place.new ≡ vec_capacity out }
{
    forget(replace(place, out));
}

// So many nulls, for which there is room.
#[inline(always)]
fn extend_nulls(out: &mut Vec<u8>, count: usize)
    requires { vec_len out.old + count ≤ vec_capacity out.old }
    ensures items { out.new.items ≡ out.old.items ++ replicate count 0x40 }
    ensures capacity { vec_capacity out.new ≡ vec_capacity out.old }
{
    for _ in 0..count {
        out.push_reserved(format_code::NULL);
    }
}

// Bytes for which there is room. One by one is faster than a call that copies a few.
#[inline(always)]
fn extend_each(out: &mut Vec<u8>, bytes: &[u8])
    requires { vec_len out.old + length bytes.now ≤ vec_capacity out.old }
    ensures items { out.new.items ≡ out.old.items ++ bytes.now }
    ensures capacity { vec_capacity out.new ≡ vec_capacity out.old }
{
    for byte in bytes {
        out.push_reserved(*byte);
    }
}

/// Memory of the caller, whose first bytes are filled.
#[derive(Drop)]
pub struct SliceRoom<'a> {
    memory: &'a mut [u8],
    len: usize,
    ghost fits: { len ≤ length memory.now },
}

impl<'a> SliceRoom<'a> {
    /// Returns room for as many bytes as the slice has. There is none in it yet.
    pub fn new(memory: &'a mut [u8]) -> SliceRoom<'a>
        ensures empty { result.len ≡ 0 }
        ensures memory { result.memory.now ≡ memory.old }
        ensures same_reference { result.memory.ghost_name ≡ memory.entry.ghost_name }
    {
        SliceRoom { memory, len: 0 }
    }

    /// Takes the room out, for `put_back`, and leaves room for no byte.
    pub fn take(&mut self) -> SliceRoom<'a>
        ensures len { result.len ≡ self.old.len }
        ensures memory { result.memory.now ≡ self.old.memory.now }
        ensures same_reference { result.memory.ghost_name ≡ self.old.memory.ghost_name }
    {
        let len = self.len;
        self.len = 0;
        SliceRoom {
            memory: std::mem::take(&mut self.memory),
            len,
        }
    }

    /// Puts room in the place of this one.
    pub fn put_back(&mut self, room: SliceRoom<'a>)
        ensures len { self.new.len ≡ room.entry.len }
        ensures memory { self.new.memory.now ≡ room.entry.memory.now }
        ensures same_reference { self.new.memory.ghost_name ≡ room.entry.memory.ghost_name }
    {
        let SliceRoom { memory, len } = room;
        self.memory = memory;
        self.len = len;
    }
}

impl<'a> Room for SliceRoom<'a> {
    ghost bytes = { λ s. take s.len s.memory.now };

    ghost holds = { λ s. length s.memory.now };

    ghost loan = { λ s. s.memory.ghost_name };

    #[inline(always)]
    fn len(&self) -> usize {
        self.len
    }

    #[inline(always)]
    fn push_each(&mut self, head: &[u8], body: &[u8]) {
        let len = write_each(self.memory, self.len, head);
        self.len = write_each(self.memory, len, body);
    }

    #[inline(always)]
    fn push_copied(&mut self, head: &[u8], body: &[u8]) {
        let len = write_each(self.memory, self.len, head);
        self.len = write_copied(self.memory, len, body);
    }

    #[inline(always)]
    fn push_nulls(&mut self, count: usize) {
        self.len = write_nulls(self.memory, self.len, count);
    }
}

// Writes the bytes from this place on, and returns the place behind them.
#[inline(always)]
fn write_each(memory: &mut [u8], start: usize, bytes: &[u8]) -> usize
    requires { start + length bytes.now ≤ length memory.old }
    ensures bytes { take result memory.new ≡ take start memory.old ++ bytes.now }
    ensures behind { result ≡ start + length bytes.now }
{
    let mut place = start;
    for byte in bytes {
        memory[place] = *byte;
        place += 1;
    }
    place
}

// The same by one copy.
#[inline(always)]
fn write_copied(memory: &mut [u8], start: usize, bytes: &[u8]) -> usize
    requires { start + length bytes.now ≤ length memory.old }
    ensures bytes { take result memory.new ≡ take start memory.old ++ bytes.now }
    ensures behind { result ≡ start + length bytes.now }
{
    let behind = start + bytes.len();
    memory[start..behind].copy_from_slice(bytes);
    behind
}

// The same of so many nulls.
#[inline(always)]
fn write_nulls(memory: &mut [u8], start: usize, count: usize) -> usize
    requires { start + count ≤ length memory.old }
    ensures bytes { take result memory.new ≡ take start memory.old ++ replicate count 0x40 }
    ensures behind { result ≡ start + count }
{
    let behind = start + count;
    memory[start..behind].fill(format_code::NULL);
    behind
}
