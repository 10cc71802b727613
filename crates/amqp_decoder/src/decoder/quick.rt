//! The quick way to a value whose bytes are all at hand, as they are in a slice.
ghost use Rattle.std.specs.Prelude.{◌≡◌, ◌<◌, ◌-◌, ◌∷◌, length, drop, true, None, IfSome, MatchOption};
ghost use Rattle.amqp_wire.specs.Sources.{Tells};
ghost use Rattle.amqp_decoder.specs.State.{after_look, Has};
ghost use Rattle.amqp_decoder.specs.Reading.{ReadsCode};
ghost use Rattle.amqp_decoder.specs.Primitives.{ReadsFixed};
ghost use Rattle.amqp_decoder.specs.Quick.{IsPlain, IsElement};
ghost use Rattle.amqp_decoder.specs.Reserve.{Shows};
ghost use Rattle.amqp_decoder.specs.Steps.{Began, GoesOn};

use super::Decoder;
use amqp_wire::ByteSource;

impl<R: ByteSource> Decoder<R> {
    // Nothing was refused, a value is left, and one more may begin.
    #[inline(always)]
    fn may_begin(&self) -> bool
        ensures going { result ≡ true → self.now.error ≡ None }
        ensures item { result ≡ true → Has self.now.top.items 1 }
        ensures few { result ≡ true → Has self.now.quota 1 }
    {
        self.check().is_ok() && !self.is_done() && !self.passes_items(1)
    }

    // Nothing was refused, a value is left that shares no constructor, and one more may begin.
    #[inline(always)]
    pub(super) fn is_plain(&self) -> bool
        ensures { result ≡ true → IsPlain self.now }
    {
        // In an array nothing is plain, so that comes first.
        self.shared_code().is_none() && self.may_begin()
    }

    // The next byte, which isn't taken, if it is at hand.
    #[inline(always)]
    pub(super) fn look_at_hand(&mut self) -> Option<u8>
        requires { Tells R.remaining → Shows R.reserve 1 self.old }
        ensures next { MatchOption result (self.new ≡ self.old)
            (λ b. (self.old.rest ≡ b ∷ drop 1 self.old.rest) × (self.new ≡ after_look 1 self.old)) }
        ensures goes { GoesOn self.old self.new }
    {
        self.input.look_at_hand()
    }

    // The next value's first code, which isn't taken, if the value is plain and the code is at hand. `None` says nothing about the value.
    #[inline(always)]
    pub(crate) fn plain_code(&self) -> Option<u8>
        ensures plain { IfSome result (λ _. IsPlain self.now) }
        ensures next { IfSome result (λ code. self.now.rest ≡ code ∷ drop 1 self.now.rest) }
    {
        if !self.is_plain() {
            return None;
        }
        self.input.next_at_hand()
    }

    // The next value's first code, which is taken, if it is at hand. Else nothing is taken, and that says nothing about the value.
    #[inline(always)]
    pub(super) fn quick_code(&mut self) -> Option<u8>
        ensures none { result ≡ None → self.new ≡ self.old }
        ensures read { IfSome result (λ code. Tells R.remaining → ReadsCode self.old code self.new) }
        ensures began { IfSome result (λ _. Began self.old self.new) }
    {
        if !self.is_plain() || !self.has_left(1) {
            return None;
        }
        let mut code = [0];
        if !self.take_ready(&mut code) {
            return None;
        }
        self.take_item();
        self.count_begun(code[0]);
        Some(code[0])
    }

    // The N bytes of a value, the first of which is this code, if they are at hand. Else nothing is taken, and that says nothing about the
    // value.
    #[inline(always)]
    pub(crate) fn quick<const N: usize>(&mut self, code: u8) -> Option<[u8; N]>
        requires some { 0 < N }
        requires few { N < 256 }
        ensures none { result ≡ None → self.new ≡ self.old }
        ensures read { IfSome result (λ bytes. Tells R.remaining → ReadsFixed code (N - 1) self.old (drop 1 bytes) self.new) }
        ensures levels { IfSome result (λ _. self.new.nesting - length self.new.saved ≡ self.old.nesting - length self.old.saved) }
        ensures began { IfSome result (λ _. Began self.old self.new) }
    {
        match self.plain_code() {
            Some(next) if next == code => self.take_plain(code),
            _ => None,
        }
    }

    // The N bytes of a plain value, whose first code is this one and was seen, if they are at hand. Else nothing is taken, and that says
    // nothing about the value.
    #[inline(always)]
    pub(crate) fn take_plain<const N: usize>(&mut self, code: u8) -> Option<[u8; N]>
        requires some { 0 < N }
        requires few { N < 256 }
        requires plain { IsPlain self.old }
        requires next { self.old.rest ≡ code ∷ drop 1 self.old.rest }
        ensures none { result ≡ None → self.new ≡ self.old }
        ensures read { IfSome result (λ bytes. Tells R.remaining → ReadsFixed code (N - 1) self.old (drop 1 bytes) self.new) }
        ensures levels { IfSome result (λ _. self.new.nesting - length self.new.saved ≡ self.old.nesting - length self.old.saved) }
        ensures began { IfSome result (λ _. Began self.old self.new) }
    {
        if !self.has_left(N as u32) {
            return None;
        }
        let mut bytes = [0; N];
        if !self.take_ready(&mut bytes) {
            return None;
        }
        self.take_item();
        self.count_begun(code);
        Some(bytes)
    }

    // An item is left in an array whose items have this code and no descriptor, nothing was refused, and one more may begin.
    #[inline(always)]
    fn is_element(&self, code: u8) -> bool
        requires { 0 < code }
        ensures { result ≡ true → IsElement code self.now }
    {
        match self.shared_code() {
            Some(shared) => shared == code && self.may_begin(),
            None => false,
        }
    }

    // The N bytes of an array's item, whose code is this one, if they are at hand. Else nothing is taken, and that says nothing about the
    // value.
    #[inline(always)]
    pub(crate) fn element<const N: usize>(&mut self, code: u8) -> Option<[u8; N]>
        requires some { 0 < code }
        requires few { N < 256 }
        ensures none { result ≡ None → self.new ≡ self.old }
        ensures read { IfSome result (λ bytes. Tells R.remaining → ReadsFixed code N self.old bytes self.new) }
        ensures began { IfSome result (λ _. Began self.old self.new) }
    {
        if !self.is_element(code) || !self.has_left(N as u32) {
            return None;
        }
        let mut bytes = [0; N];
        if !self.take_ready(&mut bytes) {
            return None;
        }
        self.take_item();
        self.count_begun(code);
        Some(bytes)
    }
}
