//! What begins weighs, if the caller limits that.
ghost use Rattle.std.specs.Prelude.{◌≡◌, ◌≤◌, ◌<◌, None, Some, IfOk, IfErr, false, true, ℕ};
ghost use Rattle.amqp_model.specs.Term.{Term};
ghost use Rattle.amqp_model.specs.Spelling.{IsSpelling};
ghost use Rattle.amqp_model.specs.Measures.{nest, share, weight};
ghost use Rattle.amqp_wire.specs.Limits.{unlimited};
ghost use Rattle.amqp_wire.specs.declared.error.Error.TheVariants.{Limit};
ghost use Rattle.amqp_decoder.specs.State.{refused_at, Has, lower, counted, counted_in, descriptor_of};
ghost use Rattle.amqp_decoder.specs.Steps.{Goes, GoesOn};

use super::Decoder;
use amqp_lengths::measures_of;
use amqp_wire::{ByteSource, Descriptor, Error, format_code};

/// How many bytes of a shared descriptor's name weigh one more.
const SHARE: usize = 32;

// What begins by a first code weighs one, unless a descriptor follows the code.
fn weight_of_code(code: u8) -> u64
    ensures { result ≡ counted code }
{
    if code == format_code::DESCRIBED || format_code::unknown(code).is_some() {
        0
    } else {
        1
    }
}

// What a descriptor weighs that the items of an array share.
fn weight_of_shared(descriptor: &Descriptor) -> u64
    ensures { result ≡ share (descriptor_of descriptor.now) }
{
    match descriptor {
        Descriptor::Name(name) => 1 + (name.as_str().len() / SHARE) as u64,
        Descriptor::Code(_) => 1,
    }
}

impl<R: ByteSource> Decoder<R> {
    // Whatever terms weigh, they may begin.
    #[inline(always)]
    fn is_unlimited(&self) -> bool
        ensures unlimited { result ≡ true → self.now.quota ≡ None }
        ensures limited { result ≡ false → (most : ℕ) × (most < unlimited) × (self.now.quota ≡ Some most) }
    {
        self.items == u64::MAX
    }

    // What begins by this first code weighs.
    #[inline]
    fn weight_begun(&self, code: u8) -> u64
        ensures { result ≡ counted_in self.now.top.shared code }
    {
        match self.shared_descriptor() {
            Some(descriptor) => weight_of_shared(descriptor),
            None => weight_of_code(code),
        }
    }

    // Less may begin.
    #[inline(always)]
    pub(super) fn passes_items(&self, count: u64) -> bool
        ensures past { result ≡ true → Has self.now.quota count → ⊥ }
        ensures within { result ≡ false → Has self.now.quota count }
        ensures limited { result ≡ true → self.now.failed.free ≡ false }
    {
        count > self.items
    }

    // What begins weighs so much.
    #[inline]
    fn lower_items(&mut self, count: u64)
        requires { Has self.old.quota count }
        ensures new { self.new ≡ record self.old { quota = lower self.old.quota count } }
        ensures goes { GoesOn self.old self.new }
    {
        if self.items != u64::MAX {
            self.items -= count;
        }
    }

    // What begins weighs so much, if it may begin.
    fn count_weight(&mut self, count: u64) -> Result<(), Error>
        ensures ok { IfOk result (λ _. Has self.old.quota count × (self.new ≡ record self.old { quota = lower self.old.quota count })) }
        ensures err { IfErr result (λ e. (Has self.old.quota count → ⊥) × (e ≡ Limit) × (self.new ≡ refused_at Limit self.new.source.fault self.old)) }
        ensures goes { Goes false self.old result self.new }
    {
        if self.passes_items(count) {
            return Err(self.stop(Error::Limit));
        }
        self.lower_items(count);
        Ok(())
    }

    // The same of what begins there.
    fn count_weight_from(&mut self, start: u64, count: u64) -> Result<(), Error>
        ensures ok { IfOk result (λ _. Has self.old.quota count × (self.new ≡ record self.old { quota = lower self.old.quota count })) }
        ensures err { IfErr result (λ e. (Has self.old.quota count → ⊥) × (e ≡ Limit) × (self.new ≡ refused_at Limit self.new.source.fault self.old)) }
        ensures goes { Goes false self.old result self.new }
        ensures place { IfErr result (λ _. self.new.source.fault ≡ start) }
    {
        let counted = self.count_weight(count);
        self.placed(start, counted)
    }

    // The code, if a value may begin by it.
    #[inline(always)]
    pub(super) fn check_count(&mut self, code: u8) -> Result<u8, Error>
        ensures ok { IfOk result (λ c. (c ≡ code) × Has self.old.quota (counted_in self.old.top.shared code) × (self.new ≡ self.old)) }
        ensures err { IfErr result (λ e. (Has self.old.quota (counted_in self.old.top.shared code) → ⊥) × (e ≡ Limit)
            × (self.new ≡ refused_at Limit self.new.source.fault self.old)) }
        ensures goes { Goes false self.old result self.new }
    {
        if !self.is_unlimited() && self.passes_items(self.weight_begun(code)) {
            return Err(self.stop(Error::Limit));
        }
        Ok(code)
    }

    // A value begins by this code.
    #[inline(always)]
    pub(super) fn count(&mut self, code: u8) -> Result<(), Error>
        ensures ok { IfOk result (λ _. Has self.old.quota (counted_in self.old.top.shared code)
            × (self.new ≡ record self.old { quota = lower self.old.quota (counted_in self.old.top.shared code) })) }
        ensures err { IfErr result (λ e. (Has self.old.quota (counted_in self.old.top.shared code) → ⊥) × (e ≡ Limit)
            × (self.new ≡ refused_at Limit self.new.source.fault self.old)) }
        ensures goes { Goes false self.old result self.new }
    {
        if self.is_unlimited() {
            return Ok(());
        }
        let weight = self.weight_begun(code);
        self.count_weight(weight)
    }

    // A value that shares no descriptor begins by this code, if one may.
    #[inline(always)]
    pub(super) fn count_begun(&mut self, code: u8)
        requires { Has self.old.quota 1 }
        ensures new { self.new ≡ record self.old { quota = lower self.old.quota (counted code) } }
        ensures goes { GoesOn self.old self.new }
    {
        if !self.is_unlimited() {
            self.lower_items(weight_of_code(code));
        }
    }

    // A term of its own constructor begins there.
    pub(crate) fn count_term(&mut self, start: u64, bytes: &[u8]) -> Result<(), Error>
        ensures ok { (t : Term) → IsSpelling bytes.now t → nest t ≤ 128 → IfOk result (λ _. Has self.old.quota (weight t false)
            × (self.new ≡ record self.old { quota = lower self.old.quota (weight t false) })) }
        ensures err { (t : Term) → IsSpelling bytes.now t → nest t ≤ 128 → IfErr result (λ e. (Has self.old.quota (weight t false) → ⊥)
            × (e ≡ Limit)
            × (self.new ≡ refused_at Limit self.new.source.fault self.old)) }
        ensures goes { Goes false self.old result self.new }
        ensures place { IfErr result (λ _. self.new.source.fault ≡ start) }
    {
        if self.is_unlimited() {
            return Ok(());
        }
        match measures_of(bytes) {
            Some(measures) => self.count_weight_from(start, measures.weight),
            None => Ok(()),
        }
    }
}
