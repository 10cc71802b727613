//! The constructor that the items of an array share (Part 1, sections 1.2.4 and 1.6.24).
ghost use Rattle.std.specs.Prelude.{true, ◌≤◌, ◌≡◌, ◌<◌, length, map, Some, None, IfOk, IfErr, MatchOption, ◌⊎◌, vec_len};
ghost use Rattle.amqp_wire.specs.declared.error.Error.TheVariants.{Memory};
ghost use Rattle.amqp_decoder.specs.Described.{IsUnmarked, IsMark};
ghost use Rattle.amqp_decoder.specs.State.{descriptor_of};
ghost use Rattle.amqp_decoder.specs.declared.frame.Place.TheVariants.{InArray};
ghost use Rattle.amqp_decoder.specs.Reading.{IsFirstShared};
ghost use Rattle.amqp_model.specs.Constructors.{format};
ghost use Rattle.amqp_decoder.specs.Arrays.{IsFlat};
ghost use Rattle.amqp_decoder.specs.Steps.{Answers, Goes};

use super::Decoder;
use crate::frame::{OpenContainer, Place};
use amqp_wire::{ByteSource, Descriptor, Error, format_code};

impl<R: ByteSource> Decoder<R> {
    // The first code of the constructor that the items share.
    #[inline(always)]
    pub(crate) fn shared_code(&self) -> Option<u8>
        ensures { MatchOption result (self.now.top.shared ≡ None) (λ c. IsFirstShared self.now.top.shared c) }
    {
        let OpenContainer {
            code,
            first,
            last,
            ..
        } = self.top;
        if code == 0 {
            None
        } else if first < last {
            Some(format_code::DESCRIBED)
        } else {
            Some(code)
        }
    }

    // The descriptor that the next value shares.
    pub(crate) fn shared_descriptor(&self) -> Option<&Descriptor>
        ensures { MatchOption result (IsUnmarked self.now.top.shared) (λ d. IsMark self.now.top.shared (descriptor_of d.now)) }
    {
        if self.top.code != 0 && self.top.first < self.top.last {
            self.descriptors.get(usize::from(self.top.first))
        } else {
            None
        }
    }

    // So many items are left in the open array, and share these descriptors and this code.
    pub(crate) fn share(
        &mut self,
        mut descriptors: Vec<Descriptor>,
        code: u8,
        count: u32,
    ) -> Result<(), Error>
        requires coded { 0 < code }
        requires few { vec_len descriptors ≤ 128 }
        requires room { IsFlat (map descriptor_of descriptors.items) (format code) ⊎ (length self.old.saved ≤ self.old.nesting) }
        ensures ok { IfOk result (λ _. self.new
            ≡ record self.old {
              top = record self.old.top { place = InArray; items = Some count; shared = Some (map descriptor_of descriptors.items, code) };
            }) }
        ensures err { IfErr result (λ e. (e ≡ Memory) × Answers self.old e self.new) }
        ensures goes { Goes true self.old result self.new }
    {
        let first = self.frames.descriptors_in(self.depth);
        let last = first + descriptors.len() as u16;
        self.top.place = Place::InArray;
        self.top.items = 0;
        self.top.last = first;
        self.descriptors.truncate(usize::from(first));
        if self.descriptors.append(&mut descriptors).is_err() {
            return Err(self.stop(Error::Memory));
        }
        self.top.items = count;
        self.top.code = code;
        self.top.first = first;
        self.top.last = last;
        Ok(())
    }

    // Drops the descriptors of arrays that have ended.
    pub(crate) fn drop_descriptors(&mut self)
        ensures { self.new ≡ self.old }
    {
        self.descriptors.truncate(usize::from(self.top.last));
    }
}
