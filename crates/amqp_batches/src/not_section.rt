//! What comes next if bytes are left and no section begins (Part 3, section 3.2).
ghost use Rattle.amqp_wire.specs.Sources.{Tells};
ghost use Rattle.amqp_decoder.specs.Places.{RefusesAt};
ghost use Rattle.amqp_decoder.specs.State.{State};
ghost use Rattle.amqp_decoder.specs.Steps.{Refused};
ghost use Rattle.std.specs.Prelude.{true};
ghost use Rattle.amqp_batches.specs.NoSections.{NoSection};

use amqp_decoder::Decoder;
use amqp_wire::{ByteSource, Error, format_code};
use std::alloc::Global;

/// Refuses what comes next because it isn't a section. The error is `NotSection` if it isn't described, or if its whole descriptor isn't a
/// section's. Otherwise it is the error of a descriptor that is cut or malformed. It allocates for the descriptor.
pub fn no_section<R: ByteSource>(decoder: &mut Decoder<R>, alloc: Global) -> Error
    ensures read { Tells R.remaining → RefusesAt true (λ st (none : Unit {0}) b. ⊥) NoSection decoder.old result decoder.new }
    ensures tries { Refused true decoder.old result decoder.new }
{
    let place = decoder.place();
    match decoder.peek_code() {
        Ok(format_code::DESCRIBED) => match decoder.begin_described(alloc) {
            Ok(_descriptor) => decoder.refuse_at(place, Error::NotSection),
            Err(error) => error,
        },
        Ok(_code) => decoder.refuse(Error::NotSection),
        Err(error) => error,
    }
}
