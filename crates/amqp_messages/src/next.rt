//! Which section of a message comes next (Part 3, section 3.2).
ghost use Rattle.std.specs.Prelude.{◌≡◌, ◌<◌, true, false, IfOk, IfSome, OnOk};
ghost use Rattle.amqp_wire.specs.Sources.{Tells};
ghost use Rattle.amqp_decoder.specs.Places.{AnswersAt};
ghost use Rattle.amqp_decoder.specs.Steps.{Began, Passes};
ghost use Rattle.amqp_messages.specs.Next.{FindsNext, NextFault};
ghost use Rattle.amqp_messages.specs.MessageKinds.{behind_section};
ghost use Rattle.amqp_messages.specs.Orders.{further, IsFull};

use crate::order::Order;
use amqp_batches::no_section;
use amqp_decoder::Decoder;
use amqp_wire::{ByteSource, Error, section_code};
use std::alloc::Global;

// How many kinds of sections come after that with this code in the standard's order.
fn behind(code: u8) -> u8
    ensures { result ≡ behind_section code }
{
    match code {
        section_code::HEADER => 6,
        section_code::DELIVERY_ANNOTATIONS => 5,
        section_code::MESSAGE_ANNOTATIONS => 4,
        section_code::PROPERTIES => 3,
        section_code::APPLICATION_PROPERTIES => 2,
        section_code::DATA | section_code::AMQP_SEQUENCE | section_code::AMQP_VALUE => 1,
        _ => 0,
    }
}

impl Order {
    // No further group is looked for.
    fn is_full(self, left: u8) -> bool
        ensures full { result ≡ true → IsFull self left }
        ensures open { result ≡ false → IsFull self left → ⊥ }
    {
        match self {
            Order::Any => left == 0,
            Order::Written => false,
        }
    }

    // How many groups may still follow one whose section has this code.
    pub(crate) fn further(self, left: u8, code: u8) -> u8
        ensures { result ≡ further self left (behind_section code) }
    {
        match self {
            Order::Any => left.saturating_sub(1),
            Order::Written => behind(code),
        }
    }
}

/// Returns the code of the section that comes next, if at most `left` groups may still come. It returns `None` if no section is looked for,
/// or at the end of the input. A section that may not come there is `Misplaced`. What isn't a section is `NotSection`, or the error of its
/// descriptor.
pub(crate) fn next_section<R: ByteSource>(
    order: Order,
    left: u8,
    decoder: &mut Decoder<R>,
    alloc: Global,
) -> Result<Option<u8>, Error>
    ensures read { Tells R.remaining → AnswersAt true (FindsNext order left) (NextFault order left) decoder.old result decoder.new }
    ensures tries { Passes true decoder.old result decoder.new }
    ensures began { OnOk result ((IsFull order left → ⊥) → Began decoder.old decoder.new) }
    ensures fewer { IfOk result (λ found. IfSome found (λ code. further order left (behind_section code) < left)) }
{
    let full = order.is_full(left);
    if full {
        return Ok(None);
    }
    let Some(code) = decoder.peek_section()? else {
        let ended = decoder.at_end()?;
        if ended {
            return Ok(None);
        }
        return Err(no_section(decoder, alloc));
    };
    if order.further(left, code) >= left {
        return Err(decoder.refuse(Error::Misplaced));
    }
    Ok(Some(code))
}
