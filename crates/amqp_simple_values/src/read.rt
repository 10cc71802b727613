//! How simple values are read: as values of any kind are, except lists, maps and arrays.
ghost use Rattle.std.specs.Prelude.{◌≡◌, Some};
ghost use Rattle.amqp_simple_values.specs.declared.simple.SimpleValue.TheVariants.{Null};
ghost use Rattle.amqp_simple_values.specs.Simple.{is_container};
ghost use Rattle.amqp_simple_values.specs.SimpleType.{simple_type, simple_agreement};

use crate::SimpleValue;
use amqp_codec::DeserializeTerm;
use amqp_decoder::Decoder;
use amqp_kinds::{Kind, kind_of};
use amqp_values::Value;
use amqp_wire::{ByteSource, Error};
use std::alloc::Global;

// Whether values of the kind are lists, maps or arrays.
fn is_container(kind: Kind) -> bool
    ensures { result ≡ is_container kind }
{
    matches!(kind, Kind::List | Kind::Map | Kind::Array)
}

impl DeserializeTerm for SimpleValue {
    ghost term = { simple_type };

    ghost meant_by_null = { Some Null };

    fn read_value<R: ByteSource>(
        decoder: &mut Decoder<R>,
        alloc: Global,
    ) -> Result<SimpleValue, Error> {
        let code = decoder.peek_code()?;
        if is_container(kind_of(code)) {
            return Err(decoder.refuse(Error::InvalidValue));
        }
        let place = decoder.place();
        let value = Value::read_value(decoder, alloc)?;
        match SimpleValue::try_from(value) {
            Ok(simple) => Ok(simple),
            Err(error) => Err(decoder.refuse_at(place, error)),
        }
    }

    ghost agreement = { simple_agreement };
}
