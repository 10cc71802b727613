//! A key of a user's own: the number of a port, which is written as a uint.
ghost use Rattle.std.specs.Prelude.{refl};
ghost use Rattle.std.specs.Cmp.{unsigned_Decides};
ghost use Rattle.amqp_codec.specs.Agreement.{one_term, agreement, writing_of};
ghost use Rattle.amqp_codec.specs.laws.Key.{key_of};
ghost use Rattle.amqp_user_types.specs.PortType.{port_type};

use amqp_codec::{
    ByteSource, Decoder, DeserializeTerm, Encoder, Error, MapKey, Pass, Serialize, SerializeTerm,
};
use std::alloc::Global;

/// The number of a port.
#[derive(Debug, PartialEq, Eq, Hash, Drop)]
pub struct Port(pub u32);

impl Serialize for Port {
    ghost writing = { writing_of port_type refl };

    fn serialize<P: Pass>(&self, encoder: &mut Encoder<P>) -> Result<(), Error> {
        encoder.write_uint(self.0)
    }

    fn in_type(&self) {
        let _number = self.0;
    }
}

impl SerializeTerm for Port {
    fn is_null(&self) -> bool {
        false
    }

    ghost is_term = { one_term port_type refl };
}

impl DeserializeTerm for Port {
    ghost term = { port_type };

    fn read_value<R: ByteSource>(decoder: &mut Decoder<R>, _alloc: Global) -> Result<Port, Error> {
        Ok(Port(decoder.read_uint()?))
    }

    ghost agreement = { agreement port_type refl };
}

impl MapKey for Port {
    ghost is_key = { key_of refl (λ p q. unsigned_Decides p.0 q.0) };
}
