//! A composite that isn't of the standard, with a field of several values before a mandatory one, and one after it.
ghost use Rattle.amqp_sums.specs.Types.{composite, fields_of, names_of, one_term, refl, agreement, writing_of};
ghost use Rattle.amqp_user_types.specs.Tables.{offer};

use amqp_codec::kernel::{Composite, FieldList, FieldRule, read_into, write_composite};
use amqp_codec::{ByteSource, Decoder, Encoder, Error, Pass, Serialize, SerializeTerm, Symbol};
use amqp_containers::Array;
use amqp_containers::multiple::{is_null_multiple, read_multiple, write_multiple};
use std::alloc::Global;

/// What a peer offers.
#[derive(Debug, PartialEq, Eq, Drop)]
pub struct Offer {
    /// What the peer is able to do, or nothing.
    pub capabilities: Option<Array<Symbol>>,
    /// The number of the offer.
    pub number: u32,
    /// Where it may be taken, or nowhere.
    pub ports: Option<Array<u16>>,
}

impl Offer {
    /// The code and the name of its descriptor.
    pub const DESCRIPTOR: (u64, &'static str) = (0x99, "test:offer:list");
}

impl FieldList for Offer {
    ghost list = { fields_of offer };

    fn field_rules() -> &'static [FieldRule] {
        &[
            FieldRule::Multiple,
            FieldRule::Mandatory,
            FieldRule::Multiple,
        ]
    }

    fn blank(_alloc: Global) -> Offer {
        Offer {
            capabilities: None,
            number: 0,
            ports: None,
        }
    }

    #[inline(always)]
    fn fill_field<R: ByteSource>(
        &mut self,
        index: usize,
        decoder: &mut Decoder<R>,
        alloc: Global,
    ) -> Result<(), Error> {
        match index {
            0 => read_multiple(&mut self.capabilities, decoder, alloc),
            1 => read_into(&mut self.number, decoder, alloc),
            2 => read_multiple(&mut self.ports, decoder, alloc),
            _ => unreachable!(),
        }
    }

    #[inline(always)]
    fn is_null_field(&self, index: usize) -> bool {
        match index {
            0 => is_null_multiple(&self.capabilities),
            1 => false,
            2 => is_null_multiple(&self.ports),
            _ => unreachable!(),
        }
    }

    #[inline(always)]
    fn write_field<P: Pass>(&self, index: usize, encoder: &mut Encoder<P>) -> Result<(), Error> {
        match index {
            0 => write_multiple(&self.capabilities, encoder),
            1 => self.number.serialize(encoder),
            2 => write_multiple(&self.ports, encoder),
            _ => unreachable!(),
        }
    }
}

impl Serialize for Offer {
    ghost writing = { writing_of (composite offer) refl };

    fn serialize<P: Pass>(&self, encoder: &mut Encoder<P>) -> Result<(), Error> {
        write_composite(self, Offer::DESCRIPTOR.0, encoder)
    }

    fn in_type(&self) {
        self.capabilities.in_type();
        self.number.in_type();
        self.ports.in_type();
    }
}

impl SerializeTerm for Offer {
    fn is_null(&self) -> bool {
        false
    }

    ghost is_term = { one_term (composite offer) refl };
}

impl Composite for Offer {
    ghost names = { names_of offer };

    fn descriptor() -> (u64, &'static str) {
        Offer::DESCRIPTOR
    }

    ghost agrees = { agreement (composite offer) refl };
}
