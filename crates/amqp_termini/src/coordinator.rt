//! Coordinators of transactions (Part 4, section 4.5.1).
ghost use Rattle.std.specs.Prelude.{◌≡◌, None};
ghost use Rattle.amqp_sums.specs.Types.{composite, fields_of, names_of, one_term, refl, agreement, writing_of};
ghost use Rattle.amqp_termini.specs.Tables.{coordinator};

use amqp_codec::kernel::{Composite, FieldList, FieldRule, write_composite};
use amqp_codec::{ByteSource, Decoder, Encoder, Error, Pass, Serialize, SerializeTerm, fields};
use amqp_containers::Array;
use amqp_containers::multiple::{is_null_multiple, read_multiple, write_multiple};
use amqp_restricted_types::TxnCapability;
use std::alloc::Global;

/// The target of a link over which transactions are declared and discharged.
#[derive(Clone, Debug, PartialEq, Eq, Drop)]
pub struct Coordinator {
    /// What the coordinator can do.
    pub capabilities: Option<Array<TxnCapability>>,
}

// The fields, in order.
macro_rules! coordinator_fields {
    ($($part:tt)*) => {
        fields! { [$($part)*]
            0 capabilities "capabilities" multiple,
        }
    };
}

impl Coordinator {
    /// The code and the name of its descriptor.
    pub const DESCRIPTOR: (u64, &'static str) = (0x30, "amqp:coordinator:list");

    /// The standard's names of the fields, in order.
    pub const FIELD_NAMES: &'static [&'static str] = coordinator_fields!(names);

    /// Returns a coordinator with these capabilities.
    pub fn new(capabilities: Option<Array<TxnCapability>>) -> Coordinator
        ensures { result.capabilities ≡ capabilities }
    {
        Coordinator { capabilities }
    }
}

/// By default it has no capabilities.
impl Default for Coordinator {
    ghost is_default = { λ coordinator. coordinator.capabilities ≡ None };

    fn default() -> Coordinator {
        Coordinator::new(None)
    }
}

impl FieldList for Coordinator {
    ghost list = { fields_of coordinator };

    fn field_rules() -> &'static [FieldRule] {
        coordinator_fields!(rules)
    }

    fn blank(_alloc: Global) -> Coordinator {
        Coordinator { capabilities: None }
    }

    #[inline(always)]
    fn fill_field<R: ByteSource>(
        &mut self,
        index: usize,
        decoder: &mut Decoder<R>,
        alloc: Global,
    ) -> Result<(), Error> {
        coordinator_fields!(fill(self, index, decoder, alloc))
    }

    #[inline(always)]
    fn is_null_field(&self, index: usize) -> bool {
        coordinator_fields!(is_null(self, index))
    }

    #[inline(always)]
    fn write_field<P: Pass>(&self, index: usize, encoder: &mut Encoder<P>) -> Result<(), Error> {
        coordinator_fields!(write(self, index, encoder))
    }
}

impl Serialize for Coordinator {
    ghost writing = { writing_of (composite coordinator) refl };

    fn serialize<P: Pass>(&self, encoder: &mut Encoder<P>) -> Result<(), Error> {
        write_composite(self, Coordinator::DESCRIPTOR.0, encoder)
    }

    fn in_type(&self) {
        coordinator_fields!(in_type(self));
    }
}

impl SerializeTerm for Coordinator {
    fn is_null(&self) -> bool {
        false
    }

    ghost is_term = { one_term (composite coordinator) refl };
}

impl Composite for Coordinator {
    ghost names = { names_of coordinator };

    fn descriptor() -> (u64, &'static str) {
        Coordinator::DESCRIPTOR
    }

    ghost agrees = { agreement (composite coordinator) refl };
}
