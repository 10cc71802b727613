//! A change of the state of deliveries (Part 2, section 2.7.6).
ghost use Rattle.std.specs.Prelude.{◌≡◌};
ghost use Rattle.amqp_codec.specs.FieldReading.{IsBlank};
ghost use Rattle.amqp_sums.specs.Types.{composite, fields_of, names_of, one_term, refl, agreement, writing_of};
ghost use Rattle.amqp_performatives.specs.Tables.{disposition};

use amqp_codec::kernel::{Composite, FieldList, FieldRule, write_composite};
use amqp_codec::{ByteSource, Decoder, Encoder, Error, Pass, Serialize, SerializeTerm, fields};
use amqp_delivery::DeliveryState;
use amqp_restricted_types::{DeliveryNumber, Role};
use std::alloc::Global;

/// The state of a row of deliveries, and whether they are settled.
#[derive(Clone, Debug, PartialEq, Eq, Drop)]
pub struct Disposition {
    /// Which ends of the links this is about: the sending ones, or the receiving ones.
    pub role: Role,
    /// The first delivery.
    pub first: DeliveryNumber,
    /// The last delivery. If it is omitted, it is the first.
    pub last: Option<DeliveryNumber>,
    /// Whether the deliveries are settled at the end that sends this.
    pub settled: bool,
    /// The state of the deliveries.
    pub state: Option<DeliveryState>,
    /// Whether the peer need not soon report a change of the deliveries' state.
    pub batchable: bool,
}

// The fields, in order.
macro_rules! disposition_fields {
    ($($part:tt)*) => {
        fields! { [$($part)*]
            0 role "role" mandatory,
            1 first "first" mandatory,
            2 last "last" optional,
            3 settled "settled" default(false),
            4 state "state" optional,
            5 batchable "batchable" default(false),
        }
    };
}

impl Disposition {
    /// The code and the name of its descriptor.
    pub const DESCRIPTOR: (u64, &'static str) = (0x15, "amqp:disposition:list");

    /// The standard's names of the fields, in order.
    pub const FIELD_NAMES: &'static [&'static str] = disposition_fields!(names);

    /// Returns a disposition of the delivery with this number, by the end of the link with this role. Each other field is omitted, or has the
    /// standard's default.
    #[inline(always)]
    pub fn new(role: Role, first: DeliveryNumber) -> Disposition
        ensures role { result.role ≡ role }
        ensures first { result.first ≡ first }
        ensures others { IsBlank disposition.fields result }
    {
        Disposition {
            role,
            first,
            last: None,
            settled: false,
            state: None,
            batchable: false,
        }
    }
}

impl FieldList for Disposition {
    ghost list = { fields_of disposition };

    fn field_rules() -> &'static [FieldRule] {
        disposition_fields!(rules)
    }

    fn blank(_alloc: Global) -> Disposition {
        Disposition::new(Role::Sender, 0)
    }

    #[inline(always)]
    fn fill_field<R: ByteSource>(
        &mut self,
        index: usize,
        decoder: &mut Decoder<R>,
        alloc: Global,
    ) -> Result<(), Error> {
        disposition_fields!(fill(self, index, decoder, alloc))
    }

    #[inline(always)]
    fn is_null_field(&self, index: usize) -> bool {
        disposition_fields!(is_null(self, index))
    }

    #[inline(always)]
    fn write_field<P: Pass>(&self, index: usize, encoder: &mut Encoder<P>) -> Result<(), Error> {
        disposition_fields!(write(self, index, encoder))
    }
}

impl Serialize for Disposition {
    ghost writing = { writing_of (composite disposition) refl };

    fn serialize<P: Pass>(&self, encoder: &mut Encoder<P>) -> Result<(), Error> {
        write_composite(self, Disposition::DESCRIPTOR.0, encoder)
    }

    fn in_type(&self) {
        disposition_fields!(in_type(self));
    }
}

impl SerializeTerm for Disposition {
    fn is_null(&self) -> bool {
        false
    }

    ghost is_term = { one_term (composite disposition) refl };
}

impl Composite for Disposition {
    ghost names = { names_of disposition };

    fn descriptor() -> (u64, &'static str) {
        Disposition::DESCRIPTOR
    }

    ghost agrees = { agreement (composite disposition) refl };
}
