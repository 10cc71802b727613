//! Targets (Part 3, section 3.5.4).
ghost use Rattle.std.specs.Prelude.{◌≡◌};
ghost use Rattle.amqp_sums.specs.Types.{composite, fields_of, names_of, one_term, refl, agreement, writing_of};
ghost use Rattle.amqp_termini.specs.Made.{default_target, target_at};
ghost use Rattle.amqp_termini.specs.Tables.{target};

use crate::{Address, NodeProperties, TargetBuilder};
use amqp_codec::kernel::{Composite, FieldList, FieldRule, write_composite};
use amqp_codec::{
    ByteSource, Decoder, Encoder, Error, Pass, Serialize, SerializeTerm, Symbol, fields,
};
use amqp_containers::Array;
use amqp_containers::multiple::{is_null_multiple, read_multiple, write_multiple};
use amqp_restricted_types::{Seconds, TerminusDurability, TerminusExpiryPolicy};
use std::alloc::Global;

/// Where the messages of a link go to.
#[derive(Clone, Debug, PartialEq, Eq, Drop)]
pub struct Target {
    /// The address of the node, if there is one.
    pub address: Option<Address>,
    /// Which part of its state is kept durably.
    pub durable: TerminusDurability,
    /// When it begins to expire.
    pub expiry_policy: TerminusExpiryPolicy,
    /// How long it is kept after that, in seconds.
    pub timeout: Seconds,
    /// Whether the peer is to make a node for it.
    pub dynamic: bool,
    /// The properties of the node that is made.
    pub dynamic_node_properties: Option<NodeProperties>,
    /// What else the target can do.
    pub capabilities: Option<Array<Symbol>>,
}

// The fields, in order.
macro_rules! target_fields {
    ($($part:tt)*) => {
        fields! { [$($part)*]
            0 address "address" optional,
            1 durable "durable" default(TerminusDurability::None),
            2 expiry_policy "expiry-policy" default(TerminusExpiryPolicy::SessionEnd),
            3 timeout "timeout" default(0),
            4 dynamic "dynamic" default(false),
            5 dynamic_node_properties "dynamic-node-properties" optional,
            6 capabilities "capabilities" multiple,
        }
    };
}

impl Target {
    /// The code and the name of its descriptor.
    pub const DESCRIPTOR: (u64, &'static str) = (0x29, "amqp:target:list");

    /// The standard's names of the fields, in order.
    pub const FIELD_NAMES: &'static [&'static str] = target_fields!(names);

    /// Returns a builder of a target, in which every field is omitted.
    pub fn builder() -> TargetBuilder
        ensures { result.target ≡ default_target }
    {
        TargetBuilder::new()
    }
}

/// By default every field is omitted.
impl Default for Target {
    ghost is_default = { λ target. target ≡ default_target };

    fn default() -> Target {
        Target {
            address: None,
            durable: TerminusDurability::None,
            expiry_policy: TerminusExpiryPolicy::SessionEnd,
            timeout: 0,
            dynamic: false,
            dynamic_node_properties: None,
            capabilities: None,
        }
    }
}

/// Makes the target with this address.
impl From<String> for Target {
    ghost from_gives = { λ address target. target ≡ target_at address };

    fn from(address: String) -> Target {
        Target {
            address: Some(address),
            ..Target::default()
        }
    }
}

impl FieldList for Target {
    ghost list = { fields_of target };

    fn field_rules() -> &'static [FieldRule] {
        target_fields!(rules)
    }

    fn blank(_alloc: Global) -> Target {
        Target::default()
    }

    #[inline(always)]
    fn fill_field<R: ByteSource>(
        &mut self,
        index: usize,
        decoder: &mut Decoder<R>,
        alloc: Global,
    ) -> Result<(), Error> {
        target_fields!(fill(self, index, decoder, alloc))
    }

    #[inline(always)]
    fn is_null_field(&self, index: usize) -> bool {
        target_fields!(is_null(self, index))
    }

    #[inline(always)]
    fn write_field<P: Pass>(&self, index: usize, encoder: &mut Encoder<P>) -> Result<(), Error> {
        target_fields!(write(self, index, encoder))
    }
}

impl Serialize for Target {
    ghost writing = { writing_of (composite target) refl };

    fn serialize<P: Pass>(&self, encoder: &mut Encoder<P>) -> Result<(), Error> {
        write_composite(self, Target::DESCRIPTOR.0, encoder)
    }

    fn in_type(&self) {
        target_fields!(in_type(self));
    }
}

impl SerializeTerm for Target {
    fn is_null(&self) -> bool {
        false
    }

    ghost is_term = { one_term (composite target) refl };
}

impl Composite for Target {
    ghost names = { names_of target };

    fn descriptor() -> (u64, &'static str) {
        Target::DESCRIPTOR
    }

    ghost agrees = { agreement (composite target) refl };
}
