//! Sources (Part 3, section 3.5.3).
ghost use Rattle.std.specs.Prelude.{◌≡◌};
ghost use Rattle.amqp_sums.specs.Types.{composite, fields_of, names_of, one_term, refl, agreement, writing_of};
ghost use Rattle.amqp_termini.specs.Made.{default_source, source_at};
ghost use Rattle.amqp_termini.specs.Tables.{source};

use crate::{Address, FilterSet, NodeProperties, SourceBuilder};
use amqp_codec::kernel::{Composite, FieldList, FieldRule, write_composite};
use amqp_codec::{
    ByteSource, Decoder, Encoder, Error, Pass, Serialize, SerializeTerm, Symbol, fields,
};
use amqp_containers::Array;
use amqp_containers::multiple::{is_null_multiple, read_multiple, write_multiple};
use amqp_delivery::Outcome;
use amqp_restricted_types::{DistributionMode, Seconds, TerminusDurability, TerminusExpiryPolicy};
use std::alloc::Global;

/// Where the messages of a link come from.
#[derive(Clone, Debug, PartialEq, Eq, Drop)]
pub struct Source {
    /// The address of the node, if there is one.
    pub address: Option<Address>,
    /// Which part of its state is kept durably.
    pub durable: TerminusDurability,
    /// When it begins to expire.
    pub expiry_policy: TerminusExpiryPolicy,
    /// How long it is kept after that, in seconds.
    pub timeout: Seconds,
    /// Whether the peer is to make a node for it.
    pub dynamic: bool,
    /// The properties of the node that is made.
    pub dynamic_node_properties: Option<NodeProperties>,
    /// How the node gives its messages to links.
    pub distribution_mode: Option<DistributionMode>,
    /// The filters, by their names, that select the messages for the link.
    pub filter: Option<FilterSet>,
    /// The outcome of deliveries that are settled without one.
    pub default_outcome: Option<Outcome>,
    /// The outcomes that may be chosen for deliveries, by their descriptors.
    pub outcomes: Option<Array<Symbol>>,
    /// What else the source can do.
    pub capabilities: Option<Array<Symbol>>,
}

// The fields, in order.
macro_rules! source_fields {
    ($($part:tt)*) => {
        fields! { [$($part)*]
            0 address "address" optional,
            1 durable "durable" default(TerminusDurability::None),
            2 expiry_policy "expiry-policy" default(TerminusExpiryPolicy::SessionEnd),
            3 timeout "timeout" default(0),
            4 dynamic "dynamic" default(false),
            5 dynamic_node_properties "dynamic-node-properties" optional,
            6 distribution_mode "distribution-mode" optional,
            7 filter "filter" optional,
            8 default_outcome "default-outcome" optional,
            9 outcomes "outcomes" multiple,
            10 capabilities "capabilities" multiple,
        }
    };
}

impl Source {
    /// The code and the name of its descriptor.
    pub const DESCRIPTOR: (u64, &'static str) = (0x28, "amqp:source:list");

    /// The standard's names of the fields, in order.
    pub const FIELD_NAMES: &'static [&'static str] = source_fields!(names);

    /// Returns a builder of a source, in which every field is omitted.
    pub fn builder() -> SourceBuilder
        ensures { result ≡ default_source }
    {
        SourceBuilder::new()
    }
}

/// By default every field is omitted.
impl Default for Source {
    ghost is_default = { λ source. source ≡ default_source };

    fn default() -> Source {
        Source {
            address: None,
            durable: TerminusDurability::None,
            expiry_policy: TerminusExpiryPolicy::SessionEnd,
            timeout: 0,
            dynamic: false,
            dynamic_node_properties: None,
            distribution_mode: None,
            filter: None,
            default_outcome: None,
            outcomes: None,
            capabilities: None,
        }
    }
}

/// Makes the source with this address.
impl From<String> for Source {
    ghost from_gives = { λ address source. source ≡ source_at address };

    fn from(address: String) -> Source {
        Source {
            address: Some(address),
            ..Source::default()
        }
    }
}

impl FieldList for Source {
    ghost list = { fields_of source };

    fn field_rules() -> &'static [FieldRule] {
        source_fields!(rules)
    }

    fn blank(_alloc: Global) -> Source {
        Source::default()
    }

    #[inline(always)]
    fn fill_field<R: ByteSource>(
        &mut self,
        index: usize,
        decoder: &mut Decoder<R>,
        alloc: Global,
    ) -> Result<(), Error> {
        source_fields!(fill(self, index, decoder, alloc))
    }

    #[inline(always)]
    fn is_null_field(&self, index: usize) -> bool {
        source_fields!(is_null(self, index))
    }

    #[inline(always)]
    fn write_field<P: Pass>(&self, index: usize, encoder: &mut Encoder<P>) -> Result<(), Error> {
        source_fields!(write(self, index, encoder))
    }
}

impl Serialize for Source {
    ghost writing = { writing_of (composite source) refl };

    fn serialize<P: Pass>(&self, encoder: &mut Encoder<P>) -> Result<(), Error> {
        write_composite(self, Source::DESCRIPTOR.0, encoder)
    }

    fn in_type(&self) {
        source_fields!(in_type(self));
    }
}

impl SerializeTerm for Source {
    fn is_null(&self) -> bool {
        false
    }

    ghost is_term = { one_term (composite source) refl };
}

impl Composite for Source {
    ghost names = { names_of source };

    fn descriptor() -> (u64, &'static str) {
        Source::DESCRIPTOR
    }

    ghost agrees = { agreement (composite source) refl };
}
