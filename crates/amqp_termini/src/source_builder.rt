//! Sources that are made call by call (Part 3, section 3.5.3).
ghost use Rattle.std.specs.Prelude.{◌≡◌, Some, IfErr, IfOk, IsSomeAnd};
ghost use Rattle.amqp_wire.specs.declared.error.Error.TheVariants.{Memory};
ghost use Rattle.amqp_values.specs.Values.{value_term};
ghost use Rattle.amqp_lifetimes.specs.Properties.{with_pair, filter_term, Inserts, InsertsLifetime, InsertsModes};
ghost use Rattle.amqp_termini.specs.Made.{default_source};

use crate::{Address, FilterSet, Source};
use amqp_codec::{Error, Symbol};
use amqp_containers::Array;
use amqp_delivery::Outcome;
use amqp_described::Described;
use amqp_errors::Fields;
use amqp_lifetimes::properties::{inserted, with_lifetime, with_modes};
use amqp_lifetimes::{LifetimePolicy, SupportedDistModes};
use amqp_restricted_types::{DistributionMode, Seconds, TerminusDurability, TerminusExpiryPolicy};
use amqp_values::Value;
use std::alloc::Global;
use std::marker::Model;

// A filter's value, or null. The only error is `Memory`.
fn filter_value(value: Option<Described<Value>>, alloc: Global) -> Result<Value, Error>
    ensures value { IfOk result (λ made. value_term made ≡ filter_term value) }
    ensures refused { IfErr result (λ e. e ≡ Memory) }
{
    match value {
        Some(described) => Ok(Value::Described(Box::new(alloc, described)?)),
        None => Ok(Value::Null),
    }
}

/// A source that is made call by call. A field that no call sets is omitted.
#[derive(Clone, Debug, Drop)]
pub struct SourceBuilder {
    source: Source,
}

impl Model for SourceBuilder {
    ghost use Rattle.amqp_termini.specs.declared.source.Source.{Source};

    ghost Value = { Source };

    ghost use Rattle.amqp_termini.specs.contracts.source.Source.{the_row};

    ghost coded = { the_row.coded };

    ghost view = { λ b. b.source };
}

/// By default every field is omitted.
impl Default for SourceBuilder {
    ghost is_default = { λ builder. builder ≡ default_source };

    fn default() -> SourceBuilder {
        SourceBuilder::new()
    }
}

impl SourceBuilder {
    /// Returns a builder in which every field is omitted.
    pub fn new() -> SourceBuilder
        ensures { result ≡ default_source }
    {
        SourceBuilder {
            source: Source::default(),
        }
    }

    /// Sets the address of the node.
    pub fn address(mut self, address: Address) -> SourceBuilder
        ensures { result ≡ record self { address = Some address } }
    {
        self.source.address = Some(address);
        self
    }

    /// Sets which part of its state is kept durably.
    pub fn durable(mut self, durability: TerminusDurability) -> SourceBuilder
        ensures { result ≡ record self { durable = durability } }
    {
        self.source.durable = durability;
        self
    }

    /// Sets when it begins to expire.
    pub fn expiry_policy(mut self, policy: TerminusExpiryPolicy) -> SourceBuilder
        ensures { result ≡ record self { expiry_policy = policy } }
    {
        self.source.expiry_policy = policy;
        self
    }

    /// Sets how long it is kept after that, in seconds.
    pub fn timeout(mut self, seconds: Seconds) -> SourceBuilder
        ensures { result ≡ record self { timeout = seconds } }
    {
        self.source.timeout = seconds;
        self
    }

    /// Sets whether the peer is to make a node for it.
    pub fn dynamic(mut self, dynamic: bool) -> SourceBuilder
        ensures { result ≡ record self { dynamic = dynamic } }
    {
        self.source.dynamic = dynamic;
        self
    }

    /// Sets the properties of the node that is made, and replaces any before.
    pub fn dynamic_node_properties(mut self, properties: Fields) -> SourceBuilder
        ensures { result ≡ record self { dynamic_node_properties = Some properties } }
    {
        self.source.dynamic_node_properties = Some(properties);
        self
    }

    /// Sets how the node gives its messages to links.
    pub fn distribution_mode(mut self, mode: DistributionMode) -> SourceBuilder
        ensures { result ≡ record self { distribution_mode = Some mode } }
    {
        self.source.distribution_mode = Some(mode);
        self
    }

    /// Sets the filters that select the messages for the link, and replaces any before.
    pub fn filter(mut self, filters: FilterSet) -> SourceBuilder
        ensures { result ≡ record self { filter = Some filters } }
    {
        self.source.filter = Some(filters);
        self
    }

    /// Sets the outcome of deliveries that are settled without one.
    pub fn default_outcome(mut self, outcome: Outcome) -> SourceBuilder
        ensures { result ≡ record self { default_outcome = Some outcome } }
    {
        self.source.default_outcome = Some(outcome);
        self
    }

    /// Sets the outcomes that may be chosen for deliveries, by their descriptors.
    pub fn outcomes(mut self, outcomes: Array<Symbol>) -> SourceBuilder
        ensures { result ≡ record self { outcomes = Some outcomes } }
    {
        self.source.outcomes = Some(outcomes);
        self
    }

    /// Sets what else the source can do.
    pub fn capabilities(mut self, capabilities: Array<Symbol>) -> SourceBuilder
        ensures { result ≡ record self { capabilities = Some capabilities } }
    {
        self.source.capabilities = Some(capabilities);
        self
    }

    /// Adds the lifetime to the properties of the node that is made, under `lifetime-policy` (Part 3, section 3.5.9). The only error is
    /// `Memory`, which drops the builder.
    pub fn add_lifetime_policy(
        mut self,
        policy: LifetimePolicy,
        alloc: Global,
    ) -> Result<SourceBuilder, Error>
        ensures inserted { IfOk result (λ made. IsSomeAnd made.dynamic_node_properties
            (InsertsLifetime self.dynamic_node_properties policy)) }
        ensures others { IfOk result (λ made. made ≡ record self { dynamic_node_properties = made.dynamic_node_properties }) }
        ensures refused { IfErr result (λ e. e ≡ Memory) }
    {
        let properties = self.source.dynamic_node_properties.take();
        self.source.dynamic_node_properties = Some(with_lifetime(properties, policy, alloc)?);
        Ok(self)
    }

    /// Adds the modes to the properties of the node that is made, under `supported-dist-modes` (Part 3, section 3.5.9). The only error is
    /// `Memory`, which drops the builder.
    pub fn add_supported_dist_modes(
        mut self,
        modes: SupportedDistModes,
        alloc: Global,
    ) -> Result<SourceBuilder, Error>
        ensures inserted { IfOk result (λ made. IsSomeAnd made.dynamic_node_properties
            (InsertsModes self.dynamic_node_properties modes)) }
        ensures others { IfOk result (λ made. made ≡ record self { dynamic_node_properties = made.dynamic_node_properties }) }
        ensures refused { IfErr result (λ e. e ≡ Memory) }
    {
        let properties = self.source.dynamic_node_properties.take();
        self.source.dynamic_node_properties = Some(with_modes(properties, modes, alloc)?);
        Ok(self)
    }

    /// Adds a filter under this name, or null under it if there is none (Part 3, section 3.5.8). The only error is `Memory`, which drops
    /// the builder.
    pub fn add_to_filter(
        mut self,
        name: Symbol,
        value: Option<Described<Value>>,
        alloc: Global,
    ) -> Result<SourceBuilder, Error>
        ensures inserted { IfOk result (λ made. IsSomeAnd made.filter (Inserts self.filter name (filter_term value))) }
        ensures others { IfOk result (λ made. made ≡ record self { filter = made.filter }) }
        ensures refused { IfErr result (λ e. e ≡ Memory) }
    {
        let filters = self.source.filter.take();
        let value = filter_value(value, alloc)?;
        self.source.filter = Some(inserted(filters, name, value, alloc)?);
        Ok(self)
    }

    /// Adds a value under this name to the filters, described or not. Peers do so that don't follow the standard, in which filters are
    /// described (Part 3, section 3.5.8). The only error is `Memory`, which drops the builder.
    pub fn add_to_filter_using_legacy_format(
        mut self,
        name: Symbol,
        value: Value,
        alloc: Global,
    ) -> Result<SourceBuilder, Error>
        ensures inserted { IfOk result (λ made. made ≡ record self { filter = Some (with_pair self.filter name value) }) }
        ensures refused { IfErr result (λ e. e ≡ Memory) }
    {
        let filters = self.source.filter.take();
        self.source.filter = Some(inserted(filters, name, value, alloc)?);
        Ok(self)
    }

    /// Returns the source.
    pub fn build(self) -> Source
        ensures { result ≡ self }
    {
        self.source
    }
}
