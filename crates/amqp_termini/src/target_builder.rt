//! Targets that are made call by call (Part 3, section 3.5.4).
ghost use Rattle.std.specs.Prelude.{◌≡◌, Some, IfErr, IfOk, IsSomeAnd};
ghost use Rattle.amqp_wire.specs.declared.error.Error.TheVariants.{Memory};
ghost use Rattle.amqp_lifetimes.specs.Properties.{InsertsLifetime, InsertsModes};
ghost use Rattle.amqp_termini.specs.Made.{default_target};

use crate::{Address, Target};
use amqp_codec::{Error, Symbol};
use amqp_containers::Array;
use amqp_errors::Fields;
use amqp_lifetimes::properties::{with_lifetime, with_modes};
use amqp_lifetimes::{LifetimePolicy, SupportedDistModes};
use amqp_restricted_types::{Seconds, TerminusDurability, TerminusExpiryPolicy};
use std::alloc::Global;

/// A target that is made call by call. A field that no call sets is omitted.
#[derive(Clone, Debug, Drop)]
pub struct TargetBuilder {
    /// The target so far.
    pub target: Target,
}

/// By default every field is omitted.
impl Default for TargetBuilder {
    ghost is_default = { λ builder. builder.target ≡ default_target };

    fn default() -> TargetBuilder {
        TargetBuilder::new()
    }
}

impl TargetBuilder {
    /// Returns a builder in which every field is omitted.
    pub fn new() -> TargetBuilder
        ensures { result.target ≡ default_target }
    {
        TargetBuilder {
            target: Target::default(),
        }
    }

    /// Sets the address of the node.
    pub fn address(mut self, address: Address) -> TargetBuilder
        ensures { result ≡ record self { target = record self.target { address = Some address } } }
    {
        self.target.address = Some(address);
        self
    }

    /// Sets which part of its state is kept durably.
    pub fn durable(mut self, durability: TerminusDurability) -> TargetBuilder
        ensures { result ≡ record self { target = record self.target { durable = durability } } }
    {
        self.target.durable = durability;
        self
    }

    /// Sets when it begins to expire.
    pub fn expiry_policy(mut self, policy: TerminusExpiryPolicy) -> TargetBuilder
        ensures { result ≡ record self { target = record self.target { expiry_policy = policy } } }
    {
        self.target.expiry_policy = policy;
        self
    }

    /// Sets how long it is kept after that, in seconds.
    pub fn timeout(mut self, seconds: Seconds) -> TargetBuilder
        ensures { result ≡ record self { target = record self.target { timeout = seconds } } }
    {
        self.target.timeout = seconds;
        self
    }

    /// Sets whether the peer is to make a node for it.
    pub fn dynamic(mut self, dynamic: bool) -> TargetBuilder
        ensures { result ≡ record self { target = record self.target { dynamic = dynamic } } }
    {
        self.target.dynamic = dynamic;
        self
    }

    /// Sets the properties of the node that is made, and replaces any before.
    pub fn dynamic_node_properties(mut self, properties: Fields) -> TargetBuilder
        ensures { result ≡ record self { target = record self.target { dynamic_node_properties = Some properties } } }
    {
        self.target.dynamic_node_properties = Some(properties);
        self
    }

    /// Sets what else the target can do.
    pub fn capabilities(mut self, capabilities: Array<Symbol>) -> TargetBuilder
        ensures { result ≡ record self { target = record self.target { capabilities = Some capabilities } } }
    {
        self.target.capabilities = Some(capabilities);
        self
    }

    /// Adds the lifetime to the properties of the node that is made, under `lifetime-policy` (Part 3, section 3.5.9). The only error is
    /// `Memory`, which drops the builder.
    pub fn add_lifetime_policy(
        mut self,
        policy: LifetimePolicy,
        alloc: Global,
    ) -> Result<TargetBuilder, Error>
        ensures inserted { IfOk result (λ made. IsSomeAnd made.target.dynamic_node_properties
            (InsertsLifetime self.target.dynamic_node_properties policy)) }
        ensures others { IfOk result (λ made. made ≡ record self { target = record self.target { dynamic_node_properties = made.target.dynamic_node_properties } }) }
        ensures refused { IfErr result (λ e. e ≡ Memory) }
    {
        let properties = self.target.dynamic_node_properties.take();
        self.target.dynamic_node_properties = Some(with_lifetime(properties, policy, alloc)?);
        Ok(self)
    }

    /// Adds the modes to the properties of the node that is made, under `supported-dist-modes` (Part 3, section 3.5.9). The only error is
    /// `Memory`, which drops the builder.
    pub fn add_supported_dist_modes(
        mut self,
        modes: SupportedDistModes,
        alloc: Global,
    ) -> Result<TargetBuilder, Error>
        ensures inserted { IfOk result (λ made. IsSomeAnd made.target.dynamic_node_properties
            (InsertsModes self.target.dynamic_node_properties modes)) }
        ensures others { IfOk result (λ made. made ≡ record self { target = record self.target { dynamic_node_properties = made.target.dynamic_node_properties } }) }
        ensures refused { IfErr result (λ e. e ≡ Memory) }
    {
        let properties = self.target.dynamic_node_properties.take();
        self.target.dynamic_node_properties = Some(with_modes(properties, modes, alloc)?);
        Ok(self)
    }

    /// Returns the target.
    pub fn build(self) -> Target
        ensures { result ≡ self.target }
    {
        self.target
    }
}
