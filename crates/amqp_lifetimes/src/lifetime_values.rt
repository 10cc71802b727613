//! Lifetimes of nodes as values of any kind (Part 3, sections 3.5.10 to 3.5.13), which are properties of a node (section 3.5.9).
ghost use Rattle.std.specs.Prelude.{◌≡◌, None, IfErr, IfOk};
ghost use Rattle.amqp_wire.specs.declared.error.Error.TheVariants.{Memory};
ghost use Rattle.amqp_values.specs.Values.{value_term};
ghost use Rattle.amqp_lifetimes.specs.Properties.{empty_list_of, lifetime_term, InsertsLifetime};

use crate::properties::{Fields, with_lifetime};
use crate::{
    DeleteOnClose, DeleteOnNoLinks, DeleteOnNoLinksOrMessages, DeleteOnNoMessages, LifetimePolicy,
};
use amqp_codec::{Descriptor, Error};
use amqp_described::Described;
use amqp_values::Value;
use std::alloc::Global;

// An empty list under this code.
fn empty_list(code: u64, alloc: Global) -> Result<Value, Error>
    ensures value { IfOk result (λ value. value_term value ≡ empty_list_of code) }
    ensures refused { IfErr result (λ e. e ≡ Memory) }
{
    let described = Described {
        descriptor: Descriptor::Code(code),
        value: Value::List(Vec::new(alloc)),
    };
    Ok(Value::Described(Box::new(alloc, described)?))
}

impl DeleteOnClose {
    /// Returns an empty list under the code 0x2b. The only error is `Memory`.
    pub fn into_value(self, alloc: Global) -> Result<Value, Error>
        ensures value { IfOk result (λ value. value_term value ≡ empty_list_of 0x2b) }
        ensures refused { IfErr result (λ e. e ≡ Memory) }
    {
        empty_list(DeleteOnClose::DESCRIPTOR.0, alloc)
    }
}

impl DeleteOnNoLinks {
    /// Returns an empty list under the code 0x2c. The only error is `Memory`.
    pub fn into_value(self, alloc: Global) -> Result<Value, Error>
        ensures value { IfOk result (λ value. value_term value ≡ empty_list_of 0x2c) }
        ensures refused { IfErr result (λ e. e ≡ Memory) }
    {
        empty_list(DeleteOnNoLinks::DESCRIPTOR.0, alloc)
    }
}

impl DeleteOnNoMessages {
    /// Returns an empty list under the code 0x2d. The only error is `Memory`.
    pub fn into_value(self, alloc: Global) -> Result<Value, Error>
        ensures value { IfOk result (λ value. value_term value ≡ empty_list_of 0x2d) }
        ensures refused { IfErr result (λ e. e ≡ Memory) }
    {
        empty_list(DeleteOnNoMessages::DESCRIPTOR.0, alloc)
    }
}

impl DeleteOnNoLinksOrMessages {
    /// Returns an empty list under the code 0x2e. The only error is `Memory`.
    pub fn into_value(self, alloc: Global) -> Result<Value, Error>
        ensures value { IfOk result (λ value. value_term value ≡ empty_list_of 0x2e) }
        ensures refused { IfErr result (λ e. e ≡ Memory) }
    {
        empty_list(DeleteOnNoLinksOrMessages::DESCRIPTOR.0, alloc)
    }
}

impl LifetimePolicy {
    /// Returns the lifetime's own value: an empty list under its code. The only error is `Memory`.
    pub fn into_value(self, alloc: Global) -> Result<Value, Error>
        ensures value { IfOk result (λ value. value_term value ≡ lifetime_term self) }
        ensures refused { IfErr result (λ e. e ≡ Memory) }
    {
        match self {
            LifetimePolicy::DeleteOnClose(lifetime) => lifetime.into_value(alloc),
            LifetimePolicy::DeleteOnNoLinks(lifetime) => lifetime.into_value(alloc),
            LifetimePolicy::DeleteOnNoMessages(lifetime) => lifetime.into_value(alloc),
            LifetimePolicy::DeleteOnNoLinksOrMessages(lifetime) => lifetime.into_value(alloc),
        }
    }

    /// Returns a map with the lifetime alone, under `lifetime-policy`. The only error is `Memory`.
    pub fn into_fields(self, alloc: Global) -> Result<Fields, Error>
        ensures fields { IfOk result (InsertsLifetime None self) }
        ensures refused { IfErr result (λ e. e ≡ Memory) }
    {
        with_lifetime(None, self, alloc)
    }
}
