//! Pairs that are put into the properties of a node (Part 3, section 3.5.9) and into sets of filters (Part 3, section 3.5.8).
ghost use Rattle.std.specs.Prelude.{◌≡◌, IfErr, IfOk, string_bytes};
ghost use Rattle.amqp_wire.specs.declared.error.Error.TheVariants.{Memory};
ghost use Rattle.amqp_lifetimes.specs.Properties.{with_pair, InsertsLifetime, InsertsModes};

use crate::{LifetimePolicy, SupportedDistModes};
use amqp_codec::{Error, Symbol};
use amqp_maps::OrderedMap;
use amqp_values::Value;
use std::alloc::Global;

/// Fields: a map from symbols to values of any kind (Part 2, section 2.8.13).
pub(crate) type Fields = OrderedMap<Symbol, Value>;

/// Returns the fields with this pair, or the pair alone if there are no fields. The only error is `Memory`.
pub fn inserted(
    fields: Option<Fields>,
    key: Symbol,
    value: Value,
    alloc: Global,
) -> Result<Fields, Error>
    ensures pairs { IfOk result (λ made. made ≡ with_pair fields key value) }
    ensures refused { IfErr result (λ e. e ≡ Memory) }
{
    let mut made = match fields {
        Some(fields) => fields,
        None => Fields::new(alloc),
    };
    made.insert(key, value)?;
    Ok(made)
}

// The symbol of a text. The only error is `Memory`.
fn symbol_of(text: &str, alloc: Global) -> Result<Symbol, Error>
    ensures text { IfOk result (λ symbol. string_bytes symbol.0 ≡ text.now) }
    ensures refused { IfErr result (λ e. e ≡ Memory) }
{
    Ok(Symbol::from_str_in(text, alloc)?)
}

/// Returns the properties with this lifetime. The only error is `Memory`.
pub fn with_lifetime(
    properties: Option<Fields>,
    policy: LifetimePolicy,
    alloc: Global,
) -> Result<Fields, Error>
    ensures properties { IfOk result (InsertsLifetime properties policy) }
    ensures refused { IfErr result (λ e. e ≡ Memory) }
{
    let key = symbol_of("lifetime-policy", alloc)?;
    inserted(properties, key, policy.into_value(alloc)?, alloc)
}

/// Returns the properties with these modes. The only error is `Memory`.
pub fn with_modes(
    properties: Option<Fields>,
    modes: SupportedDistModes,
    alloc: Global,
) -> Result<Fields, Error>
    ensures properties { IfOk result (InsertsModes properties modes) }
    ensures refused { IfErr result (λ e. e ≡ Memory) }
{
    let key = symbol_of("supported-dist-modes", alloc)?;
    inserted(properties, key, modes.into_value(alloc)?, alloc)
}
