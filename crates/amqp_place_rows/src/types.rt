//! The types that rows name. The words before `-of-` or `described-` name the outer type, and the words after them the inner one.
use crate::answer::{Answer, refusal_of};
use fe2o3_amqp_types::codec::Limits;
use fe2o3_amqp_types::definitions::{Role, SenderSettleMode};
use fe2o3_amqp_types::messaging::message::Strict;
use fe2o3_amqp_types::messaging::{
    Accepted, ApplicationProperties, Body, Data, Header, Message, Properties, Source, Target,
    TerminusExpiryPolicy,
};
use fe2o3_amqp_types::performatives::{Attach, Flow, Open, Transfer};
use fe2o3_amqp_types::primitives::{
    Array, Binary, Boolean, Char, Described, Int, LazyValue, OrderedMap, SimpleValue, Symbol,
    Timestamp, Ubyte, Uint, Ulong, Uuid, Value,
};
use fe2o3_amqp_types::sasl::SaslMechanisms;
use std::alloc::Global;
use std::collections::BTreeMap;

/// Returns what is found in the bytes, read as the type with this name, or `None` if no type here has it.
pub(crate) fn answer_of(
    type_name: &str,
    input: &[u8],
    limits: &Limits,
    alloc: Global,
) -> Option<Answer> {
    if let Some(found) = fixed(type_name, input, limits, alloc) {
        return Some(found);
    }
    if let Some(found) = sized(type_name, input, limits, alloc) {
        return Some(found);
    }
    if let Some(found) = container(type_name, input, limits, alloc) {
        return Some(found);
    }
    if let Some(found) = composite(type_name, input, limits, alloc) {
        return Some(found);
    }
    section(type_name, input, limits, alloc)
}

// Primitive types without a size, and types that allow some of their values.
fn fixed(name: &str, input: &[u8], limits: &Limits, alloc: Global) -> Option<Answer> {
    Some(match name {
        "boolean" => refusal_of::<Boolean>(input, limits, alloc),
        "ubyte" => refusal_of::<Ubyte>(input, limits, alloc),
        "uint" => refusal_of::<Uint>(input, limits, alloc),
        "ulong" => refusal_of::<Ulong>(input, limits, alloc),
        "int" => refusal_of::<Int>(input, limits, alloc),
        "char" => refusal_of::<Char>(input, limits, alloc),
        "timestamp" => refusal_of::<Timestamp>(input, limits, alloc),
        "uuid" => refusal_of::<Uuid>(input, limits, alloc),
        "role" => refusal_of::<Role>(input, limits, alloc),
        "sender-settle-mode" => refusal_of::<SenderSettleMode>(input, limits, alloc),
        _ => return None,
    })
}

// Primitive types with a size, and values of any type.
fn sized(name: &str, input: &[u8], limits: &Limits, alloc: Global) -> Option<Answer> {
    Some(match name {
        "binary" => refusal_of::<Binary>(input, limits, alloc),
        "string" => refusal_of::<String>(input, limits, alloc),
        "symbol" => refusal_of::<Symbol>(input, limits, alloc),
        "terminus-expiry-policy" => refusal_of::<TerminusExpiryPolicy>(input, limits, alloc),
        "value" => refusal_of::<Value>(input, limits, alloc),
        "simple-value" => refusal_of::<SimpleValue>(input, limits, alloc),
        "lazy-value" => refusal_of::<LazyValue>(input, limits, alloc),
        "described-boolean" => refusal_of::<Described<Boolean>>(input, limits, alloc),
        _ => return None,
    })
}

// Lists, arrays and maps.
fn container(name: &str, input: &[u8], limits: &Limits, alloc: Global) -> Option<Answer> {
    Some(match name {
        "list-of-uint" => refusal_of::<Vec<Uint>>(input, limits, alloc),
        "list-of-lazy-value" => refusal_of::<Vec<LazyValue>>(input, limits, alloc),
        "list-of-list-of-uint" => refusal_of::<Vec<Vec<Uint>>>(input, limits, alloc),
        "array-of-uint" => refusal_of::<Array<Uint>>(input, limits, alloc),
        "array-of-boolean" => refusal_of::<Array<Boolean>>(input, limits, alloc),
        "array-of-list-of-uint" => refusal_of::<Array<Vec<Uint>>>(input, limits, alloc),
        "array-of-described-uint" => refusal_of::<Array<Described<Uint>>>(input, limits, alloc),
        "array-of-lazy-value" => refusal_of::<Array<LazyValue>>(input, limits, alloc),
        "map-of-string-uint" => refusal_of::<OrderedMap<String, Uint>>(input, limits, alloc),
        "map-of-uint-boolean" => refusal_of::<OrderedMap<Uint, Boolean>>(input, limits, alloc),
        "btree-map-of-uint-boolean" => refusal_of::<BTreeMap<Uint, Boolean>>(input, limits, alloc),
        _ => return None,
    })
}

// Composite types.
fn composite(name: &str, input: &[u8], limits: &Limits, alloc: Global) -> Option<Answer> {
    Some(match name {
        "accepted" => refusal_of::<Accepted>(input, limits, alloc),
        "source" => refusal_of::<Source>(input, limits, alloc),
        "target" => refusal_of::<Target>(input, limits, alloc),
        "attach" => refusal_of::<Attach>(input, limits, alloc),
        "open" => refusal_of::<Open>(input, limits, alloc),
        "transfer" => refusal_of::<Transfer>(input, limits, alloc),
        "flow" => refusal_of::<Flow>(input, limits, alloc),
        "sasl-mechanisms" => refusal_of::<SaslMechanisms>(input, limits, alloc),
        _ => return None,
    })
}

// Sections and messages.
fn section(name: &str, input: &[u8], limits: &Limits, alloc: Global) -> Option<Answer> {
    Some(match name {
        "header" => refusal_of::<Header>(input, limits, alloc),
        "properties" => refusal_of::<Properties>(input, limits, alloc),
        "application-properties" => refusal_of::<ApplicationProperties>(input, limits, alloc),
        "message" => refusal_of::<Message<Body<Value>>>(input, limits, alloc),
        "message-data" => refusal_of::<Message<Data>>(input, limits, alloc),
        "strict-message" => refusal_of::<Strict<Body<Value>>>(input, limits, alloc),
        _ => return None,
    })
}
