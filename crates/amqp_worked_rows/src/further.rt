//! Answers for the types that the program `amqp_canon` doesn't name: each primitive type, and the restricted types. Also lists, arrays,
//! maps, options and described values of some of them. The words before `-of-` or `described-` name the outer type, and the words after
//! them the inner one.
use fe2o3_amqp_types::codec::{Error, MapKey, canonical_text};
use fe2o3_amqp_types::definitions::{Fields, Handle, ReceiverSettleMode, Role, SenderSettleMode};
use fe2o3_amqp_types::messaging::{
    Accepted, DistributionMode, TerminusDurability, TerminusExpiryPolicy,
};
use fe2o3_amqp_types::primitives::{
    Array, Binary, Boolean, Byte, Char, Dec32, Dec64, Dec128, Described, Int, LazyValue, Long,
    OrderedMap, Short, SimpleValue, Symbol, Timestamp, Ubyte, Uint, Ulong, Ushort, Uuid, Value,
    ValueMap,
};
use fe2o3_amqp_types::sasl::SaslCode;
use fe2o3_amqp_types::transaction::TxnCapability;
use std::alloc::Global;
use std::collections::BTreeMap;
use std::rc::Rc;

/// A canonical text and how many bytes the value takes, or why there is none.
type Rewritten = Result<(Vec<u8>, usize), Error>;

/// Returns the answer to bytes of the type with this name, without a line feed, or `None` if no type here has it. The only error is
/// `Memory`.
pub(crate) fn further_answer(
    type_name: &str,
    input: &[u8],
    alloc: Global,
) -> Result<Option<String>, Error> {
    match rewritten(type_name, input, alloc) {
        Some(rewritten) => Ok(Some(printed(rewritten, input.len(), alloc)?)),
        None => Ok(None),
    }
}

// The answer as it is printed.
fn printed(rewritten: Rewritten, len: usize, alloc: Global) -> Result<String, Error> {
    match rewritten {
        Ok((text, taken)) => {
            let digits = hex::encode(alloc, &text)?;
            let left = len.saturating_sub(taken);
            Ok(format!(in alloc; "ok {digits} {left}")?)
        }
        Err(error) => {
            let number = error.number();
            let name = error.name();
            Ok(format!(in alloc; "no {number} {name}")?)
        }
    }
}

// The words before the first `-of-` name the outer type.
fn rewritten(type_name: &str, input: &[u8], alloc: Global) -> Option<Rewritten> {
    if let Some(held) = type_name.strip_prefix("list-of-") {
        return list(held, input, alloc);
    }
    if let Some(held) = type_name.strip_prefix("array-of-") {
        return array(held, input, alloc);
    }
    if let Some(held) = type_name.strip_prefix("map-of-") {
        return map(held, input, alloc);
    }
    if let Some(held) = type_name.strip_prefix("btree-map-of-") {
        return btree_map(held, input, alloc);
    }
    if let Some(held) = type_name.strip_prefix("described-") {
        return described(held, input, alloc);
    }
    if let Some(found) = number(type_name, input, alloc) {
        return Some(found);
    }
    if let Some(found) = other_primitive(type_name, input, alloc) {
        return Some(found);
    }
    if let Some(found) = restricted(type_name, input, alloc) {
        return Some(found);
    }
    other(type_name, input, alloc)
}

// The whole numbers.
fn number(name: &str, input: &[u8], alloc: Global) -> Option<Rewritten> {
    Some(match name {
        "ubyte" => canonical_text::<Ubyte>(input, alloc),
        "ushort" => canonical_text::<Ushort>(input, alloc),
        "uint" => canonical_text::<Uint>(input, alloc),
        "ulong" => canonical_text::<Ulong>(input, alloc),
        "byte" => canonical_text::<Byte>(input, alloc),
        "short" => canonical_text::<Short>(input, alloc),
        "int" => canonical_text::<Int>(input, alloc),
        "long" => canonical_text::<Long>(input, alloc),
        _ => return None,
    })
}

// The primitive types that are no whole numbers.
fn other_primitive(name: &str, input: &[u8], alloc: Global) -> Option<Rewritten> {
    Some(match name {
        "null" => canonical_text::<()>(input, alloc),
        "char" => canonical_text::<Char>(input, alloc),
        "decimal32" => canonical_text::<Dec32>(input, alloc),
        "decimal64" => canonical_text::<Dec64>(input, alloc),
        "decimal128" => canonical_text::<Dec128>(input, alloc),
        "timestamp" => canonical_text::<Timestamp>(input, alloc),
        "uuid" => canonical_text::<Uuid>(input, alloc),
        "binary" => canonical_text::<Binary>(input, alloc),
        "string" => canonical_text::<String>(input, alloc),
        "symbol" => canonical_text::<Symbol>(input, alloc),
        _ => return None,
    })
}

// The restricted types.
fn restricted(name: &str, input: &[u8], alloc: Global) -> Option<Rewritten> {
    Some(match name {
        "role" => canonical_text::<Role>(input, alloc),
        "sender-settle-mode" => canonical_text::<SenderSettleMode>(input, alloc),
        "receiver-settle-mode" => canonical_text::<ReceiverSettleMode>(input, alloc),
        "handle" => canonical_text::<Handle>(input, alloc),
        "terminus-durability" => canonical_text::<TerminusDurability>(input, alloc),
        "terminus-expiry-policy" => canonical_text::<TerminusExpiryPolicy>(input, alloc),
        "std-dist-mode" => canonical_text::<DistributionMode>(input, alloc),
        "txn-capability" => canonical_text::<TxnCapability>(input, alloc),
        "sasl-code" => canonical_text::<SaslCode>(input, alloc),
        _ => return None,
    })
}

// Values that are kept as their bytes, maps of values of any kind, and values that several own.
fn other(name: &str, input: &[u8], alloc: Global) -> Option<Rewritten> {
    Some(match name {
        "lazy-value" => canonical_text::<LazyValue>(input, alloc),
        "option-of-lazy-value" => canonical_text::<Option<LazyValue>>(input, alloc),
        "value-map" => canonical_text::<ValueMap>(input, alloc),
        "fields" => canonical_text::<Fields>(input, alloc),
        "rc-of-uint" => canonical_text::<Rc<Uint>>(input, alloc),
        "option-of-rc-of-uint" => canonical_text::<Option<Rc<Uint>>>(input, alloc),
        _ => return None,
    })
}

// Lists of items of one type.
fn list(held: &str, input: &[u8], alloc: Global) -> Option<Rewritten> {
    Some(match held {
        "uint" => canonical_text::<Vec<Uint>>(input, alloc),
        "option-of-uint" => canonical_text::<Vec<Option<Uint>>>(input, alloc),
        "list-of-uint" => canonical_text::<Vec<Vec<Uint>>>(input, alloc),
        "symbol" => canonical_text::<Vec<Symbol>>(input, alloc),
        "described-uint" => canonical_text::<Vec<Described<Uint>>>(input, alloc),
        "value" => canonical_text::<Vec<Value>>(input, alloc),
        "simple-value" => canonical_text::<Vec<SimpleValue>>(input, alloc),
        "lazy-value" => canonical_text::<Vec<LazyValue>>(input, alloc),
        _ => return None,
    })
}

// Arrays.
fn array(held: &str, input: &[u8], alloc: Global) -> Option<Rewritten> {
    Some(match held {
        "uint" => canonical_text::<Array<Uint>>(input, alloc),
        "boolean" => canonical_text::<Array<Boolean>>(input, alloc),
        "list-of-uint" => canonical_text::<Array<Vec<Uint>>>(input, alloc),
        "array-of-boolean" => canonical_text::<Array<Array<Boolean>>>(input, alloc),
        "accepted" => canonical_text::<Array<Accepted>>(input, alloc),
        "described-uint" => canonical_text::<Array<Described<Uint>>>(input, alloc),
        "described-described-boolean" => {
            canonical_text::<Array<Described<Described<Boolean>>>>(input, alloc)
        }
        "value" => canonical_text::<Array<Value>>(input, alloc),
        "simple-value" => canonical_text::<Array<SimpleValue>>(input, alloc),
        "lazy-value" => canonical_text::<Array<LazyValue>>(input, alloc),
        _ => return None,
    })
}

// Values under a descriptor of their own.
fn described(held: &str, input: &[u8], alloc: Global) -> Option<Rewritten> {
    Some(match held {
        "boolean" => canonical_text::<Described<Boolean>>(input, alloc),
        "described-boolean" => canonical_text::<Described<Described<Boolean>>>(input, alloc),
        "option-of-boolean" => canonical_text::<Described<Option<Boolean>>>(input, alloc),
        _ => return None,
    })
}

// Maps that keep the order of their pairs: the type of the keys, and then that of the values.
fn map(held: &str, input: &[u8], alloc: Global) -> Option<Rewritten> {
    Some(match held {
        "string-uint" => canonical_text::<OrderedMap<String, Uint>>(input, alloc),
        "string-simple-value" => canonical_text::<OrderedMap<String, SimpleValue>>(input, alloc),
        "symbol-lazy-value" => canonical_text::<OrderedMap<Symbol, LazyValue>>(input, alloc),
        "uint-boolean" => canonical_text::<OrderedMap<Uint, Boolean>>(input, alloc),
        "uint-map-of-uint-boolean" => {
            canonical_text::<OrderedMap<Uint, OrderedMap<Uint, Boolean>>>(input, alloc)
        }
        "value-uint" => canonical_text::<OrderedMap<Value, Uint>>(input, alloc),
        _ => return None,
    })
}

// Maps in the order of their keys: the type of the keys, and then that of the values.
fn btree_map(held: &str, input: &[u8], alloc: Global) -> Option<Rewritten> {
    if let Some(key) = held.strip_suffix("-boolean") {
        if let Some(found) = numbered(key, input, alloc) {
            return Some(found);
        }
        if let Some(found) = keyed(key, input, alloc) {
            return Some(found);
        }
    }
    Some(match held {
        "string-uint" => canonical_text::<BTreeMap<String, Uint>>(input, alloc),
        "uint-btree-map-of-uint-boolean" => {
            canonical_text::<BTreeMap<Uint, BTreeMap<Uint, Boolean>>>(input, alloc)
        }
        _ => return None,
    })
}

// Booleans in the order of keys of this type.
fn booleans<K: MapKey + Ord>(input: &[u8], alloc: Global) -> Rewritten {
    canonical_text::<BTreeMap<K, Boolean>>(input, alloc)
}

// Booleans in the order of whole numbers.
fn numbered(key: &str, input: &[u8], alloc: Global) -> Option<Rewritten> {
    Some(match key {
        "ubyte" => booleans::<Ubyte>(input, alloc),
        "ushort" => booleans::<Ushort>(input, alloc),
        "uint" => booleans::<Uint>(input, alloc),
        "ulong" => booleans::<Ulong>(input, alloc),
        "byte" => booleans::<Byte>(input, alloc),
        "short" => booleans::<Short>(input, alloc),
        "int" => booleans::<Int>(input, alloc),
        "long" => booleans::<Long>(input, alloc),
        _ => return None,
    })
}

// Booleans in the order of keys that are no whole numbers.
fn keyed(key: &str, input: &[u8], alloc: Global) -> Option<Rewritten> {
    Some(match key {
        "boolean" => booleans::<Boolean>(input, alloc),
        "char" => booleans::<Char>(input, alloc),
        "decimal32" => booleans::<Dec32>(input, alloc),
        "decimal64" => booleans::<Dec64>(input, alloc),
        "decimal128" => booleans::<Dec128>(input, alloc),
        "timestamp" => booleans::<Timestamp>(input, alloc),
        "uuid" => booleans::<Uuid>(input, alloc),
        "binary" => booleans::<Binary>(input, alloc),
        "symbol" => booleans::<Symbol>(input, alloc),
        _ => return None,
    })
}
