//! What values of any kind hold, moved out of them. A value of another kind is returned.
ghost use Rattle.amqp_values.specs.Taken.{TakesOut};
ghost use Rattle.amqp_values.specs.declared.value.Value.{Bool, Ubyte, Ushort, Uint, Ulong, Byte, Short, Int, Long};
ghost use Rattle.amqp_values.specs.declared.value.Value.{Decimal32, Decimal64, Decimal128, Char, Timestamp as TimestampOf, Uuid as UuidOf};
ghost use Rattle.amqp_values.specs.declared.value.Value.{Binary as BinaryOf, String as StringOf, Symbol as SymbolOf};
ghost use Rattle.amqp_values.specs.declared.value.Value.{Described as DescribedOf, List as ListOf, Map as MapOf, Array as ArrayOf};

use crate::{Value, ValueMap};
use amqp_containers::Array;
use amqp_described::Described;
use amqp_primitives::{Binary, Dec32, Dec64, Dec128, Timestamp, Uuid};
use amqp_wire::Symbol;

impl TryFrom<Value> for bool {
    type Error = Value;

    ghost try_from_gives = { TakesOut Bool };

    fn try_from(value: Value) -> Result<bool, Value> {
        match value {
            Value::Bool(own) => Ok(own),
            other => Err(other),
        }
    }
}

impl TryFrom<Value> for u8 {
    type Error = Value;

    ghost try_from_gives = { TakesOut Ubyte };

    fn try_from(value: Value) -> Result<u8, Value> {
        match value {
            Value::Ubyte(own) => Ok(own),
            other => Err(other),
        }
    }
}

impl TryFrom<Value> for u16 {
    type Error = Value;

    ghost try_from_gives = { TakesOut Ushort };

    fn try_from(value: Value) -> Result<u16, Value> {
        match value {
            Value::Ushort(own) => Ok(own),
            other => Err(other),
        }
    }
}

impl TryFrom<Value> for u32 {
    type Error = Value;

    ghost try_from_gives = { TakesOut Uint };

    fn try_from(value: Value) -> Result<u32, Value> {
        match value {
            Value::Uint(own) => Ok(own),
            other => Err(other),
        }
    }
}

impl TryFrom<Value> for u64 {
    type Error = Value;

    ghost try_from_gives = { TakesOut Ulong };

    fn try_from(value: Value) -> Result<u64, Value> {
        match value {
            Value::Ulong(own) => Ok(own),
            other => Err(other),
        }
    }
}

impl TryFrom<Value> for i8 {
    type Error = Value;

    ghost try_from_gives = { TakesOut Byte };

    fn try_from(value: Value) -> Result<i8, Value> {
        match value {
            Value::Byte(own) => Ok(own),
            other => Err(other),
        }
    }
}

impl TryFrom<Value> for i16 {
    type Error = Value;

    ghost try_from_gives = { TakesOut Short };

    fn try_from(value: Value) -> Result<i16, Value> {
        match value {
            Value::Short(own) => Ok(own),
            other => Err(other),
        }
    }
}

impl TryFrom<Value> for i32 {
    type Error = Value;

    ghost try_from_gives = { TakesOut Int };

    fn try_from(value: Value) -> Result<i32, Value> {
        match value {
            Value::Int(own) => Ok(own),
            other => Err(other),
        }
    }
}

impl TryFrom<Value> for i64 {
    type Error = Value;

    ghost try_from_gives = { TakesOut Long };

    fn try_from(value: Value) -> Result<i64, Value> {
        match value {
            Value::Long(own) => Ok(own),
            other => Err(other),
        }
    }
}

impl TryFrom<Value> for Dec32 {
    type Error = Value;

    ghost try_from_gives = { TakesOut Decimal32 };

    fn try_from(value: Value) -> Result<Dec32, Value> {
        match value {
            Value::Decimal32(own) => Ok(own),
            other => Err(other),
        }
    }
}

impl TryFrom<Value> for Dec64 {
    type Error = Value;

    ghost try_from_gives = { TakesOut Decimal64 };

    fn try_from(value: Value) -> Result<Dec64, Value> {
        match value {
            Value::Decimal64(own) => Ok(own),
            other => Err(other),
        }
    }
}

impl TryFrom<Value> for Dec128 {
    type Error = Value;

    ghost try_from_gives = { TakesOut Decimal128 };

    fn try_from(value: Value) -> Result<Dec128, Value> {
        match value {
            Value::Decimal128(own) => Ok(own),
            other => Err(other),
        }
    }
}

impl TryFrom<Value> for char {
    type Error = Value;

    ghost try_from_gives = { TakesOut Char };

    fn try_from(value: Value) -> Result<char, Value> {
        match value {
            Value::Char(own) => Ok(own),
            other => Err(other),
        }
    }
}

impl TryFrom<Value> for Timestamp {
    type Error = Value;

    ghost try_from_gives = { TakesOut TimestampOf };

    fn try_from(value: Value) -> Result<Timestamp, Value> {
        match value {
            Value::Timestamp(own) => Ok(own),
            other => Err(other),
        }
    }
}

impl TryFrom<Value> for Uuid {
    type Error = Value;

    ghost try_from_gives = { TakesOut UuidOf };

    fn try_from(value: Value) -> Result<Uuid, Value> {
        match value {
            Value::Uuid(own) => Ok(own),
            other => Err(other),
        }
    }
}

impl TryFrom<Value> for Binary {
    type Error = Value;

    ghost try_from_gives = { TakesOut BinaryOf };

    fn try_from(value: Value) -> Result<Binary, Value> {
        match value {
            Value::Binary(own) => Ok(own),
            other => Err(other),
        }
    }
}

impl TryFrom<Value> for String {
    type Error = Value;

    ghost try_from_gives = { TakesOut StringOf };

    fn try_from(value: Value) -> Result<String, Value> {
        match value {
            Value::String(own) => Ok(own),
            other => Err(other),
        }
    }
}

impl TryFrom<Value> for Symbol {
    type Error = Value;

    ghost try_from_gives = { TakesOut SymbolOf };

    fn try_from(value: Value) -> Result<Symbol, Value> {
        match value {
            Value::Symbol(own) => Ok(own),
            other => Err(other),
        }
    }
}

impl TryFrom<Value> for Box<Described<Value>> {
    type Error = Value;

    ghost try_from_gives = { TakesOut DescribedOf };

    fn try_from(value: Value) -> Result<Box<Described<Value>>, Value> {
        match value {
            Value::Described(own) => Ok(own),
            other => Err(other),
        }
    }
}

impl TryFrom<Value> for Vec<Value> {
    type Error = Value;

    ghost try_from_gives = { TakesOut ListOf };

    fn try_from(value: Value) -> Result<Vec<Value>, Value> {
        match value {
            Value::List(own) => Ok(own),
            other => Err(other),
        }
    }
}

impl TryFrom<Value> for ValueMap {
    type Error = Value;

    ghost try_from_gives = { TakesOut MapOf };

    fn try_from(value: Value) -> Result<ValueMap, Value> {
        match value {
            Value::Map(own) => Ok(own),
            other => Err(other),
        }
    }
}

impl TryFrom<Value> for Array<Value> {
    type Error = Value;

    ghost try_from_gives = { TakesOut ArrayOf };

    fn try_from(value: Value) -> Result<Array<Value>, Value> {
        match value {
            Value::Array(own) => Ok(own),
            other => Err(other),
        }
    }
}
