//! What simple values hold, moved out of them. A value of another kind is returned.
ghost use Rattle.amqp_simple_values.specs.Taken.{TakesOut};
ghost use Rattle.amqp_simple_values.specs.declared.simple.SimpleValue.TheVariants.{Bool, Ubyte, Ushort, Uint, Ulong, Byte, Short, Int, Long};
ghost use Rattle.amqp_simple_values.specs.declared.simple.SimpleValue.TheVariants.{Decimal32, Decimal64, Decimal128, Char};
ghost use Rattle.amqp_simple_values.specs.declared.simple.SimpleValue.TheVariants.{Timestamp as TimestampOf, Uuid as UuidOf};
ghost use Rattle.amqp_simple_values.specs.declared.simple.SimpleValue.TheVariants.{Binary as BinaryOf, String as StringOf, Symbol as SymbolOf};

use crate::SimpleValue;
use amqp_primitives::{Binary, Dec32, Dec64, Dec128, Timestamp, Uuid};
use amqp_wire::Symbol;

impl TryFrom<SimpleValue> for bool {
    type Error = SimpleValue;

    ghost try_from_gives = { TakesOut Bool };

    fn try_from(value: SimpleValue) -> Result<bool, SimpleValue> {
        match value {
            SimpleValue::Bool(own) => Ok(own),
            other => Err(other),
        }
    }
}

impl TryFrom<SimpleValue> for u8 {
    type Error = SimpleValue;

    ghost try_from_gives = { TakesOut Ubyte };

    fn try_from(value: SimpleValue) -> Result<u8, SimpleValue> {
        match value {
            SimpleValue::Ubyte(own) => Ok(own),
            other => Err(other),
        }
    }
}

impl TryFrom<SimpleValue> for u16 {
    type Error = SimpleValue;

    ghost try_from_gives = { TakesOut Ushort };

    fn try_from(value: SimpleValue) -> Result<u16, SimpleValue> {
        match value {
            SimpleValue::Ushort(own) => Ok(own),
            other => Err(other),
        }
    }
}

impl TryFrom<SimpleValue> for u32 {
    type Error = SimpleValue;

    ghost try_from_gives = { TakesOut Uint };

    fn try_from(value: SimpleValue) -> Result<u32, SimpleValue> {
        match value {
            SimpleValue::Uint(own) => Ok(own),
            other => Err(other),
        }
    }
}

impl TryFrom<SimpleValue> for u64 {
    type Error = SimpleValue;

    ghost try_from_gives = { TakesOut Ulong };

    fn try_from(value: SimpleValue) -> Result<u64, SimpleValue> {
        match value {
            SimpleValue::Ulong(own) => Ok(own),
            other => Err(other),
        }
    }
}

impl TryFrom<SimpleValue> for i8 {
    type Error = SimpleValue;

    ghost try_from_gives = { TakesOut Byte };

    fn try_from(value: SimpleValue) -> Result<i8, SimpleValue> {
        match value {
            SimpleValue::Byte(own) => Ok(own),
            other => Err(other),
        }
    }
}

impl TryFrom<SimpleValue> for i16 {
    type Error = SimpleValue;

    ghost try_from_gives = { TakesOut Short };

    fn try_from(value: SimpleValue) -> Result<i16, SimpleValue> {
        match value {
            SimpleValue::Short(own) => Ok(own),
            other => Err(other),
        }
    }
}

impl TryFrom<SimpleValue> for i32 {
    type Error = SimpleValue;

    ghost try_from_gives = { TakesOut Int };

    fn try_from(value: SimpleValue) -> Result<i32, SimpleValue> {
        match value {
            SimpleValue::Int(own) => Ok(own),
            other => Err(other),
        }
    }
}

impl TryFrom<SimpleValue> for i64 {
    type Error = SimpleValue;

    ghost try_from_gives = { TakesOut Long };

    fn try_from(value: SimpleValue) -> Result<i64, SimpleValue> {
        match value {
            SimpleValue::Long(own) => Ok(own),
            other => Err(other),
        }
    }
}

impl TryFrom<SimpleValue> for Dec32 {
    type Error = SimpleValue;

    ghost try_from_gives = { TakesOut Decimal32 };

    fn try_from(value: SimpleValue) -> Result<Dec32, SimpleValue> {
        match value {
            SimpleValue::Decimal32(own) => Ok(own),
            other => Err(other),
        }
    }
}

impl TryFrom<SimpleValue> for Dec64 {
    type Error = SimpleValue;

    ghost try_from_gives = { TakesOut Decimal64 };

    fn try_from(value: SimpleValue) -> Result<Dec64, SimpleValue> {
        match value {
            SimpleValue::Decimal64(own) => Ok(own),
            other => Err(other),
        }
    }
}

impl TryFrom<SimpleValue> for Dec128 {
    type Error = SimpleValue;

    ghost try_from_gives = { TakesOut Decimal128 };

    fn try_from(value: SimpleValue) -> Result<Dec128, SimpleValue> {
        match value {
            SimpleValue::Decimal128(own) => Ok(own),
            other => Err(other),
        }
    }
}

impl TryFrom<SimpleValue> for char {
    type Error = SimpleValue;

    ghost try_from_gives = { TakesOut Char };

    fn try_from(value: SimpleValue) -> Result<char, SimpleValue> {
        match value {
            SimpleValue::Char(own) => Ok(own),
            other => Err(other),
        }
    }
}

impl TryFrom<SimpleValue> for Timestamp {
    type Error = SimpleValue;

    ghost try_from_gives = { TakesOut TimestampOf };

    fn try_from(value: SimpleValue) -> Result<Timestamp, SimpleValue> {
        match value {
            SimpleValue::Timestamp(own) => Ok(own),
            other => Err(other),
        }
    }
}

impl TryFrom<SimpleValue> for Uuid {
    type Error = SimpleValue;

    ghost try_from_gives = { TakesOut UuidOf };

    fn try_from(value: SimpleValue) -> Result<Uuid, SimpleValue> {
        match value {
            SimpleValue::Uuid(own) => Ok(own),
            other => Err(other),
        }
    }
}

impl TryFrom<SimpleValue> for Binary {
    type Error = SimpleValue;

    ghost try_from_gives = { TakesOut BinaryOf };

    fn try_from(value: SimpleValue) -> Result<Binary, SimpleValue> {
        match value {
            SimpleValue::Binary(own) => Ok(own),
            other => Err(other),
        }
    }
}

impl TryFrom<SimpleValue> for String {
    type Error = SimpleValue;

    ghost try_from_gives = { TakesOut StringOf };

    fn try_from(value: SimpleValue) -> Result<String, SimpleValue> {
        match value {
            SimpleValue::String(own) => Ok(own),
            other => Err(other),
        }
    }
}

impl TryFrom<SimpleValue> for Symbol {
    type Error = SimpleValue;

    ghost try_from_gives = { TakesOut SymbolOf };

    fn try_from(value: SimpleValue) -> Result<Symbol, SimpleValue> {
        match value {
            SimpleValue::Symbol(own) => Ok(own),
            other => Err(other),
        }
    }
}
