//! Simple values as values of any kind, and back.
ghost use Rattle.std.specs.Prelude.{◌≡◌};
ghost use Rattle.amqp_simple_values.specs.Simple.{as_value, Simplifies};

use crate::SimpleValue;
use amqp_values::Value;
use amqp_wire::Error;

impl From<SimpleValue> for Value {
    ghost from_gives = { λ simple value. value ≡ as_value simple };

    fn from(simple: SimpleValue) -> Value {
        match simple {
            SimpleValue::Null => Value::Null,
            SimpleValue::Bool(own) => Value::Bool(own),
            SimpleValue::Ubyte(own) => Value::Ubyte(own),
            SimpleValue::Ushort(own) => Value::Ushort(own),
            SimpleValue::Uint(own) => Value::Uint(own),
            SimpleValue::Ulong(own) => Value::Ulong(own),
            SimpleValue::Byte(own) => Value::Byte(own),
            SimpleValue::Short(own) => Value::Short(own),
            SimpleValue::Int(own) => Value::Int(own),
            SimpleValue::Long(own) => Value::Long(own),
            SimpleValue::Decimal32(own) => Value::Decimal32(own),
            SimpleValue::Decimal64(own) => Value::Decimal64(own),
            SimpleValue::Decimal128(own) => Value::Decimal128(own),
            SimpleValue::Char(own) => Value::Char(own),
            SimpleValue::Timestamp(own) => Value::Timestamp(own),
            SimpleValue::Uuid(own) => Value::Uuid(own),
            SimpleValue::Binary(own) => Value::Binary(own),
            SimpleValue::String(own) => Value::String(own),
            SimpleValue::Symbol(own) => Value::Symbol(own),
            SimpleValue::Described(own) => Value::Described(own),
        }
    }
}

impl TryFrom<Value> for SimpleValue {
    type Error = Error;

    ghost try_from_gives = { Simplifies };

    fn try_from(value: Value) -> Result<SimpleValue, Error> {
        match value {
            Value::Null => Ok(SimpleValue::Null),
            Value::Bool(own) => Ok(SimpleValue::Bool(own)),
            Value::Ubyte(own) => Ok(SimpleValue::Ubyte(own)),
            Value::Ushort(own) => Ok(SimpleValue::Ushort(own)),
            Value::Uint(own) => Ok(SimpleValue::Uint(own)),
            Value::Ulong(own) => Ok(SimpleValue::Ulong(own)),
            Value::Byte(own) => Ok(SimpleValue::Byte(own)),
            Value::Short(own) => Ok(SimpleValue::Short(own)),
            Value::Int(own) => Ok(SimpleValue::Int(own)),
            Value::Long(own) => Ok(SimpleValue::Long(own)),
            Value::Decimal32(own) => Ok(SimpleValue::Decimal32(own)),
            Value::Decimal64(own) => Ok(SimpleValue::Decimal64(own)),
            Value::Decimal128(own) => Ok(SimpleValue::Decimal128(own)),
            Value::Char(own) => Ok(SimpleValue::Char(own)),
            Value::Timestamp(own) => Ok(SimpleValue::Timestamp(own)),
            Value::Uuid(own) => Ok(SimpleValue::Uuid(own)),
            Value::Binary(own) => Ok(SimpleValue::Binary(own)),
            Value::String(own) => Ok(SimpleValue::String(own)),
            Value::Symbol(own) => Ok(SimpleValue::Symbol(own)),
            Value::Described(own) => Ok(SimpleValue::Described(own)),
            Value::List(_) | Value::Map(_) | Value::Array(_) => Err(Error::InvalidValue),
        }
    }
}
