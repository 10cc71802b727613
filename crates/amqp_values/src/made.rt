//! Values of any kind made of what a kind's own type holds (Part 1, section 1.6).
ghost use Rattle.std.specs.Prelude.{◌≡◌};
ghost use Rattle.amqp_values.specs.declared.value.Value.{Null, Bool, Ubyte, Ushort, Uint, Ulong, Byte, Short, Int, Long, Decimal32};
ghost use Rattle.amqp_values.specs.declared.value.Value.{Decimal64, Decimal128, Char, Timestamp as TimestampOf, Uuid as UuidOf};
ghost use Rattle.amqp_values.specs.declared.value.Value.{Binary as BinaryOf, String as StringOf, Symbol as SymbolOf};
ghost use Rattle.amqp_values.specs.declared.value.Value.{Described as DescribedOf, List as ListOf, Map as MapOf, Array as ArrayOf};

use crate::{Value, ValueMap};
use amqp_containers::Array;
use amqp_described::Described;
use amqp_primitives::{Binary, Dec32, Dec64, Dec128, Timestamp, Uuid};
use amqp_wire::Symbol;

impl From<()> for Value {
    ghost from_gives = { λ _ value. value ≡ Null };

    fn from(_null: ()) -> Value {
        Value::Null
    }
}

impl From<bool> for Value {
    ghost from_gives = { λ own value. value ≡ Bool own };

    fn from(own: bool) -> Value {
        Value::Bool(own)
    }
}

impl From<u8> for Value {
    ghost from_gives = { λ own value. value ≡ Ubyte own };

    fn from(own: u8) -> Value {
        Value::Ubyte(own)
    }
}

impl From<u16> for Value {
    ghost from_gives = { λ own value. value ≡ Ushort own };

    fn from(own: u16) -> Value {
        Value::Ushort(own)
    }
}

impl From<u32> for Value {
    ghost from_gives = { λ own value. value ≡ Uint own };

    fn from(own: u32) -> Value {
        Value::Uint(own)
    }
}

impl From<u64> for Value {
    ghost from_gives = { λ own value. value ≡ Ulong own };

    fn from(own: u64) -> Value {
        Value::Ulong(own)
    }
}

impl From<i8> for Value {
    ghost from_gives = { λ own value. value ≡ Byte own };

    fn from(own: i8) -> Value {
        Value::Byte(own)
    }
}

impl From<i16> for Value {
    ghost from_gives = { λ own value. value ≡ Short own };

    fn from(own: i16) -> Value {
        Value::Short(own)
    }
}

impl From<i32> for Value {
    ghost from_gives = { λ own value. value ≡ Int own };

    fn from(own: i32) -> Value {
        Value::Int(own)
    }
}

impl From<i64> for Value {
    ghost from_gives = { λ own value. value ≡ Long own };

    fn from(own: i64) -> Value {
        Value::Long(own)
    }
}

impl From<Dec32> for Value {
    ghost from_gives = { λ own value. value ≡ Decimal32 own };

    fn from(own: Dec32) -> Value {
        Value::Decimal32(own)
    }
}

impl From<Dec64> for Value {
    ghost from_gives = { λ own value. value ≡ Decimal64 own };

    fn from(own: Dec64) -> Value {
        Value::Decimal64(own)
    }
}

impl From<Dec128> for Value {
    ghost from_gives = { λ own value. value ≡ Decimal128 own };

    fn from(own: Dec128) -> Value {
        Value::Decimal128(own)
    }
}

impl From<char> for Value {
    ghost from_gives = { λ own value. value ≡ Char own };

    fn from(own: char) -> Value {
        Value::Char(own)
    }
}

impl From<Timestamp> for Value {
    ghost from_gives = { λ own value. value ≡ TimestampOf own };

    fn from(own: Timestamp) -> Value {
        Value::Timestamp(own)
    }
}

impl From<Uuid> for Value {
    ghost from_gives = { λ own value. value ≡ UuidOf own };

    fn from(own: Uuid) -> Value {
        Value::Uuid(own)
    }
}

impl From<Binary> for Value {
    ghost from_gives = { λ own value. value ≡ BinaryOf own };

    fn from(own: Binary) -> Value {
        Value::Binary(own)
    }
}

impl From<String> for Value {
    ghost from_gives = { λ own value. value ≡ StringOf own };

    fn from(own: String) -> Value {
        Value::String(own)
    }
}

impl From<Symbol> for Value {
    ghost from_gives = { λ own value. value ≡ SymbolOf own };

    fn from(own: Symbol) -> Value {
        Value::Symbol(own)
    }
}

impl From<Box<Described<Value>>> for Value {
    ghost from_gives = { λ own value. value ≡ DescribedOf own };

    fn from(own: Box<Described<Value>>) -> Value {
        Value::Described(own)
    }
}

impl From<Vec<Value>> for Value {
    ghost from_gives = { λ own value. value ≡ ListOf own };

    fn from(own: Vec<Value>) -> Value {
        Value::List(own)
    }
}

impl From<ValueMap> for Value {
    ghost from_gives = { λ own value. value ≡ MapOf own };

    fn from(own: ValueMap) -> Value {
        Value::Map(own)
    }
}

impl From<Array<Value>> for Value {
    ghost from_gives = { λ own value. value ≡ ArrayOf own };

    fn from(own: Array<Value>) -> Value {
        Value::Array(own)
    }
}
