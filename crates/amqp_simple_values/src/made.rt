//! Simple values made of what a primitive kind's own type holds (Part 1, section 1.6).
ghost use Rattle.std.specs.Prelude.{◌≡◌, IfOk, IfErr};
ghost use Rattle.amqp_model.specs.Term.{leaf, string};
ghost use Rattle.amqp_wire.specs.declared.error.Error.TheVariants.{Memory};
ghost use Rattle.amqp_simple_values.specs.Simple.{simple_term};
ghost use Rattle.amqp_simple_values.specs.declared.simple.SimpleValue.TheVariants.{Null, Bool, Ubyte, Ushort, Uint, Ulong, Byte, Short, Int, Long};
ghost use Rattle.amqp_simple_values.specs.declared.simple.SimpleValue.TheVariants.{Decimal32, Decimal64, Decimal128, Char};
ghost use Rattle.amqp_simple_values.specs.declared.simple.SimpleValue.TheVariants.{Timestamp as TimestampOf, Uuid as UuidOf};
ghost use Rattle.amqp_simple_values.specs.declared.simple.SimpleValue.TheVariants.{Binary as BinaryOf, String as StringOf, Symbol as SymbolOf};

use crate::SimpleValue;
use amqp_primitives::{Binary, Dec32, Dec64, Dec128, Timestamp, Uuid};
use amqp_wire::{Error, Symbol};
use std::alloc::Global;

impl SimpleValue {
    /// Returns a string with a copy of this text. It returns `Memory` if an allocation fails.
    pub fn from_str_in(text: &str, alloc: Global) -> Result<SimpleValue, Error>
        ensures text { IfOk result (λ v. simple_term v ≡ leaf (string text.now)) }
        ensures memory { IfErr result (λ e. e ≡ Memory) }
    {
        Ok(SimpleValue::String(String::from_str(alloc, text)?))
    }
}

impl From<()> for SimpleValue {
    ghost from_gives = { λ _ value. value ≡ Null };

    fn from(_null: ()) -> SimpleValue {
        SimpleValue::Null
    }
}

impl From<bool> for SimpleValue {
    ghost from_gives = { λ own value. value ≡ Bool own };

    fn from(own: bool) -> SimpleValue {
        SimpleValue::Bool(own)
    }
}

impl From<u8> for SimpleValue {
    ghost from_gives = { λ own value. value ≡ Ubyte own };

    fn from(own: u8) -> SimpleValue {
        SimpleValue::Ubyte(own)
    }
}

impl From<u16> for SimpleValue {
    ghost from_gives = { λ own value. value ≡ Ushort own };

    fn from(own: u16) -> SimpleValue {
        SimpleValue::Ushort(own)
    }
}

impl From<u32> for SimpleValue {
    ghost from_gives = { λ own value. value ≡ Uint own };

    fn from(own: u32) -> SimpleValue {
        SimpleValue::Uint(own)
    }
}

impl From<u64> for SimpleValue {
    ghost from_gives = { λ own value. value ≡ Ulong own };

    fn from(own: u64) -> SimpleValue {
        SimpleValue::Ulong(own)
    }
}

impl From<i8> for SimpleValue {
    ghost from_gives = { λ own value. value ≡ Byte own };

    fn from(own: i8) -> SimpleValue {
        SimpleValue::Byte(own)
    }
}

impl From<i16> for SimpleValue {
    ghost from_gives = { λ own value. value ≡ Short own };

    fn from(own: i16) -> SimpleValue {
        SimpleValue::Short(own)
    }
}

impl From<i32> for SimpleValue {
    ghost from_gives = { λ own value. value ≡ Int own };

    fn from(own: i32) -> SimpleValue {
        SimpleValue::Int(own)
    }
}

impl From<i64> for SimpleValue {
    ghost from_gives = { λ own value. value ≡ Long own };

    fn from(own: i64) -> SimpleValue {
        SimpleValue::Long(own)
    }
}

impl From<Dec32> for SimpleValue {
    ghost from_gives = { λ own value. value ≡ Decimal32 own };

    fn from(own: Dec32) -> SimpleValue {
        SimpleValue::Decimal32(own)
    }
}

impl From<Dec64> for SimpleValue {
    ghost from_gives = { λ own value. value ≡ Decimal64 own };

    fn from(own: Dec64) -> SimpleValue {
        SimpleValue::Decimal64(own)
    }
}

impl From<Dec128> for SimpleValue {
    ghost from_gives = { λ own value. value ≡ Decimal128 own };

    fn from(own: Dec128) -> SimpleValue {
        SimpleValue::Decimal128(own)
    }
}

impl From<char> for SimpleValue {
    ghost from_gives = { λ own value. value ≡ Char own };

    fn from(own: char) -> SimpleValue {
        SimpleValue::Char(own)
    }
}

impl From<Timestamp> for SimpleValue {
    ghost from_gives = { λ own value. value ≡ TimestampOf own };

    fn from(own: Timestamp) -> SimpleValue {
        SimpleValue::Timestamp(own)
    }
}

impl From<Uuid> for SimpleValue {
    ghost from_gives = { λ own value. value ≡ UuidOf own };

    fn from(own: Uuid) -> SimpleValue {
        SimpleValue::Uuid(own)
    }
}

impl From<Binary> for SimpleValue {
    ghost from_gives = { λ own value. value ≡ BinaryOf own };

    fn from(own: Binary) -> SimpleValue {
        SimpleValue::Binary(own)
    }
}

impl From<String> for SimpleValue {
    ghost from_gives = { λ own value. value ≡ StringOf own };

    fn from(own: String) -> SimpleValue {
        SimpleValue::String(own)
    }
}

impl From<Symbol> for SimpleValue {
    ghost from_gives = { λ own value. value ≡ SymbolOf own };

    fn from(own: Symbol) -> SimpleValue {
        SimpleValue::Symbol(own)
    }
}
