//! The format codes of values of any kind.
ghost use Rattle.std.specs.Prelude.{◌≡◌};
ghost use Rattle.amqp_values.specs.FormatCodes.{format_code};
ghost use Rattle.amqp_values.specs.Values.{value_term};

use crate::Value;
use amqp_wire::format_code as code;

impl Value {
    /// Returns the code of the value's kind, which items of an array have (Part 1, sections 1.2.4 and 1.6). It is the code with the widest
    /// data of the kind. It is 0x40 for null, and 0x00 for a described value. It doesn't allocate.
    pub fn format_code(&self) -> u8
        ensures { result ≡ format_code (value_term self.now) }
    {
        match self {
            Value::Null => code::NULL,
            Value::Bool(_) => code::BOOLEAN,
            Value::Ubyte(_) => code::UBYTE,
            Value::Ushort(_) => code::USHORT,
            Value::Uint(_) => code::UINT,
            Value::Ulong(_) => code::ULONG,
            Value::Byte(_) => code::BYTE,
            Value::Short(_) => code::SHORT,
            Value::Int(_) => code::INT,
            Value::Long(_) => code::LONG,
            Value::Decimal32(_) => code::DECIMAL_32,
            Value::Decimal64(_) => code::DECIMAL_64,
            Value::Decimal128(_) => code::DECIMAL_128,
            Value::Char(_) => code::CHAR,
            Value::Timestamp(_) => code::TIMESTAMP,
            Value::Uuid(_) => code::UUID,
            Value::Binary(_) => code::BINARY_32,
            Value::String(_) => code::STRING_32,
            Value::Symbol(_) => code::SYMBOL_32,
            Value::Described(_) => code::DESCRIBED,
            Value::List(_) => code::LIST_32,
            Value::Map(_) => code::MAP_32,
            Value::Array(_) => code::ARRAY_32,
        }
    }
}
