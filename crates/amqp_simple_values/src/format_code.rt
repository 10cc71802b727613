//! The format codes of simple values.
ghost use Rattle.std.specs.Prelude.{◌≡◌};
ghost use Rattle.amqp_values.specs.FormatCodes.{format_code};
ghost use Rattle.amqp_simple_values.specs.Simple.{simple_term};

use crate::SimpleValue;
use amqp_wire::format_code as code;

impl SimpleValue {
    /// Returns the code of the value's kind, which items of an array have (Part 1, sections 1.2.4 and 1.6). It is the code with the widest
    /// data of the kind. It is 0x40 for null, and 0x00 for a described value. It doesn't allocate.
    pub fn format_code(&self) -> u8
        ensures { result ≡ format_code (simple_term self.now) }
    {
        match self {
            SimpleValue::Null => code::NULL,
            SimpleValue::Bool(_) => code::BOOLEAN,
            SimpleValue::Ubyte(_) => code::UBYTE,
            SimpleValue::Ushort(_) => code::USHORT,
            SimpleValue::Uint(_) => code::UINT,
            SimpleValue::Ulong(_) => code::ULONG,
            SimpleValue::Byte(_) => code::BYTE,
            SimpleValue::Short(_) => code::SHORT,
            SimpleValue::Int(_) => code::INT,
            SimpleValue::Long(_) => code::LONG,
            SimpleValue::Decimal32(_) => code::DECIMAL_32,
            SimpleValue::Decimal64(_) => code::DECIMAL_64,
            SimpleValue::Decimal128(_) => code::DECIMAL_128,
            SimpleValue::Char(_) => code::CHAR,
            SimpleValue::Timestamp(_) => code::TIMESTAMP,
            SimpleValue::Uuid(_) => code::UUID,
            SimpleValue::Binary(_) => code::BINARY_32,
            SimpleValue::String(_) => code::STRING_32,
            SimpleValue::Symbol(_) => code::SYMBOL_32,
            SimpleValue::Described(_) => code::DESCRIBED,
        }
    }
}
