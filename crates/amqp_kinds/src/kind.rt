//! The kinds of terms, which are determined by first codes.
ghost use Rattle.std.specs.Prelude.{◌≡◌};
ghost use Rattle.amqp_kinds.specs.Kinds.{kind_at};

use amqp_wire::format_code;

/// What a term is (Part 1, sections 1.2 and 1.6).
#[derive(Clone, Copy, Debug, PartialEq, Eq)]
pub enum Kind {
    Null,
    Bool,
    Ubyte,
    Ushort,
    Uint,
    Ulong,
    Byte,
    Short,
    Int,
    Long,
    Decimal32,
    Decimal64,
    Decimal128,
    Char,
    Timestamp,
    Uuid,
    Binary,
    String,
    Symbol,
    Described,
    List,
    Map,
    Array,
}

/// Returns the kind that a code announces: null if it announces none.
pub fn kind_of(code: u8) -> Kind
    ensures { result ≡ kind_at code }
{
    match code {
        format_code::DESCRIBED => Kind::Described,
        format_code::BOOLEAN_TRUE | format_code::BOOLEAN_FALSE | format_code::BOOLEAN => Kind::Bool,
        format_code::UBYTE => Kind::Ubyte,
        format_code::USHORT => Kind::Ushort,
        format_code::UINT_0 | format_code::SMALL_UINT | format_code::UINT => Kind::Uint,
        format_code::ULONG_0 | format_code::SMALL_ULONG | format_code::ULONG => Kind::Ulong,
        format_code::BYTE => Kind::Byte,
        format_code::SHORT => Kind::Short,
        format_code::SMALL_INT | format_code::INT => Kind::Int,
        format_code::SMALL_LONG | format_code::LONG => Kind::Long,
        format_code::DECIMAL_32 => Kind::Decimal32,
        format_code::DECIMAL_64 => Kind::Decimal64,
        format_code::DECIMAL_128 => Kind::Decimal128,
        format_code::CHAR => Kind::Char,
        format_code::TIMESTAMP => Kind::Timestamp,
        format_code::UUID => Kind::Uuid,
        format_code::BINARY_8 | format_code::BINARY_32 => Kind::Binary,
        format_code::STRING_8 | format_code::STRING_32 => Kind::String,
        format_code::SYMBOL_8 | format_code::SYMBOL_32 => Kind::Symbol,
        format_code::LIST_0 | format_code::LIST_8 | format_code::LIST_32 => Kind::List,
        format_code::MAP_8 | format_code::MAP_32 => Kind::Map,
        format_code::ARRAY_8 | format_code::ARRAY_32 => Kind::Array,
        _ => Kind::Null,
    }
}
