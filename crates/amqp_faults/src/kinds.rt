//! The standard's names of primitive types and of containers (Part 1, section 1.6).
use amqp_kinds::Kind;

/// Returns the standard's name of a kind of values; a value with a descriptor is `described`.
pub fn type_name(kind: Kind) -> &'static str {
    match kind {
        Kind::Null => "null",
        Kind::Bool => "boolean",
        Kind::Ubyte => "ubyte",
        Kind::Ushort => "ushort",
        Kind::Uint => "uint",
        Kind::Ulong => "ulong",
        Kind::Byte => "byte",
        Kind::Short => "short",
        Kind::Int => "int",
        Kind::Long => "long",
        Kind::Decimal32 => "decimal32",
        Kind::Decimal64 => "decimal64",
        Kind::Decimal128 => "decimal128",
        Kind::Char => "char",
        Kind::Timestamp => "timestamp",
        Kind::Uuid => "uuid",
        Kind::Binary => "binary",
        Kind::String => "string",
        Kind::Symbol => "symbol",
        Kind::Described => "described",
        Kind::List => "list",
        Kind::Map => "map",
        Kind::Array => "array",
    }
}
