//! Values of any kind except lists, maps and arrays (Part 3, section 3.2.5).
use amqp_described::Described;
use amqp_primitives::{Binary, Dec32, Dec64, Dec128, Timestamp, Uuid};
use amqp_values::Value;
use amqp_wire::Symbol;

/// A value of any kind except a list, a map, an array or a float: what application properties hold (Part 3, section 3.2.5). The variants
/// are those of `Value`, in their order. A described value may be of any kind under its descriptor.
///
/// It is read and written as its `Value` is; but in reading, a list, a map or an array is refused with `InvalidValue` at its first code.
#[derive(Debug, Default, Drop)]
pub enum SimpleValue {
    /// No value (Part 1, section 1.6.1).
    #[default]
    Null,
    /// A boolean (Part 1, section 1.6.2).
    Bool(bool),
    /// An unsigned number of 8 bits (Part 1, section 1.6.3).
    Ubyte(u8),
    /// An unsigned number of 16 bits (Part 1, section 1.6.4).
    Ushort(u16),
    /// An unsigned number of 32 bits (Part 1, section 1.6.5).
    Uint(u32),
    /// An unsigned number of 64 bits (Part 1, section 1.6.6).
    Ulong(u64),
    /// A signed number of 8 bits (Part 1, section 1.6.7).
    Byte(i8),
    /// A signed number of 16 bits (Part 1, section 1.6.8).
    Short(i16),
    /// A signed number of 32 bits (Part 1, section 1.6.9).
    Int(i32),
    /// A signed number of 64 bits (Part 1, section 1.6.10).
    Long(i64),
    /// A decimal number of 32 bits, as its bytes (Part 1, section 1.6.13).
    Decimal32(Dec32),
    /// A decimal number of 64 bits, as its bytes (Part 1, section 1.6.14).
    Decimal64(Dec64),
    /// A decimal number of 128 bits, as its bytes (Part 1, section 1.6.15).
    Decimal128(Dec128),
    /// A character (Part 1, section 1.6.16).
    Char(char),
    /// A point in time, in milliseconds since 1970 (Part 1, section 1.6.17).
    Timestamp(Timestamp),
    /// A universally unique identifier (Part 1, section 1.6.18).
    Uuid(Uuid),
    /// Bytes (Part 1, section 1.6.19).
    Binary(Binary),
    /// Text (Part 1, section 1.6.20).
    String(String),
    /// A symbol (Part 1, section 1.6.21). One that was read is ASCII, and one that is written must be.
    Symbol(Symbol),
    /// A value under a descriptor (Part 1, section 1.2).
    Described(Box<Described<Value>>),
}
