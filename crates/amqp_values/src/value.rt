//! Values of any kind (Part 1, section 1.6).
use crate::ValueMap;
use amqp_containers::Array;
use amqp_described::Described;
use amqp_primitives::{Binary, Dec32, Dec64, Dec128, Timestamp, Uuid};
use amqp_wire::Symbol;

/// A value of any kind (Part 1, section 1.6), except floats. The variants are in the order of the standard's kinds, with null first and
/// those that hold other values last. A variant of a primitive kind holds that kind's own type.
#[cycle(values)]
#[derive(Debug, Default, Drop)]
pub enum Value {
    /// No value (section 1.6.1).
    #[default]
    Null,
    /// A boolean (section 1.6.2).
    Bool(bool),
    /// An unsigned number of 8 bits (section 1.6.3).
    Ubyte(u8),
    /// An unsigned number of 16 bits (section 1.6.4).
    Ushort(u16),
    /// An unsigned number of 32 bits (section 1.6.5).
    Uint(u32),
    /// An unsigned number of 64 bits (section 1.6.6).
    Ulong(u64),
    /// A signed number of 8 bits (section 1.6.7).
    Byte(i8),
    /// A signed number of 16 bits (section 1.6.8).
    Short(i16),
    /// A signed number of 32 bits (section 1.6.9).
    Int(i32),
    /// A signed number of 64 bits (section 1.6.10).
    Long(i64),
    /// A decimal number of 32 bits, as its bytes (section 1.6.13).
    Decimal32(Dec32),
    /// A decimal number of 64 bits, as its bytes (section 1.6.14).
    Decimal64(Dec64),
    /// A decimal number of 128 bits, as its bytes (section 1.6.15).
    Decimal128(Dec128),
    /// A character (section 1.6.16).
    Char(char),
    /// A point in time, in milliseconds since 1970 (section 1.6.17).
    Timestamp(Timestamp),
    /// A universally unique identifier (section 1.6.18).
    Uuid(Uuid),
    /// Bytes (section 1.6.19).
    Binary(Binary),
    /// Text (section 1.6.20).
    String(String),
    /// A symbol (section 1.6.21). One that was read is ASCII, and one that is written must be.
    Symbol(Symbol),
    /// A value under a descriptor (section 1.2).
    Described(Box<Described<Value>>),
    /// Values of any kinds (section 1.6.22).
    List(Vec<Value>),
    /// Values under keys, both of any kinds (section 1.6.23).
    Map(ValueMap),
    /// Values that are written under one constructor (section 1.6.24).
    Array(Array<Value>),
}
