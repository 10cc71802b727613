//! What holds for the primitive types in addition to the laws of every type. The functions do nothing; their contracts are proved.
ghost use Rattle.std.specs.Prelude.{◌≡◌, true, false, string_bytes};
ghost use Rattle.std.specs.Ordering.{nat_cmp, int_cmp};
ghost use Rattle.std.specs.Cmp.Lexicographic.{slice_cmp};

use crate::{Binary, Dec32, Dec64, Dec128, SymbolRef, Timestamp, Uuid};
use amqp_codec::{Canonical, Deserialize, Symbol};

/// Primitives of a known width are read without allocating, so `from_slice` never returns `Memory` for them.
pub fn reading_takes_no_memory()
    ensures null { ⟦<() as Deserialize>⟧.reading.takes_memory ≡ false }
    ensures boolean { ⟦<bool as Deserialize>⟧.reading.takes_memory ≡ false }
    ensures ubyte { ⟦<u8 as Deserialize>⟧.reading.takes_memory ≡ false }
    ensures ushort { ⟦<u16 as Deserialize>⟧.reading.takes_memory ≡ false }
    ensures uint { ⟦<u32 as Deserialize>⟧.reading.takes_memory ≡ false }
    ensures ulong { ⟦<u64 as Deserialize>⟧.reading.takes_memory ≡ false }
    ensures byte { ⟦<i8 as Deserialize>⟧.reading.takes_memory ≡ false }
    ensures short { ⟦<i16 as Deserialize>⟧.reading.takes_memory ≡ false }
    ensures int { ⟦<i32 as Deserialize>⟧.reading.takes_memory ≡ false }
    ensures long { ⟦<i64 as Deserialize>⟧.reading.takes_memory ≡ false }
    ensures decimal32 { ⟦<Dec32 as Deserialize>⟧.reading.takes_memory ≡ false }
    ensures decimal64 { ⟦<Dec64 as Deserialize>⟧.reading.takes_memory ≡ false }
    ensures decimal128 { ⟦<Dec128 as Deserialize>⟧.reading.takes_memory ≡ false }
    ensures character { ⟦<char as Deserialize>⟧.reading.takes_memory ≡ false }
    ensures timestamp { ⟦<Timestamp as Deserialize>⟧.reading.takes_memory ≡ false }
    ensures uuid { ⟦<Uuid as Deserialize>⟧.reading.takes_memory ≡ false }
{}

/// For these types, no encoding of a value is shorter than its canonical text.
pub fn texts_are_least()
    ensures decimal32 { ⟦<Dec32 as Canonical>⟧.is_least ≡ true }
    ensures decimal64 { ⟦<Dec64 as Canonical>⟧.is_least ≡ true }
    ensures decimal128 { ⟦<Dec128 as Canonical>⟧.is_least ≡ true }
    ensures timestamp { ⟦<Timestamp as Canonical>⟧.is_least ≡ true }
    ensures uuid { ⟦<Uuid as Canonical>⟧.is_least ≡ true }
    ensures binary { ⟦<Binary as Canonical>⟧.is_least ≡ true }
{}

/// Points in time are ordered as their milliseconds. The other types are ordered as their bytes, by the first that differs; a row of bytes
/// comes before a longer one that begins with it.
pub fn orders()
    ensures timestamp { (a b : _) → ⟦<Timestamp as Ord>⟧.cmp a b ≡ int_cmp a.0 b.0 }
    ensures decimal32 { (a b : _) → ⟦<Dec32 as Ord>⟧.cmp a b ≡ slice_cmp nat_cmp a.0 b.0 }
    ensures decimal64 { (a b : _) → ⟦<Dec64 as Ord>⟧.cmp a b ≡ slice_cmp nat_cmp a.0 b.0 }
    ensures decimal128 { (a b : _) → ⟦<Dec128 as Ord>⟧.cmp a b ≡ slice_cmp nat_cmp a.0 b.0 }
    ensures uuid { (a b : _) → ⟦<Uuid as Ord>⟧.cmp a b ≡ slice_cmp nat_cmp a.0 b.0 }
    ensures binary { (a b : _) → ⟦<Binary as Ord>⟧.cmp a b ≡ slice_cmp nat_cmp a.0.items b.0.items }
    ensures symbol { (a b : _) → ⟦<Symbol as Ord>⟧.cmp a b ≡ slice_cmp nat_cmp (string_bytes a.0) (string_bytes b.0) }
    ensures symbol_ref { (a b : _) → ⟦<SymbolRef<'static> as Ord>⟧.cmp a b ≡ slice_cmp nat_cmp a.0.now b.0.now }
{}
