//! Types whose values may be the keys of a map (Part 1, section 1.6.23).
ghost use Rattle.std.specs.Prelude.{refl, string_bytes};
ghost use Rattle.std.specs.Cmp.{booleans_Decides, signed_Decides, unsigned_Decides};
ghost use Rattle.std.proofs.lemmas.Slice.Eq.{bytes_eq-Decides};
ghost use Rattle.amqp_codec.specs.Keys.{IsKey};
ghost use Rattle.amqp_codec.specs.laws.Key.{key_of};

use crate::DeserializeTerm;
use amqp_wire::Symbol;
use std::hash::Hash;

/// What may be the key of a map, in which no two keys are equal. Two keys that can be written are equal exactly if their canonical texts
/// are, and equal keys have one hash.
pub trait MapKey: DeserializeTerm + Eq + Hash {
    // Equal keys are one value, which is read as it was written.
    ghost is_key: { IsKey Self.term Self.eq };
}

impl MapKey for bool {
    ghost is_key = { key_of refl booleans_Decides };
}

impl MapKey for u8 {
    ghost is_key = { key_of refl unsigned_Decides };
}

impl MapKey for u16 {
    ghost is_key = { key_of refl unsigned_Decides };
}

impl MapKey for u32 {
    ghost is_key = { key_of refl unsigned_Decides };
}

impl MapKey for u64 {
    ghost is_key = { key_of refl unsigned_Decides };
}

impl MapKey for i8 {
    ghost is_key = { key_of refl signed_Decides };
}

impl MapKey for i16 {
    ghost is_key = { key_of refl signed_Decides };
}

impl MapKey for i32 {
    ghost is_key = { key_of refl signed_Decides };
}

impl MapKey for i64 {
    ghost is_key = { key_of refl signed_Decides };
}

impl MapKey for char {
    ghost is_key = { key_of refl unsigned_Decides };
}

impl MapKey for String {
    ghost is_key = { key_of refl (λ v w. bytes_eq-Decides (string_bytes v) (string_bytes w)) };
}

impl MapKey for Symbol {
    ghost is_key = { key_of refl (λ v w. bytes_eq-Decides (string_bytes v.0) (string_bytes w.0)) };
}
