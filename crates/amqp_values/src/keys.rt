//! Whether two pairs of a map have equal keys. Few pairs are compared by a walk. More pairs are compared by their keys' digests, and if two
//! digests are equal, by the keys' order.
ghost use Rattle.std.specs.Prelude.{◌≡◌, ◌≤◌, length, drop, map, IfOk, IsOk};
ghost use Rattle.amqp_codec.specs.EqualKeys.{is_among_keys, has_equal_keys};
ghost use Rattle.amqp_values.specs.Digests.{value_digest};
ghost use Rattle.amqp_values.specs.Equality.{turn_terms};
ghost use Rattle.amqp_values.specs.Values.{value_term};

use crate::Value;
use crate::digest::digest_of;
use crate::equality::same_value;
use crate::sorted::are_apart;
use std::alloc::{AllocError, Global};

// How many pairs are compared one by one, which doesn't allocate.
const FEW: usize = 8;

// Whether a key is among those of the pairs from a place on.
fn is_among(key: &Value, pairs: &[(Value, Value)], start: usize) -> bool
    requires { start ≤ length pairs.now }
    ensures { result ≡ is_among_keys (value_term key.now) (turn_terms (drop start pairs.now)) }
{
    for index in start..pairs.len() {
        if same_value(key, &pairs[index].0) {
            return true;
        }
    }
    false
}

// Whether two of the pairs have equal keys. Each key is compared with all later ones.
fn has_equal_among_few(pairs: &[(Value, Value)]) -> bool
    ensures { result ≡ has_equal_keys (turn_terms pairs.now) }
{
    for index in 0..pairs.len() {
        if is_among(&pairs[index].0, pairs, index + 1) {
            return true;
        }
    }
    false
}

// The digests of the keys, in their order.
fn digests_of(pairs: &[(Value, Value)], alloc: Global) -> Result<Vec<u64>, AllocError>
    ensures { IfOk result (λ digests. digests.items ≡ map (λ p. value_digest p.0) pairs.now) }
{
    let mut digests = Vec::with_capacity(alloc, pairs.len())?;
    for pair in pairs {
        digests.push(digest_of(&pair.0))?;
    }
    Ok(digests)
}

// The keys, which are borrowed.
fn keys_of<'a>(pairs: &'a [(Value, Value)], alloc: Global) -> Result<Vec<&'a Value>, AllocError>
    ensures { IfOk result (λ keys. map (λ k. k.now) keys.items ≡ map (λ p. p.0) pairs.now) }
{
    let mut keys = Vec::with_capacity(alloc, pairs.len())?;
    for pair in pairs {
        keys.push(&pair.0)?;
    }
    Ok(keys)
}

/// Returns whether two of the pairs have equal keys.
pub(crate) fn has_equal_keys(pairs: &[(Value, Value)], alloc: Global) -> Result<bool, AllocError>
    ensures equal { IfOk result (λ found. found ≡ has_equal_keys (turn_terms pairs.now)) }
    ensures few { length pairs.now ≤ 8 → IsOk result }
{
    if pairs.len() <= FEW {
        return Ok(has_equal_among_few(pairs));
    }
    let digests = digests_of(pairs, alloc)?;
    if are_apart(digests) {
        return Ok(false);
    }
    let keys = keys_of(pairs, alloc)?;
    Ok(!are_apart(keys))
}
