//! Limits of the caller on what is read. They are a rule of this project: the standard sets none.
ghost use Rattle.std.specs.Prelude.{◌≡◌, ◌≤◌, ◌<◌, MatchOption};
ghost use Rattle.amqp_wire.specs.Limits.{unlimited};

use crate::nesting::NESTING;

/// Limits on what is read: how deep values nest, how many bytes are taken, and how many items there are in them. Input past the limit on
/// bytes or on items is refused with `Error::Limit`. Deeper nesting is refused with `Error::Depth` if `nesting` is 128, and with
/// `Error::Limit` if the caller allows less.
///
/// The limits also hold the seed by which the keys of maps are hashed. No value depends on it, only the time that it takes to read one.
#[derive(Clone, Copy, Debug, PartialEq, Eq)]
pub struct Limits {
    nesting: u32,
    bytes: u64,
    items: u64,
    hash_seed: u64,
    pub ghost nests: { nesting ≤ 128 },
}

impl Limits {
    /// Returns these limits, or `None` if `nesting` is above 128.
    ///
    /// - `nesting` is how deep values may nest. Lists, maps and described values count, and an array counts if one of its items is no
    ///   primitive.
    /// - `bytes` is how many bytes may be read; `u64::MAX` sets no limit.
    /// - `items` is how many items may be in them; `u64::MAX` sets no limit. Each primitive, list, map and array is one, also inside of
    ///   others. A described value is one with its descriptor. But if the items of an array share descriptors, each item takes one more for
    ///   each of them, and one more for each whole 32 bytes of their names.
    pub fn new(nesting: u32, bytes: u64, items: u64) -> Option<Limits>
        ensures { MatchOption result (128 < nesting)
            (λ limits. (limits.nesting ≡ nesting) × (limits.bytes ≡ bytes) × (limits.items ≡ items) × (limits.hash_seed ≡ 0)) }
    {
        if nesting as usize > NESTING {
            return None;
        }
        Some(Limits {
            nesting,
            bytes,
            items,
            hash_seed: 0,
        })
    }

    /// Returns the limits under which everything is read that nests at most 128 deep.
    pub fn greatest() -> Limits
        ensures nesting { result.nesting ≡ 128 }
        ensures bytes { result.bytes ≡ unlimited }
        ensures items { result.items ≡ unlimited }
        ensures seed { result.hash_seed ≡ 0 }
    {
        Limits {
            nesting: NESTING as u32,
            bytes: u64::MAX,
            items: u64::MAX,
            hash_seed: 0,
        }
    }

    /// Returns limits for input from a peer, of which at most this many bytes are read. Values nest at most 128 deep, and there are at most
    /// as many items as bytes. The limit on items refuses no value that the limit on bytes doesn't refuse, unless an array in it has items
    /// that share descriptors.
    pub fn for_peers(bytes: u64) -> Limits
        ensures nesting { result.nesting ≡ 128 }
        ensures bytes { result.bytes ≡ bytes }
        ensures items { result.items ≡ bytes }
        ensures seed { result.hash_seed ≡ 0 }
    {
        Limits {
            nesting: NESTING as u32,
            bytes,
            items: bytes,
            hash_seed: 0,
        }
    }

    /// Returns the same limits with this seed. If the seed isn't 0, the keys of each hashed map that is read are hashed by SipHash-1-3. A
    /// peer who doesn't know the seed can't choose keys that collide then. If it is 0, as it is by default, they are hashed by a faster
    /// function that everyone knows.
    pub fn with_hash_seed(self, hash_seed: u64) -> Limits
        ensures nesting { result.nesting ≡ self.nesting }
        ensures bytes { result.bytes ≡ self.bytes }
        ensures items { result.items ≡ self.items }
        ensures seed { result.hash_seed ≡ hash_seed }
    {
        Limits {
            nesting: self.nesting,
            bytes: self.bytes,
            items: self.items,
            hash_seed,
        }
    }

    /// Returns the seed by which the keys of maps are hashed, or 0 for none.
    pub fn hash_seed(&self) -> u64
        ensures { result ≡ self.now.hash_seed }
    {
        self.hash_seed
    }

    /// Returns how deep values may nest.
    pub fn nesting(&self) -> u32
        ensures value { result ≡ self.now.nesting }
        ensures most { result ≤ 128 }
    {
        self.nesting
    }

    /// Returns how many bytes may be read; `u64::MAX` sets no limit.
    pub fn bytes(&self) -> u64
        ensures { result ≡ self.now.bytes }
    {
        self.bytes
    }

    /// Returns how many items may be read; `u64::MAX` sets no limit.
    pub fn items(&self) -> u64
        ensures { result ≡ self.now.items }
    {
        self.items
    }
}
