//! How the keys of maps are hashed: quickly, or by SipHash-1-3 with a seed that a peer doesn't know.
ghost use Rattle.amqp_maps.specs.KeyHashing.{started, fed_with, finished};

use std::hash::{BuildHasher, DefaultHasher, FoldHasher, Hasher};

/// How the keys of a map are hashed: by `FoldHasher` with the seed 0, and by SipHash-1-3 with any other.
#[derive(Clone, Copy)]
pub struct KeyHashing {
    /// The seed.
    pub seed: u64,
}

/// The state of a key's hash.
#[derive(Clone, Copy)]
pub enum KeyHasher {
    /// Without a seed.
    Quick(FoldHasher),
    /// With a seed.
    Seeded(DefaultHasher),
}

impl BuildHasher for KeyHashing {
    type Hasher = KeyHasher;

    ghost build_hasher = { λ hashing. started hashing.seed };

    #[inline(always)]
    fn build_hasher(&self) -> KeyHasher {
        if self.seed == 0 {
            return KeyHasher::Quick(FoldHasher::default());
        }
        let mut state = DefaultHasher::new();
        state.write_u64(self.seed);
        KeyHasher::Seeded(state)
    }
}

impl Hasher for KeyHasher {
    ghost write = { fed_with };

    ghost finish = { finished };

    #[inline(always)]
    fn write(&mut self, bytes: &[u8]) {
        match self {
            KeyHasher::Quick(state) => state.write(bytes),
            KeyHasher::Seeded(state) => state.write(bytes),
        }
    }

    #[inline(always)]
    fn finish(&self) -> u64 {
        match self {
            KeyHasher::Quick(state) => state.finish(),
            KeyHasher::Seeded(state) => state.finish(),
        }
    }
}
