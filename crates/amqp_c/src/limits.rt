//! Limits as they are passed.
ghost use Rattle.std.specs.Prelude.{◌≡◌, ◌<◌, MatchOption};
ghost use Rattle.amqp_c.specs.Limits.{AreLimits, greatest_given, peers_given};

use amqp_wire::Limits;

/// Limits on what is read.
#[repr(C)]
#[derive(Clone, Copy, Debug, PartialEq, Eq)]
pub struct GivenLimits {
    /// How deep values may nest, up to 128. Lists, maps and described values count, and an array counts if one of its items is no
    /// primitive.
    pub nesting: u32,
    /// How many bytes are read at most; the greatest number sets no limit.
    pub bytes: u64,
    /// How many items are in them at most, as `Limits` counts them; the greatest number sets no limit.
    pub items: u64,
    /// The seed by which the keys of hashed maps are hashed; 0 for none.
    pub hash_seed: u64,
}

impl GivenLimits {
    /// Returns the limits under which everything is read that nests at most 128 deep.
    pub(crate) fn greatest() -> GivenLimits
        ensures { result ≡ greatest_given }
    {
        GivenLimits::of(&Limits::greatest())
    }

    /// Returns the limits for input of this many bytes from a peer.
    pub(crate) fn for_peers(bytes: u64) -> GivenLimits
        ensures { result ≡ peers_given bytes }
    {
        GivenLimits::of(&Limits::for_peers(bytes))
    }

    // The numbers of the limits.
    fn of(limits: &Limits) -> GivenLimits
        ensures { AreLimits result limits.now }
    {
        GivenLimits {
            nesting: limits.nesting(),
            bytes: limits.bytes(),
            items: limits.items(),
            hash_seed: limits.hash_seed(),
        }
    }

    /// Returns the limits with these numbers, or `None` if values may nest more than 128 deep by them.
    pub(crate) fn limits(&self) -> Option<Limits>
        ensures { MatchOption result (128 < self.now.nesting) (λ within. AreLimits self.now within) }
    {
        let limits = Limits::new(self.nesting, self.bytes, self.items)?;
        Some(limits.with_hash_seed(self.hash_seed))
    }
}
