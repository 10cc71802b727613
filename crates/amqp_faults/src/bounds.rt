//! The limits within which values are read.
use amqp_wire::Limits;

/// How many items a value may have that its bytes do not pay for.
const FREE_ITEMS: u64 = 1 << 16;

/// What a value may have at most.
#[derive(Clone, Copy, Debug, PartialEq, Eq)]
pub struct Bounds {
    /// How deep values may nest, at most 128.
    pub nesting: u32,
    /// How many bytes it may have.
    pub bytes: u64,
    /// How many items there may be. Without it, their number depends on that of the bytes.
    pub items: Option<u64>,
}

impl Bounds {
    /// The bounds if no others are asked for: those of the library, and as many items as the bytes may pay for.
    pub const DEFAULT: Bounds = Bounds {
        nesting: 128,
        bytes: u64::MAX,
        items: None,
    };

    /// Returns limits for a value in these bytes. They end the value: one that goes on behind them is cut. Items of an array may have
    /// descriptors that they share, which count for each item.
    pub fn within(&self, bytes: &[u8]) -> Limits {
        let len = bytes.len() as u64;
        let most = len.saturating_mul(4).saturating_add(FREE_ITEMS);
        match Limits::new(self.nesting, self.bytes, self.items.unwrap_or(most)) {
            Some(limits) => limits,
            None => Limits::greatest(),
        }
    }
}
