//! Blocks in their place.
use amqp_inspect_io::Colours;

/// The bytes of a block, where they begin in the input, and how text about them is coloured.
#[derive(Clone, Copy)]
pub(crate) struct Part<'a> {
    pub(crate) bytes: &'a [u8],
    pub(crate) base: usize,
    pub(crate) colours: Colours,
}

impl Part<'_> {
    /// Returns the place in the input of a place in the block.
    pub(crate) fn place(&self, at: usize) -> usize {
        self.base.saturating_add(at)
    }
}
