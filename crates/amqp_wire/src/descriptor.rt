//! Descriptors: what identifies the meaning of a described value (Part 1, section 1.2; descriptor values: section 1.5).
use crate::Symbol;

/// The descriptor of a described value. The descriptor of a type of the standard has both forms: either is read, and the code is written.
/// Part 1 lets any value be a descriptor. Here one that is neither a symbol nor a ulong is refused with `Error::BadDescriptor`.
#[derive(Clone, Debug, PartialEq, Eq, PartialOrd, Ord, Hash, Drop)]
pub enum Descriptor {
    /// A symbolic descriptor, as `amqp:accepted:list`: the domain, a colon and the name in the domain. It must be ASCII.
    Name(Symbol),
    /// A numeric descriptor, as 0x24. The domain's number is in the upper 32 bits, 0 for the standard's, and the code in the domain is in
    /// the lower 32.
    Code(u64),
}
