//! What is asked of an input.
use crate::bounds::Bounds;
use amqp_catalogue::TypeName;

/// What an input is.
#[derive(Clone, Copy, Debug, PartialEq, Eq)]
pub enum Form {
    /// What one side of a connection sends: protocol headers and frames (Part 2, sections 2.2 and 2.3).
    Frames,
    /// One message, with its sections in any order (Part 3, section 3.2).
    Message,
    /// One message, with its sections in the standard's order.
    Strict,
    /// One term of any type (Part 1, section 1.2).
    Term,
    /// One value of a type.
    Type(TypeName),
}

/// What an input is to be read as, and within which limits.
#[derive(Clone, Copy, Debug, PartialEq, Eq)]
pub struct Options {
    /// What the input is. Without it, its first bytes tell.
    pub form: Option<Form>,
    /// The most bytes of a frame, at least 512 (Part 2, section 2.7.1).
    pub max_frame_size: u32,
    /// What a value may have at most.
    pub bounds: Bounds,
}
