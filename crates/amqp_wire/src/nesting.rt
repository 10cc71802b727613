//! How deep values nest. The standard sets no limit (Part 1, section 1.2); this one bounds what is kept of open containers.

/// How deep values may nest, and how many descriptors one constructor may have. Lists, maps and described values count in nesting, and an
/// array counts if one of its items is no primitive.
pub const NESTING: usize = 128;

/// How many containers and described values may be open at once: those that count in nesting, and an array of primitives in the innermost.
pub const LEVELS: usize = 129;
