//! What begins at a place in an encoded value (Part 1, sections 1.2 and 1.6).

/// A kind of value that holds any number of other values (Part 1, sections 1.6.22 to 1.6.24).
#[derive(Clone, Copy, Debug, PartialEq, Eq)]
pub enum ContainerKind {
    /// A list (section 1.6.22).
    List,
    /// A map (section 1.6.23).
    Map,
    /// An array (section 1.6.24).
    Array,
}

/// What begins at a place in an encoded value (Part 1, sections 1.2 and 1.6).
#[derive(Clone, Copy, Debug, PartialEq, Eq)]
pub enum Piece {
    /// A value by itself: the whole value, or the value that a descriptor describes.
    Value,
    /// The descriptor of a described value, or one that the items of an array share (section 1.2).
    Descriptor,
    /// An item of a list or of a map: its constructor and its data. In a map, keys have even numbers, and each value is behind its key.
    Item {
        /// What it is an item of: a list or a map.
        container: ContainerKind,
        /// How many items the container announces.
        count: usize,
        /// The number of the item, from 0.
        index: usize,
    },
    /// The content of an array, behind its size and its count: the constructor that its items share, and their data.
    ArrayContent {
        /// How many items the array announces.
        count: usize,
    },
    /// The rest of the constructor that the items of an array share: a further descriptor or the format code.
    ElementConstructor {
        /// How many descriptors are before it in the constructor.
        descriptors: usize,
    },
    /// The data of an item of an array.
    Element {
        /// How many of the shared descriptors describe what begins here.
        descriptors: usize,
        /// The format code that the items share.
        code: u8,
        /// How many items the array announces.
        count: usize,
        /// The number of the item, from 0.
        index: usize,
    },
    /// The place behind all items of a container.
    End {
        /// What it is the end of.
        container: ContainerKind,
        /// How many items are before it, which is as many as the container announces.
        count: usize,
    },
}

/// A node of a path: what begins there, and where.
#[derive(Clone, Copy, Debug, PartialEq, Eq)]
pub struct Node {
    /// How many bytes of the input are before it.
    pub at: usize,
    /// What begins there.
    pub piece: Piece,
}
