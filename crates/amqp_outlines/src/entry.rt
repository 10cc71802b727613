//! What is told of a term: its values, one after another.
use amqp_catalogue::TypeName;
use amqp_descriptors::Content;
use amqp_kinds::Kind;
use amqp_nodes::Node;

/// What a value is in the one around it.
#[derive(Clone, Copy)]
pub enum Label {
    /// A whole term.
    Whole,
    /// The field of the type with this number.
    Field(TypeName, usize),
    /// The item with this number of a list or of an array, or of a composite's list behind all fields of the type.
    Item(usize),
    /// A key of a map, with the number of its pair.
    Key(usize),
    /// The value of a key.
    ValueOfKey(usize),
    /// A descriptor that names no type of the standard.
    Descriptor,
    /// What is described.
    Described,
}

/// What a value is.
#[derive(Clone, Copy)]
pub enum Shape {
    /// A value without values in it.
    Primitive(Kind),
    /// A field that is null or left out, and has a default value.
    Omitted,
    /// A list: its items come next.
    List,
    /// A map: the keys and the values of its pairs come next, in turn.
    Map,
    /// An array, and the kind of its items. Its items may be described.
    Array(Kind, bool),
    /// A described value of a type of the standard. What is in it are the fields, items or pairs of the list or map that is described, or one
    /// value.
    Named(TypeName, Content),
    /// Any other described value: in it are its descriptor and what is described.
    Described,
}

/// A value in a term.
#[derive(Clone, Copy)]
pub struct Entry {
    /// How many entries are around it.
    pub depth: usize,
    /// What it is in the value around it.
    pub label: Label,
    /// What it is.
    pub shape: Shape,
    /// Where it begins: at its constructor, or at its data if it is an item of an array.
    pub from: usize,
    /// Where it ends.
    pub to: usize,
    /// Its node; of a list or map that a type's descriptor describes, that one's.
    pub node: Node,
    /// Whether it has a code of its own, as all values have but the items of an array (Part 1, section 1.2.4).
    pub has_code: bool,
    /// Whether it is a whole value. Otherwise a fault is in it.
    pub is_whole: bool,
}
