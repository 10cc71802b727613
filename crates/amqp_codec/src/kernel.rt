//! The kernel: one reader and one writer for all lists of fields, for all composites, for the items of all lists and arrays, and for the
//! pairs of maps.
pub use crate::composite::{Composite, read_composite, write_composite};
pub use crate::fieldless::Fieldless;
pub use crate::fields::{
    FieldList, FieldRule, fill_fields, read_into, read_list, read_some, value_in_type, write_list,
    write_value,
};
pub use crate::lists::{each_in_type, read_each, write_each};
pub use crate::maps::{pair_in_type, write_pair};
