//! What tests check about calls: whether a value, a text or an error is the expected one. Each helper takes what was made by value, so that
//! its drop is proved here once, for all types.
#![tactic(auto)]

mod values;
mod written;

pub use values::{
    are_equal, hash_of, have_equal_hashes, is, is_copied, is_given_back, is_less, is_made,
    is_refused, is_taken,
};
pub use written::{
    check_made, check_refused, check_written, is_read, read, read_and_written, refusal,
};
