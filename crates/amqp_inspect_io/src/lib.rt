//! What the program `amqp_inspect` has besides blocks: its arguments, its input and how much of that has been told, the colours of text,
//! primitive values in JSON, and the page for a browser around the blocks.
#![tactic(auto)]

mod arguments;
mod colours;
mod digits;
mod html;
mod input;
mod json_value;
pub mod page;
mod progress;

pub use arguments::{Answer, Arguments, command};
pub use colours::Colours;
pub use digits::DigitError;
pub use html::write_element;
pub use input::{Input, InputError, PIECE};
pub use json_value::json_of_value;
pub use progress::Progress;
