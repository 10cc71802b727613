//! The engine of the program `amqp_canon`. Each line of its input names a type and gives bytes in hexadecimal digits. The answer is a line
//! with the canonical text of the type's value at the start of the bytes, or with the error for which they are refused.
#![tactic(auto)]

mod answer;
mod engine;
mod limits;
mod lines;
mod request;
mod text;

pub use engine::run;
