//! What a line asks for: the canonical text of a value of a type.
ghost use Rattle.std.specs.Prelude.{◌≡◌, ℕ, List, IfOk, IfErr, MatchOption};
ghost use Rattle.amqp_wire.specs.declared.error.Error.TheVariants.{Memory};
ghost use Rattle.amqp_catalogue.specs.declared.type_name.TypeName.{TypeName};
ghost use Rattle.amqp_lines.specs.Answers.{StandsFor, Asks};

use amqp_catalogue::{TypeName, types};
use amqp_codec::Error;
use memchr::memchr;
use std::alloc::Global;

// The names that a line may begin with. The proof goes over them: none has a space, so the first space of a line ends the name.
const NAMES: &[(&str, TypeName)] = types!(names);

/// A line `<type> <hex>`: the type that it names, and the bytes that its digits mean.
#[derive(Drop)]
pub(crate) struct Request {
    pub type_name: TypeName,
    pub input: Vec<u8>,
}

impl Request {
    /// Returns what a line asks for, or `None` if it has another form. The only error is `Memory`.
    pub(crate) fn from_line(line: &[u8], alloc: Global) -> Result<Option<Request>, Error>
        ensures asked { IfOk result (λ o. MatchOption o ((named : TypeName) (input : List ℕ) → Asks line.now named input
            → ⊥) (λ request. Asks line.now request.type_name request.input.items)) }
        ensures err { IfErr result (λ e. e ≡ Memory) }
    {
        let Some(space) = memchr(b' ', line) else {
            return Ok(None);
        };
        let Some(type_name) = TypeName::from_bytes(&line[..space]) else {
            return Ok(None);
        };
        let Some(input) = from_digits(&line[space + 1..], alloc)? else {
            return Ok(None);
        };
        Ok(Some(Request { type_name, input }))
    }
}

// The bytes of an even, positive number of hexadecimal digits, or none for `-`.
fn from_digits(digits: &[u8], alloc: Global) -> Result<Option<Vec<u8>>, Error>
    ensures stands { IfOk result (λ o. MatchOption o ((input : List ℕ) → StandsFor digits.now input
        → ⊥) (λ input. StandsFor digits.now input.items)) }
    ensures err { IfErr result (λ e. e ≡ Memory) }
{
    if digits == b"-".as_slice() {
        return Ok(Some(Vec::new(alloc)));
    }
    if digits.is_empty() {
        return Ok(None);
    }
    match hex::decode(alloc, digits) {
        Ok(bytes) => Ok(Some(bytes)),
        Err(hex::FromHexError::OutOfMemory) => Err(Error::Memory),
        Err(_) => Ok(None),
    }
}
