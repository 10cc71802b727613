//! Constructors: descriptors, and the code that they end in (Part 1, section 1.2).
ghost use Rattle.std.specs.Prelude.{◌≡◌, IfOk, IfErr, OnOk};
ghost use Rattle.amqp_lengths.specs.Fronts.{IsFront, Refuses};
ghost use Rattle.amqp_lengths.specs.Pieces.{NamesAny};
ghost use Rattle.amqp_lengths.specs.Lengths.{Constructs};
ghost use Rattle.amqp_lengths.specs.Faults.{DescriptorFault, ConstructorFault};

use crate::primitives::primitive_len;
use amqp_wire::format_code::unknown;
use amqp_wire::nesting::NESTING;
use amqp_wire::{Error, format_code};

/// A constructor: its code, how many descriptors it has, and its length.
#[derive(Clone, Copy)]
pub(crate) struct Constructor {
    pub(crate) code: u8,
    pub(crate) descriptors: usize,
    pub(crate) len: usize,
}

/// Returns the length of a descriptor.
pub(crate) fn descriptor_len(input: &[u8]) -> Result<usize, Error>
    ensures found { IfOk result (λ n. IsFront NamesAny input.now n) }
    ensures refused { IfErr result (λ e. Refuses NamesAny input.now e) }
    ensures fault { IfErr result (λ e. DescriptorFault input.now e) }
{
    let Some((code, data)) = input.split_first() else {
        return Err(Error::Cut);
    };
    match *code {
        format_code::ULONG_0
        | format_code::SMALL_ULONG
        | format_code::ULONG
        | format_code::SYMBOL_8
        | format_code::SYMBOL_32 => Ok(1 + primitive_len(*code, data)?),
        code => Err(unknown(code).unwrap_or(Error::BadDescriptor)),
    }
}

/// Reads the constructor at the start of the input. If it is faulty, `left` gets how many bytes there are from the place of the fault on.
pub(crate) fn read_constructor(input: &[u8], left: &mut usize) -> Result<Constructor, Error>
    ensures found { IfOk result (λ c. IsFront (Constructs c.descriptors c.code) input.now c.len) }
    ensures fault { IfErr result (λ e. ConstructorFault input.now e left.new) }
    ensures kept { OnOk result (left.new ≡ left.old) }
{
    let mut len = 0;
    let mut descriptors = 0;
    while let Some((code, rest)) = input[len..].split_first() {
        if *code != format_code::DESCRIBED {
            return match unknown(*code) {
                Some(error) => Err(refuse(error, rest.len() + 1, left)),
                None => Ok(Constructor {
                    code: *code,
                    descriptors,
                    len: len + 1,
                }),
            };
        }
        if descriptors == NESTING {
            return Err(refuse(Error::Depth, rest.len() + 1, left));
        }
        match descriptor_len(rest) {
            Ok(descriptor_len) => len += 1 + descriptor_len,
            Err(error) => return Err(refuse(error, rest.len(), left)),
        }
        descriptors += 1;
    }
    Err(refuse(Error::Cut, 0, left))
}

/// Returns the error of a fault, from whose place on there are so many bytes.
#[cold]
pub(crate) fn refuse(error: Error, bytes: usize, left: &mut usize) -> Error
    ensures error { result ≡ error }
    ensures left { left.new ≡ bytes }
{
    *left = bytes;
    error
}
