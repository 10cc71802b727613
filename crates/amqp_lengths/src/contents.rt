//! The size, the count and the content of containers (Part 1, sections 1.2.3 and 1.2.4).
ghost use Rattle.std.specs.Prelude.{◌≡◌, IfOk, IfErr};
ghost use Rattle.amqp_wire.specs.Containers.{container_of};
ghost use Rattle.amqp_lengths.specs.Fronts.{IsFront, Refuses};
ghost use Rattle.amqp_lengths.specs.Pieces.{width_of};
ghost use Rattle.amqp_lengths.specs.Contents.{IsContent, HasContent};
ghost use Rattle.amqp_lengths.specs.Faults.{ContentFault};

use crate::sizes::{number, sized, width_of};
use amqp_wire::{Container, Error};

/// The length of a container's data, how many items it announces, and their bytes.
#[derive(Clone, Copy)]
pub(crate) struct Content<'a> {
    pub(crate) len: usize,
    pub(crate) count: usize,
    pub(crate) items: &'a [u8],
}

/// Reads the content of a container. A list without items may have the size 0.
pub(crate) fn read_content(
    input: &[u8],
    wide: bool,
    container: Container,
) -> Result<Content<'_>, Error>
    ensures found { IfOk result (λ c. IsFront (IsContent (container_of container) (width_of wide) c.count c.items.now) input.now c.len) }
    ensures refused { IfErr result (λ e. Refuses (HasContent (container_of container) (width_of wide)) input.now e) }
    ensures fault { IfErr result (λ e. ContentFault (container_of container) (width_of wide) input.now e) }
{
    let width = width_of(wide);
    let body = sized(input, wide)?;
    if body.len() >= width {
        return Ok(Content {
            len: width + body.len(),
            count: number(body, wide)?,
            items: &body[width..],
        });
    }
    if !body.is_empty() {
        return Err(Error::Size);
    }
    let Container::List = container else {
        return Err(Error::Size);
    };
    if number(&input[width..], wide)? > 0 {
        return Err(Error::Size);
    }
    Ok(Content {
        len: width + width,
        count: 0,
        items: &[],
    })
}
