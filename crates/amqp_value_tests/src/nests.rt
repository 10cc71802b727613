//! Deep nests.
use amqp_wire::format_code;
use std::alloc::Global;
use std::test::Fail;

/// So many lists, one in another, around a null.
pub(crate) fn nested(levels: u8, alloc: Global) -> Result<Vec<u8>, Fail> {
    let mut text: Vec<u8> = Vec::new(alloc);
    for level in 0..levels {
        let size = 5 + 9 * u32::from(levels - 1 - level);
        text.push(format_code::LIST_32)?;
        text.extend_from_slice(&size.to_be_bytes())?;
        text.extend_from_slice(&1u32.to_be_bytes())?;
    }
    text.push(format_code::NULL)?;
    Ok(text)
}

/// So many descriptors, one after another, before a constructor without data.
pub(crate) fn chain(descriptors: usize, code: u8, alloc: Global) -> Result<Vec<u8>, Fail> {
    let mut text: Vec<u8> = Vec::new(alloc);
    for _ in 0..descriptors {
        text.push(format_code::DESCRIBED)?;
        text.push(format_code::ULONG_0)?;
    }
    text.push(code)?;
    Ok(text)
}
