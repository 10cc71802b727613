//! What bodies are made of (Part 3, sections 3.2.6 to 3.2.8), and runs of sections that grow.
use amqp_batches::Batch;
use amqp_bodies::Body;
use amqp_codec::Error;
use amqp_no_memory_calls::{Growing, check, check_growing, is_text};
use amqp_sections::{AmqpSequence, Data};
use std::alloc::Global;

/// A sequence of two ints.
const SEQUENCE: &[u8] = b"\x00\x53\x76\xc0\x05\x02\x54\x01\x54\x02";

/// A section of data of one byte.
const DATA: &[u8] = b"\x00\x53\x75\xa0\x01a";

/// A section of data for each of the numbers from 0 to 4.
const SECTIONS: &[u8] =
    b"\x00\x53\x75\xa0\x01\x00\x00\x53\x75\xa0\x01\x01\x00\x53\x75\xa0\x01\x02\x00\x53\x75\xa0\x01\x03\x00\x53\x75\xa0\x01\x04";

/// Sections of data, one after another.
struct Sections;

impl Growing for Sections {
    type Grown = Batch<Data>;

    fn begun(alloc: Global) -> Result<Batch<Data>, Error> {
        Ok(Batch::new(Vec::new(alloc)))
    }

    fn grow(grown: &mut Batch<Data>, number: u8, alloc: Global) -> Result<(), Error> {
        grown.push(Data::copy_of(&[number], alloc)?)
    }
}

/// Makes all these calls, and returns whether every one went as it must.
pub(crate) fn check_all(rt: &HostRuntime) -> Result<bool, anyhow::Error> {
    let mut well = check(rt, "body", "from_items", is_made_of_items)?;
    well &= check(rt, "body", "from_sequence", is_made_of_a_sequence)?;
    well &= check(rt, "body", "from_data", is_made_of_data)?;
    well &= check_growing::<Sections>(rt, "batch", "push", SECTIONS)?;
    Ok(well)
}

fn numbers(alloc: Global) -> Result<Vec<i32>, Error> {
    Ok(Vec::from_slice(alloc, &[1, 2])?)
}

fn is_made_of_items(alloc: Global) -> Result<bool, Error> {
    let items = numbers(alloc)?;
    is_text(Body::from_items(items, alloc), SEQUENCE, alloc)
}

fn is_made_of_a_sequence(alloc: Global) -> Result<bool, Error> {
    let sequence = AmqpSequence(numbers(alloc)?);
    is_text(Body::from_sequence(sequence, alloc), SEQUENCE, alloc)
}

fn is_made_of_data(alloc: Global) -> Result<bool, Error> {
    let data = Data::copy_of(b"a", alloc)?;
    is_text(Body::from_data(data, alloc), DATA, alloc)
}
