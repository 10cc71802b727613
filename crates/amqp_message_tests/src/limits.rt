//! Messages within limits of the caller: each section counts against one limit of bytes and one of values.
use amqp_batches::Batch;
use amqp_bodies::{CanonicalBody, FromBody};
use amqp_codec::{Canonical, Deserialize, Error};
use amqp_messages::{Message, Strict, canonical_text_strict_within, decode_message_strict_within};
use amqp_read_write::{canonical_text_within, from_slice_within};
use amqp_sections::Data;
use amqp_wire::Limits;
use std::alloc::Global;
use std::test::Fail;

// A header, two sections of data of one byte each, and a footer: 22 bytes, and four values.
const MESSAGE: &str = "00537045005375a00161005375a00162005378c10100";

const TWO_DATA: &str = "005375a00161005375a00162";

fn within(nesting: u32, bytes: u64, items: u64) -> Limits {
    match Limits::new(nesting, bytes, items) {
        Some(limits) => limits,
        None => Limits::greatest(),
    }
}

// How many bytes of the text are read.
fn taken<T: Deserialize>(digits: &str, limits: &Limits, alloc: Global) -> Result<usize, Fail> {
    let input = hex::decode(alloc, digits)?;
    let (_value, len): (T, usize) = from_slice_within(input.as_slice(), limits, alloc)?;
    Ok(len)
}

// The text passes a limit.
fn passes<T: Deserialize>(digits: &str, limits: &Limits, alloc: Global) -> Result<bool, Fail> {
    let input = hex::decode(alloc, digits)?;
    let answer: Result<(T, usize), Error> = from_slice_within(input.as_slice(), limits, alloc);
    match answer {
        Ok(_) => Ok(false),
        Err(error) => Ok(error == Error::Limit),
    }
}

#[test]
fn all_sections_count_together(rt: HostRuntime) -> Result<(), Fail> {
    let alloc = rt.alloc();
    assert_eq!(rt;
        taken::<Message<Batch<Data>>>(MESSAGE, &within(2, 22, 4), alloc)?,
        22
    );
    assert!(rt; passes::<Message<Batch<Data>>>(MESSAGE, &within(2, 21, 4), alloc)?);
    assert!(rt; passes::<Message<Batch<Data>>>(MESSAGE, &within(2, 22, 3), alloc)?);
    assert!(rt; passes::<Message<Batch<Data>>>(MESSAGE, &within(1, 22, 4), alloc)?);
    assert_eq!(rt;
        taken::<Strict<Batch<Data>>>(MESSAGE, &within(2, 22, 4), alloc)?,
        22
    );
    assert!(rt; passes::<Strict<Batch<Data>>>(MESSAGE, &within(2, 21, 4), alloc)?);
    Ok(())
}

#[test]
fn a_run_ends_at_the_limit_or_passes_it(rt: HostRuntime) -> Result<(), Fail> {
    let alloc = rt.alloc();
    assert_eq!(rt;
        taken::<Batch<Data>>(TWO_DATA, &within(1, 12, 2), alloc)?,
        12
    );
    assert!(rt; passes::<Batch<Data>>(TWO_DATA, &within(1, 11, 2), alloc)?);
    assert!(rt; passes::<Batch<Data>>(TWO_DATA, &within(1, 12, 1), alloc)?);
    assert!(rt; passes::<Message<Batch<Data>>>(MESSAGE, &within(2, 16, 4), alloc)?);
    Ok(())
}

fn strict_length<B: FromBody>(digits: &str, limits: &Limits, alloc: Global) -> Result<bool, Fail> {
    let input = hex::decode(alloc, digits)?;
    let mut reader = input.as_slice();
    let answer: Result<Message<B>, Error> = decode_message_strict_within(
        &mut reader,
        limits,
        alloc,
    );
    match answer {
        Ok(_) => Ok(true),
        Err(error) => Ok(error != Error::Limit),
    }
}

#[test]
fn strict_messages_have_limits(rt: HostRuntime) -> Result<(), Fail> {
    let alloc = rt.alloc();
    assert!(rt; strict_length::<Batch<Data>>(MESSAGE, &within(2, 22, 4), alloc)?);
    assert!(rt; !strict_length::<Batch<Data>>(MESSAGE, &within(2, 22, 3), alloc)?);
    Ok(())
}

// Whether the text with these digits is rewritten as itself, all of it.
fn is_rewritten<T: Canonical>(digits: &str, limits: &Limits, alloc: Global) -> Result<bool, Fail> {
    let input = hex::decode(alloc, digits)?;
    let (text, len) = canonical_text_within::<T>(input.as_slice(), limits, alloc)?;
    Ok(text.as_slice() == input.as_slice() && len == input.len())
}

fn is_rewritten_strictly<B: CanonicalBody>(
    digits: &str,
    limits: &Limits,
    alloc: Global,
) -> Result<bool, Fail> {
    let input = hex::decode(alloc, digits)?;
    let text = canonical_text_strict_within::<B>(input.as_slice(), limits, alloc)?;
    Ok(text.as_slice() == input.as_slice())
}

// Whether neither call rewrites the text within these limits.
fn passes_rewritten<B: CanonicalBody>(
    digits: &str,
    limits: &Limits,
    alloc: Global,
) -> Result<bool, Fail> {
    let input = hex::decode(alloc, digits)?;
    let lenient = canonical_text_within::<Message<B>>(input.as_slice(), limits, alloc).err();
    let strict = canonical_text_strict_within::<B>(input.as_slice(), limits, alloc).err();
    Ok(lenient == Some(Error::Limit) && strict == Some(Error::Limit))
}

#[test]
fn texts_have_limits(rt: HostRuntime) -> Result<(), Fail> {
    let alloc = rt.alloc();
    let exact = within(2, 22, 4).with_hash_seed(7);
    assert!(rt; is_rewritten::<Message<Batch<Data>>>(MESSAGE, &exact, alloc)?);
    assert!(rt; is_rewritten_strictly::<Batch<Data>>(MESSAGE, &exact, alloc)?);
    assert!(rt; passes_rewritten::<Batch<Data>>(MESSAGE, &within(2, 21, 4), alloc)?);
    assert!(rt; passes_rewritten::<Batch<Data>>(MESSAGE, &Limits::for_peers(21), alloc)?);
    assert!(rt; is_rewritten_strictly::<Batch<Data>>(MESSAGE, &Limits::for_peers(22), alloc)?);
    Ok(())
}
