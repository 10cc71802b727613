//! Values with kept bytes: what they hold, where they aren't written, and how deep they may nest.
use crate::nests::nested;
use amqp_codec::Error;
use amqp_containers::Array;
use amqp_lazy::LazyValue;
use amqp_read_write::{from_slice, from_slice_counted};
use amqp_test_helpers::{are_equal, have_equal_hashes, is_copied, is_less, refusal};
use std::alloc::Global;
use std::test::Fail;

// Whether the bytes begin with a value that is kept as these.
fn begin_with(bytes: &[u8], wanted: &[u8], alloc: Global) -> Result<bool, Error> {
    let (value, count): (LazyValue, usize) = from_slice_counted(bytes, alloc)?;
    Ok(count == wanted.len() && value.as_slice() == wanted)
}

fn kept(bytes: &[u8], alloc: Global) -> Result<LazyValue, Error> {
    from_slice(bytes, alloc)
}

#[test]
fn bytes_behind_are_left(rt: HostRuntime) -> Result<(), Fail> {
    let alloc = rt.alloc();
    assert!(rt; begin_with(&[0x52, 7, 0xff], &[0x52, 7], alloc)?);
    assert!(rt; is_copied(kept(&[0x52, 7, 0xff], alloc))?);
    assert!(rt; is_less(kept(&[0x52, 7, 0xff], alloc), kept(&[0x52, 8], alloc))?);
    Ok(())
}

// Whether the bytes begin with equal values, which have equal hashes.
fn are_one_value(first: &[u8], second: &[u8], alloc: Global) -> Result<bool, Error> {
    Ok(
        are_equal(kept(first, alloc), kept(second, alloc))?
            && have_equal_hashes(kept(first, alloc), kept(second, alloc))?,
    )
}

// Whether the bytes begin with values that differ, as do their hashes.
fn are_two_values(first: &[u8], second: &[u8], alloc: Global) -> Result<bool, Error> {
    Ok(
        !are_equal(kept(first, alloc), kept(second, alloc))?
            && !have_equal_hashes(kept(first, alloc), kept(second, alloc))?,
    )
}

// Other spellings of a value are other bytes.
#[test]
fn equal_bytes_have_equal_hashes(rt: HostRuntime) -> Result<(), Fail> {
    let alloc = rt.alloc();
    assert!(rt; are_one_value(&[0x52, 7], &[0x52, 7, 0xff], alloc)?);
    assert!(rt; are_two_values(&[0x52, 7], &[0x70, 0, 0, 0, 7], alloc)?);
    Ok(())
}

fn list_of(bytes: &[u8], alloc: Global) -> Result<Vec<LazyValue>, Error> {
    let mut items: Vec<LazyValue> = Vec::new(alloc);
    items.push(kept(bytes, alloc)?)?;
    Ok(items)
}

#[test]
fn not_written_in_arrays(rt: HostRuntime) -> Result<(), Fail> {
    let alloc = rt.alloc();
    let items = list_of(&[0x52, 7], alloc)?;
    assert_eq!(rt;
        refusal(Array::from(items), alloc),
        Some(Error::LazyInArray)
    );
    Ok(())
}

// What is answered of lists around a null, kept as they are.
fn answer(levels: u8, alloc: Global) -> Result<Option<Error>, Fail> {
    let text = nested(levels, alloc)?;
    match kept(text.as_slice(), alloc) {
        Err(error) => Ok(Some(error)),
        Ok(value) if value.as_slice() == text.as_slice() => Ok(None),
        Ok(_) => Err(Fail::new(format_args!("{levels} lists are kept otherwise"))),
    }
}

// What is answered of lists around a null, kept in one more list, in writing.
fn answer_in_writing(levels: u8, alloc: Global) -> Result<Option<Error>, Fail> {
    let text = nested(levels, alloc)?;
    let items = list_of(text.as_slice(), alloc)?;
    Ok(refusal(items, alloc))
}

// What is answered of lists around a null, whose outermost is read as a list of values that are kept.
fn answer_as_a_list(levels: u8, alloc: Global) -> Result<Option<Error>, Fail> {
    let text = nested(levels, alloc)?;
    Ok(from_slice::<Vec<LazyValue>>(text.as_slice(), alloc).err())
}

#[test]
fn what_is_kept_counts_in_nesting(rt: HostRuntime) -> Result<(), Fail> {
    let alloc = rt.alloc();
    assert_eq!(rt; answer(128, alloc)?, None);
    assert_eq!(rt; answer(129, alloc)?, Some(Error::Depth));
    assert_eq!(rt; answer_in_writing(127, alloc)?, None);
    assert_eq!(rt; answer_in_writing(128, alloc)?, Some(Error::Depth));
    assert_eq!(rt; answer_as_a_list(129, alloc)?, Some(Error::Depth));
    assert_eq!(rt; answer_as_a_list(128, alloc)?, None);
    Ok(())
}
