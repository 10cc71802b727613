//! The calls of arrays, and of values in a row.
use amqp_batches::TransparentVec;
use amqp_codec::Error;
use amqp_containers::Array;
use std::alloc::{AllocError, Global};
use std::test::Fail;

// Whether the items that were collected are these, in this order, and no others.
fn are_items(items: Result<Vec<u32>, AllocError>, wanted: &[u32]) -> Result<bool, Error> {
    let items = items?;
    Ok(items.as_slice() == wanted)
}

// Whether an array that was empty has two items that are pushed to it.
fn is_array_filled(array: &mut Array<u32>) -> Result<bool, Error> {
    let was_empty = array.is_empty();
    array.push(3)?;
    array.push(1)?;
    Ok(was_empty && array.len() == 2 && array.get(1).copied() == Some(1))
}

// Whether the copy is as the array was, when an item is pushed to that.
fn is_array_copied(copy: &Array<u32>, array: &mut Array<u32>) -> Result<bool, Error> {
    let was_equal = *copy == *array;
    array.push(0)?;
    Ok(was_equal && *copy < *array)
}

fn are_array_items_given(
    copy: Array<u32>,
    array: Array<u32>,
    alloc: Global,
) -> Result<bool, Error> {
    let of_copy = are_items(copy.iter().copied().collect(alloc), &[3, 1]);
    let of_array = are_items((&array).into_iter().copied().collect(alloc), &[3, 1, 0]);
    let moved = are_items(copy.into_iter().collect(alloc), &[3, 1]);
    let is_inner = array.into_inner().as_slice() == [3, 1, 0].as_slice();
    Ok(is_inner && of_copy? && of_array? && moved?)
}

#[test]
fn calls_of_an_array(rt: HostRuntime) -> Result<(), Fail> {
    let alloc = rt.alloc();
    let mut array: Array<u32> = Array::from(Vec::new(alloc));
    let is_filled = is_array_filled(&mut array)?;
    let copy = array.clone()?;
    let is_copied = is_array_copied(&copy, &mut array)?;
    let are_given = are_array_items_given(copy, array, alloc)?;
    assert!(rt; is_filled && is_copied && are_given);
    Ok(())
}

// Whether what was empty has two values that are pushed to it.
fn are_values_filled(values: &mut TransparentVec<u32>) -> Result<bool, Error> {
    let was_empty = values.is_empty();
    values.push(3)?;
    values.push(1)?;
    Ok(was_empty && values.len() == 2 && values.get(1).copied() == Some(1))
}

// Whether the copy is as the values were, when one is pushed to those.
fn are_values_copied(
    copy: &TransparentVec<u32>,
    values: &mut TransparentVec<u32>,
) -> Result<bool, Error> {
    let were_equal = *copy == *values;
    values.push(0)?;
    Ok(were_equal && *copy < *values)
}

fn are_values_given(
    copy: TransparentVec<u32>,
    values: TransparentVec<u32>,
    alloc: Global,
) -> Result<bool, Error> {
    let of_copy = are_items(copy.iter().copied().collect(alloc), &[3, 1]);
    let of_values = are_items((&values).into_iter().copied().collect(alloc), &[3, 1, 0]);
    let moved = are_items(copy.into_iter().collect(alloc), &[3, 1]);
    let is_inner = values.into_inner().as_slice() == [3, 1, 0].as_slice();
    Ok(is_inner && of_copy? && of_values? && moved?)
}

fn is_inner_of(items: Vec<u32>, wanted: &[u32]) -> bool {
    TransparentVec::from(items).into_inner().as_slice() == wanted
}

#[test]
fn calls_of_values_with_nothing_around_them(rt: HostRuntime) -> Result<(), Fail> {
    let alloc = rt.alloc();
    let mut values: TransparentVec<u32> = TransparentVec::new(Vec::new(alloc));
    let are_filled = are_values_filled(&mut values)?;
    let copy = values.clone()?;
    let are_copied = are_values_copied(&copy, &mut values)?;
    let are_given = are_values_given(copy, values, alloc)?;
    assert!(rt; are_filled && are_copied && are_given);
    assert!(rt; is_inner_of([3, 1].to_vec(alloc)?, &[3, 1]));
    Ok(())
}
