//! Lists and arrays that are written, and arrays that aren't.
use crate::written::check_both_ways;
use amqp_codec::{Deserialize, Error, Serialize, Symbol};
use amqp_containers::Array;
use amqp_delivery::DeliveryState;
use amqp_plain_states::{Accepted, Released};
use amqp_read_write::{encoded_len, from_slice, to_vec};
use amqp_test_helpers::{is_made, refusal};
use std::alloc::Global;
use std::test::Fail;

// A list of one symbol of so many letters.
fn one_symbol(letters: usize, alloc: Global) -> Result<Vec<Symbol>, Error> {
    let mut text = String::new(alloc);
    for _ in 0..letters {
        text.push('a')?;
    }
    Ok(vec![in alloc; Symbol(text)]?)
}

#[test]
fn values_both_ways(rt: HostRuntime) -> Result<(), Fail> {
    let alloc = rt.alloc();
    let list: Vec<u32> = [0, 7].to_vec(alloc)?;
    check_both_ways(list, "c00402435207", alloc)?;
    let array = Array::from([1u32, 2].to_vec(alloc)?);
    check_both_ways(array, "e00a02700000000100000002", alloc)
}

// Whether the text of the value has this length, begins so, and is read as the value.
fn is_text<T: Serialize + Deserialize + PartialEq>(
    value: Result<T, Error>,
    len: usize,
    begins: &str,
    alloc: Global,
) -> Result<bool, Error> {
    let value = value?;
    let encoded_len = encoded_len(&value, alloc)?;
    let text = to_vec(&value, alloc)?;
    let written = hex::encode(alloc, &text)?;
    Ok(
        encoded_len == len
            && text.len() == len
            && is_made(from_slice(text.as_slice(), alloc), value)?
            && written.as_str().starts_with(begins),
    )
}

#[test]
fn short_and_wide_lists(rt: HostRuntime) -> Result<(), Fail> {
    let alloc = rt.alloc();
    assert!(rt; is_text(one_symbol(252, alloc), 257, "c0ff01a3fc6161", alloc)?);
    assert!(rt;
        is_text(
            one_symbol(253, alloc),
            264,
            "d00000010300000001a3fd6161",
            alloc
        )?
    );
    Ok(())
}

fn accepted(alloc: Global) -> Result<Array<DeliveryState>, Error> {
    let mut states = Array::from(Vec::new(alloc));
    states.push(DeliveryState::from(Accepted {}))?;
    Ok(states)
}

fn accepted_and_released(alloc: Global) -> Result<Array<DeliveryState>, Error> {
    let mut states = accepted(alloc)?;
    states.push(DeliveryState::from(Released {}))?;
    Ok(states)
}

fn beyond_ascii(alloc: Global) -> Result<Array<Symbol>, Error> {
    let mut symbols = Array::from(Vec::new(alloc));
    symbols.push(Symbol::from_str_in("é", alloc)?)?;
    Ok(symbols)
}

#[test]
fn arrays_that_are_refused(rt: HostRuntime) -> Result<(), Fail> {
    let alloc = rt.alloc();
    assert_eq!(rt; refusal(accepted(alloc)?, alloc), None);
    assert_eq!(rt;
        refusal(accepted_and_released(alloc)?, alloc),
        Some(Error::MixedArray)
    );
    let nulls: Array<Option<u32>> = Array::from([None].to_vec(alloc)?);
    assert_eq!(rt; refusal(nulls, alloc), Some(Error::ZeroWidthItems));
    assert_eq!(rt; refusal(beyond_ascii(alloc)?, alloc), Some(Error::NonAscii));
    assert_eq!(rt;
        refusal(beyond_ascii(alloc)?.into_inner(), alloc),
        Some(Error::NonAscii)
    );
    Ok(())
}
