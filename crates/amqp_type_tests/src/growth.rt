//! Values that are read and written again while an allocation fails. Each allocation fails in turn by hand: `rt try --test --fail-alloc N`,
//! for N from 1 on.
use amqp_codec::{Deserialize, Error, Serialize};
use amqp_containers::Array;
use amqp_described::Described;
use amqp_maps::OrderedMap;
use amqp_read_write::{from_slice, to_vec};
use std::alloc::Global;
use std::collections::BTreeMap;
use std::test::Fail;

fn written_again<T: Deserialize + Serialize>(
    input: &[u8],
    alloc: Global,
) -> Result<Vec<u8>, Error> {
    let value: T = from_slice(input, alloc)?;
    to_vec(&value, alloc)
}

// Where a growth is refused, that is the error; and the next time, when none is, the text is the canonical one.
fn check_growth<T: Deserialize + Serialize>(
    input: &[u8],
    wanted: &[u8],
    alloc: Global,
) -> Result<(), Fail> {
    let text = match written_again::<T>(input, alloc) {
        Err(Error::Memory) => written_again::<T>(input, alloc)?,
        first => first?,
    };
    if text.as_slice() != wanted {
        return Err(Fail::new(format_args!("{input:?} is written otherwise")));
    }
    Ok(())
}

#[test]
fn array_of_described_values(rt: HostRuntime) -> Result<(), Fail> {
    check_growth::<Array<Described<u32>>>(
        &[0xe0, 0x08, 0x02, 0x00, 0xa3, 0x01, 0x61, 0x52, 0x07, 0x08],
        &[
            0xe0, 0x0e, 0x02, 0x00, 0xa3, 0x01, 0x61, 0x70, 0, 0, 0, 7, 0, 0, 0, 8,
        ],
        rt.alloc(),
    )
}

#[test]
fn list_of_strings(rt: HostRuntime) -> Result<(), Fail> {
    check_growth::<Vec<String>>(
        &[0xc0, 0x0a, 0x02, 0xa1, 0x01, 0x61, 0xb1, 0, 0, 0, 1, 0x62],
        &[0xc0, 0x07, 0x02, 0xa1, 0x01, 0x61, 0xa1, 0x01, 0x62],
        rt.alloc(),
    )
}

#[test]
fn maps(rt: HostRuntime) -> Result<(), Fail> {
    let texts = &[0xc1, 0x06, 0x02, 0xa1, 0x01, 0x61, 0x52, 0x01];
    check_growth::<OrderedMap<String, u32>>(texts, texts, rt.alloc())?;
    let given = &[0xc1, 0x06, 0x04, 0x52, 0x02, 0x41, 0x43, 0x42];
    let sorted = &[0xc1, 0x06, 0x04, 0x43, 0x42, 0x52, 0x02, 0x41];
    check_growth::<BTreeMap<u32, bool>>(given, sorted, rt.alloc())
}

// Twelve pairs in the order of their keys, which take more growths than one of either map.
const TWELVE: &[u8] = &[
    0xc1, 0x25, 0x18, 0x52, 0x40, 0x41, 0x52, 0x41, 0x41, 0x52, 0x42, 0x41, 0x52, 0x43, 0x41, 0x52,
    0x44, 0x41, 0x52, 0x45, 0x41, 0x52, 0x46, 0x41, 0x52, 0x47, 0x41, 0x52, 0x48, 0x41, 0x52, 0x49,
    0x41, 0x52, 0x4a, 0x41, 0x52, 0x4b, 0x41,
];

#[test]
fn maps_of_twelve(rt: HostRuntime) -> Result<(), Fail> {
    check_growth::<OrderedMap<u32, bool>>(TWELVE, TWELVE, rt.alloc())?;
    check_growth::<BTreeMap<u32, bool>>(TWELVE, TWELVE, rt.alloc())
}
