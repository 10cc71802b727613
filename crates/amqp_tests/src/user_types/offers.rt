//! Inputs of offers and of maps whose keys are ports, and the canonical text of each, or why it is refused; and what is written.
use super::{Row, check};
use amqp_user_types::Offer;
use amqp_user_types::port::Port;
use fe2o3_amqp_types::codec::{from_slice, to_vec};
use fe2o3_amqp_types::primitives::{Array, OrderedMap, Symbol};
use std::alloc::Global;
use std::test::Fail;

const OFFERS: [Row; 26] = [
    ("c00402405207", "c00402405207"),
    ("c00702e00200405207", "c00402405207"),
    ("c00602e001005207", "c00402405207"),
    ("c00c02f000000004000000005207", "c00402405207"),
    ("c00602a301585207", "c00c02e00701b300000001585207"),
    ("c00902b300000001585207", "c00c02e00701b300000001585207"),
    ("c00902e00401a301585207", "c00c02e00701b300000001585207"),
    (
        "c00b02e00602a3015801595207",
        "c01102e00c02b3000000015800000001595207",
    ),
    ("c00703405207601628", "c00a03405207e00401601628"),
    ("c0050340520740", "c00402405207"),
    ("c00803405207e0020060", "c00402405207"),
    (
        "c00c03405207e006026016271628",
        "c00c03405207e006026016271628",
    ),
    ("c0050252095207", "WrongType"),
    ("c00802e0030152095207", "WrongType"),
    ("c00602a301ff5207", "NonAscii"),
    ("c00902e00401a301ff5207", "NonAscii"),
    ("c00702e00201405207", "ZeroWidthItems"),
    ("c00402455207", "WrongType"),
    ("c00602c101005207", "WrongType"),
    ("c00902e00801a301585207", "Size"),
    ("c00902e00402a301585207", "Size"),
    ("c00402995207", "UnknownCode"),
    ("c00602a30158", "Cut"),
    ("c006044052074040", "Surplus"),
    ("c00100", "Missing"),
    ("45", "Missing"),
];

const BOOLEANS_BY_PORTS: [Row; 3] = [
    ("c106044341520142", "c106044341520142"),
    ("c106045201424341", "c106045201424341"),
    ("c10702700000000141", "c10402520141"),
];

const REFUSED_BOOLEANS_BY_PORTS: [Row; 12] = [
    ("c106044341520042", "DuplicateKey"),
    ("c1080643415201414342", "DuplicateKey"),
    ("c106044341520099", "DuplicateKey"),
    ("c1050343415201", "OddCount"),
    ("d1000000080000000343415201", "OddCount"),
    ("d1fffffffffffffffe", "Cut"),
    ("c1030243", "Cut"),
    ("c1020243", "Size"),
    ("c10402434100", "Size"),
    ("c103024141", "WrongType"),
    ("c103024343", "WrongType"),
    ("c103024399", "UnknownCode"),
];

#[test]
fn any_number_of_values(rt: HostRuntime) -> Result<(), Fail> {
    check::<Offer>("005399", &OFFERS, rt.alloc())
}

#[test]
fn ports_are_keys(rt: HostRuntime) -> Result<(), Fail> {
    check::<OrderedMap<Port, bool>>("", &BOOLEANS_BY_PORTS, rt.alloc())?;
    check::<OrderedMap<Port, bool>>("", &REFUSED_BOOLEANS_BY_PORTS, rt.alloc())
}

// So many symbols `X`.
fn symbols(count: usize, alloc: Global) -> Result<Array<Symbol>, Fail> {
    let mut items = Array::from(Vec::new(alloc));
    for _ in 0..count {
        items.push(Symbol::from_str_in("X", alloc)?)?;
    }
    Ok(items)
}

#[test]
fn offers_are_written(rt: HostRuntime) -> Result<(), Fail> {
    let alloc = rt.alloc();
    for (count, wanted) in [
        (0, "005399c00402405207"),
        (1, "005399c00c02e00701b300000001585207"),
    ] {
        let offer = Offer {
            capabilities: Some(symbols(count, alloc)?),
            number: 7,
            ports: None,
        };
        let text = to_vec(&offer, alloc)?;
        assert_eq!(rt; hex::encode(alloc, &text)?.as_str(), wanted);
        let read: Offer = from_slice(text.as_slice(), alloc)?;
        assert_eq!(rt; read == offer, count > 0);
    }
    Ok(())
}
