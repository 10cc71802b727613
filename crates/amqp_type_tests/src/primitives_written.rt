//! Canonical texts of values, those of types that are written only among them.
use crate::written::check_both_ways;
use amqp_codec::{Error, Symbol};
use amqp_primitives::{Binary, Dec32, Dec64, Dec128, SymbolRef, Timestamp, Uuid};
use amqp_read_write::to_vec;
use amqp_test_helpers::{check_made, check_written, refusal};
use std::alloc::Global;
use std::borrow::CowStr;
use std::rc::Rc;
use std::test::Fail;

#[test]
fn numbers(rt: HostRuntime) -> Result<(), Fail> {
    check_written::<u32>(&0, "43", rt.alloc())?;
    check_written::<u32>(&255, "52ff", rt.alloc())?;
    check_written::<u32>(&256, "7000000100", rt.alloc())?;
    check_written::<i32>(&-128, "5480", rt.alloc())?;
    check_written::<i32>(&128, "7100000080", rt.alloc())?;
    check_written::<i64>(&-1, "55ff", rt.alloc())?;
    check_written(&'é', "73000000e9", rt.alloc())?;
    check_written(&(), "40", rt.alloc())
}

#[test]
fn numbers_both_ways(rt: HostRuntime) -> Result<(), Fail> {
    let alloc = rt.alloc();
    check_both_ways((), "40", alloc)?;
    check_both_ways(true, "41", alloc)?;
    check_both_ways(false, "42", alloc)?;
    check_both_ways(7u8, "5007", alloc)?;
    check_both_ways(258u16, "600102", alloc)?;
    check_both_ways(7u32, "5207", alloc)?;
    check_both_ways(0u64, "44", alloc)?;
    check_both_ways(255u64, "53ff", alloc)?;
    check_both_ways(256u64, "800000000000000100", alloc)?;
    check_both_ways(-1i8, "51ff", alloc)?;
    check_both_ways(-2i16, "61fffe", alloc)?;
    check_both_ways(-1i32, "54ff", alloc)?;
    check_both_ways(127i64, "557f", alloc)?;
    check_both_ways(128i64, "810000000000000080", alloc)?;
    check_both_ways('a', "7300000061", alloc)
}

#[test]
fn bytes_and_texts_both_ways(rt: HostRuntime) -> Result<(), Fail> {
    let alloc = rt.alloc();
    check_both_ways(Dec32([1; 4]), "7401010101", alloc)?;
    check_both_ways(Dec64([2; 8]), "840202020202020202", alloc)?;
    let wide = Dec128([3; 16]);
    check_both_ways(wide, "9403030303030303030303030303030303", alloc)?;
    check_both_ways(Timestamp(-2), "83fffffffffffffffe", alloc)?;
    let uuid = Uuid([4; 16]);
    check_both_ways(uuid, "9804040404040404040404040404040404", alloc)?;
    check_both_ways(Binary(Vec::from_array(alloc, [5, 6])?), "a0020506", alloc)?;
    check_both_ways(String::from_str(alloc, "a")?, "a10161", alloc)?;
    check_both_ways(Symbol::from_str_in("a", alloc)?, "a30161", alloc)
}

#[test]
fn wrapped_values_both_ways(rt: HostRuntime) -> Result<(), Fail> {
    let alloc = rt.alloc();
    check_both_ways(Some(7u32), "5207", alloc)?;
    let none: Option<u32> = None;
    check_both_ways(none, "40", alloc)?;
    check_both_ways(Box::new(alloc, 7u32)?, "5207", alloc)?;
    check_both_ways(Rc::new(alloc, 7u32)?, "5207", alloc)
}

// Whether the text of the binary has this length and begins so.
fn is_text(binary: Binary, len: usize, begins: &[u8], alloc: Global) -> Result<bool, Error> {
    let text = to_vec(&binary, alloc)?;
    Ok(text.len() == len && text.starts_with(begins))
}

#[test]
fn binaries_of_both_widths(rt: HostRuntime) -> Result<(), Fail> {
    let alloc = rt.alloc();
    let short = Binary(Vec::from_array(alloc, [7; 255])?);
    assert!(rt; is_text(short, 257, &[0xa0, 0xff, 7], alloc)?);
    let long = Binary(Vec::from_array(alloc, [7; 256])?);
    assert!(rt; is_text(long, 261, &[0xb0, 0, 0, 1, 0, 7], alloc)?);
    Ok(())
}

#[test]
fn written_only(rt: HostRuntime) -> Result<(), Fail> {
    check_written(&"é", "a102c3a9", rt.alloc())?;
    let borrowed: CowStr<'_> = CowStr::Borrowed("a");
    check_made(Ok(borrowed), "a10161", rt.alloc())?;
    check_made(Ok(SymbolRef("a")), "a30161", rt.alloc())?;
    assert_eq!(rt; refusal(SymbolRef("é"), rt.alloc()), Some(Error::NonAscii));
    let mut number = 8u32;
    check_written(&&mut number, "5208", rt.alloc())
}

#[test]
fn written_as_what_they_own(rt: HostRuntime) -> Result<(), Fail> {
    let owned: CowStr<'_> = CowStr::Owned(String::from_str(rt.alloc(), "b")?);
    check_made(Ok(owned), "a10162", rt.alloc())?;
    check_made(Ok(Rc::new(rt.alloc(), 7u32)?), "5207", rt.alloc())
}
