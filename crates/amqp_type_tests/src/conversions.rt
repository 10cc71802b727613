//! Each type's conversions once, and the value that a text is read as.
use crate::written::check_read;
use amqp_codec::{Descriptor, Error, Symbol};
use amqp_primitives::{Binary, ByteBuf, Dec32, Dec64, Dec128, SymbolRef, Timestamp, Uuid};
use amqp_test_helpers::{are_equal, is_less};
use std::alloc::Global;
use std::test::Fail;

#[test]
fn whole_numbers(rt: HostRuntime) -> Result<(), Fail> {
    check_read::<i32>("5480", -128, rt.alloc())?;
    check_read::<i64>("81ffffffffffffff7f", -129, rt.alloc())?;
    check_read::<i8>("51ff", -1, rt.alloc())?;
    check_read::<i16>("618000", -32768, rt.alloc())?;
    check_read::<u16>("600102", 258, rt.alloc())?;
    Ok(())
}

#[test]
fn other_values(rt: HostRuntime) -> Result<(), Fail> {
    check_read::<char>("73000000e9", 'é', rt.alloc())?;
    check_read("83ffffffffffffffff", Timestamp(-1), rt.alloc())?;
    check_read("7400000102", Dec32([0, 0, 1, 2]), rt.alloc())?;
    let text = String::from_str(rt.alloc(), "é")?;
    check_read("a102c3a9", text, rt.alloc())?;
    Ok(())
}

// Whether the decimals give back the bytes that they are made of.
fn are_decimals() -> bool {
    let narrow = Dec32::from([1; 4]);
    let middle = Dec64::from([2; 8]);
    let wide = Dec128::from([3; 16]);
    narrow.as_slice() == [1; 4].as_slice()
        && narrow.into_inner() == [1; 4]
        && middle.as_slice() == [2; 8].as_slice()
        && middle.into_inner() == [2; 8]
        && wide.as_slice() == [3; 16].as_slice()
        && wide.into_inner() == [3; 16]
}

#[test]
fn decimals(rt: HostRuntime) {
    assert!(rt; are_decimals());
}

fn is_uuid(uuid: Uuid, bytes: [u8; 16]) -> bool {
    uuid.as_slice() == bytes.as_slice() && uuid.into_inner() == bytes
}

#[test]
fn uuids_and_timestamps(rt: HostRuntime) -> Result<(), Fail> {
    assert!(rt; is_less(Ok(Uuid::from([4; 16])), Ok(Uuid([5; 16])))?);
    assert!(rt; is_uuid(Uuid::from([4; 16]), [4; 16]));
    assert!(rt; is_less(Ok(Timestamp(-1)), Ok(Timestamp::from(0)))?);
    assert_eq!(rt; Timestamp::from(7).into_inner(), 7);
    Ok(())
}

fn binary(bytes: &[u8], alloc: Global) -> Result<Binary, Error> {
    Ok(Binary::from(Vec::from_slice(alloc, bytes)?))
}

fn byte_buf(bytes: &[u8], alloc: Global) -> Result<ByteBuf, Error> {
    Ok(ByteBuf::from(Vec::from_slice(alloc, bytes)?))
}

fn is_binary(binary: Binary, bytes: &[u8]) -> bool {
    binary.as_slice() == bytes && binary.into_inner().as_slice() == bytes
}

#[test]
fn binaries(rt: HostRuntime) -> Result<(), Fail> {
    let alloc = rt.alloc();
    assert!(rt; is_binary(binary(&[1, 2], alloc)?, &[1, 2]));
    assert!(rt; are_equal(binary(&[1, 2], alloc), byte_buf(&[1, 2], alloc))?);
    Ok(())
}

fn symbol(text: &str, alloc: Global) -> Result<Symbol, Error> {
    Ok(Symbol::from_str_in(text, alloc)?)
}

fn is_symbol(symbol: Symbol, text: &str) -> bool {
    symbol.as_str() == text && symbol.into_inner().as_str() == text
}

fn is_symbol_ref(symbol: SymbolRef<'_>, text: &str) -> bool {
    symbol.as_str() == text && symbol.into_inner() == text
}

#[test]
fn symbols(rt: HostRuntime) -> Result<(), Fail> {
    assert!(rt; is_symbol(symbol("a", rt.alloc())?, "a"));
    assert!(rt; is_symbol_ref(SymbolRef::from("a"), "a"));
    Ok(())
}

fn are_bytes_and_codes_ordered() -> Result<bool, Error> {
    Ok(
        is_less(Ok(Dec32([1; 4])), Ok(Dec32([2; 4])))?
            && is_less(Ok(Dec64([1; 8])), Ok(Dec64([2; 8])))?
            && is_less(Ok(Dec128([1; 16])), Ok(Dec128([2; 16])))?
            && is_less(Ok(SymbolRef("a")), Ok(SymbolRef("b")))?
            && is_less(Ok(Descriptor::Code(1)), Ok(Descriptor::Code(2)))?,
    )
}

// Values are ordered by their bytes or texts, and a name comes before each code.
#[test]
fn orders(rt: HostRuntime) -> Result<(), Fail> {
    let alloc = rt.alloc();
    assert!(rt; are_bytes_and_codes_ordered()?);
    assert!(rt; is_less(binary(&[1], alloc), binary(&[1, 0], alloc))?);
    assert!(rt; is_less(symbol("a", alloc), symbol("b", alloc))?);
    let name = symbol("a", alloc).map(Descriptor::Name);
    assert!(rt; is_less(name, Ok(Descriptor::Code(0)))?);
    Ok(())
}
