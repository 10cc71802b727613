//! Limits of the caller: how they are made, and what a decoder returns within them.
use crate::dripping::Dripping;
use amqp_decoder::{Decoder, decoder_of_term, decoder_within, source_of};
use amqp_wire::{ByteSource, Error, Limits};
use std::alloc::Global;
use std::test::Fail;

/// Two described lists, one in the other: the inner one holds a uint. Then a null.
const NESTED: &[u8] = &[
    0x00, 0x53, 0x01, 0xc0, 0x08, 0x01, 0x00, 0x53, 0x02, 0xc0, 0x02, 0x01, 0x43, 0x40,
];

/// One descriptor more than a constructor may have.
const LONG_CONSTRUCTOR: usize = 129;

#[test]
fn limits(rt: HostRuntime) {
    let limits = Limits::new(128, 3, 4).map(|l| (l.nesting(), l.bytes(), l.items()));
    assert_eq!(rt; limits, Some((128, 3, 4)));
    assert!(rt; Limits::new(129, 1, 1).is_none());
    let greatest = Limits::greatest();
    let numbers = (greatest.nesting(), greatest.bytes(), greatest.items());
    assert_eq!(rt; numbers, (128, u64::MAX, u64::MAX));
}

fn limits_of(nesting: u32, bytes: u64, items: u64) -> Limits {
    match Limits::new(nesting, bytes, items) {
        Some(limits) => limits,
        None => Limits::greatest(),
    }
}

fn within(nesting: u32, bytes: u64) -> Limits {
    limits_of(nesting, bytes, u64::MAX)
}

fn within_items(items: u64) -> Limits {
    limits_of(128, u64::MAX, items)
}

fn begin_described_list<R: ByteSource>(
    decoder: &mut Decoder<R>,
    alloc: Global,
) -> Result<(), Error> {
    decoder.begin_described(alloc)?;
    decoder.begin_list()?;
    Ok(())
}

fn end_described_list<R: ByteSource>(decoder: &mut Decoder<R>) -> Result<(), Error> {
    decoder.end_list()?;
    decoder.end_described()
}

fn read_nested<R: ByteSource>(decoder: &mut Decoder<R>, alloc: Global) -> Result<(), Error> {
    begin_described_list(decoder, alloc)?;
    begin_described_list(decoder, alloc)?;
    decoder.read_uint()?;
    end_described_list(decoder)?;
    end_described_list(decoder)?;
    decoder.read_null()
}

fn nested_within(nesting: u32, bytes: u64, alloc: Global) -> Result<(), Error> {
    read_nested(
        &mut decoder_within(NESTED, &within(nesting, bytes), alloc),
        alloc,
    )?;
    let limits = within(nesting, bytes);
    let source = Dripping::new(NESTED, 100);
    read_nested(&mut decoder_within(source, &limits, alloc), alloc)
}

fn term_within(bytes: &[u8], limits: &Limits, alloc: Global) -> Result<usize, Error> {
    let mut decoder = decoder_within(bytes, limits, alloc);
    Ok(decoder.read_term(alloc)?.len())
}

#[test]
fn nesting(rt: HostRuntime) -> Result<(), Fail> {
    let alloc = rt.alloc();
    for nesting in 0..4 {
        assert_eq!(rt; nested_within(nesting, u64::MAX, alloc), Err(Error::Limit));
        let term = term_within(NESTED, &within(nesting, u64::MAX), alloc);
        assert_eq!(rt; term, Err(Error::Limit));
    }
    assert_eq!(rt; nested_within(4, u64::MAX, alloc), Ok(()));
    assert_eq!(rt; term_within(NESTED, &within(4, u64::MAX), alloc), Ok(13));
    Ok(())
}

// An array whose constructor has more descriptors than it may have.
fn array_of_a_long_constructor(alloc: Global) -> Result<Vec<u8>, Error> {
    let mut array = vec![in alloc; 0xf0_u8, 0, 0, 1, 0x88, 0, 0, 0, 0]?;
    for _ in 0..LONG_CONSTRUCTOR {
        array.extend_from_slice(&[0x00, 0x53, 0x01])?;
    }
    array.push(0x40)?;
    Ok(array)
}

// Whether the array is refused for its descriptors, as a term and as it begins.
fn is_too_deep(array: &[u8], alloc: Global) -> bool {
    let limits = within(5, u64::MAX);
    let mut decoder = decoder_within(array, &limits, alloc);
    term_within(array, &limits, alloc) == Err(Error::Depth)
        && decoder.begin_array(alloc) == Err(Error::Depth)
}

#[test]
fn descriptors_of_one_constructor(rt: HostRuntime) -> Result<(), Fail> {
    let array = array_of_a_long_constructor(rt.alloc())?;
    assert!(rt; is_too_deep(array.as_slice(), rt.alloc()));
    Ok(())
}

#[test]
fn bytes(rt: HostRuntime) {
    let alloc = rt.alloc();
    for bytes in 0..14 {
        assert_eq!(rt; nested_within(128, bytes, alloc), Err(Error::Limit));
    }
    assert_eq!(rt; nested_within(128, 14, alloc), Ok(()));
    assert_eq!(rt;
        term_within(NESTED, &within(128, 12), alloc),
        Err(Error::Limit)
    );
    assert_eq!(rt; term_within(NESTED, &within(128, 13), alloc), Ok(13));
}

fn binary_within(bytes: &[u8], limits: &Limits, alloc: Global) -> Result<usize, Error> {
    let mut decoder = decoder_within(bytes, limits, alloc);
    Ok(decoder.read_binary(alloc)?.len())
}

#[test]
fn announced_bytes(rt: HostRuntime) {
    let alloc = rt.alloc();
    let huge: &[u8] = &[0xb0, 0xff, 0xff, 0xff, 0xff];
    let read = binary_within(huge, &within(128, 100), alloc);
    assert_eq!(rt; read, Err(Error::Limit));
    let too_long: &[u8] = &[0xc0, 0x03, 0x01, 0xa0, 0x05];
    assert_eq!(rt;
        term_within(too_long, &within(128, 5), alloc),
        Err(Error::Size)
    );
    assert_eq!(rt;
        term_within(too_long, &within(128, 2), alloc),
        Err(Error::Limit)
    );
}

/// Returns what reading the nested lists returns, and how many of the reader's bytes are left.
fn read_and_left(decoder: Decoder<Dripping<'_>>, alloc: Global) -> (Result<(), Error>, usize) {
    let mut decoder = decoder;
    let read = read_nested(&mut decoder, alloc);
    (read, source_of(decoder).bytes.len())
}

// Whether no more than these bytes are taken from a reader, which are too few.
fn are_bytes_limited(bytes: u64, alloc: Global) -> bool {
    let limits = within(128, bytes);
    let decoder = decoder_within(Dripping::new(NESTED, 100), &limits, alloc);
    let (read, left) = read_and_left(decoder, alloc);
    read == Err(Error::Limit) && NESTED.len().saturating_sub(left) <= bytes as usize
}

// Whether nothing is taken from a reader that no byte may be taken from.
fn is_nothing_taken(alloc: Global) -> bool {
    let mut decoder = decoder_within(Dripping::new(NESTED, 100), &within(128, 0), alloc);
    decoder.peek_code() == Err(Error::Limit) && source_of(decoder).bytes.len() == NESTED.len()
}

#[test]
fn bytes_of_a_reader(rt: HostRuntime) {
    for bytes in 0..14 {
        assert!(rt; are_bytes_limited(bytes, rt.alloc()));
    }
    assert!(rt; is_nothing_taken(rt.alloc()));
}

// Whether a decoder of one term doesn't look for the end of the input, nor for a section.
fn is_nothing_behind(alloc: Global) -> bool {
    let greatest = Limits::greatest();
    let mut decoder = decoder_of_term(NESTED, &greatest, alloc);
    let mut other = decoder_of_term(NESTED, &greatest, alloc);
    decoder.peek_code() == Ok(0)
        && decoder.at_end() == Err(Error::InvalidValue)
        && other.peek_section() == Err(Error::InvalidValue)
}

// Whether the null behind the lists is left.
fn is_one_left(alloc: Global) -> bool {
    let decoder = decoder_of_term(Dripping::new(NESTED, 100), &within(128, 13), alloc);
    read_and_left(decoder, alloc) == (Err(Error::Limit), 1)
}

#[test]
fn one_term_alone(rt: HostRuntime) {
    assert!(rt; is_nothing_behind(rt.alloc()));
    assert!(rt; is_one_left(rt.alloc()));
}

/// The start of an array of 255 ubytes: its code, its size and its count.
const UBYTES: [u8; 9] = [0xf0, 0x00, 0x00, 0x01, 0x04, 0x00, 0x00, 0x00, 0xff];

fn nested_of(items: u64, alloc: Global) -> Result<(), Error> {
    let limits = within_items(items);
    read_nested(&mut decoder_within(NESTED, &limits, alloc), alloc)?;
    let source = Dripping::new(NESTED, 100);
    read_nested(&mut decoder_within(source, &limits, alloc), alloc)
}

#[test]
fn items(rt: HostRuntime) {
    let alloc = rt.alloc();
    for items in 0..4 {
        assert_eq!(rt; nested_of(items, alloc), Err(Error::Limit));
    }
    assert_eq!(rt; nested_of(4, alloc), Ok(()));
    assert_eq!(rt;
        term_within(NESTED, &within_items(2), alloc),
        Err(Error::Limit)
    );
    assert_eq!(rt; term_within(NESTED, &within_items(3), alloc), Ok(13));
}

// The array, of which each item is written.
fn array_of_ubytes(alloc: Global) -> Result<Vec<u8>, Error> {
    let mut array = UBYTES.to_vec(alloc)?;
    array.push(0x50)?;
    array.resize(UBYTES.len() + 256, 0)?;
    Ok(array)
}

// Whether one item fewer than it has is too few for the array as a term.
fn are_items_counted(array: &[u8], alloc: Global) -> bool {
    term_within(array, &within_items(255), alloc) == Err(Error::Limit)
        && term_within(array, &within_items(256), alloc) == Ok(array.len())
}

// Whether the array begins, and so many of its items are zeros.
fn read_ubytes(decoder: &mut Decoder<&[u8]>, items: u32, alloc: Global) -> Result<bool, Error> {
    let mut are_zeros = decoder.begin_array(alloc)? == 255;
    for _ in 0..items {
        are_zeros &= decoder.read_ubyte()? == 0;
    }
    Ok(are_zeros)
}

// Whether the limit is passed by the last item of the array.
fn is_last_refused(array: &[u8], alloc: Global) -> bool {
    let mut decoder = decoder_within(array, &within_items(255), alloc);
    read_ubytes(&mut decoder, 254, alloc) == Ok(true) && decoder.peek_code() == Err(Error::Limit)
}

#[test]
fn items_of_an_array(rt: HostRuntime) -> Result<(), Fail> {
    let array = array_of_ubytes(rt.alloc())?;
    assert!(rt; are_items_counted(array.as_slice(), rt.alloc()));
    assert!(rt; is_last_refused(array.as_slice(), rt.alloc()));
    Ok(())
}

#[test]
fn codes_past_the_items(rt: HostRuntime) {
    let alloc = rt.alloc();
    let none = within_items(0);
    let null: &[u8] = &[0x40];
    assert_eq!(rt;
        decoder_within(null, &none, alloc).peek_code(),
        Err(Error::Limit)
    );
    assert_eq!(rt;
        decoder_within(null, &none, alloc).read_null(),
        Err(Error::Limit)
    );
    let unknown: &[u8] = &[0x99];
    assert_eq!(rt; decoder_within(unknown, &none, alloc).peek_code(), Ok(0x99));
    let read = decoder_within(unknown, &none, alloc).read_null();
    assert_eq!(rt; read, Err(Error::UnknownCode(0x99)));
    assert_eq!(rt; decoder_within(NESTED, &none, alloc).peek_code(), Ok(0));
}
