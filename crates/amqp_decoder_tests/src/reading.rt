//! Rows of reading: each over a slice, over a reader that gives one byte a call, and over one that fails at its k-th
//! call for every k.
use crate::Dripping;
use amqp_decoder::{Decoder, decoder_of, source_of, term_len, unread};
use amqp_wire::{ByteSource, Error};
use std::alloc::Global;
use std::io::ErrorKind;
use std::test::Fail;

/// What is read.
#[derive(Clone, Copy)]
enum Row {
    Null,
    Bool,
    Uint,
    Int,
    Ulong,
    Char,
    Binary,
    Text,
    Symbol,
    Nulls,
    Binaries,
    Map,
    Ubytes,
    Array,
    Term,
    TermInList,
    Described,
}

fn read_item<R: ByteSource>(
    decoder: &mut Decoder<R>,
    row: Row,
    alloc: Global,
) -> Result<(), Error> {
    match row {
        Row::Ubytes => {
            decoder.read_ubyte()?;
        }
        Row::Binaries => {
            decoder.read_binary(alloc)?;
        }
        _ => decoder.read_null()?,
    }
    Ok(())
}

fn end_items<R: ByteSource>(decoder: &mut Decoder<R>, row: Row) -> Result<(), Error> {
    match row {
        Row::Nulls | Row::Binaries => decoder.end_list(),
        Row::Map => decoder.end_map(),
        _ => decoder.end_array(),
    }
}

fn read_items<R: ByteSource>(
    decoder: &mut Decoder<R>,
    row: Row,
    count: u32,
    alloc: Global,
) -> Result<u64, Error> {
    for _ in 0..count {
        read_item(decoder, row, alloc)?;
    }
    end_items(decoder, row)?;
    Ok(u64::from(count))
}

fn read_nested<R: ByteSource>(decoder: &mut Decoder<R>, alloc: Global) -> Result<u64, Error> {
    let mut depth: u64 = 0;
    for _ in 0..200 {
        if decoder.peek_code()? != 0 {
            break;
        }
        decoder.begin_one_of(&[(0, "nothing")])?;
        depth = depth.saturating_add(1);
    }
    match decoder.peek_code()? {
        0x45 => {
            decoder.begin_list()?;
            decoder.end_list()?;
        }
        _ => decoder.read_null()?,
    }
    for _ in 0..depth {
        decoder.end_described()?;
    }
    Ok(depth)
}

fn read<R: ByteSource>(decoder: &mut Decoder<R>, row: Row, alloc: Global) -> Result<u64, Error> {
    match row {
        Row::Null => {
            decoder.read_null()?;
            Ok(0)
        }
        Row::Bool => Ok(u64::from(decoder.read_bool()?)),
        Row::Uint => Ok(u64::from(decoder.read_uint()?)),
        Row::Int => Ok(u64::from(decoder.read_int()?.unsigned_abs())),
        Row::Ulong => decoder.read_ulong(),
        Row::Char => Ok(u64::from(u32::from(decoder.read_char()?))),
        Row::Binary => Ok(decoder.read_binary(alloc)?.len() as u64),
        Row::Text => Ok(decoder.read_string(alloc)?.len() as u64),
        Row::Symbol => Ok(decoder.read_symbol(alloc)?.as_str().len() as u64),
        Row::Term => Ok(decoder.read_term(alloc)?.len() as u64),
        Row::TermInList => {
            decoder.begin_list()?;
            Ok(decoder.read_term(alloc)?.len() as u64)
        }
        Row::Nulls | Row::Binaries => {
            let count = decoder.begin_list()?;
            read_items(decoder, row, count, alloc)
        }
        Row::Map => {
            let count = decoder.begin_map()?;
            read_items(decoder, row, count, alloc)
        }
        Row::Ubytes | Row::Array => {
            let count = decoder.begin_array(alloc)?;
            read_items(decoder, row, count, alloc)
        }
        Row::Described => read_nested(decoder, alloc),
    }
}

/// What a reader that fails leads to.
const FAILED: Result<u64, Error> = Err(Error::Read(ErrorKind::NotFound));

/// Returns whether the input is read so, over each source.
fn is_read(row: Row, input: &[u8], wanted: Result<u64, Error>, alloc: Global) -> bool {
    let mut decoder = decoder_of(input, alloc);
    if read(&mut decoder, row, alloc) != wanted {
        return false;
    }
    let limit = input.len().saturating_mul(4).saturating_add(8);
    let mut decoder = decoder_of(Dripping::new(input, limit), alloc);
    if read(&mut decoder, row, alloc) != wanted {
        return false;
    }
    let left = source_of(decoder).calls;
    for calls in 0..limit.saturating_sub(left) {
        let mut decoder = decoder_of(Dripping::new(input, calls), alloc);
        if read(&mut decoder, row, alloc) != FAILED {
            return false;
        }
    }
    true
}

/// What is read from an input in digits, and what that returns.
type Rows<'a> = &'a [(Row, &'a str, Result<u64, Error>)];

/// Checks that each row is read so.
fn check(rows: Rows<'_>, alloc: Global) -> Result<(), Fail> {
    for (row, digits, wanted) in rows {
        let input = hex::decode(alloc, digits)?;
        if !is_read(*row, input.as_slice(), *wanted, alloc) {
            return Err(Fail::new(format_args!("{digits} is read otherwise")));
        }
    }
    Ok(())
}

#[test]
fn numbers(rt: HostRuntime) -> Result<(), Fail> {
    check(
        &[
            (Row::Uint, "43", Ok(0)),
            (Row::Uint, "5200", Ok(0)),
            (Row::Int, "7100000007", Ok(7)),
            (Row::Uint, "7000000100", Ok(256)),
            (Row::Ulong, "800000000000000024", Ok(0x24)),
            (Row::Ulong, "43", Err(Error::WrongType(0x43))),
            (Row::Char, "730000d800", Err(Error::BadChar)),
            (Row::Char, "730001f600", Ok(0x1f600)),
            (Row::Bool, "5601", Ok(1)),
            (Row::Bool, "5602", Err(Error::BadBool)),
            (Row::Null, "99", Err(Error::UnknownCode(0x99))),
            (Row::Null, "7200000000", Err(Error::FloatCode(0x72))),
            (Row::Null, "", Err(Error::Cut)),
        ],
        rt.alloc(),
    )
}

#[test]
fn texts(rt: HostRuntime) -> Result<(), Fail> {
    check(
        &[
            (Row::Text, "a101ff", Err(Error::BadUtf8)),
            (Row::Text, "a102c3a9", Ok(2)),
            (Row::Symbol, "a302c3a9", Err(Error::NonAscii)),
            (Row::Symbol, "b3000000024142", Ok(2)),
            (Row::Binary, "b0ffffffff41", Err(Error::Cut)),
        ],
        rt.alloc(),
    )?;
    let mut long = Vec::new(rt.alloc());
    long.extend_from_slice(&[0xb0, 0, 0, 0x10, 0x68])?;
    long.resize(5 + 4_200, 7)?;
    assert!(rt; is_read(Row::Binary, long.as_slice(), Ok(4_200), rt.alloc()));
    Ok(())
}

#[test]
fn containers(rt: HostRuntime) -> Result<(), Fail> {
    check(
        &[
            (Row::Nulls, "45", Ok(0)),
            (Row::Nulls, "c00000", Ok(0)),
            (Row::Nulls, "c0020140", Ok(1)),
            (Row::Nulls, "d0ffffffff0000000140", Err(Error::Cut)),
            (Row::Nulls, "d000000005ffffffff40", Err(Error::Size)),
            (Row::Binaries, "c00301a005", Err(Error::Size)),
            (Row::Binaries, "c00301a0", Err(Error::Cut)),
            (Row::Binaries, "c00401a00105", Ok(1)),
            (Row::Nulls, "c00001", Err(Error::Size)),
            (Row::Nulls, "c000", Err(Error::Cut)),
            (Row::Nulls, "d00000000200", Err(Error::Cut)),
            (Row::Nulls, "d0000000020000", Err(Error::Size)),
            (Row::Map, "c1020143", Err(Error::OddCount)),
            (Row::Map, "c10000", Err(Error::Size)),
            (Row::Map, "c100", Err(Error::Size)),
            (Row::Map, "c103024040", Ok(2)),
        ],
        rt.alloc(),
    )
}

#[test]
fn arrays(rt: HostRuntime) -> Result<(), Fail> {
    check(
        &[
            (Row::Ubytes, "e00402500102", Ok(2)),
            (Row::Ubytes, "f00000000700000002500102", Ok(2)),
            (Row::Ubytes, "e00100", Ok(0)),
            (Row::Ubytes, "e0020040", Ok(0)),
            (Row::Ubytes, "e0050000532445", Ok(0)),
            (Row::Ubytes, "e0020550", Err(Error::Size)),
            (Row::Ubytes, "e00402004440", Err(Error::ZeroWidthItems)),
            (Row::Ubytes, "e0020072", Err(Error::FloatCode(0x72))),
            (Row::Ubytes, "e0020099", Err(Error::UnknownCode(0x99))),
            (Row::Ubytes, "e002ff41", Err(Error::ZeroWidthItems)),
            (Row::Ubytes, "e000", Err(Error::Size)),
        ],
        rt.alloc(),
    )
}

fn len(input: &[u8]) -> Result<u64, Error> {
    Ok(term_len(input)? as u64)
}

/// Checks that so many described values in one another around this code are read so, value by value and as one term.
fn check_nested(
    depth: usize,
    end: u8,
    wanted: Result<u64, Error>,
    whole: Result<u64, Error>,
    alloc: Global,
) -> Result<(), Fail> {
    let mut input = Vec::new(alloc);
    for _ in 0..depth {
        input.extend_from_slice(&[0x00, 0x44])?;
    }
    input.push(end)?;
    let input = input.as_slice();
    if is_read(Row::Described, input, wanted, alloc)
        && is_read(Row::Term, input, whole, alloc)
        && len(input) == whole
    {
        Ok(())
    } else {
        Err(Fail::new(format_args!("{depth} values around {end} are read otherwise")))
    }
}

#[test]
fn nesting(rt: HostRuntime) -> Result<(), Fail> {
    check_nested(128, 0x40, Ok(128), Ok(257), rt.alloc())?;
    check_nested(129, 0x40, Err(Error::Depth), Err(Error::Depth), rt.alloc())?;
    check_nested(128, 0x45, Err(Error::Depth), Err(Error::Depth), rt.alloc())
}

/// An array of one empty list that a code describes.
const WHOLE: &str = "e00d01005324d00000000400000000";

/// Checks that each term has this length.
fn check_lengths(rows: &[(&str, Result<u64, Error>)], alloc: Global) -> Result<(), Fail> {
    for (digits, wanted) in rows {
        let input = hex::decode(alloc, digits)?;
        if len(input.as_slice()) != *wanted {
            return Err(Fail::new(format_args!("{digits} has another length")));
        }
    }
    Ok(())
}

/// Returns whether each proper prefix of the term is cut.
fn is_cut_everywhere(term: &[u8]) -> bool {
    for count in 0..term.len() {
        if len(&term[..count]) != Err(Error::Cut) {
            return false;
        }
    }
    true
}

#[test]
fn lengths(rt: HostRuntime) -> Result<(), Fail> {
    check_lengths(
        &[
            ("5207ff", Ok(2)),
            ("e002ff41", Err(Error::ZeroWidthItems)),
            ("c00301a005", Err(Error::Size)),
            ("c1020143", Err(Error::OddCount)),
            ("730000d800", Err(Error::BadChar)),
            (WHOLE, Ok(15)),
        ],
        rt.alloc(),
    )?;
    let whole = hex::decode(rt.alloc(), WHOLE)?;
    assert!(rt; is_cut_everywhere(whole.as_slice()));
    Ok(())
}

#[test]
fn terms(rt: HostRuntime) -> Result<(), Fail> {
    check(
        &[
            (Row::Term, WHOLE, Ok(15)),
            (Row::Term, "5602", Err(Error::BadBool)),
            (Row::Term, "c0020199", Err(Error::UnknownCode(0x99))),
            (Row::Term, "004040", Err(Error::BadDescriptor)),
            (Row::TermInList, "c01001c00301a005", Err(Error::Cut)),
            (Row::TermInList, "c00601c00301a005", Err(Error::Size)),
        ],
        rt.alloc(),
    )
}

/// Reads a described ubyte, begun by one call or the other, and adds one thousand.
fn read_described_ubyte<R: ByteSource>(
    decoder: &mut Decoder<R>,
    is_by_any: bool,
    alloc: Global,
) -> Result<u64, Error> {
    if decoder.peek_code()? != 0 {
        return Err(Error::InvalidValue);
    }
    if is_by_any {
        decoder.begin_described(alloc)?;
    } else {
        decoder.begin_one_of(&[(0x24, "b")])?;
    }
    let number = decoder.read_ubyte()?;
    decoder.end_described()?;
    Ok(1000 + u64::from(number))
}

/// Reads the items of an array of described values, by both calls that begin one.
fn read_shared<R: ByteSource>(decoder: &mut Decoder<R>, alloc: Global) -> Result<u64, Error> {
    let count = decoder.begin_array(alloc)?;
    let mut sum: u64 = 0;
    for index in 0..count {
        let item = read_described_ubyte(decoder, index % 2 == 0, alloc)?;
        sum = sum.saturating_add(item);
    }
    decoder.end_array()?;
    Ok(sum)
}

/// Checks that each array is read so.
fn check_shared(rows: &[(&str, Result<u64, Error>)], alloc: Global) -> Result<(), Fail> {
    for (digits, wanted) in rows {
        let input = hex::decode(alloc, digits)?;
        let mut decoder = decoder_of(input.as_slice(), alloc);
        if read_shared(&mut decoder, alloc) != *wanted {
            return Err(Fail::new(format_args!("{digits} is read otherwise")));
        }
    }
    Ok(())
}

#[test]
fn shared_descriptors(rt: HostRuntime) -> Result<(), Fail> {
    check_shared(
        &[
            ("e0080300532450010203", Ok(3006)),
            ("e0080200a30162500102", Ok(2003)),
            ("e0080200a30163500102", Err(Error::WrongDescriptor)),
            ("e0070300532450010203", Err(Error::Size)),
        ],
        rt.alloc(),
    )
}

fn read_accepted<R: ByteSource>(decoder: &mut Decoder<R>) -> Result<(), Error> {
    decoder.begin_one_of(&[(0x24, "amqp:accepted:list")])?;
    decoder.begin_list()?;
    decoder.end_list()?;
    decoder.end_described()
}

#[test]
fn what_stands_behind(rt: HostRuntime) -> Result<(), Fail> {
    let mut source: &[u8] = &[0x00, 0x53, 0x24, 0x45, 0xff];
    let mut decoder = decoder_of(&mut source, rt.alloc());
    read_accepted(&mut decoder)?;
    let _ = source_of(decoder);
    assert_eq!(rt; source, [0xff].as_slice());
    Ok(())
}

/// Returns the section that comes next, how many bytes are left then, and whether the input ends here.
fn look_ahead(input: &[u8], alloc: Global) -> Result<(Option<u8>, usize, bool), Error> {
    let mut decoder = decoder_of(input, alloc);
    let section = decoder.peek_section()?;
    let left = unread(&decoder);
    let ends = decoder.at_end()?;
    Ok((section, left, ends))
}

/// Checks that this section comes next in each input, and that nothing is taken by that.
fn check_sections(rows: &[(&str, Option<u8>)], alloc: Global) -> Result<(), Fail> {
    for (digits, wanted) in rows {
        let input = hex::decode(alloc, digits)?;
        let (section, left, ends) = look_ahead(input.as_slice(), alloc)?;
        if section != *wanted || left != input.len() || ends != input.is_empty() {
            return Err(Fail::new(format_args!("{digits} is looked at otherwise")));
        }
    }
    Ok(())
}

#[test]
fn sections(rt: HostRuntime) -> Result<(), Fail> {
    check_sections(
        &[
            ("00537540", Some(0x75)),
            ("00800000000000000078", Some(0x78)),
            ("00a310616d71703a6865616465723a6c69737445", Some(0x70)),
            ("0053", None),
            ("005324", None),
            ("405375", None),
            ("", None),
        ],
        rt.alloc(),
    )
}
