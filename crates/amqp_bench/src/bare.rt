//! Lists, an array, maps and binaries that are written and read by the bare calls of an encoder and a decoder.
use crate::cases::{Case, Way, Work};
use amqp_decoder::{Decoder, decoder_of};
use amqp_encoder::{Encoder, Pass, buffer_of, filling_encoder, measured_len, measuring_encoder};
use amqp_wire::{Error, Symbol};
use std::alloc::Global;

/// What a case writes.
#[derive(Drop)]
pub(crate) struct Content {
    numbers: Vec<u32>,
    texts: Vec<String>,
    symbols: Vec<(Symbol, u32)>,
    bytes: Vec<u8>,
}

/// A case's content, which is written by bare calls, or read from its canonical text.
#[derive(Drop)]
pub(crate) struct Bare {
    case: Case,
    way: Way,
    content: Content,
    text: Vec<u8>,
}

impl Bare {
    pub(crate) fn new(case: Case, way: Way, alloc: Global) -> Result<Bare, Error> {
        let content = content_of(case, alloc)?;
        let text = write(case, &content, alloc)?;
        Ok(Bare {
            case,
            way,
            content,
            text,
        })
    }

    /// Returns the canonical text.
    pub(crate) fn into_text(self) -> Vec<u8> {
        self.text
    }
}

impl Work for Bare {
    fn run(&self, alloc: Global) -> Result<u64, Error> {
        match self.way {
            Way::Writing => Ok(write(self.case, &self.content, alloc)?.len() as u64),
            Way::Reading => read(self.case, &self.text, alloc),
        }
    }
}

fn content_of(case: Case, alloc: Global) -> Result<Content, Error> {
    let mut content = Content {
        numbers: Vec::new(alloc),
        texts: Vec::new(alloc),
        symbols: Vec::new(alloc),
        bytes: Vec::new(alloc),
    };
    let mut number = 1u32;
    for index in 0..case.values() {
        content.numbers.push(number % 1000)?;
        content.texts.push(format!(in alloc; "text {index}")?)?;
        let name = Symbol::from(format!(in alloc; "text {index}")?);
        if content.symbols.push((name, number % 1000)).is_err() {
            return Err(Error::Memory);
        }
        number = number.wrapping_mul(1_664_525).wrapping_add(1_013_904_223);
    }
    content.bytes.resize(case.length(), 0x61)?;
    Ok(content)
}

// The canonical text: measured, and filled into one buffer.
fn write(case: Case, content: &Content, alloc: Global) -> Result<Vec<u8>, Error> {
    let mut encoder = measuring_encoder(alloc);
    serialize(case, content, &mut encoder)?;
    let len = measured_len(&encoder)?;
    let buffer = Vec::with_capacity(alloc, len)?;
    let mut filling = filling_encoder(&mut encoder, alloc, buffer, len);
    serialize(case, content, &mut filling)?;
    Ok(buffer_of(filling))
}

fn serialize<P: Pass>(
    case: Case,
    content: &Content,
    encoder: &mut Encoder<P>,
) -> Result<(), Error> {
    match case {
        Case::Uints | Case::UintVec => write_uints(&content.numbers, encoder),
        Case::Ulongs | Case::UlongArray => write_ulongs(&content.numbers, encoder),
        Case::Strings => write_strings(&content.texts, encoder),
        Case::Map => write_map(content, encoder),
        Case::Symbols | Case::KeptSymbols | Case::SymbolMap | Case::LargeMap | Case::ValueMap =>
            write_symbols(&content.symbols, encoder),
        _ => encoder.write_binary(&content.bytes),
    }
}

// The sum of its numbers and of the lengths of its texts and bytes.
fn read(case: Case, text: &[u8], alloc: Global) -> Result<u64, Error> {
    let mut decoder = decoder_of(text, alloc);
    match case {
        Case::Uints => read_uints(&mut decoder),
        Case::Ulongs => read_ulongs(&mut decoder, alloc),
        Case::Strings => read_strings(&mut decoder, alloc),
        Case::Map => read_map(&mut decoder, alloc),
        Case::Symbols => read_symbols(&mut decoder, alloc),
        Case::KeptSymbols => Ok(kept_symbols(&mut decoder, alloc)?.len() as u64),
        _ => Ok(decoder.read_binary(alloc)?.len() as u64),
    }
}

fn write_uints<P: Pass>(numbers: &[u32], encoder: &mut Encoder<P>) -> Result<(), Error> {
    encoder.begin_list()?;
    for number in numbers {
        encoder.write_uint(*number)?;
    }
    encoder.end_list()
}

fn write_ulongs<P: Pass>(numbers: &[u32], encoder: &mut Encoder<P>) -> Result<(), Error> {
    encoder.begin_array()?;
    for number in numbers {
        encoder.write_ulong(u64::from(*number))?;
    }
    encoder.end_array()
}

fn write_strings<P: Pass>(texts: &[String], encoder: &mut Encoder<P>) -> Result<(), Error> {
    encoder.begin_list()?;
    for text in texts {
        encoder.write_string(text.as_str())?;
    }
    encoder.end_list()
}

fn write_map<P: Pass>(content: &Content, encoder: &mut Encoder<P>) -> Result<(), Error> {
    encoder.begin_map()?;
    for (text, number) in content.texts.iter().zip(&content.numbers) {
        encoder.write_string(text.as_str())?;
        encoder.write_uint(*number)?;
    }
    encoder.end_map()
}

fn write_symbols<P: Pass>(
    entries: &[(Symbol, u32)],
    encoder: &mut Encoder<P>,
) -> Result<(), Error> {
    encoder.begin_map()?;
    for (name, number) in entries {
        encoder.write_symbol(name.as_str())?;
        encoder.write_uint(*number)?;
    }
    encoder.end_map()
}

fn read_uints(decoder: &mut Decoder<&[u8]>) -> Result<u64, Error> {
    let mut sum = 0u64;
    for _ in 0..decoder.begin_list()? {
        sum = sum.wrapping_add(u64::from(decoder.read_uint()?));
    }
    decoder.end_list()?;
    Ok(sum)
}

fn read_ulongs(decoder: &mut Decoder<&[u8]>, alloc: Global) -> Result<u64, Error> {
    let mut sum = 0u64;
    for _ in 0..decoder.begin_array(alloc)? {
        sum = sum.wrapping_add(decoder.read_ulong()?);
    }
    decoder.end_array()?;
    Ok(sum)
}

fn read_strings(decoder: &mut Decoder<&[u8]>, alloc: Global) -> Result<u64, Error> {
    let mut sum = 0u64;
    for _ in 0..decoder.begin_list()? {
        sum = sum.wrapping_add(decoder.read_string(alloc)?.len() as u64);
    }
    decoder.end_list()?;
    Ok(sum)
}

fn read_map(decoder: &mut Decoder<&[u8]>, alloc: Global) -> Result<u64, Error> {
    let mut sum = 0u64;
    for _ in 0..decoder.begin_map()? / 2 {
        sum = sum.wrapping_add(decoder.read_string(alloc)?.len() as u64);
        sum = sum.wrapping_add(u64::from(decoder.read_uint()?));
    }
    decoder.end_map()?;
    Ok(sum)
}

fn read_symbols(decoder: &mut Decoder<&[u8]>, alloc: Global) -> Result<u64, Error> {
    let mut sum = 0u64;
    for _ in 0..decoder.begin_map()? / 2 {
        sum = sum.wrapping_add(decoder.read_symbol(alloc)?.as_str().len() as u64);
        sum = sum.wrapping_add(u64::from(decoder.read_uint()?));
    }
    decoder.end_map()?;
    Ok(sum)
}

// The entries in a row, each with the memory of its key.
fn kept_symbols(decoder: &mut Decoder<&[u8]>, alloc: Global) -> Result<Vec<(Symbol, u32)>, Error> {
    let mut entries = Vec::new(alloc);
    for _ in 0..decoder.begin_map()? / 2 {
        let name = decoder.read_symbol(alloc)?;
        let number = decoder.read_uint()?;
        if entries.push((name, number)).is_err() {
            return Err(Error::Memory);
        }
    }
    decoder.end_map()?;
    Ok(entries)
}
