//! Limits of the caller over two readers. One gives one byte a call; the other fails at its k-th call, and the error is that failure for
//! every k. The limit of bytes ends at each place of the input, from its first byte up to one after what is read. The digits are written
//! out by the standard's tables.
use amqp_decoder_tests::Dripping;
use fe2o3_amqp_types::codec::{Deserialize, Error, Limits, Serialize, from_reader_within, to_vec};
use fe2o3_amqp_types::messaging::message::decode_message_strict_within;
use fe2o3_amqp_types::messaging::{Batch, Data, Message, Received};
use fe2o3_amqp_types::primitives::Value;
use std::alloc::Global;
use std::io::ErrorKind;
use std::test::Fail;

/// A header, two sections of data, and a footer.
const MESSAGE: &str = "00537045005375a00161005375a00162005378c10100";

fn within(bytes: u64, items: u64) -> Limits {
    match Limits::new(128, bytes, items) {
        Some(limits) => limits,
        None => Limits::greatest(),
    }
}

/// How a read ended: whether it returned the value of a text, or why none; how many bytes the reader gave, and in how many calls.
#[derive(Drop)]
struct Ended {
    answer: Result<bool, Error>,
    given: usize,
    calls: usize,
}

/// What is read within limits.
trait Limited {
    /// Whether no byte past the limit is taken from the reader.
    const IS_BOUNDED: bool;

    /// Returns whether the value with this text is read.
    fn is_read(
        reader: &mut Dripping<'_>,
        limits: &Limits,
        text: &[u8],
        alloc: Global,
    ) -> Result<bool, Error>;
}

// Whether the value with this text is read by `from_reader_within`.
fn is_value<T: Deserialize + Serialize>(
    reader: &mut Dripping<'_>,
    limits: &Limits,
    text: &[u8],
    alloc: Global,
) -> Result<bool, Error> {
    let value: T = from_reader_within(reader, limits, alloc)?;
    Ok(to_vec(&value, alloc)?.as_slice() == text)
}

impl Limited for Received {
    const IS_BOUNDED: bool = true;

    fn is_read(
        reader: &mut Dripping<'_>,
        limits: &Limits,
        text: &[u8],
        alloc: Global,
    ) -> Result<bool, Error> {
        is_value::<Received>(reader, limits, text, alloc)
    }
}

impl Limited for Value {
    const IS_BOUNDED: bool = true;

    fn is_read(
        reader: &mut Dripping<'_>,
        limits: &Limits,
        text: &[u8],
        alloc: Global,
    ) -> Result<bool, Error> {
        is_value::<Value>(reader, limits, text, alloc)
    }
}

impl Limited for Batch<Data> {
    const IS_BOUNDED: bool = false;

    fn is_read(
        reader: &mut Dripping<'_>,
        limits: &Limits,
        text: &[u8],
        alloc: Global,
    ) -> Result<bool, Error> {
        is_value::<Batch<Data>>(reader, limits, text, alloc)
    }
}

impl Limited for Message<Batch<Data>> {
    const IS_BOUNDED: bool = false;

    fn is_read(
        reader: &mut Dripping<'_>,
        limits: &Limits,
        text: &[u8],
        alloc: Global,
    ) -> Result<bool, Error> {
        is_value::<Message<Batch<Data>>>(reader, limits, text, alloc)
    }
}

/// A message of two data that is read strictly, by `decode_message_strict_within`.
#[derive(Drop)]
struct Strictly;

impl Limited for Strictly {
    const IS_BOUNDED: bool = false;

    fn is_read(
        reader: &mut Dripping<'_>,
        limits: &Limits,
        text: &[u8],
        alloc: Global,
    ) -> Result<bool, Error> {
        let message: Message<Batch<Data>> = decode_message_strict_within(reader, limits, alloc)?;
        Ok(to_vec(&message, alloc)?.as_slice() == text)
    }
}

// Reads the value of the text from a reader that fails after so many calls.
fn read_through<T: Limited>(
    input: &[u8],
    limits: &Limits,
    calls: usize,
    text: &[u8],
    alloc: Global,
) -> Ended {
    let mut reader = Dripping::new(input, calls);
    let answer = T::is_read(&mut reader, limits, text, alloc);
    Ended {
        answer,
        given: input.len().saturating_sub(reader.bytes.len()),
        calls: calls.saturating_sub(reader.calls),
    }
}

// Within these limits the input is answered so, and each call that fails is answered by its failure.
fn check_within<T: Limited>(
    input: &[u8],
    limits: &Limits,
    text: &[u8],
    wanted: Result<bool, Error>,
    alloc: Global,
) -> Result<(), Fail> {
    let whole = read_through::<T>(input, limits, 1000, text, alloc);
    let bytes = limits.bytes();
    let passes = T::IS_BOUNDED && whole.given as u64 > bytes;
    if whole.answer != wanted || passes {
        return Err(Fail::new(format_args!("{input:?} within {bytes} bytes")));
    }
    for call in 0..whole.calls {
        let failed = read_through::<T>(input, limits, call, text, alloc).answer;
        if failed != Err(Error::Read(ErrorKind::NotFound)) {
            return Err(Fail::new(format_args!("{input:?} within {bytes} bytes at call {call}")));
        }
    }
    Ok(())
}

// An input that begins with a text of so many items: within fewer bytes or items than that takes, a limit is passed.
fn check_input<T: Limited>(
    input: &[u8],
    text: &[u8],
    items: u64,
    alloc: Global,
) -> Result<(), Fail> {
    let len = text.len() as u64;
    for bytes in 0..len {
        check_within::<T>(input, &within(bytes, items), text, Err(Error::Limit), alloc)?;
    }
    for fewer in 0..items {
        check_within::<T>(input, &within(len, fewer), text, Err(Error::Limit), alloc)?;
    }
    for bytes in [len, len.saturating_add(1)] {
        check_within::<T>(input, &within(bytes, items), text, Ok(true), alloc)?;
    }
    Ok(())
}

// The digits of a text of so many items, and of what stands behind it.
fn check<T: Limited>(digits: &str, behind: &str, items: u64, alloc: Global) -> Result<(), Fail> {
    let text = hex::decode(alloc, digits)?;
    let behind = hex::decode(alloc, behind)?;
    let mut input = text.clone()?;
    input.extend_from_slice(behind.as_slice())?;
    check_input::<T>(input.as_slice(), text.as_slice(), items, alloc)
}

#[test]
fn values(rt: HostRuntime) -> Result<(), Fail> {
    let alloc = rt.alloc();
    check::<Received>("005323c005025209530d", "ff", 3, alloc)?;
    check::<Value>("c10702a1026b6b5207", "ff", 3, alloc)?;
    check::<Value>("00a30161c003015207", "", 2, alloc)
}

#[test]
fn batches(rt: HostRuntime) -> Result<(), Fail> {
    let alloc = rt.alloc();
    check::<Batch<Data>>("005375a00161005375a00162", "", 2, alloc)?;
    check::<Batch<Data>>("005375a00161005375a00162", "005378c10100", 2, alloc)
}

#[test]
fn messages(rt: HostRuntime) -> Result<(), Fail> {
    check::<Message<Batch<Data>>>(MESSAGE, "", 4, rt.alloc())
}

#[test]
fn strict_messages(rt: HostRuntime) -> Result<(), Fail> {
    check::<Strictly>(MESSAGE, "", 4, rt.alloc())
}
