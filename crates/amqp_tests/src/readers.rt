//! Worked rows over two readers. One gives one byte a call, and the answer is as for a slice. The other fails at its k-th call, and the
//! error is that failure for every k. The digits are written out by the standard's tables.
use amqp_decoder_tests::Dripping;
use amqp_test_helpers::{is, is_refused};
use fe2o3_amqp_types::codec::{Deserialize, Error, from_reader, from_slice_counted};
use fe2o3_amqp_types::definitions::ErrorCondition;
use fe2o3_amqp_types::messaging::message::Strict;
use fe2o3_amqp_types::messaging::{
    Accepted, AmqpSequence, AmqpValue, Batch, Body, Data, Header, Message, Received,
};
use fe2o3_amqp_types::performatives::{Attach, Disposition, End, Open, Transfer};
use fe2o3_amqp_types::primitives::{Array, Binary, Int, LazyValue, Value};
use fe2o3_amqp_types::sasl::{SaslMechanisms, SaslOutcome};
use std::alloc::Global;
use std::io::ErrorKind;
use std::test::Fail;

/// Bytes in digits; and how many follow the value at their start, or the number of the error for which they are refused.
type Rows<'a> = &'a [(&'a str, Result<usize, u8>)];

// Reads from a reader that fails after so many calls: what it is answered, how many bytes it has left, and how many calls.
fn read_from<T: Deserialize>(
    input: &[u8],
    calls: usize,
    alloc: Global,
) -> (Result<T, Error>, usize, usize) {
    let mut reader = Dripping::new(input, calls);
    let answer = from_reader(&mut reader, alloc);
    (answer, reader.bytes.len(), reader.calls)
}

// Whether a reader that fails after so many calls is answered by its failure.
fn is_failed<T: Deserialize>(input: &[u8], calls: usize, alloc: Global) -> bool {
    let (answer, _, _) = read_from::<T>(input, calls, alloc);
    is_refused(answer, Error::Read(ErrorKind::NotFound))
}

// How many calls it takes to read the input as a slice is read, which is answered so; or `None`, if it is answered otherwise.
fn calls_taken<T: Deserialize + PartialEq>(
    input: &[u8],
    wanted: Result<usize, u8>,
    alloc: Global,
) -> Option<usize> {
    let enough = input.len().saturating_mul(4).saturating_add(8);
    let read: Result<(T, usize), Error> = from_slice_counted(input, alloc);
    let (answer, behind, calls) = read_from::<T>(input, enough, alloc);
    let is_answered = match (read, wanted) {
        (Ok((value, len)), Ok(left)) => {
            is(answer, Ok(value)) && len.checked_add(left) == Some(input.len()) && behind <= left
        }
        (Err(error), Err(number)) => is_refused(answer, error) && error.number() == number,
        _ => false,
    };
    if is_answered {
        Some(enough.saturating_sub(calls))
    } else {
        None
    }
}

// The input is answered so over both readers.
fn check_input<T: Deserialize + PartialEq>(
    input: &[u8],
    wanted: Result<usize, u8>,
    alloc: Global,
) -> Result<(), Fail> {
    let Some(calls) = calls_taken::<T>(input, wanted, alloc) else {
        return Err(Fail::new(format_args!("{input:?} is read otherwise")));
    };
    for call in 0..calls {
        if !is_failed::<T>(input, call, alloc) {
            return Err(Fail::new(format_args!("{input:?} at call {call}")));
        }
    }
    Ok(())
}

// Each row is answered so over both readers.
fn check<T: Deserialize + PartialEq>(rows: Rows<'_>, alloc: Global) -> Result<(), Fail> {
    for (digits, wanted) in rows {
        let input = hex::decode(alloc, digits)?;
        check_input::<T>(input.as_slice(), *wanted, alloc)?;
    }
    Ok(())
}

#[test]
fn states_and_headers(rt: HostRuntime) -> Result<(), Fail> {
    let alloc = rt.alloc();
    check::<Accepted>(
        &[
            ("005324c00000", Ok(0)),
            ("005324d00000000000000000", Ok(0)),
            ("0080000000000000002445", Ok(0)),
            ("00a312616d71703a61636365707465643a6c697374c00100", Ok(0)),
            ("00532445ff", Ok(1)),
            ("005324c0020140", Err(7)),
            ("", Err(1)),
        ],
        alloc,
    )?;
    check::<Received>(
        &[
            ("005323c005025209530d", Ok(0)),
            ("005323c00502520953", Err(1)),
            ("005323c006025209530d40", Err(4)),
            ("005323c003015209", Err(8)),
        ],
        alloc,
    )?;
    check::<Header>(&[("005370c00705425004404243", Ok(0))], alloc)
}

#[test]
fn performatives(rt: HostRuntime) -> Result<(), Fail> {
    let alloc = rt.alloc();
    check::<End>(&[("00531745", Ok(0))], alloc)?;
    check::<Disposition>(&[("005315c009054143404100532445", Ok(0))], alloc)?;
    check::<Transfer>(&[("005314c00b054343a004000000014341", Ok(0))], alloc)?;
    check::<Open>(
        &[
            ("005310c00701a10474657374", Ok(0)),
            (
                "005310c01f08a10474657374404040404040e01002b300000003464f4f00000003424152",
                Ok(0),
            ),
        ],
        alloc,
    )?;
    check::<Attach>(
        &[(
            "005312c0580ea114727573742d72656365697665722d6c696e6b2d314342500040005328c00f0ba102713140404040404040\
     404040005329c008074040404040404040404380ffffffffffffffffa30b5348415245442d535542534040",
            Ok(0),
        )],
        alloc,
    )
}

#[test]
fn frames_of_the_security_layer(rt: HostRuntime) -> Result<(), Fail> {
    let alloc = rt.alloc();
    check::<SaslMechanisms>(
        &[
            ("005340c00501e00200a3", Err(18)),
            ("005340c0020140", Err(18)),
            ("00534045", Err(18)),
            ("005340c00401a30158", Ok(0)),
        ],
        alloc,
    )?;
    check::<SaslOutcome>(
        &[("005344c003015003", Ok(0)), ("005344c003015005", Err(17))],
        alloc,
    )
}

#[test]
fn values(rt: HostRuntime) -> Result<(), Fail> {
    let alloc = rt.alloc();
    check::<Value>(
        &[
            ("e002ff41", Err(11)),
            ("f000000005ffffffff40", Err(11)),
            ("e00100", Ok(0)),
            ("e0020040", Ok(0)),
            ("c106044341520042", Err(6)),
            ("c1020143", Err(5)),
            ("7200000000", Err(3)),
            ("99", Err(2)),
            ("d0ffffffff0000000140", Err(1)),
            ("d000000005ffffffff40", Err(4)),
        ],
        alloc,
    )?;
    check::<bool>(&[("5602", Err(12))], alloc)?;
    check::<Binary>(&[("b0ffffffff41", Err(1))], alloc)?;
    check::<Array<u32>>(&[("e00402520102", Ok(0))], alloc)?;
    check::<Array<Accepted>>(&[("e00d01005324d00000000400000000", Ok(0))], alloc)?;
    check::<ErrorCondition>(
        &[
            ("a30e616d71703a6e6f742d666f756e64", Ok(0)),
            (
                "a318616d71703a636f6e6e656374696f6e3a7265646972656374",
                Ok(0),
            ),
        ],
        alloc,
    )?;
    check::<AmqpValue<LazyValue>>(&[("005377a108746573745f737472", Ok(0))], alloc)
}

// So many descriptors, one behind another, and a value of one byte behind them are answered so over both readers.
fn check_chain(
    descriptors: usize,
    code: u8,
    wanted: Result<usize, u8>,
    alloc: Global,
) -> Result<(), Fail> {
    let mut input = Vec::new(alloc);
    for _ in 0..descriptors {
        input.extend_from_slice(&[0x00, 0x44])?;
    }
    input.push(code)?;
    check_input::<Value>(input.as_slice(), wanted, alloc)
}

#[test]
fn deep_values(rt: HostRuntime) -> Result<(), Fail> {
    let alloc = rt.alloc();
    check_chain(128, 0x40, Ok(0), alloc)?;
    check_chain(129, 0x40, Err(10), alloc)?;
    check_chain(128, 0x45, Err(10), alloc)
}

/// A header, three sections of data and a footer.
const THREE_DATA: &str =
    "00537045005375a009010203040506070809005375a009010203040506070809005375a009010203040506070809005378c10100";

/// Messages without a body.
const NO_BODY: Rows<'static> = &[
    ("", Ok(0)),
    ("00537045", Ok(0)),
    ("0053704500537345", Ok(0)),
    ("0053734500537045", Ok(0)),
    (
        "005370450053704500537045005370450053704500537045005370c0020141ff",
        Ok(1),
    ),
    (
        "005370450053704500537045005370450053704500537045ff",
        Err(20),
    ),
];

/// Messages of sequences: of an empty one, and of an int and a null.
const SEQUENCES: Rows<'static> = &[("00537645", Ok(0)), ("005376c00402540140", Ok(0))];

#[test]
fn batches(rt: HostRuntime) -> Result<(), Fail> {
    let alloc = rt.alloc();
    check::<Batch<Data>>(
        &[
            ("", Ok(0)),
            ("005375a00161005375a00561", Err(1)),
            ("005375a00161005378c10100", Ok(6)),
            ("005375a001610053", Ok(2)),
        ],
        alloc,
    )?;
    check::<Message<Batch<Data>>>(&[(THREE_DATA, Ok(0))], alloc)
}

#[test]
fn messages_of_any_body(rt: HostRuntime) -> Result<(), Fail> {
    check::<Message<Body<Value>>>(NO_BODY, rt.alloc())
}

#[test]
fn messages_of_what_may_be_absent(rt: HostRuntime) -> Result<(), Fail> {
    let alloc = rt.alloc();
    check::<Message<Option<String>>>(NO_BODY, alloc)?;
    check::<Message<Value>>(NO_BODY, alloc)?;
    check::<Message<Option<AmqpSequence<Int>>>>(SEQUENCES, alloc)?;
    check::<Message<Option<Batch<AmqpSequence<Int>>>>>(SEQUENCES, alloc)
}

#[test]
fn strict_messages(rt: HostRuntime) -> Result<(), Fail> {
    let alloc = rt.alloc();
    check::<Strict<Option<String>>>(
        &[
            ("0053704500537345", Ok(0)),
            ("0053734500537045", Err(30)),
            ("0053704500537045", Err(30)),
            ("00537045ff", Err(20)),
        ],
        alloc,
    )?;
    check::<Strict<Data>>(&[("005375a00161005375a00162", Err(30))], alloc)?;
    check::<Strict<Batch<Data>>>(
        &[("005375a00161005375a00162", Ok(0)), (THREE_DATA, Ok(0))],
        alloc,
    )
}

#[test]
fn messages(rt: HostRuntime) -> Result<(), Fail> {
    let alloc = rt.alloc();
    check::<Message<AmqpValue<Value>>>(&[("0053704500537345", Ok(0))], alloc)?;
    check::<Message<AmqpValue<LazyValue>>>(&[("005377a108746573745f737472", Ok(0))], alloc)?;
    check::<Message<Data>>(
        &[
            ("0053704500537345", Err(19)),
            ("005375a00161005375a00162", Ok(0)),
            (
                "005370c00b0540407048190800405203005371c12402a310782d6f70742d6c6f636b2d746f6b656e98f4de71999f58414eb6\
     85d42782928fd0005372c16c08a313782d6f70742d656e7175657565642d74696d65830000018258d3cb78a315782d6f7074\
     2d73657175656e63652d6e756d6265725531a312782d6f70742d6c6f636b65642d756e74696c830000018258df5cf8a31378\
     2d6f70742d6d6573736167652d73746174655400005373c02c0da10d416d71704e65744c6974652d31404040404040408300\
     000182a0ecd378830000018258d3cb78404040005375a00a6d657373616765202331",
                Ok(0),
            ),
        ],
        alloc,
    )
}
