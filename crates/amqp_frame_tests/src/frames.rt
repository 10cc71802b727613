//! Tests: bytes of the standard's layout for each outcome, and printed text.
use amqp_attach::Performative;
use amqp_frames::{
    AmqpBody, BodyError, BodyFault, Frame, FrameError, FrameHeader, FrameKind, HeaderStep,
    ProtocolHeader, ProtocolId, SaslFrame, Step, WriteError, next_frame, next_protocol_header,
    write_empty_frame, write_frame, write_sasl_frame,
};
use amqp_read_write::from_slice;
use amqp_wire::{Error, Limits};
use std::alloc::Global;
use std::test::Fail;

// Bytes, the maximum, and how many more bytes the frame needs.
const SHORT: [(&[u8], u32, usize); 5] = [
    (&[], 512, 8),
    (&[0, 0, 0], 512, 5),
    (&[0, 0, 0, 8], 512, 4),
    (&[0, 0, 0, 8, 2, 0, 0], 512, 1),
    (&[0, 0, 2, 0, 2, 1, 0, 0, 0], 512, 503),
];

// Bytes, the maximum, the error, and the place that it reports.
const FAULTS: [(&[u8], u32, FrameError, usize); 8] = [
    (&[0, 0, 0, 7], 512, FrameError::SizeBelowHeader, 0),
    (&[0, 0, 2, 1], 512, FrameError::SizeAboveMaximum, 0),
    (b"AMQP", 0x4000_0000, FrameError::SizeAboveMaximum, 0),
    (&[0, 0, 0, 8, 1], 512, FrameError::DataOffsetBelowHeader, 4),
    (&[0, 0, 0, 11, 3], 512, FrameError::DataOffsetPastSize, 4),
    (&[0, 0, 0, 8, 2, 2], 512, FrameError::UnknownType(2), 5),
    (&[0, 0, 2, 1, 2, 1], 1024, FrameError::SaslAboveLimit, 0),
    (
        &[0, 0, 2, 1, 1, 9],
        1024,
        FrameError::DataOffsetBelowHeader,
        4,
    ),
];

#[test]
fn short_inputs(rt: HostRuntime) {
    for (bytes, max, needs) in SHORT {
        assert_eq!(rt; next_frame(bytes, max), Ok(Step::Needs(needs)), "{bytes:?}");
    }
}

#[test]
fn faults(rt: HostRuntime) {
    for (bytes, max, error, place) in FAULTS {
        assert_eq!(rt; next_frame(bytes, max), Err(error), "{bytes:?}");
        assert_eq!(rt; error.at(), place);
        assert_eq!(rt; error.condition(), "amqp:connection:framing-error");
    }
}

// An AMQP frame on channel 0x0102 with four bytes of extended header and three of body, and a byte after it.
#[test]
fn amqp_frame(rt: HostRuntime) {
    let bytes = [0, 0, 0, 15, 3, 0, 1, 2, 4, 4, 4, 4, 7, 8, 9, 255];
    let frame = Frame {
        header: FrameHeader {
            size: 15,
            data_offset: 3,
            kind: FrameKind::Amqp { channel: 0x0102 },
        },
        extended: &bytes[8..12],
        body: &bytes[12..15],
    };
    assert_eq!(rt; next_frame(&bytes, 15), Ok(Step::Frame(frame)));
}

// What is written is read. An empty AMQP frame keeps a connection alive.
#[test]
fn written_frames(rt: HostRuntime) -> Result<(), Fail> {
    let empty = FrameHeader::amqp(7, 0, 512)?;
    assert_eq!(rt; empty.to_bytes(), [0, 0, 0, 8, 2, 0, 0, 7]);
    let sasl = FrameHeader::sasl(504)?;
    assert_eq!(rt; sasl.to_bytes(), [0, 0, 2, 0, 2, 1, 0, 0]);
    assert_eq!(rt;
        FrameHeader::amqp(7, 505, 512),
        Err(FrameError::SizeAboveMaximum)
    );
    assert_eq!(rt;
        FrameHeader::amqp(7, usize::MAX, u32::MAX),
        Err(FrameError::SizeAboveMaximum)
    );
    assert_eq!(rt; FrameHeader::sasl(505), Err(FrameError::SaslAboveLimit));
    Ok(())
}

#[test]
fn protocol_headers(rt: HostRuntime) {
    let bytes = ProtocolHeader::SASL.to_bytes();
    assert_eq!(rt; bytes, *b"AMQP\x03\x01\x00\x00");
    assert_eq!(rt;
        next_protocol_header(&bytes),
        Ok(HeaderStep::Header(ProtocolHeader::SASL))
    );
    assert_eq!(rt; next_protocol_header(b"AMQP\x00"), Ok(HeaderStep::Needs(3)));
    assert_eq!(rt; next_protocol_header(b""), Ok(HeaderStep::Needs(8)));
    assert_eq!(rt;
        next_protocol_header(b"AMX"),
        Err(FrameError::NotProtocolHeader)
    );
    let other = ProtocolHeader {
        id: ProtocolId(1),
        major: 0,
        minor: 9,
        revision: 1,
    };
    assert_eq!(rt;
        next_protocol_header(b"AMQP\x01\x00\x09\x01!"),
        Ok(HeaderStep::Header(other))
    );
    assert!(rt; !other.is_supported());
    assert!(rt; ProtocolHeader::TLS.is_supported());
}

#[test]
fn printed(rt: HostRuntime) -> Result<(), Fail> {
    let header = format!(in rt.alloc(); "{}", ProtocolHeader::AMQP)?;
    assert_eq!(rt; header.as_str(), "AMQP 0 1.0.0");
    let error = format!(in rt.alloc(); "{}", FrameError::UnknownType(2))?;
    assert_eq!(rt; error.as_str(), "no frame has the type 0x02");
    let left = BodyError {
        fault: BodyFault::BytesLeft,
        at: 17,
    };
    let error = format!(in rt.alloc(); "{left}")?;
    assert_eq!(rt;
        error.as_str(),
        "bytes follow the value of a SASL frame, at byte 17 of the frame"
    );
    let error = format!(in rt.alloc(); "{}", WriteError::Value(Error::Memory))?;
    assert_eq!(rt; error.as_str(), "out of memory");
    Ok(())
}

// An AMQP frame on channel 0x0102: an `open` whose container id is "c", and a payload of one byte (Part 2, section 2.7.1).
const OPEN_FRAME: [u8; 18] = [
    0, 0, 0, 18, 2, 0, 1, 2, 0, 0x53, 0x10, 0xc0, 4, 1, 0xa1, 1, b'c', 7,
];

// A SASL frame: a `sasl-response` of two bytes (Part 5, section 5.3.3.4).
const RESPONSE_FRAME: [u8; 18] = [
    0, 0, 0, 18, 2, 1, 0, 0, 0, 0x53, 0x43, 0xc0, 5, 1, 0xa0, 2, 8, 9,
];

// The first bytes of a `sasl-response` of 488 bytes, which has 505 in all.
const LONG_RESPONSE: [u8; 17] = [
    0, 0x53, 0x43, 0xd0, 0, 0, 1, 0xf1, 0, 0, 0, 1, 0xb0, 0, 0, 1, 0xe8,
];

// Frames, the fault of each one's body that is read as AMQP, and its place.
const AMQP_FAULTS: [(&[u8], BodyFault, usize); 3] = [
    (&RESPONSE_FRAME, BodyFault::OtherType, 5),
    (
        &[0, 0, 0, 15, 3, 0, 0, 0, 0, 0, 0, 0, 0, 0x53, 0x10],
        BodyFault::Value(Error::Cut),
        12,
    ),
    (
        &[0, 0, 0, 12, 2, 0, 0, 0, 0, 0x53, 0x43, 0x45],
        BodyFault::Value(Error::WrongDescriptor),
        8,
    ),
];

// The same, read as SASL.
const SASL_FAULTS: [(&[u8], BodyFault, usize); 4] = [
    (&OPEN_FRAME, BodyFault::OtherType, 5),
    (&[0, 0, 0, 8, 2, 1, 0, 0], BodyFault::EmptySasl, 8),
    (
        &[0, 0, 0, 12, 2, 1, 0, 0, 0, 0x53, 0x10, 0x45],
        BodyFault::Value(Error::WrongDescriptor),
        8,
    ),
    (
        &[
            0, 0, 0, 18, 2, 1, 0, 0, 0, 0x53, 0x43, 0xc0, 4, 1, 0xa0, 1, 8, 9,
        ],
        BodyFault::BytesLeft,
        17,
    ),
];

// Faults, and the condition that a peer is told.
const CONDITIONS: [(BodyFault, &str); 4] = [
    (BodyFault::OtherType, "amqp:connection:framing-error"),
    (BodyFault::Value(Error::Memory), "amqp:internal-error"),
    (
        BodyFault::Value(Error::Limit),
        "amqp:resource-limit-exceeded",
    ),
    (BodyFault::BytesLeft, "amqp:decode-error"),
];

// The frame that the bytes are.
fn frame(bytes: &[u8]) -> Option<Frame<'_>> {
    match next_frame(bytes, 1024) {
        Ok(Step::Frame(frame)) => Some(frame),
        _ => None,
    }
}

// Whether the two are equal. They are dropped here.
fn are_equal<T: PartialEq + Drop>(made: T, wanted: T) -> bool {
    made == wanted
}

// Whether this frame is refused so, if its body is read as AMQP.
fn is_no_amqp(frame: Frame<'_>, error: BodyError, alloc: Global) -> bool {
    are_equal(frame.amqp(&Limits::greatest(), alloc), Err(error))
}

// The same, if it is read as SASL.
fn is_no_sasl(frame: Frame<'_>, error: BodyError, alloc: Global) -> bool {
    are_equal(frame.sasl(&Limits::greatest(), alloc), Err(error))
}

// Whether the body of the frame is the `open` of `OPEN_FRAME`, and its payload.
fn has_opening(frame: Frame<'_>, alloc: Global) -> bool {
    match from_slice::<Performative>(&OPEN_FRAME[8..17], alloc) {
        Ok(performative) => are_equal(
            frame.amqp(&Limits::greatest(), alloc),
            Ok(Some(AmqpBody {
                performative,
                payload: &[7],
            })),
        ),
        Err(_) => false,
    }
}

// Whether the body of the frame is the response of `RESPONSE_FRAME`.
fn has_response(frame: Frame<'_>, alloc: Global) -> bool {
    match from_slice::<SaslFrame>(&RESPONSE_FRAME[8..], alloc) {
        Ok(response) => are_equal(frame.sasl(&Limits::greatest(), alloc), Ok(response)),
        Err(_) => false,
    }
}

// Appends a frame with the performative that these bytes are, and a payload of one byte.
fn write_amqp(
    buffer: &mut Vec<u8>,
    bytes: &[u8],
    max: u32,
    alloc: Global,
) -> Result<usize, WriteError> {
    match from_slice::<Performative>(bytes, alloc) {
        Ok(performative) => {
            let written = write_frame(buffer, 0x0102, &performative, &[7], max, alloc);
            drop(performative);
            written
        }
        Err(error) => Err(WriteError::Value(error)),
    }
}

// Appends a frame with the SASL type that these bytes are.
fn write_sasl(buffer: &mut Vec<u8>, bytes: &[u8], alloc: Global) -> Result<usize, WriteError> {
    match from_slice::<SaslFrame>(bytes, alloc) {
        Ok(value) => {
            let written = write_sasl_frame(buffer, &value, alloc);
            drop(value);
            written
        }
        Err(error) => Err(WriteError::Value(error)),
    }
}

#[test]
fn frames_with_bodies(rt: HostRuntime) -> Result<(), Fail> {
    let alloc = rt.alloc();
    let mut buffer = Vec::new(alloc);
    let len = write_amqp(&mut buffer, &OPEN_FRAME[8..17], 18, alloc)?;
    assert!(rt; len == 18 && buffer.as_slice() == OPEN_FRAME.as_slice());
    buffer.clear();
    let len = write_sasl(&mut buffer, &RESPONSE_FRAME[8..], alloc)?;
    assert!(rt; len == 18 && buffer.as_slice() == RESPONSE_FRAME.as_slice());
    Ok(())
}

// An empty frame keeps a connection alive.
#[test]
fn bodies(rt: HostRuntime) {
    let alloc = rt.alloc();
    let empty = [0, 0, 0, 8, 2, 0, 0, 3];
    match (frame(&OPEN_FRAME), frame(&RESPONSE_FRAME), frame(&empty)) {
        (Some(opening), Some(response), Some(empty)) => {
            assert!(rt; has_opening(opening, alloc));
            assert!(rt; has_response(response, alloc));
            assert!(rt; are_equal(empty.amqp(&Limits::greatest(), alloc), Ok(None)));
        }
        _ => assert!(rt; false),
    }
}

#[test]
fn refused_bodies(rt: HostRuntime) {
    let alloc = rt.alloc();
    for (bytes, fault, at) in AMQP_FAULTS {
        let error = BodyError { fault, at };
        match frame(bytes) {
            Some(frame) => assert!(rt; is_no_amqp(frame, error, alloc), "{bytes:?}"),
            None => assert!(rt; false, "{bytes:?}"),
        }
    }
    for (bytes, fault, at) in SASL_FAULTS {
        let error = BodyError { fault, at };
        match frame(bytes) {
            Some(frame) => assert!(rt; is_no_sasl(frame, error, alloc), "{bytes:?}"),
            None => assert!(rt; false, "{bytes:?}"),
        }
    }
}

#[test]
fn empty_frames(rt: HostRuntime) -> Result<(), Fail> {
    let mut buffer = vec![in rt.alloc(); 255]?;
    let len = write_empty_frame(&mut buffer, 3)?;
    assert!(rt; len == 8 && buffer.as_slice() == [255, 0, 0, 0, 8, 2, 0, 0, 3].as_slice());
    Ok(())
}

// A frame of one byte more than the maximum, and a SASL frame of 513 bytes. The buffer is unchanged.
#[test]
fn large_frames(rt: HostRuntime) -> Result<(), Fail> {
    let alloc = rt.alloc();
    let mut buffer = vec![in alloc; 255]?;
    let written = write_amqp(&mut buffer, &OPEN_FRAME[8..17], 17, alloc);
    assert!(rt; written == Err(WriteError::Frame(FrameError::SizeAboveMaximum)));
    let mut body = [9; 505];
    body[..17].copy_from_slice(&LONG_RESPONSE);
    let written = write_sasl(&mut buffer, &body, alloc);
    assert!(rt; written == Err(WriteError::Frame(FrameError::SaslAboveLimit)));
    assert!(rt; buffer.as_slice() == [255].as_slice());
    Ok(())
}

#[test]
fn conditions(rt: HostRuntime) {
    for (fault, condition) in CONDITIONS {
        let error = BodyError { fault, at: 8 };
        assert_eq!(rt; error.condition(), condition);
    }
}
