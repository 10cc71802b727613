//! Protocol headers: the eight bytes that a connection begins with (Part 2, section 2.2; Part 5, sections 5.2.1 and 5.3.2).
ghost use Rattle.std.specs.Prelude.{◌≡◌, ◌↔◌, IsTrue, IfErr, Some};
ghost use Rattle.amqp_frame_headers.specs.declared.protocol_header.ProtocolHeader.{ProtocolHeader};
ghost use Rattle.amqp_frame_headers.specs.Headers.{IsSupported, protocol_header_bytes, protocol_header_text, BeginsWithHeader, NeedsHeader, IsNoHeader, IfHeader, IfHeaderNeeds};

use crate::FrameError;
use std::fmt;

/// The four bytes that a protocol header begins with.
const NAME: [u8; 4] = *b"AMQP";

/// The number of bytes of a protocol header.
const HEADER_LEN: usize = 8;

/// What a protocol header asks for: one of the three protocols of the standard, or any other number.
#[derive(Clone, Copy, Debug, PartialEq, Eq, PartialOrd, Ord, Hash)]
pub struct ProtocolId(pub u8);

impl ProtocolId {
    /// AMQP frames (Part 2, section 2.2).
    pub const AMQP: ProtocolId = ProtocolId(0);

    /// TLS (Part 5, section 5.2.1).
    pub const TLS: ProtocolId = ProtocolId(2);

    /// SASL frames (Part 5, section 5.3.2).
    pub const SASL: ProtocolId = ProtocolId(3);
}

/// A protocol header, with any protocol id and any version.
#[derive(Clone, Copy, Debug, PartialEq, Eq, Hash)]
pub struct ProtocolHeader {
    /// The protocol that is asked for.
    pub id: ProtocolId,
    /// The major version, which is 1 in this standard.
    pub major: u8,
    /// The minor version, which is 0 in this standard.
    pub minor: u8,
    /// The revision, which is 0 in this standard.
    pub revision: u8,
}

impl ProtocolHeader {
    /// The header before AMQP frames (Part 2, section 2.2).
    pub const AMQP: ProtocolHeader = ProtocolHeader {
        id: ProtocolId::AMQP,
        major: 1,
        minor: 0,
        revision: 0,
    };

    /// The header before TLS (Part 5, section 5.2.1).
    pub const TLS: ProtocolHeader = ProtocolHeader {
        id: ProtocolId::TLS,
        major: 1,
        minor: 0,
        revision: 0,
    };

    /// The header before SASL frames (Part 5, section 5.3.2).
    pub const SASL: ProtocolHeader = ProtocolHeader {
        id: ProtocolId::SASL,
        major: 1,
        minor: 0,
        revision: 0,
    };

    /// Returns whether this is one of the three headers of the standard: its id is that of AMQP, TLS or SASL, and its version is 1.0.0.
    pub fn is_supported(&self) -> bool
        ensures { IsTrue result ↔ IsSupported self.now }
    {
        let known = self.id == ProtocolId::AMQP
            || self.id == ProtocolId::TLS
            || self.id == ProtocolId::SASL;
        known && self.major == 1 && self.minor == 0 && self.revision == 0
    }

    /// Returns the eight bytes of the header.
    pub fn to_bytes(self) -> [u8; 8]
        ensures { result ≡ protocol_header_bytes self }
    {
        let [a, m, q, p] = NAME;
        [a, m, q, p, self.id.0, self.major, self.minor, self.revision]
    }
}

/// Prints the name, the id and the version, as `AMQP 0 1.0.0`.
impl fmt::Display for ProtocolHeader {
    ghost output = { λ h. Some (protocol_header_text h) };

    fn fmt<W: fmt::Write>(&self, f: &mut fmt::Formatter<W>) -> fmt::Result {
        let id = self.id.0;
        let major = self.major;
        let minor = self.minor;
        let revision = self.revision;
        write!(f, "AMQP {id} {major}.{minor}.{revision}")
    }
}

/// What an input holds of a protocol header.
#[derive(Clone, Copy, Debug, PartialEq, Eq)]
pub enum HeaderStep {
    /// So many more bytes are needed, at least 1.
    Needs(usize),
    /// The first 8 bytes are this header.
    Header(ProtocolHeader),
}

/// Returns the protocol header at the start of `input`, or how many more bytes it needs. What follows the header is ignored.
///
/// A header with another id or another version is a value: `is_supported` tells it apart. Where a protocol header comes is known to the
/// caller: at the start of a connection, after TLS, and after the outcome of a SASL exchange (Part 2, section 2.2).
///
/// # Errors
///
/// `NotProtocolHeader` if the input doesn't begin with `AMQP`. It is returned as soon as one of the first four bytes differs.
pub fn next_protocol_header(input: &[u8]) -> Result<HeaderStep, FrameError>
    ensures header { IfHeader result (BeginsWithHeader input.now) }
    ensures found { (h : ProtocolHeader) → BeginsWithHeader input.now h → result ≡ Ok (HeaderStep.Header h) }

    ensures needs { IfHeaderNeeds result (NeedsHeader input.now) }
    ensures refused { IfErr result (IsNoHeader input.now) }
{
    let name = &input[..input.len().min(NAME.len())];
    if !NAME.starts_with(name) {
        return Err(FrameError::NotProtocolHeader);
    }
    match input {
        [_, _, _, _, id, major, minor, revision, ..] => Ok(HeaderStep::Header(ProtocolHeader {
            id: ProtocolId(*id),
            major: *major,
            minor: *minor,
            revision: *revision,
        })),
        _ => Ok(HeaderStep::Needs(HEADER_LEN - input.len())),
    }
}
