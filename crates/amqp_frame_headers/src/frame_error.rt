//! Why bytes are no frame or no protocol header.
ghost use Rattle.std.specs.Prelude.{◌≡◌, codes};
ghost use Rattle.amqp_frame_headers.specs.FrameErrors.{place_of};

/// Why bytes are no frame or no protocol header, or why a frame can't be written. There is one variant for each rule. If bytes break
/// several rules, the error reports the first of them in the order of the variants.
#[derive(Clone, Copy, Debug, PartialEq, Eq, thiserror::Error)]
pub enum FrameError {
    /// SIZE is below 8, so the frame would be shorter than its header (Part 2, section 2.3.1).
    #[error("a frame's size is below the 8 bytes of its header")]
    SizeBelowHeader,
    /// SIZE is above the maximum that the caller has set (Part 2, sections 2.3.1 and 2.7.1).
    #[error("a frame's size is above the maximum")]
    SizeAboveMaximum,
    /// DOFF is below 2, so the body would begin within the header (Part 2, section 2.3.1).
    #[error("a frame's data offset is below 2")]
    DataOffsetBelowHeader,
    /// DOFF, in words of four bytes, is past SIZE, so the body would begin after the frame's end (Part 2, section 2.3.1).
    #[error("a frame's data offset is past its size")]
    DataOffsetPastSize,
    /// TYPE is this code, which is neither that of AMQP frames, 0x00, nor that of SASL frames, 0x01 (Part 2, section 2.3.1).
    #[error("no frame has the type 0x{0:02x}")]
    UnknownType(u8),
    /// A SASL frame has more than 512 bytes, whatever the caller's maximum is (Part 5, section 5.3.1).
    #[error("a SASL frame has more than 512 bytes")]
    SaslAboveLimit,
    /// The bytes don't begin with `AMQP`, as a protocol header does (Part 2, section 2.2).
    #[error("a protocol header doesn't begin with AMQP")]
    NotProtocolHeader,
}

impl FrameError {
    /// Returns the place of the field that is at fault, in bytes from the start of the frame or of the protocol header: 0 for the size of a
    /// frame and for the name of a protocol header, 4 for the data offset, and 5 for the type.
    pub fn at(&self) -> usize
        ensures { result ≡ place_of self.now }
    {
        match self {
            FrameError::SizeBelowHeader
            | FrameError::SizeAboveMaximum
            | FrameError::SaslAboveLimit
            | FrameError::NotProtocolHeader => 0,
            FrameError::DataOffsetBelowHeader | FrameError::DataOffsetPastSize => 4,
            FrameError::UnknownType(_) => 5,
        }
    }

    /// Returns the error condition that a peer closes the connection with, which is `amqp:connection:framing-error` for each of these
    /// errors (Part 2, section 2.8.16). A peer that gets no protocol header writes its own header and closes the connection without an
    /// error condition (Part 2, section 2.2).
    pub fn condition(&self) -> &'static str
        ensures { result.now ≡ codes "amqp:connection:framing-error" }
    {
        "amqp:connection:framing-error"
    }
}
