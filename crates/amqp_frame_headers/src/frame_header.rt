//! The first eight bytes of a frame (Part 2, section 2.3.1; Part 5, section 5.3.1).
ghost use Rattle.std.specs.Prelude.{◌≡◌, ◌+◌, ◌<◌, ◌≤◌, MatchResult};
ghost use Rattle.std.specs.Option.{SomeIff};
ghost use Rattle.amqp_frame_headers.specs.Frames.{frame_header_bytes, header_of_body, greatest_size, too_large};

use crate::FrameError;

/// The number of bytes of a frame that each peer takes, and the greatest size of a SASL frame (Part 2, section 2.8.19; Part 5,
/// section 5.3.1). It is the maximum for frames until `open` has set another one.
pub const MIN_MAX_FRAME_SIZE: u32 = 512;

/// The number of bytes of a frame header.
pub const HEADER_LEN: usize = 8;

/// The data offset of a frame whose extended header is empty, in words of four bytes.
pub const LEAST_DATA_OFFSET: u8 = 2;

/// The type of AMQP frames.
pub const AMQP_TYPE: u8 = 0;

/// The type of SASL frames.
pub const SASL_TYPE: u8 = 1;

/// The type of a frame, with what bytes 6 and 7 mean for it.
#[derive(Clone, Copy, Debug, PartialEq, Eq, Hash)]
pub enum FrameKind {
    /// An AMQP frame (Part 2, section 2.3.2).
    Amqp {
        /// The number of the channel that the frame is for.
        channel: u16,
    },
    /// A SASL frame (Part 5, section 5.3.1). Its bytes 6 and 7 are ignored, and are written as 0.
    Sasl,
}

impl FrameKind {
    /// Returns the header of a frame of this kind without an extended header, whose body has `body_len` bytes. A SASL frame has a maximum of
    /// its own.
    pub fn header(self, body_len: usize, max_frame_size: u32) -> Result<FrameHeader, FrameError>
        ensures { MatchResult result
            (λ header. (header ≡ header_of_body self body_len) × (8 + body_len ≤ greatest_size self max_frame_size))
            (λ e. (e ≡ too_large self) × (greatest_size self max_frame_size < 8 + body_len)) }
    {
        match self {
            FrameKind::Amqp { channel } => FrameHeader::amqp(channel, body_len, max_frame_size),
            FrameKind::Sasl => FrameHeader::sasl(body_len),
        }
    }
}

/// The header of a frame.
#[derive(Clone, Copy, Debug, PartialEq, Eq, Hash)]
pub struct FrameHeader {
    /// SIZE: the number of bytes of the whole frame, with this header.
    pub size: u32,
    /// DOFF: where the body begins, in words of four bytes from the start of the frame.
    pub data_offset: u8,
    /// TYPE, and the channel of an AMQP frame.
    pub kind: FrameKind,
}

impl FrameHeader {
    /// Returns the header of an AMQP frame without an extended header, whose body has `body_len` bytes.
    ///
    /// # Errors
    ///
    /// `SizeAboveMaximum` if the frame would have more than `max_frame_size` bytes.
    pub fn amqp(
        channel: u16,
        body_len: usize,
        max_frame_size: u32,
    ) -> Result<FrameHeader, FrameError>
        ensures { MatchResult result
            (λ header. (header ≡ header_of_body (FrameKind.Amqp channel) body_len) × (8 + body_len ≤ max_frame_size))
            (λ e. (e ≡ FrameError.SizeAboveMaximum) × (max_frame_size < 8 + body_len)) }
    {
        match frame_size(body_len, max_frame_size) {
            Some(size) => Ok(FrameHeader {
                size,
                data_offset: LEAST_DATA_OFFSET,
                kind: FrameKind::Amqp { channel },
            }),
            None => Err(FrameError::SizeAboveMaximum),
        }
    }

    /// Returns the header of a SASL frame without an extended header, whose body has `body_len` bytes.
    ///
    /// # Errors
    ///
    /// `SaslAboveLimit` if the frame would have more than 512 bytes.
    pub fn sasl(body_len: usize) -> Result<FrameHeader, FrameError>
        ensures { MatchResult result
            (λ header. (header ≡ header_of_body FrameKind.Sasl body_len) × (8 + body_len ≤ 512))
            (λ e. (e ≡ FrameError.SaslAboveLimit) × (512 < 8 + body_len)) }
    {
        match frame_size(body_len, MIN_MAX_FRAME_SIZE) {
            Some(size) => Ok(FrameHeader {
                size,
                data_offset: LEAST_DATA_OFFSET,
                kind: FrameKind::Sasl,
            }),
            None => Err(FrameError::SaslAboveLimit),
        }
    }

    /// Returns the eight bytes of the header. Bytes 6 and 7 of a SASL frame are 0.
    pub fn to_bytes(self) -> [u8; 8]
        ensures { result ≡ frame_header_bytes self }
    {
        let [a, b, c, d] = self.size.to_be_bytes();
        let (frame_type, channel) = match self.kind {
            FrameKind::Amqp { channel } => (AMQP_TYPE, channel),
            FrameKind::Sasl => (SASL_TYPE, 0),
        };
        let [high, low] = channel.to_be_bytes();
        [a, b, c, d, self.data_offset, frame_type, high, low]
    }
}

// The size of a frame without an extended header whose body has this length, if it is at most the maximum.
fn frame_size(body_len: usize, max_frame_size: u32) -> Option<u32>
    ensures { SomeIff result (8 + body_len ≤ max_frame_size) (8 + body_len) }
{
    let most = (max_frame_size as usize).checked_sub(HEADER_LEN)?;
    if body_len > most {
        return None;
    }
    Some((HEADER_LEN + body_len) as u32)
}
