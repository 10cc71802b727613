//! The bodies of frames (Part 2, section 2.3.2; Part 5, section 5.3.1).
ghost use Rattle.std.specs.Prelude.{◌≡◌, ◌+◌, ◌*◌, ◌≤◌, ℕ, List, [], length, Ok, None, IfOk, IfErr};
ghost use Rattle.amqp_frames.specs.Bodies.{IsAmqp, IsSasl, IsAmqpBody, IsSaslBody, AmqpFault, SaslFault};
ghost use Rattle.amqp_frames.specs.Bodies.{IfBody, IfNoBody, ReturnsBody, ReturnsSasl};
ghost use Rattle.amqp_attach.specs.declared.performative.Performative.{Performative};
ghost use Rattle.amqp_frame_headers.specs.declared.sasl_frame.SaslFrame.{SaslFrame};

use crate::{BodyError, BodyFault, Frame};
use amqp_attach::Performative;
use amqp_frame_headers::{FrameKind, SaslFrame};
use amqp_read_write::from_slice_within;
use amqp_wire::Limits;
use std::alloc::Global;

/// The error for a frame of the other type, which byte 5 gives.
const OTHER_TYPE: BodyError = BodyError {
    fault: BodyFault::OtherType,
    at: 5,
};

/// The body of an AMQP frame.
#[derive(Debug, PartialEq, Eq, Drop)]
pub struct AmqpBody<'a> {
    /// The performative that the body begins with.
    pub performative: Performative,
    /// The payload: every byte of the body after the performative. It has a meaning for `transfer` alone (Part 2, section 2.7.5).
    pub payload: &'a [u8],
}

impl<'a> Frame<'a> {
    /// Returns the performative that the body of this AMQP frame begins with, within the limits, and the payload after it. It returns
    /// `None` for an empty body, which keeps the connection alive (Part 2, section 2.4.5).
    ///
    /// # Errors
    ///
    /// `OtherType` for a SASL frame, or `Value` with the error of `amqp_read_write::from_slice_within` for the body. The whole body is
    /// there, so `Cut` means that the performative would extend past the end of the frame.
    pub fn amqp(&self, limits: &Limits, alloc: Global) -> Result<Option<AmqpBody<'a>>, BodyError>
        ensures empty { IsAmqp self.now.header.kind → self.now.body.now ≡ [] → result ≡ Ok None }
        ensures none { IfNoBody result (IsAmqp self.now.header.kind × (self.now.body.now ≡ [])) }
        ensures found { IfBody result (λ b. IsAmqp self.now.header.kind
            × IsAmqpBody limits.now self.now.body.now b.performative b.payload.now) }
        ensures read { (p : Performative) (payload : List ℕ) → IsAmqp self.now.header.kind
            → IsAmqpBody limits.now self.now.body.now p payload → ReturnsBody result p payload }
        ensures refused { IfErr result (λ e. AmqpFault limits.now self.now.header self.now.body.now e.fault e.at) }
    {
        let FrameKind::Amqp { .. } = self.header.kind else {
            return Err(OTHER_TYPE);
        };
        if self.body.is_empty() {
            return Ok(None);
        }
        match from_slice_within::<Performative>(self.body, limits, alloc) {
            Ok((performative, len)) => Ok(Some(AmqpBody {
                performative,
                payload: &self.body[len..],
            })),
            Err(error) => Err(self.error(BodyFault::Value(error), 0)),
        }
    }

    /// Returns the value that the body of this SASL frame is, within the limits.
    ///
    /// # Errors
    ///
    /// `OtherType` for an AMQP frame, `EmptySasl` for an empty body, `Value` with the error of `amqp_read_write::from_slice_within` for
    /// the body, or `BytesLeft` if bytes follow the value.
    pub fn sasl(&self, limits: &Limits, alloc: Global) -> Result<SaslFrame, BodyError>
        ensures found { IfOk result (λ v. IsSasl self.now.header.kind × IsSaslBody limits.now self.now.body.now v) }
        ensures read { (v : SaslFrame) → IsSasl self.now.header.kind → IsSaslBody limits.now self.now.body.now v → ReturnsSasl result v }
        ensures refused { IfErr result (λ e. SaslFault limits.now self.now.header self.now.body.now e.fault e.at) }
    {
        let FrameKind::Sasl = self.header.kind else {
            return Err(OTHER_TYPE);
        };
        if self.body.is_empty() {
            return Err(self.error(BodyFault::EmptySasl, 0));
        }
        match from_slice_within::<SaslFrame>(self.body, limits, alloc) {
            Ok((value, len)) => {
                if len < self.body.len() {
                    return Err(self.error(BodyFault::BytesLeft, len));
                }
                Ok(value)
            }
            Err(error) => Err(self.error(BodyFault::Value(error), 0)),
        }
    }

    // The error for this fault, so many bytes after the start of the body.
    fn error(&self, fault: BodyFault, index: usize) -> BodyError
        requires { index ≤ length self.now.body.now }
        ensures fault { result.fault ≡ fault }
        ensures at { result.at ≡ 4 * self.now.header.data_offset + index }
    {
        BodyError {
            fault,
            at: 4 * usize::from(self.header.data_offset) + index,
        }
    }
}
