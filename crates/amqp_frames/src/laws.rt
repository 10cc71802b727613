//! The laws of frames and of protocol headers. The functions do nothing; their contracts are proved.
ghost use Rattle.std.specs.Prelude.{◌+◌, ◌^◌, ◌<◌, ◌≤◌, ◌++◌, [], ℕ, List, length};
ghost use Rattle.amqp_model.specs.FieldType.{normal};
ghost use Rattle.amqp_wire.specs.declared.limits.Limits.{Limits};
ghost use Rattle.amqp_codec.specs.Reading.{IsGreatest};
ghost use Rattle.amqp_codec.specs.Spelled.{written, IsWritable};
ghost use Rattle.amqp_attach.specs.Tables.{performative};
ghost use Rattle.amqp_attach.specs.declared.performative.Performative.{Performative};
ghost use Rattle.amqp_frame_headers.specs.declared.frame_header.FrameKind.{FrameKind};
ghost use Rattle.amqp_frame_headers.specs.declared.sasl_frame.SaslFrame.{SaslFrame};
ghost use Rattle.amqp_frame_headers.specs.Frames.{BeginsWithFrame, header_of_body};
ghost use Rattle.amqp_frame_headers.specs.Tables.{sasl_frame};
ghost use Rattle.amqp_frames.specs.Bodies.{IsAmqpBody, IsSaslBody};
ghost use Rattle.amqp_frames.specs.Writing.{frame_text, amqp_body};

pub use amqp_frame_headers::laws::{
    longer_input, longer_protocol_header, needs_agree, one_answer, one_frame, one_protocol_answer,
    one_protocol_header, prefix_needs_more, protocol_header_is_read, three_protocol_headers,
    written_is_read,
};

/// What `write_frame` appends is read as exactly that frame, whatever follows it, if it isn't above the maximum. Its body is read as the
/// performative, normalised, with the same payload (Part 2, section 2.3). `write_frame` says that the performative is a value and can be
/// written.
pub fn written_frame_is_read()
    ensures frame { (max channel : ℕ) (p : Performative) (payload more : List ℕ)
        → max < 2 ^ 32 → channel < 2 ^ 16 → 8 + length (amqp_body p payload) ≤ max
        → BeginsWithFrame max (frame_text (FrameKind.Amqp channel) (amqp_body p payload) ++ more)
        (header_of_body (FrameKind.Amqp channel) (length (amqp_body p payload))) [] (amqp_body p payload) }
    ensures body { (limits : Limits) (p : Performative) (payload : List ℕ)
        → IsGreatest limits → performative.is_value p → IsWritable performative p
        → IsAmqpBody limits (amqp_body p payload) (normal performative.norm p) payload }
{}

/// What `write_sasl_frame` appends is read as exactly that frame, whatever follows it. Its body is read as the value (Part 5,
/// section 5.3.1).
pub fn written_sasl_frame_is_read()
    ensures frame { (max : ℕ) (v : SaslFrame) (more : List ℕ)
        → max < 2 ^ 32 → 8 + length (written sasl_frame v) ≤ max → 8 + length (written sasl_frame v) ≤ 512
        → BeginsWithFrame max (frame_text FrameKind.Sasl (written sasl_frame v) ++ more)
        (header_of_body FrameKind.Sasl (length (written sasl_frame v))) [] (written sasl_frame v) }
    ensures body { (limits : Limits) (v : SaslFrame)
        → IsGreatest limits → sasl_frame.is_value v → IsWritable sasl_frame v
        → IsSaslBody limits (written sasl_frame v) (normal sasl_frame.norm v) }
{}
