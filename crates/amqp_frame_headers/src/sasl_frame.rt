//! The SASL types as one type (Part 5, section 5.3.1).
ghost use Rattle.std.specs.Prelude.{◌≡◌};
ghost use Rattle.amqp_sums.specs.Choices.{sum_one, sum_agreement, sum_writing};
ghost use Rattle.amqp_frame_headers.specs.Tables.{sasl_frame, sasl_frames};

use amqp_codec::{
    ByteSource, Decoder, DeserializeTerm, Encoder, Error, Pass, Serialize, SerializeTerm,
};
use amqp_sasl::{SaslChallenge, SaslInit, SaslMechanisms, SaslOutcome, SaslResponse};
use amqp_sums::{Sum, is_null_sum, read_as, read_sum, write_as};
use std::alloc::Global;

/// The body of a SASL frame. Any other descriptor is refused with `WrongDescriptor`.
#[derive(Clone, Debug, PartialEq, Eq, Drop)]
pub enum SaslFrame {
    Mechanisms(SaslMechanisms),
    Init(SaslInit),
    Challenge(SaslChallenge),
    Response(SaslResponse),
    Outcome(SaslOutcome),
}

impl From<SaslMechanisms> for SaslFrame {
    ghost use Rattle.amqp_frame_headers.specs.declared.sasl_frame.SaslFrame.TheVariants as sasl_frame;

    ghost from_gives = { λ member sum. sum ≡ sasl_frame.Mechanisms member };

    fn from(mechanisms: SaslMechanisms) -> SaslFrame {
        SaslFrame::Mechanisms(mechanisms)
    }
}

impl From<SaslInit> for SaslFrame {
    ghost use Rattle.amqp_frame_headers.specs.declared.sasl_frame.SaslFrame.TheVariants as sasl_frame;

    ghost from_gives = { λ member sum. sum ≡ sasl_frame.Init member };

    fn from(init: SaslInit) -> SaslFrame {
        SaslFrame::Init(init)
    }
}

impl From<SaslChallenge> for SaslFrame {
    ghost use Rattle.amqp_frame_headers.specs.declared.sasl_frame.SaslFrame.TheVariants as sasl_frame;

    ghost from_gives = { λ member sum. sum ≡ sasl_frame.Challenge member };

    fn from(challenge: SaslChallenge) -> SaslFrame {
        SaslFrame::Challenge(challenge)
    }
}

impl From<SaslResponse> for SaslFrame {
    ghost use Rattle.amqp_frame_headers.specs.declared.sasl_frame.SaslFrame.TheVariants as sasl_frame;

    ghost from_gives = { λ member sum. sum ≡ sasl_frame.Response member };

    fn from(response: SaslResponse) -> SaslFrame {
        SaslFrame::Response(response)
    }
}

impl From<SaslOutcome> for SaslFrame {
    ghost use Rattle.amqp_frame_headers.specs.declared.sasl_frame.SaslFrame.TheVariants as sasl_frame;

    ghost from_gives = { λ member sum. sum ≡ sasl_frame.Outcome member };

    fn from(outcome: SaslOutcome) -> SaslFrame {
        SaslFrame::Outcome(outcome)
    }
}

impl Sum for SaslFrame {
    ghost sum = { sasl_frames };

    fn descriptors() -> &'static [(u64, &'static str)] {
        &[
            SaslMechanisms::DESCRIPTOR,
            SaslInit::DESCRIPTOR,
            SaslChallenge::DESCRIPTOR,
            SaslResponse::DESCRIPTOR,
            SaslOutcome::DESCRIPTOR,
        ]
    }

    fn read_member<R: ByteSource>(
        place: usize,
        decoder: &mut Decoder<R>,
        alloc: Global,
    ) -> Result<SaslFrame, Error> {
        match place {
            0 => read_as::<SaslMechanisms, _, _>(decoder, alloc),
            1 => read_as::<SaslInit, _, _>(decoder, alloc),
            2 => read_as::<SaslChallenge, _, _>(decoder, alloc),
            3 => read_as::<SaslResponse, _, _>(decoder, alloc),
            4 => read_as::<SaslOutcome, _, _>(decoder, alloc),
            _ => Err(decoder.refuse(Error::WrongDescriptor)),
        }
    }
}

impl Serialize for SaslFrame {
    ghost writing = { sum_writing sasl_frames };

    fn serialize<P: Pass>(&self, encoder: &mut Encoder<P>) -> Result<(), Error> {
        match self {
            SaslFrame::Mechanisms(mechanisms) => write_as(self, mechanisms, encoder),
            SaslFrame::Init(init) => write_as(self, init, encoder),
            SaslFrame::Challenge(challenge) => write_as(self, challenge, encoder),
            SaslFrame::Response(response) => write_as(self, response, encoder),
            SaslFrame::Outcome(outcome) => write_as(self, outcome, encoder),
        }
    }

    fn in_type(&self) {
        match self {
            SaslFrame::Mechanisms(mechanisms) => mechanisms.in_type(),
            SaslFrame::Init(init) => init.in_type(),
            SaslFrame::Challenge(challenge) => challenge.in_type(),
            SaslFrame::Response(response) => response.in_type(),
            SaslFrame::Outcome(outcome) => outcome.in_type(),
        }
    }
}

impl SerializeTerm for SaslFrame {
    fn is_null(&self) -> bool {
        is_null_sum(self)
    }

    ghost is_term = { sum_one sasl_frames };
}

impl DeserializeTerm for SaslFrame {
    ghost term = { sasl_frame };

    fn read_value<R: ByteSource>(
        decoder: &mut Decoder<R>,
        alloc: Global,
    ) -> Result<SaslFrame, Error> {
        read_sum(decoder, alloc)
    }

    ghost agreement = { sum_agreement sasl_frames };
}
