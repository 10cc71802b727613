//! The performatives as one type (Part 2, section 2.7).
ghost use Rattle.std.specs.Prelude.{◌≡◌};
ghost use Rattle.amqp_sums.specs.Choices.{sum_one, sum_agreement, sum_writing};
ghost use Rattle.amqp_attach.specs.Tables.{performative, performatives};

use crate::Attach;
use amqp_codec::{
    ByteSource, Decoder, DeserializeTerm, Encoder, Error, Pass, Serialize, SerializeTerm,
};
use amqp_performatives::{Begin, Close, Detach, Disposition, End, Flow, Open, Transfer};
use amqp_sums::{Sum, is_null_sum, read_as, read_sum, write_as};
use std::alloc::Global;

/// The performative of an AMQP frame. Any other descriptor is refused with `WrongDescriptor`.
#[derive(Clone, Debug, PartialEq, Eq, Drop)]
pub enum Performative {
    Open(Open),
    Begin(Begin),
    Attach(Attach),
    Flow(Flow),
    Transfer(Transfer),
    Disposition(Disposition),
    Detach(Detach),
    End(End),
    Close(Close),
}

impl From<Open> for Performative {
    ghost use Rattle.amqp_attach.specs.declared.performative.Performative.TheVariants as performative;

    ghost from_gives = { λ member sum. sum ≡ performative.Open member };

    fn from(opening: Open) -> Performative {
        Performative::Open(opening)
    }
}

impl From<Begin> for Performative {
    ghost use Rattle.amqp_attach.specs.declared.performative.Performative.TheVariants as performative;

    ghost from_gives = { λ member sum. sum ≡ performative.Begin member };

    fn from(begin: Begin) -> Performative {
        Performative::Begin(begin)
    }
}

impl From<Attach> for Performative {
    ghost use Rattle.amqp_attach.specs.declared.performative.Performative.TheVariants as performative;

    ghost from_gives = { λ member sum. sum ≡ performative.Attach member };

    fn from(attach: Attach) -> Performative {
        Performative::Attach(attach)
    }
}

impl From<Flow> for Performative {
    ghost use Rattle.amqp_attach.specs.declared.performative.Performative.TheVariants as performative;

    ghost from_gives = { λ member sum. sum ≡ performative.Flow member };

    fn from(flow: Flow) -> Performative {
        Performative::Flow(flow)
    }
}

impl From<Transfer> for Performative {
    ghost use Rattle.amqp_attach.specs.declared.performative.Performative.TheVariants as performative;

    ghost from_gives = { λ member sum. sum ≡ performative.Transfer member };

    fn from(transfer: Transfer) -> Performative {
        Performative::Transfer(transfer)
    }
}

impl From<Disposition> for Performative {
    ghost use Rattle.amqp_attach.specs.declared.performative.Performative.TheVariants as performative;

    ghost from_gives = { λ member sum. sum ≡ performative.Disposition member };

    fn from(disposition: Disposition) -> Performative {
        Performative::Disposition(disposition)
    }
}

impl From<Detach> for Performative {
    ghost use Rattle.amqp_attach.specs.declared.performative.Performative.TheVariants as performative;

    ghost from_gives = { λ member sum. sum ≡ performative.Detach member };

    fn from(detach: Detach) -> Performative {
        Performative::Detach(detach)
    }
}

impl From<End> for Performative {
    ghost use Rattle.amqp_attach.specs.declared.performative.Performative.TheVariants as performative;

    ghost from_gives = { λ member sum. sum ≡ performative.End member };

    fn from(end: End) -> Performative {
        Performative::End(end)
    }
}

impl From<Close> for Performative {
    ghost use Rattle.amqp_attach.specs.declared.performative.Performative.TheVariants as performative;

    ghost from_gives = { λ member sum. sum ≡ performative.Close member };

    fn from(close: Close) -> Performative {
        Performative::Close(close)
    }
}

impl Sum for Performative {
    ghost sum = { performatives };

    fn descriptors() -> &'static [(u64, &'static str)] {
        &[
            Open::DESCRIPTOR,
            Begin::DESCRIPTOR,
            Attach::DESCRIPTOR,
            Flow::DESCRIPTOR,
            Transfer::DESCRIPTOR,
            Disposition::DESCRIPTOR,
            Detach::DESCRIPTOR,
            End::DESCRIPTOR,
            Close::DESCRIPTOR,
        ]
    }

    fn read_member<R: ByteSource>(
        place: usize,
        decoder: &mut Decoder<R>,
        alloc: Global,
    ) -> Result<Performative, Error> {
        match place {
            0 => read_as::<Open, _, _>(decoder, alloc),
            1 => read_as::<Begin, _, _>(decoder, alloc),
            2 => read_as::<Attach, _, _>(decoder, alloc),
            3 => read_as::<Flow, _, _>(decoder, alloc),
            4 => read_as::<Transfer, _, _>(decoder, alloc),
            5 => read_as::<Disposition, _, _>(decoder, alloc),
            6 => read_as::<Detach, _, _>(decoder, alloc),
            7 => read_as::<End, _, _>(decoder, alloc),
            8 => read_as::<Close, _, _>(decoder, alloc),
            _ => Err(decoder.refuse(Error::WrongDescriptor)),
        }
    }
}

impl Serialize for Performative {
    ghost writing = { sum_writing performatives };

    fn serialize<P: Pass>(&self, encoder: &mut Encoder<P>) -> Result<(), Error> {
        match self {
            Performative::Open(opening) => write_as(self, opening, encoder),
            Performative::Begin(begin) => write_as(self, begin, encoder),
            Performative::Attach(attach) => write_as(self, attach, encoder),
            Performative::Flow(flow) => write_as(self, flow, encoder),
            Performative::Transfer(transfer) => write_as(self, transfer, encoder),
            Performative::Disposition(disposition) => write_as(self, disposition, encoder),
            Performative::Detach(detach) => write_as(self, detach, encoder),
            Performative::End(end) => write_as(self, end, encoder),
            Performative::Close(close) => write_as(self, close, encoder),
        }
    }

    fn in_type(&self) {
        match self {
            Performative::Open(opening) => opening.in_type(),
            Performative::Begin(begin) => begin.in_type(),
            Performative::Attach(attach) => attach.in_type(),
            Performative::Flow(flow) => flow.in_type(),
            Performative::Transfer(transfer) => transfer.in_type(),
            Performative::Disposition(disposition) => disposition.in_type(),
            Performative::Detach(detach) => detach.in_type(),
            Performative::End(end) => end.in_type(),
            Performative::Close(close) => close.in_type(),
        }
    }
}

impl SerializeTerm for Performative {
    fn is_null(&self) -> bool {
        is_null_sum(self)
    }

    ghost is_term = { sum_one performatives };
}

impl DeserializeTerm for Performative {
    ghost term = { performative };

    fn read_value<R: ByteSource>(
        decoder: &mut Decoder<R>,
        alloc: Global,
    ) -> Result<Performative, Error> {
        read_sum(decoder, alloc)
    }

    ghost agreement = { sum_agreement performatives };
}
