//! Sums of primitive types, each read as the member whose kind comes next. A sum is one list of its members, `KindMembers` in
//! `specs/KindMembers.antt`. What is read at a place of it is made by that member's constructor.
ghost use Rattle.std.specs.Prelude.{true};
ghost use Rattle.amqp_wire.specs.Sources.{Tells};
ghost use Rattle.amqp_decoder.specs.Places.{AnswersAt};
ghost use Rattle.amqp_decoder.specs.Primitives.{ReadsValue};
ghost use Rattle.amqp_decoder.specs.Steps.{Tries};
ghost use Rattle.amqp_kinds.specs.KindSumType.{kind_sum_type};

use crate::{Kind, kind_of};
use amqp_decoder::Decoder;
use amqp_wire::{ByteSource, Error};
use std::alloc::Global;

/// A sum of primitive types, no two of which are of one kind.
pub trait KindSum: Sized + Drop {
    ghost use Rattle.amqp_kinds.specs.KindMembers.{KindSumOf, takes_at, reads_at, faults_at};

    ghost sum: { KindSumOf Self };

    /// Reads the member of a kind, by `read_as`. If no member is of that kind, it reads any member, which refuses it.
    fn read_member<R: ByteSource>(
        kind: Kind,
        decoder: &mut Decoder<R>,
        alloc: Global,
    ) -> Result<Self, Error>
        ensures read { Tells R.remaining → AnswersAt (takes_at sum.members (sum.place kind)) (reads_at sum.members (sum.place kind))
            (faults_at sum.members (sum.place kind)).fault decoder.old result decoder.new }
        ensures tries { Tries (takes_at sum.members (sum.place kind)) decoder.old result decoder.new };
}

/// Reads a sum of primitive types: the member whose kind comes next. What is of no member's kind is refused for its code.
pub fn read_kind_sum<S: KindSum, R: ByteSource>(
    decoder: &mut Decoder<R>,
    alloc: Global,
) -> Result<S, Error>
    ensures read { Tells R.remaining → AnswersAt true (ReadsValue (kind_sum_type S.sum).means) (kind_sum_type S.sum).faults.fault
        decoder.old result decoder.new }
    ensures tries { Tries true decoder.old result decoder.new }
{
    let code = decoder.peek_code()?;
    S::read_member(kind_of(code), decoder, alloc)
}
