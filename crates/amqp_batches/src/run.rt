//! Runs: the sections of one kind that come next, one after another (Part 3, sections 3.2.6 and 3.2.7).
ghost use Rattle.std.specs.Prelude.{◌≡◌, ◌⊎◌, ℕ, true};
ghost use Rattle.amqp_wire.specs.Sources.{Tells};
ghost use Rattle.amqp_decoder.specs.Places.{AnswersAt};
ghost use Rattle.amqp_decoder.specs.Steps.{Tries};
ghost use Rattle.amqp_codec.specs.TermReading.{reading_of};
ghost use Rattle.amqp_batches.specs.Walk.{IsNext, Walked, WalkFault};
ghost use Rattle.amqp_batches.specs.Runs.{run_walk};
ghost use Rattle.amqp_batches.specs.Sections.{IsSection};

use amqp_codec::{DeserializeTerm, SerializeTerm};
use amqp_decoder::Decoder;
use amqp_wire::{ByteSource, Error};
use std::alloc::Global;

/// A section that may come several times in a message, one after another: `Data` and `AmqpSequence` (Part 3, section 3.2).
pub trait BatchItem: SerializeTerm {
    // The code of its descriptor.
    ghost code: { ℕ };

    /// Returns the code of its descriptor.
    fn code() -> u8
        ensures { result ≡ code };

    // It is written as a section of this code.
    ghost is_section: { IsSection code Self.writing };

    // That is the code of a section that may come several times in a message.
    ghost is_repeated: { (code ≡ 0x75) ⊎ (code ≡ 0x76) };
}

/// Reads sections of one kind, one after another. The caller has looked at what comes next: a section of that kind. The run ends if no whole
/// descriptor of that kind comes next. A section that has begun must be whole; its errors are those of a section by itself.
pub fn read_run<T: BatchItem + DeserializeTerm, R: ByteSource>(
    decoder: &mut Decoder<R>,
    alloc: Global,
) -> Result<Vec<T>, Error>
    ensures read { Tells R.remaining → IsNext T.code decoder.old → AnswersAt true
        (λ st v b. Walked (run_walk T.code (reading_of T.term)) st v.items b) (WalkFault (run_walk T.code (reading_of T.term)))
        decoder.old result decoder.new }
    ensures tries { Tries true decoder.old result decoder.new }
{
    let mut sections = Vec::new(alloc);
    let mut comes = true;
    while comes {
        let section = T::read_value(decoder, alloc)?;
        if sections.push(section).is_err() {
            return Err(decoder.refuse(Error::Memory));
        }
        comes = decoder.peek_section()? == Some(T::code());
    }
    Ok(sections)
}
