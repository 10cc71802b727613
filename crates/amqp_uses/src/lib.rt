//! Six uses of `fe2o3_amqp_types`, as a caller writes them. Each is proved, and run by a test. The sixth is the module `connection`.
#![tactic(auto)]

ghost use Rattle.std.specs.Prelude.{◌≡◌, ◌⊎◌, ◌+◌, ◌-◌, ◌^◌, ◌++◌, ℕ, List, length, take, min, true, IfOk, IfErr};
ghost use Rattle.fe2o3_amqp_types.specs.Reading.{BeginsWith, IsUnreadable, BeginsWithin, IsUnreadableWithin, IsSpelled, IsReadError, Tells, known};
ghost use Rattle.fe2o3_amqp_types.specs.Tables.{composite, received, transfer};
ghost use Rattle.fe2o3_amqp_types.specs.Writing.{written, AreUnwritable, IsWritable, IsUnwritten};
ghost use Rattle.fe2o3_amqp_types.specs.declared.messaging.Received.{Received};
ghost use Rattle.fe2o3_amqp_types.specs.declared.performatives.Transfer.{Transfer};

use fe2o3_amqp_types::codec::{
    ByteSource, Deserialize, DeserializeTerm, Error, Limits, Serialize, canonical_text,
    from_reader_within, from_slice, to_vec,
};
use fe2o3_amqp_types::laws::{
    one_term_is_written, one_text_for_one_value, reading_is_spelling, terms_are_read_again,
};
use fe2o3_amqp_types::messaging::{FromBody, Message, Received};
use fe2o3_amqp_types::performatives::Transfer;
use std::alloc::Global;

/// Returns the text of the state at the start of the input, with its offset one higher: one more byte was received. It returns an error if
/// the input begins with no such state, or if the changed state can't be written.
pub fn one_byte_on(input: &[u8], alloc: Global) -> Result<Vec<u8>, Error>
    ensures text { IfOk result (λ text. (state : Received) × (n : ℕ) × BeginsWith ⟦<Received as Deserialize>⟧.reading input.now state n
        × (text.items ≡ written (composite received) (record state { section_offset = min (state.section_offset + 1) (2 ^ 64 - 1) }))) }
    ensures refused { IfErr result (λ e. (e ≡ Error.Memory) ⊎ (IsUnreadable ⟦<Received as Deserialize>⟧.reading input.now e
        ⊎ ((state : Received) × AreUnwritable (⟦<Received as Serialize>⟧.writing.canons state) e))) }
{
    one_term_is_written::<Received>();
    let mut received: Received = from_slice(input, alloc)?;
    received.section_offset = received.section_offset.saturating_add(1);
    let text = to_vec(&received, alloc)?;
    Ok(text)
}

/// Returns what a relay sends on for the value that came: the canonical text, which is read as the same value whatever follows it. It also
/// returns how many bytes the value took.
pub fn relay<T: DeserializeTerm>(input: &[u8], alloc: Global) -> Result<(Vec<u8>, usize), Error>
    ensures text { IfOk result (λ sent. (value : T) × BeginsWith ⟦<T as Deserialize>⟧.reading input.now value sent.1
        × (sent.0.items ≡ written T.term value)) }
    ensures same_value { IfOk result (λ sent. (value : T) (more : List ℕ) → BeginsWith ⟦<T as Deserialize>⟧.reading input.now value sent.1
        → (again : T) × BeginsWith ⟦<T as Deserialize>⟧.reading (sent.0.items ++ more) again (length sent.0.items)
        × T.term.same again value) }
    ensures refused { IfErr result (λ e. (e ≡ Error.Memory) ⊎ (IsUnreadable ⟦<T as Deserialize>⟧.reading input.now e
        ⊎ IsUnwritten ⟦<T as Deserialize>⟧.reading T.writing.canons input.now e)) }
{
    one_term_is_written::<T>();
    terms_are_read_again::<T>();
    let sent = canonical_text::<T>(input, alloc)?;
    Ok(sent)
}

/// Returns whether a transfer says that it is settled. It does so exactly if the input begins with a transfer that nests at
/// most 128 deep, unless an allocation fails.
pub fn settled(input: &[u8], alloc: Global) -> Result<Option<bool>, Error>
    ensures found { IfOk result (λ settled. (sent : Transfer) × (n : ℕ) × IsSpelled (composite transfer) (take n input.now) sent
        × (settled ≡ sent.settled)) }
    ensures refused { IfErr result (λ e. (e ≡ Error.Memory) ⊎ IsUnreadable ⟦<Transfer as Deserialize>⟧.reading input.now e) }
{
    reading_is_spelling::<Transfer>();
    match from_slice::<Transfer>(input, alloc) {
        Ok(sent) => Ok(sent.settled),
        Err(error) => Err(error),
    }
}

/// Returns whether two entries of an archive, each the canonical text of a value, are of one value. It reads neither.
pub fn are_of_one_value<T: DeserializeTerm>(first: &[u8], second: &[u8]) -> bool
    ensures same { (v w : T) → first.now ≡ written T.term v → second.now ≡ written T.term w → T.term.same v w → result ≡ true }
    ensures apart { (v w : T) → IsSpelled T.term first.now v → IsSpelled T.term second.now w → IsWritable T.term v → IsWritable T.term w
        → first.now ≡ written T.term v → second.now ≡ written T.term w → result ≡ true → T.term.same v w }
{
    one_text_for_one_value::<T>();
    first == second
}

/// Reads the message at the start of a reader's bytes, within limits. `B` is the type that is made of its body.
pub fn next_message<B: FromBody, R: ByteSource>(
    reader: &mut R,
    limits: &Limits,
    alloc: Global,
) -> Result<Message<B>, Error>
    ensures found { Tells R.remaining → IfOk result (λ message. (n : ℕ)
        × BeginsWithin limits.now ⟦<Message<B> as Deserialize>⟧.reading (known (R.remaining reader.old)) message n) }
    ensures refused { Tells R.remaining → IfErr result (λ e.
        ((⟦<Message<B> as Deserialize>⟧.reading.takes_memory ≡ true) × (e ≡ Error.Memory))
        ⊎ ((IsReadError e × (R.failed reader.new ≡ true))
        ⊎ IsUnreadableWithin limits.now ⟦<Message<B> as Deserialize>⟧.reading (known (R.remaining reader.old)) e)) }
{
    from_reader_within(reader, limits, alloc)
}

pub mod connection;
