//! Whole values from bytes and to bytes.
ghost use Rattle.std.specs.Prelude.{◌≡◌, ◌<◌, ◌≤◌, ◌⊎◌, ◌++◌, ℕ, List, true, length, drop, IfOk, IfErr, OnOk, OnErr};
ghost use Rattle.amqp_wire.specs.declared.error.Error.TheVariants.{Memory, Limit};
ghost use Rattle.amqp_encoder.specs.declared.size.Size.{Size};
ghost use Rattle.amqp_encoder.specs.Passes.{row_text, BeginsMeasuring, Finds};
ghost use Rattle.amqp_decoder.specs.Steps.{IsReadError};
ghost use Rattle.amqp_codec.specs.Reading.{IsGreatest, BeginsWith, IsUnreadable, BeginsWithin, IsUnreadableWithin, IsFaultyAt};
ghost use Rattle.amqp_read_write.specs.Rewritten.{IsRewritten, IsReadAgain, AreReadAgain, IsOneText, IsOfNoOther, IsUnchanged, IsShortest, AreShortest};
ghost use Rattle.amqp_read_write.specs.Rewritten.{IsUnwritten, IsRewrittenWithin, IsUnwrittenWithin};
ghost use Rattle.amqp_read_write.specs.Room.{IsPlaced};
ghost use Rattle.amqp_codec.specs.Written.{AreMeasured, AreUnwritable, AreWritable};

use amqp_codec::{Canonical, Deserialize, Serialize};
use amqp_decoder::{decoder_within, unread};
use amqp_encoder::{
    Encoder, Measure, SliceRoom, buffer_of, filling_encoder, measured_len, measuring_encoder,
};
use amqp_wire::{Error, Limits, Refusal};
use std::alloc::Global;

/// Reads the value at the start of `input`. What follows it is ignored. Law `reading_is_spelling` says which bytes are a value of a one-term
/// type, and the laws of `message_spellings` say which are a batch, a body or a message.
///
/// # Errors
///
/// `Memory` is returned only if reading the type allocates. Any other error reports a fault of an input that begins with no value. It is
/// never `Read`, since a slice doesn't fail, and never `Limit`.
pub fn from_slice<T: Deserialize>(input: &[u8], alloc: Global) -> Result<T, Error>
    ensures found { IfOk result (λ v. (n : ℕ) × BeginsWith T.reading input.now v n) }
    ensures one { (v w : _) (n m : ℕ) → BeginsWith T.reading input.now v n → BeginsWith T.reading input.now w m → T.reading.same v w }
    ensures refused { IfErr result (λ e. ((T.reading.takes_memory ≡ true) × (e ≡ Memory)) ⊎ IsUnreadable T.reading input.now e) }
    ensures memory { IfErr result (λ e. e ≡ Memory → T.reading.takes_memory ≡ true) }
    ensures unfailing { IfErr result (λ e. IsReadError e → ⊥) }
    ensures unlimited { IfErr result (λ e. e ≡ Limit → ⊥) }
{
    let (value, _) = from_slice_counted(input, alloc)?;
    Ok(value)
}

/// Reads the value at the start of `input`, and returns it and the number of bytes that it takes. It returns the errors of `from_slice`. No
/// input begins with two values. No value that an input begins with has more values in it than it takes bytes.
pub fn from_slice_counted<T: Deserialize>(input: &[u8], alloc: Global) -> Result<(T, usize), Error>
    ensures found { IfOk result (λ r. BeginsWith T.reading input.now r.0 r.1) }
    ensures one { (v w : _) (n m : ℕ) → BeginsWith T.reading input.now v n → BeginsWith T.reading input.now w m
        → T.reading.same v w × (n ≡ m) }
    ensures bounded { (v : _) (n : ℕ) → BeginsWith T.reading input.now v n → T.reading.count v ≤ n }
    ensures refused { IfErr result (λ e. ((T.reading.takes_memory ≡ true) × (e ≡ Memory)) ⊎ IsUnreadable T.reading input.now e) }
    ensures memory { IfErr result (λ e. e ≡ Memory → T.reading.takes_memory ≡ true) }
    ensures unfailing { IfErr result (λ e. IsReadError e → ⊥) }
    ensures unlimited { IfErr result (λ e. e ≡ Limit → ⊥) }
{
    from_slice_within(input, &Limits::greatest(), alloc)
}

/// Reads the value at the start of `input`, within limits of the caller, and returns it and the number of bytes that it takes. No input
/// begins with two values. No value that an input begins with has more values in it than it takes bytes.
///
/// # Errors
///
/// It returns the errors of `from_slice`, or `Limit` if the input is past a limit. `Limit` is returned only if the caller has set a limit.
pub fn from_slice_within<T: Deserialize>(
    input: &[u8],
    limits: &Limits,
    alloc: Global,
) -> Result<(T, usize), Error>
    ensures found { IfOk result (λ r. BeginsWithin limits.now T.reading input.now r.0 r.1) }
    ensures one { (v w : _) (n m : ℕ) → BeginsWithin limits.now T.reading input.now v n
        → BeginsWithin limits.now T.reading input.now w m → T.reading.same v w × (n ≡ m) }
    ensures bounded { (v : _) (n : ℕ) → BeginsWithin limits.now T.reading input.now v n → T.reading.count v ≤ n }
    ensures refused { IfErr result (λ e.
        ((T.reading.takes_memory ≡ true) × (e ≡ Memory)) ⊎ IsUnreadableWithin limits.now T.reading input.now e) }
    ensures memory { IfErr result (λ e. e ≡ Memory → T.reading.takes_memory ≡ true) }
    ensures unfailing { IfErr result (λ e. IsReadError e → ⊥) }
    ensures limited { IfErr result (λ e. e ≡ Limit → IsGreatest limits.now → ⊥) }
{
    let mut decoder = decoder_within(input, limits, alloc);
    let read = T::deserialize(&mut decoder, alloc);
    let left = unread(&decoder);
    match read {
        Ok(value) => Ok((value, input.len().saturating_sub(left))),
        Err(error) => Err(error),
    }
}

/// Reads as `from_slice_within` does, and returns beside the error the place of the fault: how many bytes of the input are before it.
///
/// That is where the value, the constructor or the descriptor begins that has the fault. A value that is cut is the one that was being read,
/// and a code or a descriptor that is missing is at the input's end. An item of an array begins with its data. `Missing` is at the null, or
/// behind the last item, `Surplus` at the first item that is too many, and `DuplicateKey` at the second key, or behind the last pair of a
/// `Value`'s map. The place says nothing for `Memory`.
pub fn from_slice_located<T: Deserialize>(
    input: &[u8],
    limits: &Limits,
    alloc: Global,
) -> Result<(T, usize), Refusal>
    ensures found { IfOk result (λ r. BeginsWithin limits.now T.reading input.now r.0 r.1) }
    ensures one { (v w : _) (n m : ℕ) → BeginsWithin limits.now T.reading input.now v n
        → BeginsWithin limits.now T.reading input.now w m → T.reading.same v w × (n ≡ m) }
    ensures bounded { (v : _) (n : ℕ) → BeginsWithin limits.now T.reading input.now v n → T.reading.count v ≤ n }
    ensures refused { IfErr result (λ r.
        ((T.reading.takes_memory ≡ true) × (r.error ≡ Memory)) ⊎ IsUnreadableWithin limits.now T.reading input.now r.error) }
    ensures place { IfErr result (λ r.
        ((T.reading.takes_memory ≡ true) × (r.error ≡ Memory)) ⊎ IsFaultyAt limits.now T.reading input.now r.error r.at) }
    ensures memory { IfErr result (λ r. r.error ≡ Memory → T.reading.takes_memory ≡ true) }
    ensures unfailing { IfErr result (λ r. IsReadError r.error → ⊥) }
    ensures limited { IfErr result (λ r. r.error ≡ Limit → IsGreatest limits.now → ⊥) }
    ensures within { IfErr result (λ r. r.at ≤ length input.now) }
{
    let mut cursor = decoder_within(input, limits, alloc);
    let read = T::deserialize(&mut cursor, alloc);
    let behind = unread(&cursor);
    match read {
        Ok(value) => Ok((value, input.len().saturating_sub(behind))),
        Err(error) => Err(Refusal {
            error,
            at: (cursor.fault() as usize).min(input.len()),
        }),
    }
}

/// Returns the canonical text of the value: that of each of its canonical terms, one after another (Part 1, section 1.6). The text is
/// measured first, and its bytes are then reserved once and exactly.
///
/// # Errors
///
/// An error is `Memory`, or a reason why the terms can't be written.
pub fn to_vec<T: Serialize>(value: &T, alloc: Global) -> Result<Vec<u8>, Error>
    ensures is_value { T.writing.is_value value.now }
    ensures text { IfOk result (λ text. text.items ≡ row_text (T.writing.canons value.now)) }
    ensures writable { OnOk result (AreWritable (T.writing.canons value.now)) }
    ensures refused { IfErr result (λ e. (e ≡ Memory) ⊎ AreUnwritable (T.writing.canons value.now) e) }
{
    let mut encoder = measuring_encoder(alloc);
    let len = measure(value, &mut encoder)?;
    let buffer = Vec::with_capacity(alloc, len)?;
    let mut filling = filling_encoder(&mut encoder, alloc, buffer, len);
    value.serialize(&mut filling)?;
    Ok(buffer_of(filling))
}

/// Returns the length in bytes of the value's canonical text. It returns the errors of `to_vec`.
pub fn encoded_len<T: Serialize>(value: &T, alloc: Global) -> Result<usize, Error>
    ensures is_value { T.writing.is_value value.now }
    ensures len { IfOk result (λ len. len ≡ length (row_text (T.writing.canons value.now))) }
    ensures writable { OnOk result (AreWritable (T.writing.canons value.now)) }
    ensures refused { IfErr result (λ e. (e ≡ Memory) ⊎ AreUnwritable (T.writing.canons value.now) e) }
{
    measure(value, &mut measuring_encoder(alloc))
}

/// Appends the value's canonical text to the buffer, and returns the text's length in bytes. The bytes are reserved once and exactly. It
/// returns the errors of `to_vec`, and then the buffer's content is unchanged.
pub fn append_to_vec<T: Serialize>(
    value: &T,
    buffer: &mut Vec<u8>,
    alloc: Global,
) -> Result<usize, Error>
    ensures is_value { T.writing.is_value value.now }
    ensures text { OnOk result (buffer.new.items ≡ buffer.old.items ++ row_text (T.writing.canons value.now)) }
    ensures len { IfOk result (λ len. len ≡ length (row_text (T.writing.canons value.now))) }
    ensures writable { OnOk result (AreWritable (T.writing.canons value.now)) }
    ensures refused { IfErr result (λ e. (e ≡ Memory) ⊎ AreUnwritable (T.writing.canons value.now) e) }
    ensures kept { OnErr result (buffer.new.items ≡ buffer.old.items) }
{
    let mut encoder = measuring_encoder(alloc);
    let len = measure(value, &mut encoder)?;
    buffer.reserve_exact(len)?;
    let limit = buffer.len() + len;
    let room = std::mem::replace(buffer, Vec::new(alloc));
    let mut filling = filling_encoder(&mut encoder, alloc, room, limit);
    // What was measured is never refused.
    value.serialize(&mut filling)?;
    *buffer = buffer_of(filling);
    Ok(len)
}

/// Writes the value's canonical text (Part 1, section 1.6) to the start of `room`, and returns the text's length in bytes. If `room` is
/// shorter than the text, nothing is written, and the length is returned all the same. What is behind the text stays as it was. Only
/// measuring allocates.
///
/// # Errors
///
/// It returns the errors of `to_vec`, and then `room` is unchanged.
pub fn write_into<T: Serialize>(value: &T, room: &mut [u8], alloc: Global) -> Result<usize, Error>
    ensures is_value { T.writing.is_value value.now }
    ensures text { IfOk result (λ len. len ≤ length room.old → room.new ≡ row_text (T.writing.canons value.now) ++ drop len room.old) }
    ensures short { IfOk result (λ len. length room.old < len → room.new ≡ room.old) }
    ensures len { IfOk result (λ len. len ≡ length (row_text (T.writing.canons value.now))) }
    ensures writable { OnOk result (AreWritable (T.writing.canons value.now)) }
    ensures refused { IfErr result (λ e. (e ≡ Memory) ⊎ AreUnwritable (T.writing.canons value.now) e) }
    ensures kept { OnErr result (room.new ≡ room.old) }
    ensures behind { let len = length (row_text (T.writing.canons value.now)) in drop len room.new ≡ drop len room.old }
{
    let mut encoder = measuring_encoder(alloc);
    let len = measure(value, &mut encoder)?;
    if room.len() < len {
        return Ok(len);
    }
    fill_memory(value, &mut encoder, &mut room[..len], alloc)?;
    Ok(len)
}

/// Returns the canonical text of the value at the start of `input`, and the number of bytes that the value takes there.
///
/// # Errors
///
/// An error is `Memory`, a fault of an input that begins with no value, or `TooLarge`. It is never `Read` or `Limit`.
pub fn canonical_text<T: Canonical>(input: &[u8], alloc: Global) -> Result<(Vec<u8>, usize), Error>
    ensures text { IfOk result (λ r. IsRewritten T.reading T.writing.canons input.now r.0.items r.1) }
    ensures read_again { IfOk result (λ r. IsReadAgain T.reading T.follows T.again T.kept T.lasts input.now r.0.items r.1) }
    ensures one_text { IfOk result (λ r. IsOneText T.reading T.writing.canons input.now r.0.items r.1) }
    ensures no_other { IfOk result (λ r. IsOfNoOther T.reading T.writing.canons T.kept T.lasts input.now r.0.items r.1) }
    ensures every_text { AreReadAgain T.reading T.writing.canons T.writing.is_value T.follows T.again T.lasts }
    ensures unchanged { IfOk result (λ r. IsUnchanged T.reading T.writing.canons T.lasts input.now r.0.items r.1) }
    ensures shortest { T.is_least ≡ true → AreShortest T.reading T.writing.canons }
    ensures no_shorter { T.is_least ≡ true → IfOk result (λ r. IsShortest T.reading T.writing.canons input.now r.0.items r.1) }
    ensures refused { IfErr result (λ e.
        (e ≡ Memory) ⊎ (IsUnreadable T.reading input.now e ⊎ IsUnwritten T.reading T.writing.canons input.now e)) }
    ensures unfailing { IfErr result (λ e. IsReadError e → ⊥) }
    ensures unlimited { IfErr result (λ e. e ≡ Limit → ⊥) }
{
    let (value, len) = from_slice_counted::<T>(input, alloc)?;
    let text = to_vec(&value, alloc)?;
    Ok((text, len))
}

/// Returns the canonical text of the value at the start of `input`, within limits of the caller, and the number of bytes that the value
/// takes there. What is read within limits is read without them, too, so the clauses of `canonical_text` about the text hold here.
///
/// # Errors
///
/// An error is `Memory`, a fault of an input that begins with no value within the limits, or `TooLarge`. It is never `Read`, and it is
/// `Limit` only if the caller has set a limit.
pub fn canonical_text_within<T: Canonical>(
    input: &[u8],
    limits: &Limits,
    alloc: Global,
) -> Result<(Vec<u8>, usize), Error>
    ensures text { IfOk result (λ r. IsRewrittenWithin limits.now T.reading T.writing.canons input.now r.0.items r.1) }
    ensures read_again { IfOk result (λ r. IsReadAgain T.reading T.follows T.again T.kept T.lasts input.now r.0.items r.1) }
    ensures one_text { IfOk result (λ r. IsOneText T.reading T.writing.canons input.now r.0.items r.1) }
    ensures no_other { IfOk result (λ r. IsOfNoOther T.reading T.writing.canons T.kept T.lasts input.now r.0.items r.1) }
    ensures unchanged { IfOk result (λ r. IsUnchanged T.reading T.writing.canons T.lasts input.now r.0.items r.1) }
    ensures no_shorter { T.is_least ≡ true
        → IfOk result (λ r. IsShortest T.reading T.writing.canons input.now r.0.items r.1) }
    ensures refused { IfErr result (λ e. (e ≡ Memory)
        ⊎ (IsUnreadableWithin limits.now T.reading input.now e ⊎ IsUnwrittenWithin limits.now T.reading T.writing.canons input.now e)) }
    ensures unfailing { IfErr result (λ e. IsReadError e → ⊥) }
    ensures limited { IfErr result (λ e. e ≡ Limit → IsGreatest limits.now → ⊥) }
{
    let (value, len) = from_slice_within::<T>(input, limits, alloc)?;
    let written = to_vec(&value, alloc)?;
    Ok((written, len))
}

/// Writes the canonical text of the value at the start of `input` to the start of `room`, as `write_into` does. It returns the text's
/// length in bytes, and the number of bytes that the value takes in `input`. Nothing of the text is allocated.
///
/// # Errors
///
/// It returns the errors of `canonical_text_within`, and then `room` is unchanged.
pub fn canonical_into<T: Canonical>(
    input: &[u8],
    room: &mut [u8],
    limits: &Limits,
    alloc: Global,
) -> Result<(usize, usize), Error>
    ensures text { IfOk result (λ r. (text : List ℕ) × IsRewrittenWithin limits.now T.reading T.writing.canons input.now text r.1
        × IsPlaced text room.old room.new r.0) }
    ensures refused { IfErr result (λ e. (e ≡ Memory)
        ⊎ (IsUnreadableWithin limits.now T.reading input.now e ⊎ IsUnwrittenWithin limits.now T.reading T.writing.canons input.now e)) }
    ensures unfailing { IfErr result (λ e. IsReadError e → ⊥) }
    ensures limited { IfErr result (λ e. e ≡ Limit → IsGreatest limits.now → ⊥) }
    ensures kept { OnErr result (room.new ≡ room.old) }
{
    let (value, taken) = from_slice_within::<T>(input, limits, alloc)?;
    let len = write_into(&value, room, alloc)?;
    Ok((len, taken))
}

// The length of the canonical text, whose sizes the encoder keeps; or why there is none.
#[inline(always)]
fn measure<T: Serialize>(value: &T, encoder: &mut Encoder<Measure>) -> Result<usize, Error>
    requires { BeginsMeasuring encoder.old }
    ensures is_value { T.writing.is_value value.now }
    ensures measured { IfOk result (λ len.
        (sizes : List Size) × AreMeasured (T.writing.canons value.now) len sizes × Finds encoder.new len sizes) }
    ensures len { IfOk result (λ len. len ≡ length (row_text (T.writing.canons value.now))) }
    ensures writable { OnOk result (AreWritable (T.writing.canons value.now)) }
    ensures refused { IfErr result (λ e. (e ≡ Memory) ⊎ AreUnwritable (T.writing.canons value.now) e) }
{
    value.in_type();
    value.serialize(encoder)?;
    measured_len(encoder)
}

// Fills the memory with the canonical text of the value. It was measured, and has as many bytes as the memory.
#[inline(always)]
fn fill_memory<T: Serialize>(
    value: &T,
    measured: &mut Encoder<Measure>,
    memory: &mut [u8],
    alloc: Global,
) -> Result<(), Error>
    requires is_value { T.writing.is_value value.now }
    requires measured { (sizes : List Size)
        × AreMeasured (T.writing.canons value.now) (length memory.old) sizes × Finds measured.old (length memory.old) sizes }
    ensures text { memory.new ≡ row_text (T.writing.canons value.now) }
    ensures never_refused { OnErr result ⊥ }
{
    let len = memory.len();
    let mut room = SliceRoom::new(memory);
    let mut filling = filling_encoder(measured, alloc, room.take(), len);
    let outcome = value.serialize(&mut filling);
    room.put_back(buffer_of(filling));
    outcome
}
