//! Whole values from a reader.
ghost use Rattle.std.specs.Prelude.{◌≡◌, ◌⊎◌, ℕ, List, [], true, false, length, drop, IfOk, IfErr, MatchResult};
ghost use Rattle.amqp_wire.specs.declared.error.Error.TheVariants.{Memory, Limit};
ghost use Rattle.amqp_wire.specs.Sources.{known, Tells};
ghost use Rattle.amqp_wire.specs.Limits.{limit_of};
ghost use Rattle.amqp_decoder.specs.State.{Has, fresh_source};
ghost use Rattle.amqp_decoder.specs.Reserve.{Leaves};
ghost use Rattle.amqp_decoder.specs.OtherSource.{elsewhere};
ghost use Rattle.amqp_read_write.specs.Reserved.{reserved, IsRestOf};
ghost use Rattle.amqp_decoder.specs.Steps.{IsReadError};
ghost use Rattle.amqp_codec.specs.Reading.{apart, start_within, IsGreatest, BeginsWith, IsUnreadable, BeginsWithin, IsUnreadableWithin, HasFaultAt};

use amqp_codec::Deserialize;
use amqp_decoder::{Decoder, decoder_of_term, decoder_within, source_of};
use amqp_wire::{ByteSource, Error, Limits, Refusal};
use std::alloc::{AllocError, Global};
use std::io::ErrorKind;
use std::marker::{Brand, PhantomData};

/// Reads the value at the start of the reader's bytes, however the reader splits them. For a one-term type, the reader's next byte is the
/// one after the value. What this comment says about the reader's bytes is promised for a specified source: one whose contract states its
/// bytes (`Tells`), as that of a slice does.
///
/// # Errors
///
/// `Memory` is returned only if reading the type allocates, and `Read` only if the reader has failed. Any other error reports a fault of
/// bytes that begin with no value. If the reader begins to fail in the call, the error is always `Read`. How many bytes were taken then is
/// unspecified.
pub fn from_reader<T: Deserialize, R: ByteSource>(reader: &mut R, alloc: Global) -> Result<T, Error>
    ensures found { Tells R.remaining → IfOk result (λ v. (n : ℕ) × BeginsWith T.reading (known (R.remaining reader.old)) v n) }
    ensures one { Tells R.remaining → IfOk result (λ v. (w : _) (m : ℕ)
        → BeginsWith T.reading (known (R.remaining reader.old)) w m → T.reading.same v w) }
    ensures behind { Tells R.remaining → T.reading.looks_on ≡ false
        → IfOk result (λ v. (w : _) (n : ℕ) → BeginsWith T.reading (known (R.remaining reader.old)) w n
        → known (R.remaining reader.new) ≡ drop n (known (R.remaining reader.old))) }
    ensures refused { Tells R.remaining → IfErr result (λ e. ((T.reading.takes_memory ≡ true) × (e ≡ Memory))
        ⊎ ((IsReadError e × (R.failed reader.new ≡ true)) ⊎ IsUnreadable T.reading (known (R.remaining reader.old)) e)) }
    ensures memory { IfErr result (λ e. e ≡ Memory → T.reading.takes_memory ≡ true) }
    ensures unlimited { IfErr result (λ e. e ≡ Limit → ⊥) }
    ensures failed { IfErr result (λ e. IsReadError e → R.failed reader.new ≡ true) }
    ensures failing { MatchResult result (λ _. R.failed reader.new ≡ R.failed reader.old)
        (λ e. (R.failed reader.new ≡ R.failed reader.old) ⊎ IsReadError e) }
{
    from_reader_within(reader, &Limits::greatest(), alloc)
}

/// Reads the value at the start of the reader's bytes, within limits of the caller, however the reader splits them. For a one-term type,
/// the reader's next byte is the one after the value. For a one-term type, no more bytes are taken from a reader that hasn't failed than
/// the limit allows, even if the value is refused. As for `from_reader`, this is promised for a specified source.
/// # Errors
///
/// It returns the errors of `from_reader`, or `Limit` if the value is past a limit. `Limit` is returned only if the caller has set a limit.
pub fn from_reader_within<T: Deserialize, R: ByteSource>(
    reader: &mut R,
    limits: &Limits,
    alloc: Global,
) -> Result<T, Error>
    ensures found { Tells R.remaining
        → IfOk result (λ v. (n : ℕ) × BeginsWithin limits.now T.reading (known (R.remaining reader.old)) v n) }
    ensures one { Tells R.remaining → IfOk result (λ v. (w : _) (m : ℕ)
        → BeginsWithin limits.now T.reading (known (R.remaining reader.old)) w m → T.reading.same v w) }
    ensures behind { Tells R.remaining → T.reading.looks_on ≡ false
        → IfOk result (λ v. (w : _) (n : ℕ) → BeginsWithin limits.now T.reading (known (R.remaining reader.old)) w n
        → known (R.remaining reader.new) ≡ drop n (known (R.remaining reader.old))) }
    ensures refused { Tells R.remaining → IfErr result (λ e. ((T.reading.takes_memory ≡ true) × (e ≡ Memory))
        ⊎ ((IsReadError e × (R.failed reader.new ≡ true))
        ⊎ IsUnreadableWithin limits.now T.reading (known (R.remaining reader.old)) e)) }
    ensures memory { IfErr result (λ e. e ≡ Memory → T.reading.takes_memory ≡ true) }
    ensures limited { IfErr result (λ e. e ≡ Limit → IsGreatest limits.now → ⊥) }
    ensures failed { IfErr result (λ e. IsReadError e → R.failed reader.new ≡ true) }
    ensures failing { MatchResult result (λ _. R.failed reader.new ≡ R.failed reader.old)
        (λ e. (R.failed reader.new ≡ R.failed reader.old) ⊎ IsReadError e) }
    ensures taken { Tells R.remaining → T.reading.one_term ≡ true → R.failed reader.new ≡ false
        → (n : ℕ) × Has (limit_of limits.now.bytes) n × (known (R.remaining reader.new) ≡ drop n (known (R.remaining reader.old))) }
{
    let (read, _place) = read_placed(reader, limits, alloc);
    read
}

/// Reads as `from_reader_within` does, and returns beside the error the place of the fault, as `from_slice_located` does: how many bytes
/// are before it, from where the reader stood, as a number of 64 bits. The place says nothing for `Memory` and `Read`.
pub fn from_reader_located<T: Deserialize, R: ByteSource>(
    reader: &mut R,
    limits: &Limits,
    alloc: Global,
) -> Result<T, Refusal>
    ensures found { Tells R.remaining
        → IfOk result (λ v. (n : ℕ) × BeginsWithin limits.now T.reading (known (R.remaining reader.old)) v n) }
    ensures one { Tells R.remaining → IfOk result (λ v. (w : _) (m : ℕ)
        → BeginsWithin limits.now T.reading (known (R.remaining reader.old)) w m → T.reading.same v w) }
    ensures behind { Tells R.remaining → T.reading.looks_on ≡ false
        → IfOk result (λ v. (w : _) (n : ℕ) → BeginsWithin limits.now T.reading (known (R.remaining reader.old)) w n
        → known (R.remaining reader.new) ≡ drop n (known (R.remaining reader.old))) }
    ensures refused { Tells R.remaining → IfErr result (λ r. ((T.reading.takes_memory ≡ true) × (r.error ≡ Memory))
        ⊎ ((IsReadError r.error × (R.failed reader.new ≡ true))
        ⊎ IsUnreadableWithin limits.now T.reading (known (R.remaining reader.old)) r.error)) }
    ensures place { Tells R.remaining → IfErr result (λ r. ((T.reading.takes_memory ≡ true) × (r.error ≡ Memory))
        ⊎ ((IsReadError r.error × (R.failed reader.new ≡ true))
        ⊎ HasFaultAt limits.now T.reading (known (R.remaining reader.old)) r.error r.at)) }
    ensures memory { IfErr result (λ r. r.error ≡ Memory → T.reading.takes_memory ≡ true) }
    ensures limited { IfErr result (λ r. r.error ≡ Limit → IsGreatest limits.now → ⊥) }
    ensures failed { IfErr result (λ r. IsReadError r.error → R.failed reader.new ≡ true) }
    ensures failing { MatchResult result (λ _. R.failed reader.new ≡ R.failed reader.old)
        (λ r. (R.failed reader.new ≡ R.failed reader.old) ⊎ IsReadError r.error) }
    ensures taken { Tells R.remaining → T.reading.one_term ≡ true → R.failed reader.new ≡ false
        → (n : ℕ) × Has (limit_of limits.now.bytes) n × (known (R.remaining reader.new) ≡ drop n (known (R.remaining reader.old))) }
{
    let (read, place) = read_placed(reader, limits, alloc);
    match read {
        Ok(value) => Ok(value),
        Err(error) => Err(Refusal {
            error,
            at: place as usize,
        }),
    }
}

// Within the limits, the value at the start of the reader's bytes, or an error, and where the fault stands.
fn read_placed<T: Deserialize, R: ByteSource>(
    reader: &mut R,
    limits: &Limits,
    alloc: Global,
) -> (Result<T, Error>, u64)
    ensures found { Tells R.remaining
        → IfOk result.0 (λ v. (n : ℕ) × BeginsWithin limits.now T.reading (known (R.remaining reader.old)) v n) }
    ensures one { Tells R.remaining → IfOk result.0 (λ v. (w : _) (m : ℕ)
        → BeginsWithin limits.now T.reading (known (R.remaining reader.old)) w m → T.reading.same v w) }
    ensures behind { Tells R.remaining → T.reading.looks_on ≡ false
        → IfOk result.0 (λ v. (w : _) (n : ℕ) → BeginsWithin limits.now T.reading (known (R.remaining reader.old)) w n
        → known (R.remaining reader.new) ≡ drop n (known (R.remaining reader.old))) }
    ensures refused { Tells R.remaining → IfErr result.0 (λ e. ((T.reading.takes_memory ≡ true) × (e ≡ Memory))
        ⊎ ((IsReadError e × (R.failed reader.new ≡ true))
        ⊎ IsUnreadableWithin limits.now T.reading (known (R.remaining reader.old)) e)) }
    ensures place { Tells R.remaining → IfErr result.0 (λ e. ((T.reading.takes_memory ≡ true) × (e ≡ Memory))
        ⊎ ((IsReadError e × (R.failed reader.new ≡ true))
        ⊎ HasFaultAt limits.now T.reading (known (R.remaining reader.old)) e result.1)) }
    ensures memory { IfErr result.0 (λ e. e ≡ Memory → T.reading.takes_memory ≡ true) }
    ensures limited { IfErr result.0 (λ e. e ≡ Limit → IsGreatest limits.now → ⊥) }
    ensures failed { IfErr result.0 (λ e. IsReadError e → R.failed reader.new ≡ true) }
    ensures failing { MatchResult result.0 (λ _. R.failed reader.new ≡ R.failed reader.old)
        (λ e. (R.failed reader.new ≡ R.failed reader.old) ⊎ IsReadError e) }
    ensures taken { Tells R.remaining → T.reading.one_term ≡ true → R.failed reader.new ≡ false
        → (n : ℕ) × Has (limit_of limits.now.bytes) n × (known (R.remaining reader.new) ≡ drop n (known (R.remaining reader.old))) }
{
    let (read, place, _reader) = read_named::<T, _, Brand>(reader, limits, alloc);
    (read, place)
}

// The name of a source, which a call chooses.
trait Name {
    ghost name: { ℕ };

    // The bytes that it had.
    ghost origin: { List ℕ };

    // How many of the last of them stay in it.
    ghost reserve: { ℕ };
}

impl Name for Brand {
    ghost name = { 0 };

    ghost origin = { [] };

    ghost reserve = { 0 };
}

// A source of that name. So the one that a decoder returns is the one that it was made of, and unless it has failed, it has the rest of its
// bytes.
#[derive(Drop)]
struct Named<S: ByteSource, N: Name> {
    source: S,
    of: PhantomData<N>,
    ghost is_named: { S.name source ≡ N.name },
    ghost is_rest: { Tells S.remaining → S.failed source ≡ false → IsRestOf N.origin (known (S.remaining source)) },
}

impl<S: ByteSource, N: Name> ByteSource for Named<S, N> {
    ghost remaining = { λ s. S.remaining s.source };

    ghost failed = { λ s. S.failed s.source };

    ghost name = { λ s. S.name s.source };

    ghost is_whole = { S.is_whole };

    ghost reserve = { N.reserve };

    fn pull(&mut self, buffer: &mut [u8]) -> Result<usize, ErrorKind> {
        self.source.pull(buffer)
    }

    #[inline(always)]
    fn at_hand(&self) -> Option<&[u8]> {
        self.source.at_hand()
    }

    #[inline(always)]
    fn pull_ready(&mut self, buffer: &mut [u8]) -> bool {
        self.source.pull_ready(buffer)
    }

    #[inline(always)]
    fn append_ready(&mut self, count: usize, bytes: &mut Vec<u8>) -> Result<bool, AllocError> {
        self.source.append_ready(count, bytes)
    }

    fn failed(&self) -> bool {
        self.source.failed()
    }
}

// A decoder for a value of the type, within the limits.
fn decoder_for<T: Deserialize, R: ByteSource>(
    source: R,
    limits: &Limits,
    alloc: Global,
) -> Decoder<R>
    requires { Tells R.remaining → T.reading.one_term ≡ true
        → Leaves R.reserve (limit_of limits.now.bytes) (length (known (R.remaining source))) }
    ensures { result ≡ apart T.reading.one_term
        (elsewhere (fresh_source (R.name source) (known (R.remaining source))) (R.failed source)
        (start_within limits.now (known (R.remaining source)))) }
{
    if T::is_one_term() {
        decoder_of_term(source, limits, alloc)
    } else {
        decoder_within(source, limits, alloc)
    }
}

// Within the limits, the value at the start of the source's bytes, or an error and where the fault stands, and the source, whose next byte is
// the one after the value.
fn read_named<T: Deserialize, S: ByteSource, N: Name>(
    source: S,
    limits: &Limits,
    alloc: Global,
) -> (Result<T, Error>, u64, S)
    requires named { S.name source ≡ N.name }
    requires origin { known (S.remaining source) ≡ N.origin }
    requires reserve { N.reserve ≡ reserved T.reading.one_term (limit_of limits.now.bytes) (length N.origin) }
    ensures named { S.name result.2 ≡ S.name source }
    ensures found { Tells S.remaining
        → IfOk result.0 (λ v. (n : ℕ) × BeginsWithin limits.now T.reading (known (S.remaining source)) v n) }
    ensures one { Tells S.remaining → IfOk result.0 (λ v. (w : _) (m : ℕ)
        → BeginsWithin limits.now T.reading (known (S.remaining source)) w m → T.reading.same v w) }
    ensures behind { Tells S.remaining → T.reading.looks_on ≡ false
        → IfOk result.0 (λ v. (w : _) (n : ℕ) → BeginsWithin limits.now T.reading (known (S.remaining source)) w n
        → known (S.remaining result.2) ≡ drop n (known (S.remaining source))) }
    ensures refused { Tells S.remaining → IfErr result.0 (λ e. ((T.reading.takes_memory ≡ true) × (e ≡ Memory))
        ⊎ ((IsReadError e × (S.failed result.2 ≡ true))
        ⊎ IsUnreadableWithin limits.now T.reading (known (S.remaining source)) e)) }
    ensures place { Tells S.remaining → IfErr result.0 (λ e. ((T.reading.takes_memory ≡ true) × (e ≡ Memory))
        ⊎ ((IsReadError e × (S.failed result.2 ≡ true))
        ⊎ HasFaultAt limits.now T.reading (known (S.remaining source)) e result.1)) }
    ensures memory { IfErr result.0 (λ e. e ≡ Memory → T.reading.takes_memory ≡ true) }
    ensures limited { IfErr result.0 (λ e. e ≡ Limit → IsGreatest limits.now → ⊥) }
    ensures failed { IfErr result.0 (λ e. IsReadError e → S.failed result.2 ≡ true) }
    ensures failing { MatchResult result.0 (λ _. S.failed result.2 ≡ S.failed source)
        (λ e. (S.failed result.2 ≡ S.failed source) ⊎ IsReadError e) }
    ensures taken { Tells S.remaining → T.reading.one_term ≡ true → S.failed result.2 ≡ false
        → (n : ℕ) × Has (limit_of limits.now.bytes) n × (known (S.remaining result.2) ≡ drop n (known (S.remaining source))) }
{
    let named = Named::<S, N> {
        source,
        of: PhantomData,
    };
    let mut decoder = decoder_for::<T, _>(named, limits, alloc);
    let read = T::deserialize(&mut decoder, alloc);
    let place = decoder.fault();
    let Named { source, .. } = source_of(decoder);
    (read, place, source)
}
