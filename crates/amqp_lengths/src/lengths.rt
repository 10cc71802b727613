//! How long the term at the start of the input is (Part 1, sections 1.2 and 1.6).
ghost use Rattle.std.specs.Prelude.{◌≤◌, ◌<◌, ◌+◌, ◌-◌, ◌^◌, ◌≡◌, ℕ, List, ◌++◌, length, IfOk, IfErr, IsErr, IsTrue, ◌↔◌, MatchOption};
ghost use Rattle.amqp_model.specs.Constructors.{format};
ghost use Rattle.amqp_model.specs.Spelling.{IsKnown, IsSpelling};
ghost use Rattle.amqp_model.specs.Term.{Term};
ghost use Rattle.amqp_wire.specs.declared.error.Error.TheVariants.{Cut, Size, Depth};
ghost use Rattle.amqp_lengths.specs.Fronts.{IsFront, Refuses, NoFront};
ghost use Rattle.amqp_lengths.specs.Pieces.{width_of};
ghost use Rattle.amqp_wire.specs.Containers.{container_of};
ghost use Rattle.amqp_lengths.specs.Lengths.{levels_of, Row, IsTerm, IsData, IsContainer, IsArray, HasElements, HasPairs, IsCutTerm};
ghost use Rattle.amqp_wire.specs.declared.error.Error.{Error};
ghost use Rattle.amqp_lengths.specs.Faults.{inside, HasFault, TermFault, DataFault, ContainerFault, ItemsFault, ArrayFault};
ghost use Rattle.amqp_lengths.specs.Faults.{ElementsFault, SharedFault, AsksMore};
ghost use Rattle.amqp_lengths.specs.Stands.{StandsAt};

use crate::constructors::{Constructor, read_constructor, refuse};
use crate::contents::read_content;
use crate::primitives::primitive_len;
use amqp_wire::format_code::{has_width_zero, is_compound};
use amqp_wire::nesting::NESTING;
use amqp_wire::{Container, Error, Refusal, format_code};

/// Returns the length in bytes of the AMQP term at the start of `input`: one encoded value, of any type (Part 1, section 1.2). The length
/// is from the first byte of the term's constructor to the last byte of its data. Bytes after the term are ignored. No input starts with
/// two different terms. The call doesn't allocate.
///
/// # Errors
///
/// If `input` doesn't start with a term that nests at most 128 deep, the call returns an error that reports a fault of the bytes. If the
/// bytes have several faults, which one is reported is unspecified.
///
/// - `Cut` if the input ends before the end of a constructor, or before the end of the data that a constructor announces.
///   Every proper prefix of such a term, the empty input included, returns `Cut`.
/// - `UnknownCode` if a constructor has a format code that is not in Part 1, section 1.6.
/// - `FloatCode` if a constructor has the code of a float (0x72) or of a double (0x82), which are not supported.
/// - `BadDescriptor` if a descriptor is neither a ulong nor a symbol.
/// - `BadBool` if the byte of a boolean (code 0x56) is neither 0 nor 1.
/// - `BadChar` if the four bytes of a char are not a Unicode scalar value.
/// - `BadUtf8` if the bytes of a string are not UTF-8.
/// - `NonAscii` if a symbol, or a descriptor that is a symbol, has a byte above 0x7f.
/// - `Size` if the size of a list, a map or an array is not the size of its count and its items. This includes a value that extends past
///   the end of the container that it is in.
/// - `OddCount` if the count of a map is odd.
/// - `ZeroWidthItems` if an array has items, and their constructor has a code without data (0x40 to 0x45).
/// - `Depth` if values nest more than 128 deep, or if a constructor has more than 128 descriptors. Described values, lists and maps count
///   in nesting, and an array counts if one of its items is no primitive.
pub fn term_len(input: &[u8]) -> Result<usize, Error>
    ensures found { IfOk result (λ n. IsFront (IsTerm NESTING) input.now n) }
    ensures none { IfErr result (λ _. NoFront (IsTerm NESTING) input.now) }
    ensures cut { IsCutTerm NESTING input.now → result ≡ Err Cut }
    ensures fault { IfErr result (λ e. HasFault Depth NESTING input.now e) }
    ensures cut_only { IfErr result (λ e. e ≡ Cut → AsksMore input.now) }
    ensures one_front { (s r after behind : List ℕ) (t u : Term) → input.now ≡ s ++ after → input.now ≡ r ++ behind
        → IsSpelling s t → IsSpelling r u → s ≡ r }
    ensures one_term { (s r after behind : List ℕ) (t u : Term) → input.now ≡ s ++ after → input.now ≡ r ++ behind
        → IsSpelling s t → IsSpelling r u → t ≡ u }
{
    len_of_term(input, NESTING, Error::Depth)
}

/// Returns what `term_len` does, and beside its error the place of the fault: how many bytes of the input are before it. That is where the
/// term, the constructor or the descriptor begins that has the fault (Part 1, section 1.2).
///
/// # Errors
///
/// - `Cut` at the outermost value that is cut, or at the end of the input, if a code or a descriptor is missing there.
/// - `Size` at the container whose size doesn't hold its count, at the value that extends past the container's end, or at the first byte
///   that is left in the container after its items.
/// - `UnknownCode` and `FloatCode` at the code, and `BadDescriptor` at the descriptor.
/// - `ZeroWidthItems` at the constructor that the items of the array share. So is `Depth`, if the items nest too deep.
/// - Any other error at the value that has the fault. An item of an array begins with its data.
pub fn term_len_located(input: &[u8]) -> Result<usize, Refusal>
    ensures found { IfOk result (λ n. IsFront (IsTerm NESTING) input.now n) }
    ensures none { IfErr result (λ _. NoFront (IsTerm NESTING) input.now) }
    ensures cut { IsCutTerm NESTING input.now → IfErr result (λ r. r.error ≡ Cut) × IsErr result }
    ensures fault { IfErr result (λ r. TermFault Depth NESTING input.now r.error (length input.now - r.at)) }
    ensures within { IfErr result (λ r. r.at ≤ length input.now) }
    ensures stands { IfErr result (λ r. StandsAt input.now r.error r.at) }
{
    match len_of_term_located(input, NESTING, Error::Depth) {
        Ok(len) => Ok(len),
        Err(refusal) => Err(refusal),
    }
}

// In a container, what is announced is present, so a value that needs more bytes is too long.
fn within<T>(answer: Result<T, Error>) -> Result<T, Error>
    ensures found { IfOk result (λ value. answer ≡ Ok value) }
    ensures fault { IfErr result (λ e. (cause : Error) × (answer ≡ Err cause) × (e ≡ inside cause)) }
{
    match answer {
        Err(Error::Cut) => Err(Error::Size),
        answer => answer,
    }
}

// Checks that these are so many terms.
#[cycle(term)]
fn check_items(
    content: &[u8],
    count: usize,
    nesting: usize,
    deep: Error,
    left: &mut usize,
) -> Result<(), Error>
    ensures found { IfOk result (λ _. Row (IsTerm nesting) count content.now) }
    ensures fault { IfErr result (λ e. ItemsFault deep nesting count content.now e left.new) }
{
    let mut len = 0;
    for done in 0..count {
        len += within(walk_term(&content[len..], nesting, deep, left))?;
    }
    check_end(content, len, left)
}

// Checks that nothing is left of the content behind so many bytes.
fn check_end(content: &[u8], len: usize, left: &mut usize) -> Result<(), Error>
    requires { len ≤ length content.now }
    ensures all { IfOk result (λ _. len ≡ length content.now) }
    ensures left { IfErr result (λ e. (e ≡ Size) × (0 < left.new) × (len + left.new ≡ length content.now)) }
{
    if len == content.len() {
        Ok(())
    } else {
        Err(refuse(Error::Size, content.len() - len, left))
    }
}

// Checks that these are the data of so many items under one code.
#[cycle(term)]
fn check_data(
    content: &[u8],
    code: u8,
    count: usize,
    nesting: usize,
    deep: Error,
    left: &mut usize,
) -> Result<(), Error>
    requires { IsKnown (format code) }
    ensures found { IfOk result (λ _. Row (IsData code nesting) count content.now) }
    ensures fault { IfErr result (λ e. SharedFault deep code nesting count content.now e left.new) }
{
    let mut len = 0;
    for done in 0..count {
        let data = &content[len..];
        *left = data.len();
        len += within(data_len(code, data, nesting, deep, left))?;
    }
    check_end(content, len, left)
}

// How much deeper the items of an array may nest than the array. The array counts if its items are no bare primitives, and so does each
// descriptor.
fn nesting_of_items(shared: &Constructor, nesting: usize) -> Option<usize>
    ensures { MatchOption result (nesting < levels_of shared.now.descriptors shared.now.code)
        (λ inner. inner + levels_of shared.now.descriptors shared.now.code ≡ nesting) }
{
    let own = usize::from(shared.descriptors > 0 || is_compound(shared.code));
    nesting.checked_sub(own)?.checked_sub(shared.descriptors)
}

// Checks the constructor and the items of an array.
#[cycle(term)]
fn check_elements(
    content: &[u8],
    count: usize,
    nesting: usize,
    deep: Error,
    left: &mut usize,
) -> Result<(), Error>
    ensures found { IfOk result (λ _. HasElements nesting count content.now) }
    ensures fault { IfErr result (λ e. ElementsFault deep nesting count content.now e left.new) }
{
    *left = content.len();
    if content.is_empty() {
        return if count == 0 { Ok(()) } else { Err(Error::Size) };
    }
    let shared = within(read_constructor(content, left))?;
    let data = &content[shared.len..];
    if count == 0 {
        return check_end(content, shared.len, left);
    }
    if has_width_zero(shared.code) {
        return Err(Error::ZeroWidthItems);
    }
    match nesting_of_items(&shared, nesting) {
        Some(nesting) => check_data(data, shared.code, count, nesting, deep, left),
        None => Err(deep),
    }
}

// A map has a value for each key.
fn has_pairs(container: Container, count: usize) -> bool
    ensures { IsTrue result ↔ HasPairs (container_of container) count }
{
    match container {
        Container::Map => count % 2 == 0,
        Container::List | Container::Array => true,
    }
}

// The answer for what a container holds, behind which so many bytes follow.
fn followed_by<T>(answer: Result<T, Error>, behind: usize, left: &mut usize) -> Result<T, Error>
    requires { IfErr answer (λ _. left.old + behind < 2 ^ 64) }
    ensures found { IfOk result (λ value. answer ≡ Ok value) }
    ensures fault { IfErr result (λ e. (answer ≡ Err e) × (left.new ≡ left.old + behind)) }
{
    if answer.is_err() {
        *left += behind;
    }
    answer
}

// The length of the data of a list or map.
#[cycle(term)]
fn list_len(
    input: &[u8],
    wide: bool,
    container: Container,
    nesting: usize,
    deep: Error,
    left: &mut usize,
) -> Result<usize, Error>
    ensures found { IfOk result (λ n. IsFront (IsContainer (container_of container) (width_of wide) nesting) input.now n) }
    ensures fault { (own : ℕ) → left.old ≡ own + length input.now
        → IfErr result (λ e. ContainerFault deep own (container_of container) (width_of wide) nesting input.now e left.new) }
{
    let parts = read_content(input, wide, container)?;
    let Some(nesting) = nesting.checked_sub(1) else {
        return Err(deep);
    };
    if !has_pairs(container, parts.count) {
        return Err(Error::OddCount);
    }
    let items = check_items(parts.items, parts.count, nesting, deep, left);
    followed_by(items, input.len() - parts.len, left)?;
    Ok(parts.len)
}

// The length of the data of an array.
#[cycle(term)]
fn array_len(
    input: &[u8],
    wide: bool,
    nesting: usize,
    deep: Error,
    left: &mut usize,
) -> Result<usize, Error>
    ensures found { IfOk result (λ n. IsFront (IsArray (width_of wide) nesting) input.now n) }
    ensures fault { (own : ℕ) → left.old ≡ own + length input.now
        → IfErr result (λ e. ArrayFault deep own (width_of wide) nesting input.now e left.new) }
{
    let parts = read_content(input, wide, Container::Array)?;
    let items = check_elements(parts.items, parts.count, nesting, deep, left);
    followed_by(items, input.len() - parts.len, left)?;
    Ok(parts.len)
}

// The length of the data under a known code. What is faulty as a whole is from so many bytes on as `left` says.
#[cycle(term)]
fn data_len(
    code: u8,
    input: &[u8],
    nesting: usize,
    deep: Error,
    left: &mut usize,
) -> Result<usize, Error>
    requires { IsKnown (format code) }
    ensures found { IfOk result (λ n. IsFront (IsData code nesting) input.now n) }
    ensures fault { (own : ℕ) → left.old ≡ own + length input.now
        → IfErr result (λ e. DataFault deep own code nesting input.now e left.new) }
{
    match code {
        format_code::LIST_0 if nesting == 0 => Err(deep),
        format_code::LIST_0 => Ok(0),
        format_code::LIST_8 => list_len(input, false, Container::List, nesting, deep, left),
        format_code::LIST_32 => list_len(input, true, Container::List, nesting, deep, left),
        format_code::MAP_8 => list_len(input, false, Container::Map, nesting, deep, left),
        format_code::MAP_32 => list_len(input, true, Container::Map, nesting, deep, left),
        format_code::ARRAY_8 => array_len(input, false, nesting, deep, left),
        format_code::ARRAY_32 => array_len(input, true, nesting, deep, left),
        _ => primitive_len(code, input),
    }
}

// The length of the term at the start of the input. If there is none, `left` gets how many bytes there are from the place of the fault on.
#[cycle(term)]
fn walk_term(input: &[u8], nesting: usize, deep: Error, left: &mut usize) -> Result<usize, Error>
    ensures found { IfOk result (λ n. IsFront (IsTerm nesting) input.now n) }
    ensures fault { IfErr result (λ e. TermFault deep nesting input.now e left.new) }
{
    let shared = read_constructor(input, left)?;
    let Some(nesting) = nesting.checked_sub(shared.descriptors) else {
        return Err(refuse(deep, input.len(), left));
    };
    let data = &input[shared.len..];
    *left = 1 + data.len();
    Ok(shared.len + data_len(shared.code, data, nesting, deep, left)?)
}

/// Returns the length in bytes of the term at the start of the input, if it nests at most `nesting` deep. It returns the errors of
/// `term_len`, but `deep` if values nest deeper.
pub fn len_of_term(input: &[u8], nesting: usize, deep: Error) -> Result<usize, Error>
    ensures found { IfOk result (λ n. IsFront (IsTerm nesting) input.now n) }
    ensures refused { IfErr result (λ e. Refuses (IsTerm nesting) input.now e) }
    ensures fault { IfErr result (λ e. HasFault deep nesting input.now e) }
{
    let mut left = 0;
    walk_term(input, nesting, deep, &mut left)
}

/// Returns what `len_of_term` does, and beside its error the place of the fault, as `term_len_located` does.
pub fn len_of_term_located(input: &[u8], nesting: usize, deep: Error) -> Result<usize, Refusal>
    ensures found { IfOk result (λ n. IsFront (IsTerm nesting) input.now n) }
    ensures refused { IfErr result (λ r. Refuses (IsTerm nesting) input.now r.error) }
    ensures fault { IfErr result (λ r. TermFault deep nesting input.now r.error (length input.now - r.at)) }
    ensures within { IfErr result (λ r. r.at ≤ length input.now) }
{
    let mut left = 0;
    match walk_term(input, nesting, deep, &mut left) {
        Ok(len) => Ok(len),
        Err(error) => Err(Refusal {
            error,
            at: input.len().saturating_sub(left),
        }),
    }
}
