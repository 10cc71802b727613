//! How many values are in the term that bytes encode, how deep they nest (Part 1, section 1.2), and what the term weighs.
ghost use Rattle.std.specs.Prelude.{◌≡◌, ◌≤◌, ℕ, [], true, false, MatchOption, IfSome};
ghost use Rattle.amqp_model.specs.Term.{Term};
ghost use Rattle.amqp_model.specs.Constructors.{compound, format};
ghost use Rattle.amqp_model.specs.Spelling.{IsKnown, IsDataOf, AreItemsOf, AreElementsOf, AreSharedDataOf, IsSpelling};
ghost use Rattle.amqp_model.specs.Measures.{nests, array_nest, weight, is_sharing};
ghost use Rattle.amqp_wire.specs.Containers.{container_of};
ghost use Rattle.amqp_lengths.specs.Pieces.{width_of, IsPrimitive};
ghost use Rattle.amqp_lengths.specs.Lengths.{levels_of, IsTerm};
ghost use Rattle.amqp_lengths.specs.Measured.{IsMeasured, capped, Begins, AllMeasured, Measurable, AllMeasurable, contents, content_nest};

use crate::constructors::{Constructor, read_constructor};
use crate::contents::read_content;
use crate::lengths::len_of_term;
use crate::primitives::primitive_len;
use crate::shares::shares_of;
use amqp_wire::format_code::is_compound;
use amqp_wire::nesting::NESTING;
use amqp_wire::{Container, Error, format_code};

/// What a term holds.
#[derive(Clone, Copy)]
pub struct Measures {
    /// How many values: the term itself, and each item in it. A described value is one with its descriptor.
    pub nodes: usize,
    /// How deep they nest, at most 128. Described values, lists and maps count, and an array counts if one of its items is no primitive.
    pub nesting: usize,
    /// What it takes of a limit on items: one for each value, and for each item of an array, for each descriptor that the items share, one
    /// and one for each whole 32 bytes of its name. It is at most `u64::MAX`, which stands for any greater weight, too.
    pub weight: u64,
}

/// How long a term or its data is, and what it holds.
#[derive(Clone, Copy)]
pub(crate) struct Measured {
    pub(crate) len: usize,
    pub(crate) nodes: usize,
    pub(crate) nesting: usize,
    pub(crate) weight: u64,
}

/// Returns what the term that the bytes encode holds, or `None` if they are no term that nests at most 128 deep (Part 1, section 1.2). The
/// bytes are walked over twice, and the descriptors that items of an array share three times. The call doesn't allocate.
pub fn measures_of(input: &[u8]) -> Option<Measures>
    ensures measured { MatchOption result (IsTerm NESTING input.now → ⊥) (λ m. IsMeasured m.nodes m.nesting input.now) }
    ensures weighed { IfSome result (λ m. (t : Term) → IsSpelling input.now t → m.weight ≡ capped (weight t false)) }
{
    let Ok(len) = len_of_term(input, NESTING, Error::Depth) else {
        return None;
    };
    if len < input.len() {
        return None;
    }
    let term = measure_term(input);
    Some(Measures {
        nodes: term.nodes,
        nesting: term.nesting,
        weight: term.weight,
    })
}

// The term that the input begins with.
#[cycle(measure)]
fn measure_term(input: &[u8]) -> Measured
    requires { Measurable (λ t b. IsSpelling b t) input.now }
    ensures { Begins (λ t b. IsSpelling b t) input.now result.len result.nodes result.nesting result.weight }
{
    let Ok(shared) = read_constructor(input, &mut 0) else {
        unreachable!()
    };
    let data = measure_data(shared.code, &input[shared.len..]);
    Measured {
        len: shared.len + data.len,
        nodes: data.nodes,
        nesting: shared.descriptors + data.nesting,
        weight: data.weight,
    }
}

// The container that a known code announces, and whether its size and count have four bytes.
fn container_at(code: u8) -> Option<(Container, bool)>
    requires known { IsKnown (format code) }
    requires other { code ≡ 0x45 → ⊥ }
    ensures { MatchOption result (IsPrimitive (format code)) (λ k. format code ≡ compound (container_of k.0) (width_of k.1)) }
{
    match code {
        format_code::LIST_8 => Some((Container::List, false)),
        format_code::LIST_32 => Some((Container::List, true)),
        format_code::MAP_8 => Some((Container::Map, false)),
        format_code::MAP_32 => Some((Container::Map, true)),
        format_code::ARRAY_8 => Some((Container::Array, false)),
        format_code::ARRAY_32 => Some((Container::Array, true)),
        _ => None,
    }
}

// The data under a code.
#[cycle(measure)]
fn measure_data(code: u8, input: &[u8]) -> Measured
    requires known { IsKnown (format code) }
    requires begins { Measurable (λ t b. IsDataOf t [] code b) input.now }
    ensures { Begins (λ t b. IsDataOf t [] code b) input.now result.len result.nodes result.nesting result.weight }
{
    if code == format_code::LIST_0 {
        return Measured {
            len: 0,
            nodes: 1,
            nesting: 1,
            weight: 1,
        };
    }
    if let Some((container, wide)) = container_at(code) {
        return measure_container(input, wide, container);
    }
    let Ok(len) = primitive_len(code, input) else {
        unreachable!()
    };
    Measured {
        len,
        nodes: 1,
        nesting: 0,
        weight: 1,
    }
}

// The data of a list, map or array.
#[cycle(measure)]
fn measure_container(input: &[u8], wide: bool, container: Container) -> Measured
    requires { (c : ℕ) × (format c ≡ compound (container_of container) (width_of wide)) × Measurable (λ t b. IsDataOf t [] c b) input.now }
    ensures { (c : ℕ) → format c ≡ compound (container_of container) (width_of wide)
        → Begins (λ t b. IsDataOf t [] c b) input.now result.len result.nodes result.nesting result.weight }
{
    let Ok(parts) = read_content(input, wide, container) else {
        unreachable!()
    };
    let items = measure_content(parts.items, parts.count, container);
    Measured {
        len: parts.len,
        nodes: 1 + items.nodes,
        nesting: items.nesting,
        weight: items.weight.saturating_add(1),
    }
}

// The content of a list, map or array, and how deep the whole nests.
#[cycle(measure)]
fn measure_content(content: &[u8], count: usize, container: Container) -> Measures
    requires { AllMeasurable (contents (container_of container)) (content_nest (container_of container)) count content.now }
    ensures { AllMeasured (contents (container_of container)) (content_nest (container_of container)) (is_sharing (container_of container))
        count content.now result.nodes result.nesting result.weight }
{
    match container {
        Container::Array => measure_elements(content, count),
        Container::List | Container::Map => {
            let items = measure_items(content, count);
            Measures {
                nodes: items.nodes,
                nesting: 1 + items.nesting,
                weight: items.weight,
            }
        }
    }
}

// So many terms.
#[cycle(measure)]
fn measure_items(content: &[u8], count: usize) -> Measures
    requires { AllMeasurable AreItemsOf nests count content.now }
    ensures { AllMeasured AreItemsOf nests false count content.now result.nodes result.nesting result.weight }
{
    let mut len = 0;
    let mut nodes = 0;
    let mut nesting = 0;
    let mut weight: u64 = 0;
    for done in 0..count {
        let item = measure_term(&content[len..]);
        len += item.len;
        nodes += item.nodes;
        nesting = nesting.max(item.nesting);
        weight = weight.saturating_add(item.weight);
    }
    Measures {
        nodes,
        nesting,
        weight,
    }
}

// The data of so many items under one code.
#[cycle(measure)]
fn measure_shared(content: &[u8], code: u8, count: usize) -> Measures
    requires known { IsKnown (format code) }
    requires items { AllMeasurable (λ ts b. AreSharedDataOf ts [] code b) nests count content.now }
    ensures { AllMeasured (λ ts b. AreSharedDataOf ts [] code b) nests false count content.now
        result.nodes result.nesting result.weight }
{
    let mut len = 0;
    let mut nodes = 0;
    let mut nesting = 0;
    let mut weight: u64 = 0;
    for done in 0..count {
        let item = measure_data(code, &content[len..]);
        len += item.len;
        nodes += item.nodes;
        nesting = nesting.max(item.nesting);
        weight = weight.saturating_add(item.weight);
    }
    Measures {
        nodes,
        nesting,
        weight,
    }
}

// How many levels an array of such items is above their bare data: it counts if they are no bare primitives, and so does each descriptor.
fn levels_of(shared: &Constructor) -> usize
    requires { shared.now.descriptors ≤ 128 }
    ensures { result ≡ levels_of shared.now.descriptors shared.now.code }
{
    shared.descriptors + usize::from(shared.descriptors > 0 || is_compound(shared.code))
}

// The constructor and the items of an array.
#[cycle(measure)]
fn measure_elements(content: &[u8], count: usize) -> Measures
    requires { AllMeasurable AreElementsOf array_nest count content.now }
    ensures { AllMeasured AreElementsOf array_nest true count content.now result.nodes result.nesting result.weight }
{
    if count == 0 {
        return Measures {
            nodes: 0,
            nesting: 0,
            weight: 0,
        };
    }
    let Ok(shared) = read_constructor(content, &mut 0) else {
        unreachable!()
    };
    let items = measure_shared(&content[shared.len..], shared.code, count);
    let shares = shares_of(&content[..shared.len]).saturating_mul(count as u64);
    Measures {
        nodes: items.nodes,
        nesting: levels_of(&shared) + items.nesting,
        weight: items.weight.saturating_add(shares),
    }
}
