//! The calls.
ghost use Rattle.std.specs.Prelude.{◌≡◌, ◌≤◌, ◌+◌, length};
ghost use Rattle.amqp_c.specs.Limits.{greatest_given, peers_given};
ghost use Rattle.amqp_c.specs.Errors.{TellsName};
ghost use Rattle.amqp_c.specs.Descriptors.{IsTypeOfCode, TellsFieldName};
ghost use Rattle.amqp_c.specs.Outcomes.{PlacesFault};
ghost use Rattle.amqp_c.specs.Paths.{TellsPath};
ghost use Rattle.amqp_c.specs.Terms.{TellsLength, TellsPlace};
ghost use Rattle.amqp_c.specs.Nodes.{TellsNode};
ghost use Rattle.amqp_c.specs.Fields.{TellsField};
ghost use Rattle.amqp_c.specs.Rewriting.{IsNumberOf, Reads, Rewrites, Written};

use crate::errors::name_of_number;
use crate::field_names::field_name;
use crate::limits::GivenLimits;
use crate::outcome::{DONE, FULL, Outcome};
use crate::path::{PathNode, tell_path};
use crate::rewriting::{canonical_into, value_len};
use crate::room::put;
use amqp_catalogue::TypeName;
use amqp_descriptors::type_of_code;
use amqp_nodes::{Node, field_node, next_node};
use fe2o3_amqp_types::codec::term_len_located;
use std::alloc::Global;

/// Returns the number of the type with this name in the program `amqp_canon`, or 0 if none has it.
#[unsafe(no_mangle)]
pub extern "C" fn amqp_c_type(name: &[u8]) -> u32
    ensures { IsNumberOf name.now result }
{
    match TypeName::from_bytes(name) {
        Some(named) => named.number(),
        None => 0,
    }
}

/// Returns the number of the type whose values have the descriptor with this code, or 0 if there is none. Sums and messages have none, since
/// their values have several.
#[unsafe(no_mangle)]
pub extern "C" fn amqp_c_type_of_descriptor(code: u64) -> u32
    ensures { IsTypeOfCode code result }
{
    let Some(named) = type_of_code(code) else {
        return 0;
    };
    named.number()
}

/// Writes the standard's name of the field with this number, counted from 0, of the numbered type to `out`, if there is room for it.
/// Returns the name's length in bytes, or 0 if the type has no such field.
#[unsafe(no_mangle)]
pub extern "C" fn amqp_c_field_name(number: u32, index: usize, out: &mut [u8]) -> usize
    ensures { TellsFieldName number index result out.old out.new }
{
    let Some(name) = field_name(number, index) else {
        return 0;
    };
    let bytes = name.as_bytes();
    put(bytes, out);
    bytes.len()
}

/// Reads the value of the numbered type at the start of the input, within the limits, and writes its length to `taken`. An error has the
/// place of the fault.
#[unsafe(no_mangle)]
pub extern "C" fn amqp_c_read(
    number: u32,
    input: &[u8],
    limits: &GivenLimits,
    taken: &mut usize,
    alloc: Global,
) -> Outcome
    ensures told { Reads number limits.now input.now taken.old taken.new result }
    ensures within { result.at ≤ length input.now }
    ensures fault { PlacesFault result }
{
    match value_len(number, input, limits, alloc) {
        Ok(len) => {
            *taken = len;
            DONE
        }
        Err(failure) => failure.outcome(),
    }
}

/// Writes the canonical text of the value of the numbered type at the start of the input, within the limits, and the value's length to
/// `taken`. If there is no room for the text, its length is written to `written`, and `out` is unchanged. An error of reading has the place
/// of the fault.
#[unsafe(no_mangle)]
pub extern "C" fn amqp_c_canonical(
    number: u32,
    input: &[u8],
    limits: &GivenLimits,
    out: &mut [u8],
    written: &mut usize,
    taken: &mut usize,
    alloc: Global,
) -> Outcome
    ensures told { Rewrites number limits.now input.now (record { room = out.old; written = written.old; taken = taken.old })
        (record { room = out.new; written = written.new; taken = taken.new }) result }
    ensures within { result.at ≤ length input.now }
    ensures fault { PlacesFault result }
{
    match canonical_into(number, input, out, limits, alloc) {
        Ok((len, value_len)) => {
            *written = len;
            *taken = value_len;
            if len <= out.len() { DONE } else { FULL }
        }
        Err(failure) => failure.outcome(),
    }
}

/// Writes the length of the term at the start of the input, of any type, to `taken` (Part 1, section 1.2). An error has the place of the
/// fault.
#[unsafe(no_mangle)]
pub extern "C" fn amqp_c_term_len(input: &[u8], taken: &mut usize) -> Outcome
    ensures told { TellsLength input.now taken.old taken.new result }
    ensures within { result.at ≤ length input.now }
    ensures fault { PlacesFault result }
    ensures stands { TellsPlace input.now result }
{
    match term_len_located(input) {
        Ok(len) => {
            *taken = len;
            DONE
        }
        Err(refusal) => Outcome::of_refusal(refusal),
    }
}

/// Writes the nodes of the path to the offset `at` in the encoded value at the start of the input, from the outside in, to `nodes`, as many
/// as there is room for (Part 1, sections 1.2 and 1.6). Returns how many nodes the path has.
#[unsafe(no_mangle)]
pub extern "C" fn amqp_c_path(input: &[u8], at: usize, nodes: &mut [PathNode]) -> usize
    ensures told { TellsPath input.now at nodes.old nodes.new result }
    ensures some { 1 ≤ result }
    ensures most { result ≤ at + 1 }
{
    tell_path(input, at, nodes)
}

/// Replaces the enclosing node by the node of a term that begins at the offset. Around a whole term the enclosing node is all zeros.
#[unsafe(no_mangle)]
pub extern "C" fn amqp_c_next(input: &[u8], at: usize, node: &mut Node) -> Outcome
    ensures { TellsNode input.now at node.old node.new result }
{
    match next_node(input, at, node) {
        Ok(next) => {
            *node = next;
            DONE
        }
        Err(error) => Outcome::of_error(error),
    }
}

/// Writes the node of the field with this number, counted from 0, in the composite to `field`. The node of an omitted field is all zeros.
#[unsafe(no_mangle)]
pub extern "C" fn amqp_c_field(
    input: &[u8],
    composite: &Node,
    index: usize,
    field: &mut Node,
) -> Outcome
    ensures { TellsField input.now composite.now index field.old field.new result }
{
    match field_node(input, composite, index) {
        Ok(found) => {
            *field = found.unwrap_or(Node::NOTHING);
            DONE
        }
        Err(error) => Outcome::of_error(error),
    }
}

/// Writes the name of the error that has this number to `out`, if there is room for it. Returns the name's length in bytes, or 0 if no
/// error has the number.
#[unsafe(no_mangle)]
pub extern "C" fn amqp_c_error_name(number: u32, out: &mut [u8]) -> usize
    ensures { TellsName number result out.old out.new }
{
    let Some(name) = name_of_number(number) else {
        return 0;
    };
    let bytes = name.as_bytes();
    put(bytes, out);
    bytes.len()
}

/// Sets the limits to the greatest, under which everything is read that nests at most 128 deep, without a seed.
#[unsafe(no_mangle)]
pub extern "C" fn amqp_c_greatest(limits: &mut GivenLimits)
    ensures { limits.new ≡ greatest_given }
{
    *limits = GivenLimits::greatest();
}

/// Sets the limits to those for input from a peer, of which at most this many bytes are read.
#[unsafe(no_mangle)]
pub extern "C" fn amqp_c_for_peers(limits: &mut GivenLimits, bytes: u64)
    ensures { limits.new ≡ peers_given bytes }
{
    *limits = GivenLimits::for_peers(bytes);
}
