//! Tests of each call, once without an error and once with one.
use crate::exports::{
    amqp_c_canonical, amqp_c_error_name, amqp_c_field, amqp_c_field_name, amqp_c_greatest,
    amqp_c_next, amqp_c_path, amqp_c_read, amqp_c_term_len, amqp_c_type, amqp_c_type_of_descriptor,
};
use crate::limits::GivenLimits;
use crate::outcome::Outcome;
use crate::path::PathNode;
use amqp_nodes::Node;
use std::test::Fail;

// A `Received` of section 9 and offset 13, in wider codes than it needs, and a byte after it.
const RECEIVED: [u8; 14] = [
    0x00, 0x53, 0x23, 0xc0, 0x08, 0x02, 0x70, 0x00, 0x00, 0x00, 0x09, 0x53, 0x0d, 0xff,
];

// Its canonical text.
const TEXT: [u8; 10] = [0x00, 0x53, 0x23, 0xc0, 0x05, 0x02, 0x52, 0x09, 0x53, 0x0d];

fn greatest() -> GivenLimits {
    let mut limits = GivenLimits {
        nesting: 0,
        bytes: 0,
        items: 0,
        hash_seed: 0,
    };
    amqp_c_greatest(&mut limits);
    limits
}

// An outcome that isn't this one, without a place, fails the test.
fn check(outcome: Outcome, number: u32, detail: u32) -> Result<(), Fail> {
    check_place(outcome, number, detail, 0)
}

fn check_place(outcome: Outcome, number: u32, detail: u32, at: u64) -> Result<(), Fail> {
    let wanted = Outcome { number, detail, at };
    if outcome != wanted {
        return Err(Fail::new(format_args!("{outcome:?} stands for {wanted:?}")));
    }
    Ok(())
}

#[test]
fn values_are_read(rt: HostRuntime) -> Result<(), Fail> {
    let received = amqp_c_type(b"received");
    let mut taken = 7;
    let outcome = amqp_c_read(received, &RECEIVED, &greatest(), &mut taken, rt.alloc());
    check(outcome, 0, 0)?;
    assert_eq!(rt; taken, 13);
    let accepted = amqp_c_type(b"accepted");
    // The descriptor is that of another type.
    let outcome = amqp_c_read(accepted, &RECEIVED, &greatest(), &mut taken, rt.alloc());
    check_place(outcome, 9, 0, 1)?;
    // The offset is cut.
    let outcome = amqp_c_read(
        received,
        &RECEIVED[..12],
        &greatest(),
        &mut taken,
        rt.alloc(),
    );
    check_place(outcome, 1, 0, 11)?;
    let outcome = amqp_c_read(received, &[0x99], &greatest(), &mut taken, rt.alloc());
    check(outcome, 2, 0x99)?;
    let none = amqp_c_type(b"receive");
    assert_eq!(rt; none, 0);
    let outcome = amqp_c_read(none, &RECEIVED, &greatest(), &mut taken, rt.alloc());
    check(outcome, 1001, 0)?;
    let deep = GivenLimits {
        nesting: 129,
        bytes: 0,
        items: 0,
        hash_seed: 0,
    };
    let outcome = amqp_c_read(received, &RECEIVED, &deep, &mut taken, rt.alloc());
    check(outcome, 1002, 0)?;
    assert_eq!(rt; taken, 13);
    Ok(())
}

#[test]
fn values_are_rewritten(rt: HostRuntime) -> Result<(), Fail> {
    let received = amqp_c_type(b"received");
    let limits = greatest();
    let mut out = [0xaa; 11];
    let mut written = 0;
    let mut taken = 0;
    let outcome = amqp_c_canonical(
        received,
        &RECEIVED,
        &limits,
        &mut out[..9],
        &mut written,
        &mut taken,
        rt.alloc(),
    );
    check(outcome, 1000, 0)?;
    assert_eq!(rt; written, 10);
    assert_eq!(rt; out, [0xaa; 11]);
    let outcome = amqp_c_canonical(
        received,
        &RECEIVED,
        &limits,
        &mut out,
        &mut written,
        &mut taken,
        rt.alloc(),
    );
    check(outcome, 0, 0)?;
    assert_eq!(rt; written, 10);
    assert_eq!(rt; taken, 13);
    assert!(rt; out.as_slice().starts_with(&TEXT));
    assert_eq!(rt; out[10], 0xaa);
    Ok(())
}

#[test]
fn what_is_cut_is_not_rewritten(rt: HostRuntime) -> Result<(), Fail> {
    let received = amqp_c_type(b"received");
    let mut out = [0xaa; 11];
    let mut written = 0;
    let mut taken = 0;
    let outcome = amqp_c_canonical(
        received,
        &RECEIVED[..12],
        &greatest(),
        &mut out,
        &mut written,
        &mut taken,
        rt.alloc(),
    );
    check_place(outcome, 1, 0, 11)?;
    assert_eq!(rt; out, [0xaa; 11]);
    Ok(())
}

#[test]
fn lengths_of_terms(rt: HostRuntime) -> Result<(), Fail> {
    let mut taken = 0;
    let outcome = amqp_c_term_len(&RECEIVED, &mut taken);
    check(outcome, 0, 0)?;
    assert_eq!(rt; taken, 13);
    check(amqp_c_term_len(&[], &mut taken), 1, 0)?;
    check(amqp_c_term_len(&[0x72, 0], &mut taken), 3, 0x72)?;
    // A list of a null and a string that is not UTF-8.
    let outcome = amqp_c_term_len(&[0xc0, 0x05, 2, 0x40, 0xa1, 1, 0xff], &mut taken);
    check_place(outcome, 14, 0, 4)?;
    assert_eq!(rt; taken, 13);
    Ok(())
}

#[test]
fn names_of_errors(rt: HostRuntime) -> Result<(), Fail> {
    let mut out = [0; 5];
    assert_eq!(rt; amqp_c_error_name(31, &mut out), 5);
    assert_eq!(rt; out, *b"Limit");
    assert_eq!(rt; amqp_c_error_name(2, &mut out), 11);
    assert_eq!(rt; amqp_c_error_name(1000, &mut out), 6);
    assert_eq!(rt; amqp_c_error_name(0, &mut out), 0);
    assert_eq!(rt; amqp_c_error_name(32, &mut out), 0);
    assert_eq!(rt; out, *b"Limit");
    Ok(())
}

// (the codes and the fields of types, Part 2, section 2.7, and Part 3, section 3.2)
#[test]
fn descriptors_and_names_of_fields(rt: HostRuntime) -> Result<(), Fail> {
    let attach = amqp_c_type(b"attach");
    assert_eq!(rt; amqp_c_type_of_descriptor(0x12), attach);
    assert_eq!(rt; amqp_c_type_of_descriptor(0x78), amqp_c_type(b"footer"));
    assert_eq!(rt; amqp_c_type_of_descriptor(0x19), 0);
    let mut out = [0; 6];
    assert_eq!(rt; amqp_c_field_name(attach, 5, &mut out), 6);
    assert_eq!(rt; out, *b"source");
    assert_eq!(rt; amqp_c_field_name(attach, 3, &mut out), 15);
    assert_eq!(rt; amqp_c_field_name(attach, 14, &mut out), 0);
    assert_eq!(rt; amqp_c_field_name(amqp_c_type(b"footer"), 0, &mut out), 0);
    assert_eq!(rt; amqp_c_field_name(0, 0, &mut out), 0);
    assert_eq!(rt; out, *b"source");
    Ok(())
}

// A node of zeros.
const UNSET: PathNode = PathNode {
    at: 0,
    piece: 0,
    container: 0,
    count: 0,
    index: 0,
    descriptors: 0,
    type_number: 0,
    code: 0,
};

// The nodes of a path, of which only as many are written as there is room for.
fn check_path(input: &[u8], at: usize, wanted: &[PathNode]) -> Result<(), Fail> {
    let mut nodes = [UNSET; 8];
    for room in 0..8 {
        nodes = [UNSET; 8];
        let count = amqp_c_path(input, at, &mut nodes[..room]);
        let written = if room < count { room } else { count };
        let is_right = count == wanted.len()
            && nodes[..written] == wanted[..written]
            && nodes[written..].iter().all(|node| *node == UNSET);
        if !is_right {
            return Err(Fail::new(format_args!("{count} nodes: {nodes:?}")));
        }
    }
    Ok(())
}

// (a field of a composite, Part 1, section 1.4, and its end; the codes of Part 3, sections 3.4.3 and 3.5.3)
#[test]
fn paths_to_fields(_rt: HostRuntime) -> Result<(), Fail> {
    let value = PathNode { piece: 1, ..UNSET };
    let list = PathNode {
        at: 3,
        piece: 1,
        type_number: amqp_c_type(b"received"),
        ..UNSET
    };
    let offset = PathNode {
        at: 11,
        piece: 3,
        container: 1,
        count: 2,
        index: 1,
        ..list
    };
    let end = PathNode {
        at: 13,
        piece: 7,
        container: 1,
        count: 2,
        ..list
    };
    check_path(&RECEIVED, 0, &[value])?;
    check_path(&RECEIVED, 12, &[value, list, offset])?;
    check_path(&RECEIVED, 13, &[value, list, end])?;
    let descriptor = PathNode {
        at: 1,
        piece: 2,
        ..UNSET
    };
    check_path(&RECEIVED, 1, &[value, descriptor])
}

// (an array of two described strings, Part 1, section 1.2.4)
#[test]
fn paths_into_arrays(_rt: HostRuntime) -> Result<(), Fail> {
    let bytes = [
        0xe0, 0x09, 0x02, 0x00, 0x53, 0x01, 0xa1, 0x01, 0x61, 0x01, 0x62,
    ];
    let value = PathNode { piece: 1, ..UNSET };
    let content = PathNode {
        at: 3,
        piece: 4,
        container: 3,
        count: 2,
        ..UNSET
    };
    let described = PathNode {
        at: 9,
        piece: 6,
        index: 1,
        descriptors: 1,
        code: 0xa1,
        ..content
    };
    let item = PathNode {
        descriptors: 0,
        ..described
    };
    check_path(&bytes, 10, &[value, content, described, item])?;
    let code = PathNode {
        at: 6,
        piece: 5,
        container: 3,
        descriptors: 1,
        ..UNSET
    };
    check_path(&bytes, 6, &[value, content, code])
}

// What is around a whole term.
const NONE: Node = Node::NOTHING;

// (a described list, Part 1, sections 1.2.3 and 1.3)
#[test]
fn nodes_of_a_described_list(_rt: HostRuntime) -> Result<(), Fail> {
    let described = Node {
        kind: 20,
        count: 2,
        start: 1,
        end: 10,
        next: 1,
        ..NONE
    };
    check_node(&TEXT, 0, &NONE, &described)?;
    let descriptor = Node {
        kind: 6,
        depth: 1,
        code: 0x53,
        start: 2,
        end: 3,
        next: 3,
        ..NONE
    };
    check_node(&TEXT, 1, &described, &descriptor)?;
    let list = Node {
        kind: 21,
        depth: 1,
        code: 0xc0,
        count: 2,
        start: 6,
        end: 10,
        next: 6,
        ..NONE
    };
    check_node(&TEXT, 3, &described, &list)?;
    let number = Node {
        kind: 5,
        depth: 2,
        code: 0x52,
        start: 7,
        end: 8,
        next: 8,
        ..NONE
    };
    check_node(&TEXT, 6, &list, &number)
}

// (fields of a composite, Part 1, section 1.4)
#[test]
fn fields_by_number(_rt: HostRuntime) -> Result<(), Fail> {
    // A list of null and a ubyte, under a descriptor.
    let bytes = [0x00, 0x53, 0x24, 0xc0, 0x04, 0x02, 0x40, 0x50, 0x07];
    let mut composite = NONE;
    check(amqp_c_next(&bytes, 0, &mut composite), 0, 0)?;
    let number = Node {
        kind: 3,
        depth: 2,
        code: 0x50,
        start: 8,
        end: 9,
        next: 9,
        ..NONE
    };
    check_field(&bytes, &composite, 0, &NONE)?;
    check_field(&bytes, &composite, 1, &number)?;
    check_field(&bytes, &composite, 2, &NONE)?;
    // The ubyte has no fields: `WrongType`.
    let mut field = composite;
    check(amqp_c_field(&bytes, &number, 0, &mut field), 27, 0x50)?;
    is_node(&field, &composite)
}

// The node of the field of a composite.
fn check_field(input: &[u8], composite: &Node, index: usize, wanted: &Node) -> Result<(), Fail> {
    let mut field = *composite;
    check(amqp_c_field(input, composite, index, &mut field), 0, 0)?;
    is_node(&field, wanted)
}

// (an array of two described strings, Part 1, section 1.2.4)
#[test]
fn nodes_of_an_array(_rt: HostRuntime) -> Result<(), Fail> {
    let bytes = [
        0xe0, 0x09, 0x02, 0x00, 0x53, 0x01, 0xa1, 0x01, 0x61, 0x01, 0x62,
    ];
    let array = Node {
        kind: 23,
        code: 0xe0,
        item_code: 0xa1,
        count: 2,
        start: 3,
        end: 11,
        next: 7,
        ..NONE
    };
    check_node(&bytes, 0, &NONE, &array)?;
    let item = Node {
        kind: 18,
        depth: 1,
        code: 0xa1,
        start: 10,
        end: 11,
        next: 11,
        ..NONE
    };
    check_node(&bytes, 9, &array, &item)?;
    let mut node = array;
    check(amqp_c_next(&bytes, 11, &mut node), 1, 0)?;
    check(amqp_c_next(&bytes, 12, &mut node), 1, 0)
}

// The node at the place, in the node around it.
fn check_node(input: &[u8], at: usize, around: &Node, wanted: &Node) -> Result<(), Fail> {
    let mut node = *around;
    check(amqp_c_next(input, at, &mut node), 0, 0)?;
    is_node(&node, wanted)
}

fn is_node(node: &Node, wanted: &Node) -> Result<(), Fail> {
    if node != wanted {
        return Err(Fail::new(format_args!("{node:?} stands for {wanted:?}")));
    }
    Ok(())
}
