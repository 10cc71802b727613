//! Paths in small values. The bytes are written by the tables of Part 1, sections 1.2 and 1.6.
use amqp_paths::{ContainerKind, Node, Piece, path_of};

fn node(at: usize, piece: Piece) -> Node {
    Node { at, piece }
}

fn item(at: usize, container: ContainerKind, count: usize, index: usize) -> Node {
    let piece = Piece::Item {
        container,
        count,
        index,
    };
    node(at, piece)
}

fn end(at: usize, container: ContainerKind, count: usize) -> Node {
    node(at, Piece::End { container, count })
}

// Whether the path to the place is these nodes.
fn leads(input: &[u8], at: usize, nodes: &[Node]) -> bool {
    let mut path = path_of(input, at);
    for node in nodes {
        if path.next() != Some(*node) {
            return false;
        }
    }
    path.next().is_none()
}

#[test]
fn lists_and_maps(rt: HostRuntime) {
    let value = node(0, Piece::Value);
    // a list of the uint 1 and a map of the key "x" and the list of null
    let input = [
        0xc0, 0x0d, 2, 0x52, 1, 0xc1, 8, 2, 0xa1, 1, b'x', 0xc0, 2, 1, 0x40,
    ];
    let map = item(5, ContainerKind::List, 2, 1);
    let list = item(11, ContainerKind::Map, 2, 1);
    let null = item(14, ContainerKind::List, 1, 0);
    assert!(rt; leads(&input, 0, &[value]));
    assert!(rt; leads(&input, 4, &[value, item(3, ContainerKind::List, 2, 0)]));
    assert!(rt; leads(&input, 5, &[value, map]));
    assert!(rt; leads(&input, 8, &[value, map, item(8, ContainerKind::Map, 2, 0)]));
    assert!(rt; leads(&input, 11, &[value, map, list]));
    assert!(rt; leads(&input, 14, &[value, map, list, null]));
    assert!(rt; leads(&input, 15, &[value, end(15, ContainerKind::List, 2)]));
    // no input, a list without items, and bytes that are left in a list
    assert!(rt; leads(&[], 0, &[value]));
    assert!(rt; leads(&[0x45], 1, &[value, end(1, ContainerKind::List, 0)]));
    assert!(rt;
        leads(
            &[0xc0, 4, 1, 0x40, 7, 7],
            4,
            &[value, end(4, ContainerKind::List, 1)]
        )
    );
}

#[test]
fn cut_and_described(rt: HostRuntime) {
    let value = node(0, Piece::Value);
    // a list of two items that is cut in the second
    let input = [0xc0, 9, 2, 0x40, 0xa1, 5];
    assert!(rt; leads(&input, 6, &[value, item(4, ContainerKind::List, 2, 1)]));
    // a list of two items, of which there is one
    let input = [0xc0, 2, 2, 0x40];
    assert!(rt; leads(&input, 4, &[value, item(4, ContainerKind::List, 2, 1)]));
    // a list of the code 3, whose second item is the list of the code 0x24 and an unknown code
    let input = [
        0, 0x53, 3, 0xc0, 9, 2, 0x41, 0, 0x53, 0x24, 0xc0, 2, 1, 0x3f,
    ];
    let list = node(3, Piece::Value);
    let second = item(7, ContainerKind::List, 2, 1);
    let inner = node(10, Piece::Value);
    assert!(rt; leads(&input, 2, &[value, node(1, Piece::Descriptor)]));
    assert!(rt;
        leads(
            &input,
            8,
            &[value, list, second, node(8, Piece::Descriptor)]
        )
    );
    let unknown = item(13, ContainerKind::List, 1, 0);
    assert!(rt; leads(&input, 13, &[value, list, second, inner, unknown]));
    // a descriptor that is a list
    let input = [0, 0xc0, 2, 1, 0x40, 0x40];
    let in_descriptor = item(4, ContainerKind::List, 1, 0);
    assert!(rt;
        leads(
            &input,
            4,
            &[value, node(1, Piece::Descriptor), in_descriptor]
        )
    );
}

fn element(at: usize, descriptors: usize, code: u8, index: usize) -> Node {
    let piece = Piece::Element {
        descriptors,
        code,
        count: 3,
        index,
    };
    node(at, piece)
}

#[test]
fn arrays(rt: HostRuntime) {
    let value = node(0, Piece::Value);
    // the array of the symbols "a", "bc" and "d", each described by the code 5
    let input = [
        0xe0, 0x0c, 3, 0, 0x53, 5, 0xa3, 1, b'a', 2, b'b', b'c', 1, b'd',
    ];
    let array = node(3, Piece::ArrayContent { count: 3 });
    let constructor = node(3, Piece::ElementConstructor { descriptors: 0 });
    let code = node(6, Piece::ElementConstructor { descriptors: 1 });
    assert!(rt; leads(&input, 2, &[value]));
    assert!(rt; leads(&input, 3, &[value, array, constructor]));
    assert!(rt;
        leads(
            &input,
            5,
            &[value, array, constructor, node(4, Piece::Descriptor)]
        )
    );
    assert!(rt; leads(&input, 6, &[value, array, code]));
    assert!(rt;
        leads(
            &input,
            7,
            &[value, array, element(7, 1, 0xa3, 0), element(7, 0, 0xa3, 0)]
        )
    );
    assert!(rt;
        leads(
            &input,
            13,
            &[
                value,
                array,
                element(12, 1, 0xa3, 2),
                element(12, 0, 0xa3, 2)
            ]
        )
    );
    assert!(rt;
        leads(
            &input,
            14,
            &[value, array, end(14, ContainerKind::Array, 3)]
        )
    );
    // the array of three lists, of which the third has an unknown code
    let input = [0xe0, 0x0b, 3, 0xc0, 2, 1, 0x40, 1, 0, 2, 1, 0x3f];
    let array = node(3, Piece::ArrayContent { count: 3 });
    let third = element(9, 0, 0xc0, 2);
    assert!(rt;
        leads(
            &input,
            11,
            &[value, array, third, item(11, ContainerKind::List, 1, 0)]
        )
    );
}
