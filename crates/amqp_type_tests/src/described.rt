//! Described values: what they are read as, and arrays and lists of them that are written or not.
use amqp_codec::{Descriptor, Error, Symbol};
use amqp_containers::Array;
use amqp_described::Described;
use amqp_read_write::from_slice;
use amqp_test_helpers::{check_made, is_made, refusal};
use std::alloc::Global;
use std::test::Fail;

fn named(name: &str, value: u32, alloc: Global) -> Result<Described<u32>, Error> {
    Ok(Described {
        descriptor: Descriptor::Name(Symbol::from_str_in(name, alloc)?),
        value,
    })
}

fn five(value: bool) -> Described<bool> {
    Described {
        descriptor: Descriptor::Code(5),
        value,
    }
}

// Whether a copy of what is true is equal to it, and less once it is false.
fn is_copied_and_changed(read: Described<bool>) -> Result<bool, Error> {
    let mut copy = read.clone()?;
    let was_equal = copy == read;
    copy.value = false;
    Ok(was_equal && copy < read)
}

#[test]
fn one_value(rt: HostRuntime) -> Result<(), Fail> {
    let alloc = rt.alloc();
    let read = from_slice(&[0x00, 0x53, 0x05, 0x56, 0x01], alloc);
    assert!(rt; is_made(read, five(true))?);
    assert!(rt; is_copied_and_changed(five(true))?);
    check_made(Ok(five(false)), "00530542", alloc)?;
    assert_eq!(rt;
        refusal(named("é", 7, alloc)?, alloc),
        Some(Error::NonAscii)
    );
    Ok(())
}

fn array(items: &[(&str, u32)], alloc: Global) -> Result<Array<Described<u32>>, Error> {
    let mut array = Array::from(Vec::new(alloc));
    for (name, value) in items {
        array.push(named(name, *value, alloc)?)?;
    }
    Ok(array)
}

#[test]
fn items_of_other_descriptors(rt: HostRuntime) -> Result<(), Fail> {
    let alloc = rt.alloc();
    let same = &[("a", 7), ("a", 8)];
    assert_eq!(rt; refusal(array(same, alloc)?, alloc), None);
    let other = &[("a", 7), ("a", 8), ("b", 9)];
    assert_eq!(rt;
        refusal(array(other, alloc)?, alloc),
        Some(Error::MixedArray)
    );
    assert_eq!(rt; refusal(array(other, alloc)?.into_inner(), alloc), None);
    Ok(())
}
