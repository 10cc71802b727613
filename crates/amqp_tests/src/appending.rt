//! Canonical text appended to a buffer or written into memory, and its length.
use amqp_test_helpers::is_refused;
use fe2o3_amqp_types::codec::{
    Canonical, Error, Limits, Serialize, append_to_vec, canonical_into, encoded_len, to_vec,
    write_into,
};
use fe2o3_amqp_types::messaging::{Accepted, DeliveryState, Received};
use fe2o3_amqp_types::primitives::Symbol;
use std::alloc::Global;
use std::test::Fail;

fn received() -> Received {
    Received {
        section_number: 9,
        section_offset: 13,
    }
}

// The value, appended to `aa bb`, is answered so, and makes this of the buffer.
fn check_buffer<T: Serialize>(
    value: &T,
    wanted: Result<usize, Error>,
    digits: &str,
    alloc: Global,
) -> Result<(), Fail> {
    let mut buffer = hex::decode(alloc, "aabb")?;
    let outcome = append_to_vec(value, &mut buffer, alloc);
    let found = hex::encode(alloc, &buffer)?;
    if outcome != wanted || found.as_str() != digits {
        return Err(Fail::new(format_args!("{found} stands for {digits}")));
    }
    Ok(())
}

// The value's text of so many bytes stands behind `aa bb`.
fn check_appended<T: Serialize + Drop>(
    value: T,
    len: usize,
    digits: &str,
    alloc: Global,
) -> Result<(), Fail> {
    check_buffer(&value, Ok(len), digits, alloc)
}

#[test]
fn text_is_appended(rt: HostRuntime) -> Result<(), Fail> {
    let alloc = rt.alloc();
    check_appended(Accepted {}, 4, "aabb00532445", alloc)?;
    let state = DeliveryState::from(received());
    check_appended(state, 10, "aabb005323c005025209530d", alloc)?;
    check_appended(Some(true), 1, "aabb41", alloc)?;
    let none: Option<Box<u32>> = None;
    check_appended(&none, 1, "aabb40", alloc)
}

// The value, written into six bytes `aa`, is answered with this length, and makes these digits of them.
fn check_memory<T: Serialize + Drop>(
    value: T,
    len: usize,
    digits: &str,
    alloc: Global,
) -> Result<(), Fail> {
    let mut memory = [0xaa; 6];
    let outcome = write_into(&value, &mut memory, alloc);
    let found = hex::encode(alloc, &memory)?;
    if outcome != Ok(len) || found.as_str() != digits {
        return Err(Fail::new(format_args!("{found} stands for {digits}")));
    }
    Ok(())
}

#[test]
fn text_is_written_into_memory(rt: HostRuntime) -> Result<(), Fail> {
    let alloc = rt.alloc();
    check_memory(Accepted {}, 4, "00532445aaaa", alloc)?;
    check_memory(DeliveryState::from(received()), 10, "aaaaaaaaaaaa", alloc)
}

// The type's value at the start of the bytes, rewritten into six bytes `aa`, is answered with these lengths, and makes these digits of them.
fn check_rewritten<T: Canonical>(
    input: &str,
    wanted: Result<(usize, usize), Error>,
    digits: &str,
    alloc: Global,
) -> Result<(), Fail> {
    let mut memory = [0xaa; 6];
    let input = hex::decode(alloc, input)?;
    let outcome = canonical_into::<T>(&input, &mut memory, &Limits::greatest(), alloc);
    let found = hex::encode(alloc, &memory)?;
    if outcome != wanted || found.as_str() != digits {
        return Err(Fail::new(format_args!("{found} stands for {digits}")));
    }
    Ok(())
}

#[test]
fn text_is_rewritten_into_memory(rt: HostRuntime) -> Result<(), Fail> {
    let alloc = rt.alloc();
    check_rewritten::<Accepted>("005324c00000", Ok((4, 6)), "00532445aaaa", alloc)?;
    check_rewritten::<Received>(
        "005323c005025209530dff",
        Ok((10, 10)),
        "aaaaaaaaaaaa",
        alloc,
    )?;
    check_rewritten::<Accepted>(
        "005325c00000",
        Err(Error::WrongDescriptor),
        "aaaaaaaaaaaa",
        alloc,
    )
}

// Whether each call that measures or writes the value refuses it.
fn is_never_written<T: Serialize>(value: &T, error: Error, alloc: Global) -> bool {
    is_refused(encoded_len(value, alloc), error) && is_refused(to_vec(value, alloc), error)
}

#[test]
fn a_refusal_leaves_the_buffer(rt: HostRuntime) -> Result<(), Fail> {
    let alloc = rt.alloc();
    let symbol = Symbol::from_str_in("é", alloc)?;
    check_buffer(&symbol, Err(Error::NonAscii), "aabb", alloc)?;
    assert!(rt; is_never_written(&symbol, Error::NonAscii, alloc));
    Ok(())
}

#[test]
fn lengths(rt: HostRuntime) -> Result<(), Fail> {
    let alloc = rt.alloc();
    assert_eq!(rt; encoded_len(&Accepted {}, alloc)?, 4);
    assert_eq!(rt; encoded_len(&received(), alloc)?, 10);
    assert_eq!(rt; encoded_len(&256u32, alloc)?, 5);
    assert_eq!(rt; encoded_len(&255u64, alloc)?, 2);
    Ok(())
}
