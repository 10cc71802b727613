//! The uses of the library that are in `amqp_uses`.
use amqp_uses::connection::{Fault, Passed, next_performative};
use amqp_uses::{are_of_one_value, next_message, one_byte_on, relay, settled};
use fe2o3_amqp_types::codec::{Error, Limits};
use fe2o3_amqp_types::messaging::{Accepted, Data, Message};
use fe2o3_amqp_types::performatives::Performative;
use std::alloc::Global;
use std::test::Fail;

#[test]
fn one_byte_more(rt: HostRuntime) -> Result<(), Fail> {
    // Section 9 up to byte 255: the uint takes four bytes where one would do, and the ulong one.
    let input: &[u8] = &[0, 0x53, 0x23, 0xc0, 8, 2, 0x70, 0, 0, 0, 9, 0x53, 255];
    let text = one_byte_on(input, rt.alloc())?;
    // The uint is written in one byte, and the ulong, which is 256 now, in eight.
    let want = [
        0, 0x53, 0x23, 0xc0, 12, 2, 0x52, 9, 0x80, 0, 0, 0, 0, 0, 0, 1, 0,
    ];
    assert_eq!(rt; text.as_slice(), want.as_slice());
    // A prefix of the input is refused by name.
    assert_eq!(rt;
        one_byte_on(&input[..9], rt.alloc()).err(),
        Some(Error::Cut)
    );
    Ok(())
}

#[test]
fn relayed(rt: HostRuntime) -> Result<(), Fail> {
    // An empty list that says its size goes on as one that doesn't.
    let input: &[u8] = &[0, 0x53, 0x24, 0xc0, 1, 0];
    let (text, len) = relay::<Accepted>(input, rt.alloc())?;
    assert_eq!(rt; len, 6);
    assert_eq!(rt; text.as_slice(), [0, 0x53, 0x24, 0x45].as_slice());
    Ok(())
}

#[test]
fn settled_or_not(rt: HostRuntime) -> Result<(), Fail> {
    // The handle, three fields that are omitted, and true.
    let input: &[u8] = &[0, 0x53, 0x14, 0xc0, 6, 5, 0x43, 0x40, 0x40, 0x40, 0x41];
    assert_eq!(rt; settled(input, rt.alloc())?, Some(true));
    // The handle alone.
    let input: &[u8] = &[0, 0x53, 0x14, 0xc0, 2, 1, 0x43];
    assert_eq!(rt; settled(input, rt.alloc())?, None);
    // A flow.
    let input: &[u8] = &[0, 0x53, 0x13, 0xc0, 2, 1, 0x43];
    assert_eq!(rt;
        settled(input, rt.alloc()).err(),
        Some(Error::WrongDescriptor)
    );
    Ok(())
}

#[test]
fn entries_compared(rt: HostRuntime) -> Result<(), Fail> {
    assert!(rt; are_of_one_value::<u32>(&[0x52, 1], &[0x52, 1]));
    assert!(rt; !are_of_one_value::<u32>(&[0x52, 1], &[0x43]));
    Ok(())
}

#[test]
fn message_within_limits(rt: HostRuntime) -> Result<(), Fail> {
    // A section of two bytes.
    let input: &[u8] = &[0, 0x53, 0x75, 0xa0, 2, 8, 9];
    let mut reader = input;
    let Some(limits) = Limits::new(1, 7, 1) else {
        panic!(rt; "no limits");
    };
    let message: Message<Data> = next_message(&mut reader, &limits, rt.alloc())?;
    assert_eq!(rt; message.body, Data::from([8, 9].to_vec(rt.alloc())?));
    // One byte less is allowed than the message takes.
    let mut reader = input;
    let Some(limits) = Limits::new(1, 6, 1) else {
        panic!(rt; "no limits");
    };
    assert_eq!(rt;
        next_message::<Data, _>(&mut reader, &limits, rt.alloc()).err(),
        Some(Error::Limit)
    );
    Ok(())
}

// An empty frame on channel 1, one with a close, and one with an end whose list is cut.
const EMPTY: [u8; 8] = [0, 0, 0, 8, 2, 0, 0, 1];

const CLOSE: [u8; 12] = [0, 0, 0, 12, 2, 0, 0, 0, 0, 0x53, 0x18, 0x45];

const CUT_END: [u8; 13] = [0, 0, 0, 13, 2, 0, 0, 0, 0, 0x53, 0x17, 0xc0, 1];

// What is expected of bytes.
#[derive(Clone, Copy)]
enum Wanted {
    Needs(usize),
    Empty(usize),
    Close(usize),
    Fault(usize, &'static str),
}

fn is_passed(input: &[u8], wanted: Wanted, alloc: Global) -> bool {
    let found = next_performative(input, 512, &Limits::for_peers(512), alloc);
    let holds = is_wanted(&found, wanted);
    drop(found);
    holds
}

fn is_wanted(found: &Result<Passed<'_>, Fault>, wanted: Wanted) -> bool {
    match (found, wanted) {
        (Ok(Passed::Needs(count)), Wanted::Needs(other)) => *count == other,
        (Ok(Passed::Empty(len)), Wanted::Empty(other)) => *len == other,
        (Ok(Passed::Performative(body, len)), Wanted::Close(other)) => {
            *len == other && is_close(&body.performative)
        }
        (Err(fault), Wanted::Fault(at, condition)) => {
            fault.at == at && fault.condition == condition
        }
        _ => false,
    }
}

fn is_close(performative: &Performative) -> bool {
    match performative {
        Performative::Close(_) => true,
        _ => false,
    }
}

#[test]
fn frames_of_a_connection(rt: HostRuntime) -> Result<(), Fail> {
    assert!(rt; is_passed(&EMPTY[..3], Wanted::Needs(5), rt.alloc()));
    assert!(rt; is_passed(&EMPTY, Wanted::Empty(8), rt.alloc()));
    assert!(rt; is_passed(&CLOSE[..9], Wanted::Needs(3), rt.alloc()));
    assert!(rt; is_passed(&CLOSE, Wanted::Close(12), rt.alloc()));
    assert!(rt; is_passed(&CUT_END, Wanted::Fault(8, "amqp:decode-error"), rt.alloc()));
    Ok(())
}
