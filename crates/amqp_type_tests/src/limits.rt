//! The greatest numbers of links, channels and bytes of a frame, and the constants of Part 2 (sections 2.7.1, 2.8.4 and 2.8.19).
use crate::written::check_both_ways;
use amqp_codec::Error;
use amqp_restricted_types::{
    ChannelMax, Handle, MAJOR, MIN_MAX_FRAME_SIZE, MINOR, MaxFrameSize, PORT, REVISION, SECURE_PORT,
};
use amqp_test_helpers::{is, is_less};
use std::test::Fail;

#[test]
fn sizes_of_frames(rt: HostRuntime) -> Result<(), Fail> {
    check_both_ways(MaxFrameSize::from(512), "7000000200", rt.alloc())?;
    check_both_ways(MaxFrameSize(0), "43", rt.alloc())?;
    check_both_ways(MaxFrameSize::default(), "70ffffffff", rt.alloc())?;
    assert_eq!(rt; u32::from(MaxFrameSize(512)), 512);
    assert_eq!(rt; usize::from(MaxFrameSize(512)), 512);
    assert_eq!(rt; usize::from(MaxFrameSize::default()), 4294967295);
    Ok(())
}

#[test]
fn numbers_of_channels(rt: HostRuntime) -> Result<(), Fail> {
    check_both_ways(ChannelMax::from(9), "600009", rt.alloc())?;
    check_both_ways(ChannelMax::default(), "60ffff", rt.alloc())?;
    assert_eq!(rt; u16::from(ChannelMax(9)), 9);
    Ok(())
}

fn are_handles() -> Result<bool, Error> {
    Ok(
        is(Handle::from(7), Handle(7))
            && is(Handle::default(), Handle(4294967295))
            && is_less(Ok(Handle(7)), Ok(Handle(8)))?,
    )
}

#[test]
fn handles(rt: HostRuntime) -> Result<(), Fail> {
    assert!(rt; are_handles()?);
    assert_eq!(rt; u32::from(Handle(7)), 7);
    Ok(())
}

#[test]
fn constants(rt: HostRuntime) {
    assert_eq!(rt; (PORT, SECURE_PORT), (5672, 5671));
    assert_eq!(rt; (MAJOR, MINOR, REVISION), (1, 0, 0));
    assert_eq!(rt; MIN_MAX_FRAME_SIZE, 512);
}
