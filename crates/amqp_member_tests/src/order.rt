//! The order of received states.
use amqp_full_composites::delivery::full_received;
use amqp_plain_states::Received;

fn received(section_number: u32, section_offset: u64) -> Received {
    Received {
        section_number,
        section_offset,
    }
}

fn is_before(first: Received, second: Received) -> bool {
    first < second
}

// By the section first, then by the offset.
#[test]
fn order_of_received(rt: HostRuntime) {
    assert!(rt; is_before(full_received(), received(300, 4294967298)));
    assert!(rt; is_before(received(300, 4294967298), received(301, 0)));
}
