//! The values that omitted fields have (Part 1, section 1.4).
use crate::fields::field_name;
use amqp_catalogue::TypeName;

/// Returns the default value of the field with this number, as the standard writes it, or `None` if the field has none (Part 2,
/// section 2.7; Part 3, sections 3.2.1, 3.5.3 and 3.5.4).
pub fn default_of(named: TypeName, index: usize) -> Option<&'static str> {
    let field = field_name(named, index)?;
    match named {
        TypeName::Open | TypeName::Begin => connection_default(field),
        TypeName::Attach => attach_default(field),
        TypeName::Source | TypeName::Target => terminus_default(field),
        TypeName::Header => header_default(field),
        TypeName::Disposition if field == "settled" => Some("false"),
        TypeName::Flow | TypeName::Transfer | TypeName::Disposition | TypeName::Detach => {
            flag_default(field)
        }
        _ => None,
    }
}

fn connection_default(field: &str) -> Option<&'static str> {
    match field {
        "max-frame-size" | "handle-max" => Some("4294967295"),
        "channel-max" => Some("65535"),
        _ => None,
    }
}

fn attach_default(field: &str) -> Option<&'static str> {
    match field {
        "snd-settle-mode" => Some("mixed"),
        "rcv-settle-mode" => Some("first"),
        "incomplete-unsettled" => Some("false"),
        _ => None,
    }
}

fn terminus_default(field: &str) -> Option<&'static str> {
    match field {
        "durable" => Some("none"),
        "expiry-policy" => Some("session-end"),
        "timeout" => Some("0"),
        "dynamic" => Some("false"),
        _ => None,
    }
}

fn header_default(field: &str) -> Option<&'static str> {
    match field {
        "durable" | "first-acquirer" => Some("false"),
        "priority" => Some("4"),
        "delivery-count" => Some("0"),
        _ => None,
    }
}

// The fields that say yes or no in `flow`, `transfer`, `disposition` and `detach`.
fn flag_default(field: &str) -> Option<&'static str> {
    match field {
        "drain" | "echo" | "more" | "resume" | "aborted" | "batchable" | "closed" => Some("false"),
        _ => None,
    }
}
