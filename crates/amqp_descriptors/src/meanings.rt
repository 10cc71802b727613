//! What the numbers of restricted types mean, by the fields that have them (Part 2, sections 2.8.1 to 2.8.3; Part 3, section 3.5.5; Part 5,
//! section 5.3.3.6).
use amqp_kinds::Kind;

/// Returns what the value of a field means, if the type of the field gives its numbers names. A boolean's number is 0 or 1.
pub fn meaning(field: &str, kind: Kind, number: u64) -> Option<&'static str> {
    let names: &[&'static str] = match (field, kind) {
        ("role", Kind::Bool) => &["sender", "receiver"],
        ("snd-settle-mode", Kind::Ubyte) => &["unsettled", "settled", "mixed"],
        ("rcv-settle-mode", Kind::Ubyte) => &["first", "second"],
        ("durable", Kind::Uint) => &["none", "configuration", "unsettled-state"],
        ("code", Kind::Ubyte) => &["ok", "auth", "sys", "sys-perm", "sys-temp"],
        _ => return None,
    };
    names.get(usize::try_from(number).ok()?).copied()
}
