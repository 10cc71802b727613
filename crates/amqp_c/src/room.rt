//! The caller's room for a text.
ghost use Rattle.amqp_c.specs.Room.{Puts};

/// Writes the text to the start of the room if there is room for all of it, and otherwise leaves the room unchanged. Returns whether it
/// did.
pub(crate) fn put(text: &[u8], room: &mut [u8]) -> bool
    ensures { Puts text.now room.old room.new result }
{
    if text.len() > room.len() {
        return false;
    }
    room[..text.len()].copy_from_slice(text);
    true
}
