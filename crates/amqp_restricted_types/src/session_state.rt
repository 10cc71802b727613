//! States of a session (Part 2, section 2.5.5).

/// What an end of a session has sent and received. It is only a name, and is neither read nor written.
#[derive(Clone, Debug, Drop)]
pub enum SessionState {
    /// It isn't mapped to a channel.
    Unmapped,
    /// The begin was sent.
    BeginSent,
    /// The peer's begin was received.
    BeginReceived,
    /// Both begins were exchanged.
    Mapped,
    /// The end was sent.
    EndSent,
    /// The peer's end was received.
    EndReceived,
    /// The end was sent with an error, and incoming frames are dropped.
    Discarding,
}
