//! States of a connection (Part 2, section 2.4.6).

/// What an end of a connection has sent and received. It is only a name, and is neither read nor written.
#[derive(Clone, Debug, Drop)]
pub enum ConnectionState {
    /// Nothing was exchanged.
    Start,
    /// The peer's header was received.
    HeaderReceived,
    /// The header was sent.
    HeaderSent,
    /// Both headers were exchanged.
    HeaderExchange,
    /// The header and the open were sent, nothing was received.
    OpenPipe,
    /// The header, the open and the close were sent, nothing was received.
    OpenClosePipe,
    /// The headers were exchanged, and the peer's open was received.
    OpenReceived,
    /// The headers were exchanged, and the open was sent.
    OpenSent,
    /// The headers were exchanged, and the open and the close were sent.
    ClosePipe,
    /// Both opens were exchanged.
    Opened,
    /// The peer's close was received.
    CloseReceived,
    /// The close was sent.
    CloseSent,
    /// The close was sent with an error, and incoming frames are dropped.
    Discarding,
    /// It is over.
    End,
}
