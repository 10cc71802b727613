//! The constants of Part 2 (section 2.8.19).

/// The port of AMQP over TCP.
pub const PORT: u16 = 5672;

/// The port of AMQP over TLS.
pub const SECURE_PORT: u16 = 5671;

/// The major version of the protocol.
pub const MAJOR: u8 = 1;

/// Its minor version.
pub const MINOR: u8 = 0;

/// Its revision.
pub const REVISION: u8 = 0;

/// The least `max-frame-size`, in bytes, that every peer must accept.
pub const MIN_MAX_FRAME_SIZE: usize = 512;
