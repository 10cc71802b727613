//! The codes of the descriptors of a message's sections, in the standard's order (Part 3, section 3.2). The sections named at each code are
//! those of Part 3.

/// The header (section 3.2.1).
pub const HEADER: u8 = 0x70;

/// The delivery annotations (section 3.2.2).
pub const DELIVERY_ANNOTATIONS: u8 = 0x71;

/// The message annotations (section 3.2.3).
pub const MESSAGE_ANNOTATIONS: u8 = 0x72;

/// The properties (section 3.2.4).
pub const PROPERTIES: u8 = 0x73;

/// The application properties (section 3.2.5).
pub const APPLICATION_PROPERTIES: u8 = 0x74;

/// Data, which may be the body (section 3.2.6).
pub const DATA: u8 = 0x75;

/// A sequence, which may be the body (section 3.2.7).
pub const AMQP_SEQUENCE: u8 = 0x76;

/// A value, which may be the body (section 3.2.8).
pub const AMQP_VALUE: u8 = 0x77;

/// The footer (section 3.2.9).
pub const FOOTER: u8 = 0x78;
