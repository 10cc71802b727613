//! The constants of the security layer (Part 5, section 5.3.3.7).

/// The major version of the layer.
pub const SASL_MAJOR: u8 = 1;

/// Its minor version.
pub const SASL_MINOR: u8 = 0;

/// Its revision.
pub const SASL_REVISION: u8 = 0;

/// The mechanism of RFC 4505, with which a client is admitted without a name.
pub const ANONYMOUS: &str = "ANONYMOUS";
