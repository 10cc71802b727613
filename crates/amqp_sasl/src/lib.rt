//! What the peers exchange in the security layer (Part 5, section 5.3.3). The exchange itself isn't here.
#![tactic(auto)]

mod constants;
pub mod laws;
mod sasl_challenge;
mod sasl_init;
mod sasl_mechanisms;
mod sasl_outcome;
mod sasl_response;

pub use constants::{ANONYMOUS, SASL_MAJOR, SASL_MINOR, SASL_REVISION};
pub use sasl_challenge::SaslChallenge;
pub use sasl_init::SaslInit;
pub use sasl_mechanisms::SaslMechanisms;
pub use sasl_outcome::SaslOutcome;
pub use sasl_response::SaslResponse;
