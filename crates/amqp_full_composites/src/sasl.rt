//! Frame bodies of the security layer with a value in every field.
use crate::parts::{binary_of, symbol_of, text_of, two_symbols_of};
use amqp_codec::Error as CodecError;
use amqp_restricted_types::SaslCode;
use amqp_sasl::{SaslChallenge, SaslInit, SaslMechanisms, SaslOutcome, SaslResponse};
use std::alloc::Global;

/// Returns a sasl-mechanisms with a value in every field (Part 5, section 5.3.3.1).
pub fn full_mechanisms(alloc: Global) -> Result<SaslMechanisms, CodecError> {
    Ok(SaslMechanisms {
        sasl_server_mechanisms: two_symbols_of("PLAIN", "EXTERNAL", alloc)?,
    })
}

/// Returns a sasl-init with a value in every field (Part 5, section 5.3.3.2).
pub fn full_init(alloc: Global) -> Result<SaslInit, CodecError> {
    Ok(SaslInit {
        mechanism: symbol_of("PLAIN", alloc)?,
        initial_response: Some(binary_of(&[0, 1, 2], alloc)?),
        hostname: Some(text_of("h", alloc)?),
    })
}

/// Returns a sasl-challenge with a value in every field (Part 5, section 5.3.3.3).
pub fn full_challenge(alloc: Global) -> Result<SaslChallenge, CodecError> {
    Ok(SaslChallenge {
        challenge: binary_of(&[1, 2], alloc)?,
    })
}

/// Returns a sasl-response with a value in every field (Part 5, section 5.3.3.4).
pub fn full_response(alloc: Global) -> Result<SaslResponse, CodecError> {
    Ok(SaslResponse {
        response: binary_of(&[3, 4, 5], alloc)?,
    })
}

/// Returns a sasl-outcome with a value in every field (Part 5, section 5.3.3.5).
pub fn full_outcome(alloc: Global) -> Result<SaslOutcome, CodecError> {
    Ok(SaslOutcome {
        code: SaslCode::Auth,
        additional_data: Some(binary_of(&[6], alloc)?),
    })
}
