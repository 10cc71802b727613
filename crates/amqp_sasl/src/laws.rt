//! What holds for the security layer in addition to the laws of every type. The functions do nothing; their contracts are proved.
ghost use Rattle.std.specs.Prelude.{◌≡◌, true, codes};

use crate::{
    ANONYMOUS, SASL_MAJOR, SASL_MINOR, SASL_REVISION, SaslChallenge, SaslInit, SaslMechanisms,
    SaslOutcome, SaslResponse,
};
use amqp_codec::Canonical;

/// For these types, no encoding of a value is shorter than its canonical text, if it holds no array.
pub fn texts_are_least()
    ensures sasl_mechanisms { ⟦<SaslMechanisms as Canonical>⟧.is_least ≡ true }
    ensures sasl_init { ⟦<SaslInit as Canonical>⟧.is_least ≡ true }
    ensures sasl_challenge { ⟦<SaslChallenge as Canonical>⟧.is_least ≡ true }
    ensures sasl_response { ⟦<SaslResponse as Canonical>⟧.is_least ≡ true }
    ensures sasl_outcome { ⟦<SaslOutcome as Canonical>⟧.is_least ≡ true }
{}

/// The constants of the standard, and the name of the mechanism of RFC 4505.
pub fn constants()
    ensures major { SASL_MAJOR ≡ 1 }
    ensures minor { SASL_MINOR ≡ 0 }
    ensures revision { SASL_REVISION ≡ 0 }
    ensures anonymous { ANONYMOUS.now ≡ codes "ANONYMOUS" }
{}
