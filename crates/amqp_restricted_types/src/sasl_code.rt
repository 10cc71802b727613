//! How a SASL exchange ended (Part 5, section 5.3.3.6).
ghost use Rattle.std.specs.Prelude.{◌≡◌, refl};
ghost use Rattle.amqp_codec.specs.Agreement.{one_term, agreement, writing_of};
ghost use Rattle.amqp_codec.specs.laws.Key.{key_of, variants_decide};
ghost use Rattle.amqp_restricted_types.specs.Security.{sasl_code_numbers, sasl_code_type};
ghost use Rattle.amqp_restricted_types.specs.contracts.sasl_code.SaslCode.{the_type};

use amqp_codec::{
    ByteSource, Decoder, DeserializeTerm, Encoder, Error, MapKey, Pass, Serialize, SerializeTerm,
};
use amqp_sums::restricted::{RestrictedNumber, read_number, write_number};
use std::alloc::Global;

/// How a SASL exchange ended.
#[derive(Clone, Debug, PartialEq, Eq, Hash, Drop)]
pub enum SaslCode {
    /// The peer was authenticated: 0.
    Ok,
    /// It wasn't, because its credentials were wrong: 1.
    Auth,
    /// It wasn't, because a system failed: 2.
    Sys,
    /// It wasn't, because a system failed and must be repaired: 3.
    SysPerm,
    /// It wasn't, because a system failed temporarily: 4.
    SysTemp,
}

impl From<&SaslCode> for u8 {
    ghost from_gives = { λ code number. number ≡ sasl_code_numbers code.now };

    fn from(code: &SaslCode) -> u8 {
        match code {
            SaslCode::Ok => 0,
            SaslCode::Auth => 1,
            SaslCode::Sys => 2,
            SaslCode::SysPerm => 3,
            SaslCode::SysTemp => 4,
        }
    }
}

impl From<SaslCode> for u8 {
    ghost from_gives = { λ code number. number ≡ sasl_code_numbers code };

    fn from(code: SaslCode) -> u8 {
        u8::from(&code)
    }
}

impl RestrictedNumber for SaslCode {
    type Number = u8;

    ghost numbers = { sasl_code_numbers };

    fn number(&self) -> u8 {
        u8::from(self)
    }

    fn from_number(number: u8) -> Option<SaslCode> {
        match number {
            0 => Some(SaslCode::Ok),
            1 => Some(SaslCode::Auth),
            2 => Some(SaslCode::Sys),
            3 => Some(SaslCode::SysPerm),
            4 => Some(SaslCode::SysTemp),
            _ => None,
        }
    }
}

impl Serialize for SaslCode {
    ghost writing = { writing_of sasl_code_type refl };

    fn serialize<P: Pass>(&self, encoder: &mut Encoder<P>) -> Result<(), Error> {
        write_number(self, encoder)
    }

    fn in_type(&self) {}
}

impl SerializeTerm for SaslCode {
    fn is_null(&self) -> bool {
        false
    }

    ghost is_term = { one_term sasl_code_type refl };
}

impl DeserializeTerm for SaslCode {
    ghost term = { sasl_code_type };

    fn read_value<R: ByteSource>(
        decoder: &mut Decoder<R>,
        _alloc: Global,
    ) -> Result<SaslCode, Error> {
        read_number(decoder)
    }

    ghost agreement = { agreement sasl_code_type refl };
}

impl MapKey for SaslCode {
    ghost is_key = { key_of refl (variants_decide the_type tt) };
}
