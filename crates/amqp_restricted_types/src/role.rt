//! Roles (Part 2, section 2.8.1).
ghost use Rattle.std.specs.Prelude.{◌≡◌, refl};
ghost use Rattle.amqp_codec.specs.Agreement.{one_term, agreement, writing_of};
ghost use Rattle.amqp_codec.specs.laws.Key.{key_of, variants_decide};
ghost use Rattle.amqp_restricted_types.specs.Transport.{role_numbers, role_type};
ghost use Rattle.amqp_restricted_types.specs.contracts.role.Role.{the_type};

use amqp_codec::{
    ByteSource, Decoder, DeserializeTerm, Encoder, Error, MapKey, Pass, Serialize, SerializeTerm,
};
use amqp_sums::restricted::{RestrictedNumber, read_number, write_number};
use std::alloc::Global;

/// Which end of a link a peer is.
#[derive(Clone, Debug, PartialEq, Eq, PartialOrd, Ord, Hash, Drop)]
pub enum Role {
    /// It sends messages on the link: false.
    Sender,
    /// It receives them: true.
    Receiver,
}

impl From<&Role> for bool {
    ghost from_gives = { λ role number. number ≡ role_numbers role.now };

    fn from(role: &Role) -> bool {
        match role {
            Role::Sender => false,
            Role::Receiver => true,
        }
    }
}

impl From<Role> for bool {
    ghost from_gives = { λ role number. number ≡ role_numbers role };

    fn from(role: Role) -> bool {
        bool::from(&role)
    }
}

impl From<bool> for Role {
    ghost from_gives = { λ number role. role_numbers role ≡ number };

    fn from(number: bool) -> Role {
        match number {
            false => Role::Sender,
            true => Role::Receiver,
        }
    }
}

impl RestrictedNumber for Role {
    type Number = bool;

    ghost numbers = { role_numbers };

    fn number(&self) -> bool {
        bool::from(self)
    }

    fn from_number(number: bool) -> Option<Role> {
        Some(Role::from(number))
    }
}

impl Serialize for Role {
    ghost writing = { writing_of role_type refl };

    #[inline(always)]
    fn serialize<P: Pass>(&self, encoder: &mut Encoder<P>) -> Result<(), Error> {
        write_number(self, encoder)
    }

    fn in_type(&self) {}
}

impl SerializeTerm for Role {
    fn is_null(&self) -> bool {
        false
    }

    ghost is_term = { one_term role_type refl };
}

impl DeserializeTerm for Role {
    ghost term = { role_type };

    fn read_value<R: ByteSource>(decoder: &mut Decoder<R>, _alloc: Global) -> Result<Role, Error> {
        read_number(decoder)
    }

    ghost agreement = { agreement role_type refl };
}

impl MapKey for Role {
    ghost is_key = { key_of refl (variants_decide the_type tt) };
}
