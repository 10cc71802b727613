//! The codes of the descriptors.
ghost use Rattle.std.specs.Prelude.{◌≡◌, Some, MatchOption};
ghost use Rattle.amqp_catalogue.specs.declared.type_name.TypeName.{TypeName};
ghost use Rattle.amqp_descriptors.specs.Descriptors.{code_of};

use amqp_catalogue::TypeName;

/// Returns the type whose values have the descriptor with this code.
pub fn type_of_code(code: u64) -> Option<TypeName>
    ensures { MatchOption result ((named : TypeName) → code_of named ≡ Some code → ⊥) (λ named. code_of named ≡ Some code) }
{
    Some(match code {
        0x10 => TypeName::Open,
        0x11 => TypeName::Begin,
        0x12 => TypeName::Attach,
        0x13 => TypeName::Flow,
        0x14 => TypeName::Transfer,
        0x15 => TypeName::Disposition,
        0x16 => TypeName::Detach,
        0x17 => TypeName::End,
        0x18 => TypeName::Close,
        0x1d => TypeName::Error,
        0x23 => TypeName::Received,
        0x24 => TypeName::Accepted,
        0x25 => TypeName::Rejected,
        0x26 => TypeName::Released,
        0x27 => TypeName::Modified,
        0x28 => TypeName::Source,
        0x29 => TypeName::Target,
        0x2b => TypeName::DeleteOnClose,
        0x2c => TypeName::DeleteOnNoLinks,
        0x2d => TypeName::DeleteOnNoMessages,
        0x2e => TypeName::DeleteOnNoLinksOrMessages,
        0x30 => TypeName::Coordinator,
        0x31 => TypeName::Declare,
        0x32 => TypeName::Discharge,
        0x33 => TypeName::Declared,
        0x34 => TypeName::TransactionalState,
        0x40 => TypeName::SaslMechanisms,
        0x41 => TypeName::SaslInit,
        0x42 => TypeName::SaslChallenge,
        0x43 => TypeName::SaslResponse,
        0x44 => TypeName::SaslOutcome,
        0x70 => TypeName::Header,
        0x71 => TypeName::DeliveryAnnotations,
        0x72 => TypeName::MessageAnnotations,
        0x73 => TypeName::Properties,
        0x74 => TypeName::ApplicationProperties,
        0x75 => TypeName::Data,
        0x76 => TypeName::AmqpSequence,
        0x77 => TypeName::AmqpValue,
        0x78 => TypeName::Footer,
        _ => return None,
    })
}
