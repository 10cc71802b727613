//! The fields of composites.
ghost use Rattle.std.specs.Prelude.{◌≡◌, None, Some, MatchOption, map};
ghost use Rattle.std.specs.List.{slice_get};
ghost use Rattle.amqp_catalogue.specs.declared.type_name.TypeName.{TypeName};
ghost use Rattle.amqp_descriptors.specs.Descriptors.{field_names};

use amqp_catalogue::TypeName;
use amqp_catalogue::types::{
    Attach, Begin, Close, Coordinator, Declare, Declared, DefinedError, Detach, Discharge,
    Disposition, End, Flow, Header, Modified, Open, Properties, Received, Rejected, SaslChallenge,
    SaslInit, SaslMechanisms, SaslOutcome, SaslResponse, Source, Target, TransactionalState,
    Transfer,
};

/// Returns the names of the fields of a type, in the order of the standard. It is empty if the type is no composite.
pub fn field_names(named: TypeName) -> &'static [&'static str]
    ensures { map (λ name. name.now) result.now ≡ field_names named }
{
    match named {
        TypeName::Open => Open::FIELD_NAMES,
        TypeName::Begin => Begin::FIELD_NAMES,
        TypeName::Attach => Attach::FIELD_NAMES,
        TypeName::Flow => Flow::FIELD_NAMES,
        TypeName::Transfer => Transfer::FIELD_NAMES,
        TypeName::Disposition => Disposition::FIELD_NAMES,
        TypeName::Detach => Detach::FIELD_NAMES,
        TypeName::End => End::FIELD_NAMES,
        TypeName::Close => Close::FIELD_NAMES,
        TypeName::Error => DefinedError::FIELD_NAMES,
        TypeName::Received => Received::FIELD_NAMES,
        TypeName::Rejected => Rejected::FIELD_NAMES,
        TypeName::Modified => Modified::FIELD_NAMES,
        TypeName::Source => Source::FIELD_NAMES,
        TypeName::Target => Target::FIELD_NAMES,
        TypeName::Coordinator => Coordinator::FIELD_NAMES,
        TypeName::Declare => Declare::FIELD_NAMES,
        TypeName::Discharge => Discharge::FIELD_NAMES,
        TypeName::Declared => Declared::FIELD_NAMES,
        TypeName::TransactionalState => TransactionalState::FIELD_NAMES,
        TypeName::SaslMechanisms => SaslMechanisms::FIELD_NAMES,
        TypeName::SaslInit => SaslInit::FIELD_NAMES,
        TypeName::SaslChallenge => SaslChallenge::FIELD_NAMES,
        TypeName::SaslResponse => SaslResponse::FIELD_NAMES,
        TypeName::SaslOutcome => SaslOutcome::FIELD_NAMES,
        TypeName::Header => Header::FIELD_NAMES,
        TypeName::Properties => Properties::FIELD_NAMES,
        _ => &[],
    }
}

/// Returns the name of the field with this number, counted from 0, or `None` if the type has no such field.
pub fn field_name(named: TypeName, index: usize) -> Option<&'static str>
    ensures { MatchOption result (slice_get (field_names named) index ≡ None) (λ name. slice_get (field_names named) index ≡ Some name.now) }
{
    field_names(named).get(index).copied()
}

// The first and the last mandatory field of a type. Those between them are mandatory, too.
fn mandatory_fields(named: TypeName) -> Option<(usize, usize)> {
    match named {
        TypeName::Begin | TypeName::Flow => Some((1, 3)),
        TypeName::Attach => Some((0, 2)),
        TypeName::Disposition | TypeName::Received => Some((0, 1)),
        TypeName::Open
        | TypeName::Transfer
        | TypeName::Detach
        | TypeName::Error
        | TypeName::Discharge
        | TypeName::Declared
        | TypeName::TransactionalState
        | TypeName::SaslMechanisms
        | TypeName::SaslInit
        | TypeName::SaslChallenge
        | TypeName::SaslResponse
        | TypeName::SaslOutcome => Some((0, 0)),
        _ => None,
    }
}

/// Returns the name of the first mandatory field of a type that a list of so many fields lacks.
pub fn missing_field(named: TypeName, count: usize) -> Option<&'static str> {
    let (first, last) = mandatory_fields(named)?;
    let index = count.max(first);
    if index > last {
        return None;
    }
    field_name(named, index)
}
