//! The types by their names and their numbers.
ghost use Rattle.std.specs.Prelude.{◌≡◌, MatchOption, position, true};
ghost use Rattle.amqp_catalogue.specs.NamedTypes.{type_name};
ghost use Rattle.amqp_catalogue.specs.Rows.{in_order, has_name, number_in};
ghost use Rattle.amqp_catalogue.specs.contracts.type_name.TypeName.{the_type};
ghost use Rattle.amqp_catalogue.specs.declared.type_name.TypeName.{TypeName};

use crate::types;

/// The types that lines and calls may name. The number of a type is its place among them, from 1 on. A new type goes to the end, so that
/// the others keep their numbers.
#[derive(Clone, Copy, Debug, PartialEq, Eq)]
pub enum TypeName {
    Accepted,
    AmqpSequence,
    AmqpValue,
    Annotations,
    ApplicationProperties,
    Attach,
    BatchData,
    BatchSequence,
    Begin,
    Body,
    Boolean,
    Close,
    Coordinator,
    Data,
    Declare,
    Declared,
    DeleteOnClose,
    DeleteOnNoLinks,
    DeleteOnNoLinksOrMessages,
    DeleteOnNoMessages,
    DeliveryAnnotations,
    DeliveryState,
    Detach,
    Discharge,
    Disposition,
    End,
    Error,
    ErrorCondition,
    Flow,
    Footer,
    Header,
    LifetimePolicy,
    Message,
    MessageAnnotations,
    MessageBatch,
    MessageData,
    MessageId,
    MessageValue,
    Modified,
    Open,
    Outcome,
    Performative,
    Properties,
    Received,
    Rejected,
    Released,
    SaslChallenge,
    SaslInit,
    SaslMechanisms,
    SaslOutcome,
    SaslResponse,
    SimpleValue,
    Source,
    StrictMessage,
    StrictMessageBatch,
    StrictMessageData,
    StrictMessageValue,
    Target,
    TargetArchetype,
    TransactionalState,
    Transfer,
    Value,
}

/// The types' names, in the order of `TypeName`.
const NAMES: &[(&str, TypeName)] = types!(names);

// The place of the row with this name.
fn place_of(rows: &[(&str, TypeName)], name: &[u8]) -> Option<usize>
    ensures { result ≡ position (has_name name.now) rows.now }
{
    rows.iter().position(|row| row.0.as_bytes() == name)
}

// The type that has this name in a table of all types.
fn named(rows: &[(&str, TypeName)], name: &[u8]) -> Option<TypeName>
    requires { in_order the_type type_name 0 rows.now ≡ true }
    ensures { MatchOption result ((named : TypeName) → type_name named ≡ name.now → ⊥) (λ named. type_name named ≡ name.now) }
{
    let place = place_of(rows, name)?;
    Some(rows[place].1)
}

// The type that has this number, in a table of all types.
fn numbered(rows: &[(&str, TypeName)], number: u32) -> Option<TypeName>
    requires { in_order the_type type_name 0 rows.now ≡ true }
    ensures { MatchOption result ((named : TypeName) → number_in the_type named ≡ number → ⊥)
        (λ named. number_in the_type named ≡ number) }
{
    let before = number.checked_sub(1)? as usize;
    if before < rows.len() {
        Some(rows[before].1)
    } else {
        None
    }
}

impl TypeName {
    /// Returns the type that has this name.
    pub fn from_bytes(name: &[u8]) -> Option<TypeName>
        ensures { MatchOption result ((named : TypeName) → type_name named ≡ name.now → ⊥) (λ named. type_name named ≡ name.now) }
    {
        named(NAMES, name)
    }

    /// Returns the type that has this number.
    pub fn from_number(number: u32) -> Option<TypeName>
        ensures { MatchOption result ((named : TypeName) → number_in the_type named ≡ number → ⊥)
            (λ named. number_in the_type named ≡ number) }
    {
        numbered(NAMES, number)
    }

    /// Returns the number of the type.
    pub fn number(self) -> u32
        ensures { result ≡ number_in the_type self }
    {
        self as u32 + 1
    }
}
