//! The symbols of the descriptors, as `amqp:open:list`.
ghost use Rattle.std.specs.Prelude.{◌≡◌, ℕ, Some, MatchOption, map};
ghost use Rattle.amqp_lookahead.specs.Members.{as_name};
ghost use Rattle.amqp_catalogue.specs.declared.type_name.TypeName.{TypeName};
ghost use Rattle.amqp_descriptors.specs.Descriptors.{descriptor_of, descriptors};

use amqp_catalogue::types::{
    Accepted, ApplicationProperties, Attach, Begin, Close, Coordinator, Data, Declare, Declared,
    DefinedError, DeleteOnClose, DeleteOnNoLinks, DeleteOnNoLinksOrMessages, DeleteOnNoMessages,
    DeliveryAnnotations, Detach, Discharge, Disposition, End, Flow, Footer, Header,
    MessageAnnotations, Modified, Open, Properties, Received, Rejected, Released, SaslChallenge,
    SaslInit, SaslMechanisms, SaslOutcome, SaslResponse, Source, Target, TransactionalState,
    Transfer,
};
use amqp_lookahead::names::{Members, place_of_name};
use amqp_wire::section_code;

/// The descriptors of the types, each by its code and its symbol.
const DESCRIPTORS: Members<'static> = &[
    Open::DESCRIPTOR,
    Begin::DESCRIPTOR,
    Attach::DESCRIPTOR,
    Flow::DESCRIPTOR,
    Transfer::DESCRIPTOR,
    Disposition::DESCRIPTOR,
    Detach::DESCRIPTOR,
    End::DESCRIPTOR,
    Close::DESCRIPTOR,
    DefinedError::DESCRIPTOR,
    Received::DESCRIPTOR,
    Accepted::DESCRIPTOR,
    Rejected::DESCRIPTOR,
    Released::DESCRIPTOR,
    Modified::DESCRIPTOR,
    Source::DESCRIPTOR,
    Target::DESCRIPTOR,
    DeleteOnClose::DESCRIPTOR,
    DeleteOnNoLinks::DESCRIPTOR,
    DeleteOnNoMessages::DESCRIPTOR,
    DeleteOnNoLinksOrMessages::DESCRIPTOR,
    Coordinator::DESCRIPTOR,
    Declare::DESCRIPTOR,
    Discharge::DESCRIPTOR,
    Declared::DESCRIPTOR,
    TransactionalState::DESCRIPTOR,
    SaslMechanisms::DESCRIPTOR,
    SaslInit::DESCRIPTOR,
    SaslChallenge::DESCRIPTOR,
    SaslResponse::DESCRIPTOR,
    SaslOutcome::DESCRIPTOR,
    Header::DESCRIPTOR,
    DeliveryAnnotations::DESCRIPTOR,
    MessageAnnotations::DESCRIPTOR,
    Properties::DESCRIPTOR,
    ApplicationProperties::DESCRIPTOR,
    Data::DESCRIPTOR,
    (
        section_code::AMQP_SEQUENCE as u64,
        "amqp:amqp-sequence:list",
    ),
    (section_code::AMQP_VALUE as u64, "amqp:amqp-value:*"),
    Footer::DESCRIPTOR,
];

/// Returns the descriptors of the types, each by its code and its symbol.
fn descriptors() -> Members<'static>
    ensures { map as_name result.now ≡ descriptors }
{
    DESCRIPTORS
}

/// Returns the code of the type whose descriptor has this symbol, as `amqp:open:list`, or `None` if no type has it.
pub fn code_of_symbol(symbol: &[u8]) -> Option<u64>
    ensures { MatchOption result ((named : TypeName) (code : ℕ) → descriptor_of named ≡ Some (code, symbol.now) → ⊥)
        (λ code. (named : TypeName) × (descriptor_of named ≡ Some (code, symbol.now))) }
{
    let members = descriptors();
    let place = place_of_name(members, symbol)?;
    Some(members[place].0)
}
