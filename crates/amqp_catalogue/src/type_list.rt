//! The types that lines and calls may name, in one list.

/// The Rust types of the list, for the callers of `types!`.
pub mod types {
    pub use amqp_annotations::Annotations;
    pub use amqp_attach::{Attach, Performative};
    pub use amqp_batches::Batch;
    pub use amqp_bodies::Body;
    pub use amqp_delivery::{DeliveryState, Modified, Outcome, Rejected, TransactionalState};
    pub use amqp_errors::{Error as DefinedError, ErrorCondition};
    pub use amqp_lifetimes::{
        DeleteOnClose, DeleteOnNoLinks, DeleteOnNoLinksOrMessages, DeleteOnNoMessages,
        LifetimePolicy,
    };
    pub use amqp_map_sections::{
        ApplicationProperties, DeliveryAnnotations, Footer, MessageAnnotations,
    };
    pub use amqp_message_headers::{Header, MessageId, Properties};
    pub use amqp_messages::{Message, Strict};
    pub use amqp_performatives::{Begin, Close, Detach, Disposition, End, Flow, Open, Transfer};
    pub use amqp_plain_states::{Accepted, Declare, Declared, Discharge, Received, Released};
    pub use amqp_sasl::{SaslChallenge, SaslInit, SaslMechanisms, SaslOutcome, SaslResponse};
    pub use amqp_sections::{AmqpSequence, AmqpValue, Data};
    pub use amqp_simple_values::SimpleValue;
    pub use amqp_termini::{Coordinator, Source, Target, TargetArchetype};
    pub use amqp_values::Value;
}

/// The list of the types that lines and calls may name, in the order of `TypeName`: the name, the value of `TypeName`, and the Rust type.
///
/// `types!(names)` is a slice of the names, each with its `TypeName`. `types!(name, call(arguments))` is a match over a `TypeName`: the arm of
/// a type calls the generic function `call` of the Rust type. The module `types` has to be in scope with all its names.
#[macro_export]
macro_rules! types {
    ([names] $($name:literal $variant:ident $type:ty),* $(,)?) => {
        &[$(($name, $crate::TypeName::$variant)),*]
    };
    ([$named:expr, $call:ident $arguments:tt]
        $($name:literal $variant:ident $type:ty),* $(,)?) => {
        match $named {
            $($crate::TypeName::$variant => $call::<$type> $arguments,)*
        }
    };
    ($($part:tt)*) => {
        $crate::types! { [$($part)*]
            "accepted" Accepted Accepted,
            "amqp-sequence" AmqpSequence AmqpSequence<Value>,
            "amqp-value" AmqpValue AmqpValue<Value>,
            "annotations" Annotations Annotations,
            "application-properties" ApplicationProperties ApplicationProperties,
            "attach" Attach Attach,
            "batch-data" BatchData Batch<Data>,
            "batch-sequence" BatchSequence Batch<AmqpSequence<Value>>,
            "begin" Begin Begin,
            "body" Body Body<Value>,
            "boolean" Boolean bool,
            "close" Close Close,
            "coordinator" Coordinator Coordinator,
            "data" Data Data,
            "declare" Declare Declare,
            "declared" Declared Declared,
            "delete-on-close" DeleteOnClose DeleteOnClose,
            "delete-on-no-links" DeleteOnNoLinks DeleteOnNoLinks,
            "delete-on-no-links-or-messages" DeleteOnNoLinksOrMessages DeleteOnNoLinksOrMessages,
            "delete-on-no-messages" DeleteOnNoMessages DeleteOnNoMessages,
            "delivery-annotations" DeliveryAnnotations DeliveryAnnotations,
            "delivery-state" DeliveryState DeliveryState,
            "detach" Detach Detach,
            "discharge" Discharge Discharge,
            "disposition" Disposition Disposition,
            "end" End End,
            "error" Error DefinedError,
            "error-condition" ErrorCondition ErrorCondition,
            "flow" Flow Flow,
            "footer" Footer Footer,
            "header" Header Header,
            "lifetime-policy" LifetimePolicy LifetimePolicy,
            "message" Message Message<Body<Value>>,
            "message-annotations" MessageAnnotations MessageAnnotations,
            "message-batch" MessageBatch Message<Batch<Data>>,
            "message-data" MessageData Message<Data>,
            "message-id" MessageId MessageId,
            "message-value" MessageValue Message<AmqpValue<Value>>,
            "modified" Modified Modified,
            "open" Open Open,
            "outcome" Outcome Outcome,
            "performative" Performative Performative,
            "properties" Properties Properties,
            "received" Received Received,
            "rejected" Rejected Rejected,
            "released" Released Released,
            "sasl-challenge" SaslChallenge SaslChallenge,
            "sasl-init" SaslInit SaslInit,
            "sasl-mechanisms" SaslMechanisms SaslMechanisms,
            "sasl-outcome" SaslOutcome SaslOutcome,
            "sasl-response" SaslResponse SaslResponse,
            "simple-value" SimpleValue SimpleValue,
            "source" Source Source,
            "strict-message" StrictMessage Strict<Body<Value>>,
            "strict-message-batch" StrictMessageBatch Strict<Batch<Data>>,
            "strict-message-data" StrictMessageData Strict<Data>,
            "strict-message-value" StrictMessageValue Strict<AmqpValue<Value>>,
            "target" Target Target,
            "target-archetype" TargetArchetype TargetArchetype,
            "transactional-state" TransactionalState TransactionalState,
            "transfer" Transfer Transfer,
            "value" Value Value,
        }
    };
}
