//! The data types of AMQP 1.0 (OASIS, Parts 1 to 5), under the paths of the Rust crate
//! `fe2o3-amqp-types`.
#![tactic(auto)]

/// Reading and writing of whole values (Part 1, sections 1.2 to 1.6).
pub mod codec {
    pub use amqp_batches::TransparentVec;
    pub use amqp_codec::{
        ByteSource, Canonical, Decoder, Descriptor, Deserialize, DeserializeTerm, Encoder, Error,
        MapKey, Pass, Serialize, SerializeTerm, Symbol, kernel,
    };
    pub use amqp_containers::Array;
    pub use amqp_described::Described;
    pub use amqp_lazy::LazyValue;
    pub use amqp_lengths::{term_len, term_len_located};
    pub use amqp_maps::{
        IntoIter as OrderedMapIntoIter, Iter as OrderedMapIter, OrderedMap,
        Values as OrderedMapValues,
    };
    pub use amqp_nodes::{Node, field_node, next_node};
    pub use amqp_paths::{ContainerKind, Node as PathNode, Path, Piece, path_of};
    pub use amqp_primitives::{Binary, ByteBuf, Dec32, Dec64, Dec128, SymbolRef, Timestamp, Uuid};
    pub use amqp_read_write::{
        Limits, ReadSource, append_to_vec, canonical_into, canonical_text, canonical_text_within,
        encoded_len, from_reader, from_reader_located, from_reader_within, from_slice,
        from_slice_counted, from_slice_located, from_slice_within, to_vec, write_into,
    };
    pub use amqp_simple_values::SimpleValue;
    pub use amqp_values::{IntoValue, Value, ValueMap, ValueMapIter, ValueMapValues};
    pub use amqp_wire::Refusal;
}

/// The primitive types (Part 1, section 1.6), and the standard's names for types of std.
pub mod primitives {
    pub use amqp_batches::TransparentVec;
    pub use amqp_codec::{Descriptor, Symbol};
    pub use amqp_containers::Array;
    pub use amqp_described::Described;
    pub use amqp_lazy::LazyValue;
    pub use amqp_maps::OrderedMap;
    pub use amqp_primitives::{Binary, ByteBuf, Dec32, Dec64, Dec128, SymbolRef, Timestamp, Uuid};
    pub use amqp_simple_values::SimpleValue;
    pub use amqp_values::{IntoValue, Value, ValueMap};

    pub type Boolean = bool;

    pub type Ubyte = u8;

    pub type Ushort = u16;

    pub type Uint = u32;

    pub type Ulong = u64;

    pub type Byte = i8;

    pub type Short = i16;

    pub type Int = i32;

    pub type Long = i64;

    pub type Char = char;
}

/// The types of connections, sessions and links (Part 2).
pub mod definitions {
    pub use amqp_errors::{
        AmqpError, ConnectionError, Error, ErrorCondition, Fields, LinkError, SessionError,
    };
    pub use amqp_restricted_types::{
        DeliveryNumber, DeliveryTag, Handle, IetfLanguageTag, MAJOR, MIN_MAX_FRAME_SIZE, MINOR,
        MessageFormat, Milliseconds, PORT, REVISION, ReceiverSettleMode, Role, SECURE_PORT,
        Seconds, SenderSettleMode, SequenceNo, TransferNumber,
    };
}

/// What is proved about every value. Each law is a function that does nothing; after a call of it, its clauses may be used. The modules
/// hold the laws of the types and layers that they are named after.
pub mod laws {
    pub use amqp_annotations::laws as annotations;
    pub use amqp_attach::laws as attach;
    pub use amqp_batches::laws as batches;
    pub use amqp_bodies::laws as bodies;
    pub use amqp_containers::laws as containers;
    pub use amqp_decoder::laws as decoder;
    pub use amqp_delivery::laws as delivery;
    pub use amqp_described::laws as described;
    pub use amqp_encoder::laws as encoder;
    pub use amqp_errors::laws as errors;
    pub use amqp_lengths::laws as lengths;
    pub use amqp_lookahead::laws as lookahead;
    pub use amqp_map_sections::laws as map_sections;
    pub use amqp_maps::laws as maps;
    pub use amqp_message_headers::laws as message_headers;
    pub use amqp_message_spellings as message_spellings;
    pub use amqp_messages::laws as messages;
    pub use amqp_nodes::laws as nodes;
    pub use amqp_paths::laws as paths;
    pub use amqp_performatives::laws as performatives;
    pub use amqp_placed::laws as placed;
    pub use amqp_primitives::laws as primitives;
    pub use amqp_read_write::laws::{
        canonical_text_is_least, canonical_text_is_read_again, count_is_bounded, faults_of_a_sum,
        keys_are_compared_by_their_texts, limits_bound_reading, one_term_is_written,
        one_text_for_one_value, one_value, reading_is_spelling, seeds_change_nothing,
        terms_are_read_again, texts_are_least, texts_of_parts_are_least, what_is_read_is_writable,
    };
    pub use amqp_restricted_types::laws as restricted_types;
    pub use amqp_sasl::laws as sasl;
    pub use amqp_sections::laws as sections;
    pub use amqp_simple_values::laws as simple_values;
    pub use amqp_termini::laws as termini;
    pub use amqp_values::laws as values;

    /// The laws of terms and of the bytes that encode them (Part 1, sections 1.2 to 1.6).
    pub mod model {
        pub use amqp_model::{
            canonical_text_is_least, canonical_text_spells, no_proper_front, nodes_are_bounded,
            one_reading, one_text, parts_stand_in_one_way, tables, worked_refusals, worked_rows,
        };
    }
}

/// The types of messaging (Part 3).
pub mod messaging {
    pub use amqp_annotations::Annotations;
    pub use amqp_batches::Batch;
    pub use amqp_bodies::{
        AsBodyRef, Body, CanonicalBody, DataIter, DeserializableBody, FromBody, FromEmptyBody,
        IntoBody, IntoData, IntoSequence, PlainFromBody, PlainIntoBody, SequenceIter,
        SerializableBody, TransposeOption, ValueBody, ValueFromBody,
    };
    pub use amqp_delivery::{DeliveryState, Modified, Outcome, Rejected};
    pub use amqp_lifetimes::{
        DeleteOnClose, DeleteOnNoLinks, DeleteOnNoLinksOrMessages, DeleteOnNoMessages,
        LifetimePolicy, SupportedDistModes,
    };
    pub use amqp_map_sections::{
        ApplicationProperties, DeliveryAnnotations, Footer, MessageAnnotations,
    };
    pub use amqp_message_headers::{Header, MESSAGE_FORMAT, MessageId, Priority, Properties};
    pub use amqp_messages::Message;
    pub use amqp_plain_states::{Accepted, Received, Released};
    pub use amqp_restricted_types::{DistributionMode, TerminusDurability, TerminusExpiryPolicy};
    pub use amqp_section_slices::{Section, SectionKind, Sections, split_section};
    pub use amqp_sections::{AmqpSequence, AmqpValue, Data};
    pub use amqp_termini::{
        Address, FilterSet, NodeProperties, Source, SourceBuilder, Target, TargetArchetype,
        TargetBuilder,
    };

    /// Whole messages, and strict ones (Part 3, section 3.2).
    pub mod message {
        pub use amqp_bodies::Body;
        pub use amqp_messages::builder::{Builder, EmptyBody};
        pub use amqp_messages::{
            DecodeIntoMessage, FromMessage, Message, Strict, canonical_text_strict,
            canonical_text_strict_within, decode_message_strict, decode_message_strict_within,
        };

        /// The wrappers with which a message is written and read.
        pub mod wrappers {
            pub use amqp_messages::wrappers::{Deserializable, Serializable};
        }
    }

    /// Headers of messages (Part 3, section 3.2.1).
    pub mod header {
        pub use amqp_message_headers::header::{Builder, Header};
    }

    /// Properties of messages (Part 3, section 3.2.4).
    pub mod properties {
        pub use amqp_message_headers::properties::{Builder, Properties};
    }

    /// Annotations, and their keys (Part 3, section 3.2.10).
    pub mod annotations {
        pub use amqp_annotations::{
            AnnotationKey, Annotations, BorrowedKey, OwnedKey, annotation_get, annotation_remove,
        };
    }

    /// How a map section is built (Part 3, sections 3.2.2, 3.2.3, 3.2.5 and 3.2.9).
    pub mod map_builder {
        pub use amqp_map_sections::MapBuilder;
    }
}

/// The performatives of connections, sessions, links and deliveries (Part 2, section 2.7).
pub mod performatives {
    pub use amqp_attach::{Attach, Performative, Unsettled};
    pub use amqp_performatives::{Begin, Close, Detach, Disposition, End, Flow, Open, Transfer};
    pub use amqp_restricted_types::{ChannelMax, MaxFrameSize};
}

/// The types of the security layer (Part 5).
pub mod sasl {
    pub use amqp_restricted_types::SaslCode;
    pub use amqp_sasl::{
        ANONYMOUS, SaslChallenge, SaslInit, SaslMechanisms, SaslOutcome, SaslResponse,
    };

    /// Its version.
    pub mod constant {
        pub use amqp_sasl::{SASL_MAJOR, SASL_MINOR, SASL_REVISION};
    }
}

/// The states of connections and sessions (Part 2, sections 2.4.6 and 2.5.5).
pub mod states {
    pub use amqp_restricted_types::{ConnectionState, SessionState};
}

/// The types of transactions (Part 4).
pub mod transaction {
    pub use amqp_delivery::TransactionalState;
    pub use amqp_errors::TransactionError;
    pub use amqp_plain_states::{Declare, Declared, Discharge, TransactionId};
    pub use amqp_restricted_types::TxnCapability;
    pub use amqp_termini::Coordinator;
}
