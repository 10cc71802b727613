//! MessageAnnotations (Part 3, section 3.2.3).
ghost use Rattle.std.specs.Prelude.{◌≡◌, [], Some, refl};
ghost use Rattle.amqp_sections.specs.SectionType.{section_of, section_writing, section_agreement};
ghost use Rattle.amqp_annotations.specs.AnnotationsType.{annotations_type, annotations_agreement};
ghost use Rattle.amqp_map_sections.specs.MapSections.{message_annotations_naming, in_message_annotations};

use crate::MapBuilder;
use amqp_annotations::{Annotations, OwnedKey};
use amqp_codec::{
    ByteSource, Decoder, DeserializeTerm, Encoder, Error, Pass, Serialize, SerializeTerm,
};
use amqp_maps::OrderedMap;
use amqp_sections::{Section, read_section, write_section};
use amqp_values::Value;
use amqp_wire::section_code;
use std::alloc::Global;
use std::ops::{Deref, DerefMut};

/// Message annotations (Part 3, section 3.2.3): information for the infrastructure, which is passed on at every hop.
#[derive(Clone, Debug, PartialEq, Eq, PartialOrd, Ord, Hash, Drop)]
pub struct MessageAnnotations(pub Annotations);

impl MessageAnnotations {
    /// The code and the name of its descriptor.
    pub const DESCRIPTOR: (u64, &'static str) = (
        section_code::MESSAGE_ANNOTATIONS as u64,
        "amqp:message-annotations:map",
    );

    /// Returns the section without pairs. It doesn't allocate.
    pub fn new(alloc: Global) -> MessageAnnotations
        ensures { result.0 ≡ [] }
    {
        MessageAnnotations(OrderedMap::new(alloc))
    }

    /// Returns a builder of a section, without pairs. It doesn't allocate.
    pub fn builder(alloc: Global) -> MapBuilder<OwnedKey, Value, MessageAnnotations>
        ensures { result ≡ [] }
    {
        MapBuilder::new(alloc)
    }
}

impl Deref for MessageAnnotations {
    type Target = Annotations;

    ghost deref_gives = { λ section map. map ≡ section.0 };

    fn deref(&self) -> &Annotations {
        &self.0
    }
}

impl DerefMut for MessageAnnotations {
    ghost deref_mut_gives = { λ section map. map ≡ section.0 };

    fn deref_mut(&mut self) -> &mut Annotations {
        &mut self.0
    }
}

impl From<MapBuilder<OwnedKey, Value, MessageAnnotations>> for MessageAnnotations {
    ghost from_gives = { λ builder section. section.0 ≡ builder };

    fn from(builder: MapBuilder<OwnedKey, Value, MessageAnnotations>) -> MessageAnnotations {
        MessageAnnotations(builder.into_map())
    }
}

impl From<MapBuilder<OwnedKey, Value, MessageAnnotations>> for Option<MessageAnnotations> {
    ghost from_gives = { λ builder section. section ≡ Some (record { 0 = builder }) };

    fn from(
        builder: MapBuilder<OwnedKey, Value, MessageAnnotations>,
    ) -> Option<MessageAnnotations> {
        Some(MessageAnnotations(builder.into_map()))
    }
}

impl Section<Annotations> for MessageAnnotations {
    ghost naming = { message_annotations_naming };

    ghost holds = { in_message_annotations };

    fn descriptor() -> (u64, &'static str) {
        MessageAnnotations::DESCRIPTOR
    }

    fn of_content(value: Annotations) -> MessageAnnotations {
        MessageAnnotations(value)
    }
}

impl Serialize for MessageAnnotations {
    ghost writing = { section_writing in_message_annotations message_annotations_naming ⟦<Annotations as Serialize>⟧.writing };

    fn serialize<P: Pass>(&self, encoder: &mut Encoder<P>) -> Result<(), Error> {
        write_section(MessageAnnotations::DESCRIPTOR.0, &self.0, encoder)
    }

    fn in_type(&self) {
        self.0.in_type();
    }
}

impl SerializeTerm for MessageAnnotations {
    fn is_null(&self) -> bool {
        false
    }

    ghost is_term = { λ v. refl };
}

impl DeserializeTerm for MessageAnnotations {
    ghost term = { section_of in_message_annotations message_annotations_naming annotations_type };

    fn read_value<R: ByteSource>(
        decoder: &mut Decoder<R>,
        alloc: Global,
    ) -> Result<MessageAnnotations, Error> {
        read_section::<_, Annotations, _>(decoder, alloc)
    }

    ghost agreement = { section_agreement in_message_annotations message_annotations_naming annotations_agreement };
}
