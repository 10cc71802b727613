//! DeliveryAnnotations (Part 3, section 3.2.2).
ghost use Rattle.std.specs.Prelude.{◌≡◌, [], Some, refl};
ghost use Rattle.amqp_sections.specs.SectionType.{section_of, section_writing, section_agreement};
ghost use Rattle.amqp_annotations.specs.AnnotationsType.{annotations_type, annotations_agreement};
ghost use Rattle.amqp_map_sections.specs.MapSections.{delivery_annotations_naming, in_delivery_annotations};

use crate::MapBuilder;
use amqp_annotations::{Annotations, OwnedKey};
use amqp_codec::{
    ByteSource, Decoder, DeserializeTerm, Encoder, Error, Pass, Serialize, SerializeTerm,
};
use amqp_maps::OrderedMap;
use amqp_sections::{Section, read_section, write_section};
use amqp_values::Value;
use amqp_wire::section_code;
use std::alloc::Global;
use std::ops::{Deref, DerefMut};

/// Delivery annotations (Part 3, section 3.2.2): what the sending peer tells the receiving peer about the delivery of a message.
#[derive(Clone, Debug, PartialEq, Eq, PartialOrd, Ord, Hash, Drop)]
pub struct DeliveryAnnotations(pub Annotations);

impl DeliveryAnnotations {
    /// The code and the name of its descriptor.
    pub const DESCRIPTOR: (u64, &'static str) = (
        section_code::DELIVERY_ANNOTATIONS as u64,
        "amqp:delivery-annotations:map",
    );

    /// Returns the section without pairs. It doesn't allocate.
    pub fn new(alloc: Global) -> DeliveryAnnotations
        ensures { result.0 ≡ [] }
    {
        DeliveryAnnotations(OrderedMap::new(alloc))
    }

    /// Returns a builder of a section, without pairs. It doesn't allocate.
    pub fn builder(alloc: Global) -> MapBuilder<OwnedKey, Value, DeliveryAnnotations>
        ensures { result ≡ [] }
    {
        MapBuilder::new(alloc)
    }
}

impl Deref for DeliveryAnnotations {
    type Target = Annotations;

    ghost deref_gives = { λ section map. map ≡ section.0 };

    fn deref(&self) -> &Annotations {
        &self.0
    }
}

impl DerefMut for DeliveryAnnotations {
    ghost deref_mut_gives = { λ section map. map ≡ section.0 };

    fn deref_mut(&mut self) -> &mut Annotations {
        &mut self.0
    }
}

impl From<MapBuilder<OwnedKey, Value, DeliveryAnnotations>> for DeliveryAnnotations {
    ghost from_gives = { λ builder section. section.0 ≡ builder };

    fn from(builder: MapBuilder<OwnedKey, Value, DeliveryAnnotations>) -> DeliveryAnnotations {
        DeliveryAnnotations(builder.into_map())
    }
}

impl From<MapBuilder<OwnedKey, Value, DeliveryAnnotations>> for Option<DeliveryAnnotations> {
    ghost from_gives = { λ builder section. section ≡ Some (record { 0 = builder }) };

    fn from(
        builder: MapBuilder<OwnedKey, Value, DeliveryAnnotations>,
    ) -> Option<DeliveryAnnotations> {
        Some(DeliveryAnnotations(builder.into_map()))
    }
}

impl Section<Annotations> for DeliveryAnnotations {
    ghost naming = { delivery_annotations_naming };

    ghost holds = { in_delivery_annotations };

    fn descriptor() -> (u64, &'static str) {
        DeliveryAnnotations::DESCRIPTOR
    }

    fn of_content(value: Annotations) -> DeliveryAnnotations {
        DeliveryAnnotations(value)
    }
}

impl Serialize for DeliveryAnnotations {
    ghost writing = { section_writing in_delivery_annotations delivery_annotations_naming ⟦<Annotations as Serialize>⟧.writing };

    fn serialize<P: Pass>(&self, encoder: &mut Encoder<P>) -> Result<(), Error> {
        write_section(DeliveryAnnotations::DESCRIPTOR.0, &self.0, encoder)
    }

    fn in_type(&self) {
        self.0.in_type();
    }
}

impl SerializeTerm for DeliveryAnnotations {
    fn is_null(&self) -> bool {
        false
    }

    ghost is_term = { λ v. refl };
}

impl DeserializeTerm for DeliveryAnnotations {
    ghost term = { section_of in_delivery_annotations delivery_annotations_naming annotations_type };

    fn read_value<R: ByteSource>(
        decoder: &mut Decoder<R>,
        alloc: Global,
    ) -> Result<DeliveryAnnotations, Error> {
        read_section::<_, Annotations, _>(decoder, alloc)
    }

    ghost agreement = { section_agreement in_delivery_annotations delivery_annotations_naming annotations_agreement };
}
