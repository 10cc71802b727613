//! ApplicationProperties (Part 3, section 3.2.5).
ghost use Rattle.std.specs.Prelude.{◌≡◌, [], Some, refl};
ghost use Rattle.amqp_sections.specs.SectionType.{section_of, section_writing, section_agreement};
ghost use Rattle.amqp_map_sections.specs.SimpleMaps.{simple_map_type, simple_map_agreement};
ghost use Rattle.amqp_map_sections.specs.MapSections.{application_properties_naming, in_application_properties};

use crate::MapBuilder;
use amqp_codec::{
    ByteSource, Decoder, DeserializeTerm, Encoder, Error, Pass, Serialize, SerializeTerm,
};
use amqp_maps::OrderedMap;
use amqp_sections::{Section, read_section, write_section};
use amqp_simple_values::SimpleValue;
use amqp_wire::section_code;
use std::alloc::Global;
use std::ops::{Deref, DerefMut};

/// Application properties (Part 3, section 3.2.5): simple values under names, which intermediaries may filter by.
#[derive(Clone, Debug, PartialEq, Eq, PartialOrd, Ord, Hash, Drop)]
pub struct ApplicationProperties(pub OrderedMap<String, SimpleValue>);

impl ApplicationProperties {
    /// The code and the name of its descriptor.
    pub const DESCRIPTOR: (u64, &'static str) = (
        section_code::APPLICATION_PROPERTIES as u64,
        "amqp:application-properties:map",
    );

    /// Returns the section without pairs. It doesn't allocate.
    pub fn new(alloc: Global) -> ApplicationProperties
        ensures { result.0 ≡ [] }
    {
        ApplicationProperties(OrderedMap::new(alloc))
    }

    /// Returns a builder of a section, without pairs. It doesn't allocate.
    pub fn builder(alloc: Global) -> MapBuilder<String, SimpleValue, ApplicationProperties>
        ensures { result ≡ [] }
    {
        MapBuilder::new(alloc)
    }
}

impl Deref for ApplicationProperties {
    type Target = OrderedMap<String, SimpleValue>;

    ghost deref_gives = { λ section map. map ≡ section.0 };

    fn deref(&self) -> &OrderedMap<String, SimpleValue> {
        &self.0
    }
}

impl DerefMut for ApplicationProperties {
    ghost deref_mut_gives = { λ section map. map ≡ section.0 };

    fn deref_mut(&mut self) -> &mut OrderedMap<String, SimpleValue> {
        &mut self.0
    }
}

impl From<MapBuilder<String, SimpleValue, ApplicationProperties>> for ApplicationProperties {
    ghost from_gives = { λ builder section. section.0 ≡ builder };

    fn from(
        builder: MapBuilder<String, SimpleValue, ApplicationProperties>,
    ) -> ApplicationProperties {
        ApplicationProperties(builder.into_map())
    }
}

impl From<MapBuilder<String, SimpleValue, ApplicationProperties>>
    for Option<ApplicationProperties> {
    ghost from_gives = { λ builder section. section ≡ Some (record { 0 = builder }) };

    fn from(
        builder: MapBuilder<String, SimpleValue, ApplicationProperties>,
    ) -> Option<ApplicationProperties> {
        Some(ApplicationProperties(builder.into_map()))
    }
}

impl Section<OrderedMap<String, SimpleValue>> for ApplicationProperties {
    ghost naming = { application_properties_naming };

    ghost holds = { in_application_properties };

    fn descriptor() -> (u64, &'static str) {
        ApplicationProperties::DESCRIPTOR
    }

    fn of_content(value: OrderedMap<String, SimpleValue>) -> ApplicationProperties {
        ApplicationProperties(value)
    }
}

impl Serialize for ApplicationProperties {
    ghost writing = { section_writing in_application_properties application_properties_naming ⟦<OrderedMap<String, SimpleValue> as Serialize>⟧.writing };

    fn serialize<P: Pass>(&self, encoder: &mut Encoder<P>) -> Result<(), Error> {
        write_section(ApplicationProperties::DESCRIPTOR.0, &self.0, encoder)
    }

    fn in_type(&self) {
        self.0.in_type();
    }
}

impl SerializeTerm for ApplicationProperties {
    fn is_null(&self) -> bool {
        false
    }

    ghost is_term = { λ v. refl };
}

impl DeserializeTerm for ApplicationProperties {
    ghost term = { section_of in_application_properties application_properties_naming simple_map_type };

    fn read_value<R: ByteSource>(
        decoder: &mut Decoder<R>,
        alloc: Global,
    ) -> Result<ApplicationProperties, Error> {
        read_section::<_, OrderedMap<String, SimpleValue>, _>(decoder, alloc)
    }

    ghost agreement = { section_agreement in_application_properties application_properties_naming simple_map_agreement };
}
