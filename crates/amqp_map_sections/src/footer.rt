//! Footer (Part 3, section 3.2.9).
ghost use Rattle.std.specs.Prelude.{◌≡◌, [], Some, refl};
ghost use Rattle.amqp_sections.specs.SectionType.{section_of, section_writing, section_agreement};
ghost use Rattle.amqp_annotations.specs.AnnotationsType.{annotations_type, annotations_agreement};
ghost use Rattle.amqp_map_sections.specs.MapSections.{footer_naming, in_footer};

use crate::MapBuilder;
use amqp_annotations::{Annotations, OwnedKey};
use amqp_codec::{
    ByteSource, Decoder, DeserializeTerm, Encoder, Error, Pass, Serialize, SerializeTerm,
};
use amqp_maps::OrderedMap;
use amqp_sections::{Section, read_section, write_section};
use amqp_values::Value;
use amqp_wire::section_code;
use std::alloc::Global;
use std::ops::{Deref, DerefMut};

/// A footer (Part 3, section 3.2.9): details about a message or delivery that need the whole bare message, as a signature.
#[derive(Clone, Debug, PartialEq, Eq, PartialOrd, Ord, Hash, Drop)]
pub struct Footer(pub Annotations);

impl Footer {
    /// The code and the name of its descriptor.
    pub const DESCRIPTOR: (u64, &'static str) = (section_code::FOOTER as u64, "amqp:footer:map");

    /// Returns the section without pairs. It doesn't allocate.
    pub fn new(alloc: Global) -> Footer
        ensures { result.0 ≡ [] }
    {
        Footer(OrderedMap::new(alloc))
    }

    /// Returns a builder of a section, without pairs. It doesn't allocate.
    pub fn builder(alloc: Global) -> MapBuilder<OwnedKey, Value, Footer>
        ensures { result ≡ [] }
    {
        MapBuilder::new(alloc)
    }
}

impl Deref for Footer {
    type Target = Annotations;

    ghost deref_gives = { λ section map. map ≡ section.0 };

    fn deref(&self) -> &Annotations {
        &self.0
    }
}

impl DerefMut for Footer {
    ghost deref_mut_gives = { λ section map. map ≡ section.0 };

    fn deref_mut(&mut self) -> &mut Annotations {
        &mut self.0
    }
}

impl From<MapBuilder<OwnedKey, Value, Footer>> for Footer {
    ghost from_gives = { λ builder section. section.0 ≡ builder };

    fn from(builder: MapBuilder<OwnedKey, Value, Footer>) -> Footer {
        Footer(builder.into_map())
    }
}

impl From<MapBuilder<OwnedKey, Value, Footer>> for Option<Footer> {
    ghost from_gives = { λ builder section. section ≡ Some (record { 0 = builder }) };

    fn from(builder: MapBuilder<OwnedKey, Value, Footer>) -> Option<Footer> {
        Some(Footer(builder.into_map()))
    }
}

impl Section<Annotations> for Footer {
    ghost naming = { footer_naming };

    ghost holds = { in_footer };

    fn descriptor() -> (u64, &'static str) {
        Footer::DESCRIPTOR
    }

    fn of_content(value: Annotations) -> Footer {
        Footer(value)
    }
}

impl Serialize for Footer {
    ghost writing = { section_writing in_footer footer_naming ⟦<Annotations as Serialize>⟧.writing };

    fn serialize<P: Pass>(&self, encoder: &mut Encoder<P>) -> Result<(), Error> {
        write_section(Footer::DESCRIPTOR.0, &self.0, encoder)
    }

    fn in_type(&self) {
        self.0.in_type();
    }
}

impl SerializeTerm for Footer {
    fn is_null(&self) -> bool {
        false
    }

    ghost is_term = { λ v. refl };
}

impl DeserializeTerm for Footer {
    ghost term = { section_of in_footer footer_naming annotations_type };

    fn read_value<R: ByteSource>(decoder: &mut Decoder<R>, alloc: Global) -> Result<Footer, Error> {
        read_section::<_, Annotations, _>(decoder, alloc)
    }

    ghost agreement = { section_agreement in_footer footer_naming annotations_agreement };
}
