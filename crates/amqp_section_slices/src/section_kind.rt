//! The kinds of sections (Part 3, section 3.2).
ghost use Rattle.std.specs.Prelude.{◌≡◌, ◌+◌, ◌<◌, ◌≤◌, true, MatchOption};
ghost use Rattle.amqp_section_slices.specs.Kinds.{code_of, name_of, IsBare, IsBody};
ghost use Rattle.std.specs.Bool.{Decides};

use amqp_wire::section_code;
use std::fmt;

/// A kind of section, in the standard's order (Part 3, section 3.2).
#[derive(Clone, Copy, Debug, PartialEq, Eq)]
pub enum SectionKind {
    /// `header`: how the message is transported (section 3.2.1).
    Header,
    /// `delivery-annotations`: from one node to the next (section 3.2.2).
    DeliveryAnnotations,
    /// `message-annotations`: about the whole message, for the nodes on its way (section 3.2.3).
    MessageAnnotations,
    /// `properties` (section 3.2.4).
    Properties,
    /// `application-properties` (section 3.2.5).
    ApplicationProperties,
    /// `data`: a part of the body, in bytes (section 3.2.6).
    Data,
    /// `amqp-sequence`: a part of the body, as a list (section 3.2.7).
    AmqpSequence,
    /// `amqp-value`: the body, as one value (section 3.2.8).
    AmqpValue,
    /// `footer` (section 3.2.9).
    Footer,
}

impl SectionKind {
    /// Returns the code of the descriptor of such a section, from 0x70 to 0x78.
    pub fn code(self) -> u8
        ensures { result ≡ code_of self }
    {
        match self {
            SectionKind::Header => section_code::HEADER,
            SectionKind::DeliveryAnnotations => section_code::DELIVERY_ANNOTATIONS,
            SectionKind::MessageAnnotations => section_code::MESSAGE_ANNOTATIONS,
            SectionKind::Properties => section_code::PROPERTIES,
            SectionKind::ApplicationProperties => section_code::APPLICATION_PROPERTIES,
            SectionKind::Data => section_code::DATA,
            SectionKind::AmqpSequence => section_code::AMQP_SEQUENCE,
            SectionKind::AmqpValue => section_code::AMQP_VALUE,
            SectionKind::Footer => section_code::FOOTER,
        }
    }

    /// Returns the kind of the section whose descriptor has this code, or `None` if it is no section's.
    pub fn of_code(code: u8) -> Option<SectionKind>
        ensures found { MatchOption result (0x70 ≤ code → code ≤ 0x78 → ⊥) (λ kind. code_of kind ≡ code) }
    {
        match code {
            section_code::HEADER => Some(SectionKind::Header),
            section_code::DELIVERY_ANNOTATIONS => Some(SectionKind::DeliveryAnnotations),
            section_code::MESSAGE_ANNOTATIONS => Some(SectionKind::MessageAnnotations),
            section_code::PROPERTIES => Some(SectionKind::Properties),
            section_code::APPLICATION_PROPERTIES => Some(SectionKind::ApplicationProperties),
            section_code::DATA => Some(SectionKind::Data),
            section_code::AMQP_SEQUENCE => Some(SectionKind::AmqpSequence),
            section_code::AMQP_VALUE => Some(SectionKind::AmqpValue),
            section_code::FOOTER => Some(SectionKind::Footer),
            _ => None,
        }
    }

    /// Returns whether such a section is a part of the bare message, which no node on the way changes: the properties, the application
    /// properties, or the body (section 3.2).
    pub fn is_bare(self) -> bool
        ensures { Decides result (IsBare self) }
    {
        matches!(
            self,
            SectionKind::Properties | SectionKind::ApplicationProperties
        ) || self.is_body()
    }

    /// Returns whether such a section is the body or a part of it: data, a sequence or a value.
    pub fn is_body(self) -> bool
        ensures { Decides result (IsBody self) }
    {
        matches!(
            self,
            SectionKind::Data | SectionKind::AmqpSequence | SectionKind::AmqpValue
        )
    }

    // The standard's name.
    fn name(self) -> &'static str
        ensures { result.now ≡ name_of self }
    {
        match self {
            SectionKind::Header => "header",
            SectionKind::DeliveryAnnotations => "delivery-annotations",
            SectionKind::MessageAnnotations => "message-annotations",
            SectionKind::Properties => "properties",
            SectionKind::ApplicationProperties => "application-properties",
            SectionKind::Data => "data",
            SectionKind::AmqpSequence => "amqp-sequence",
            SectionKind::AmqpValue => "amqp-value",
            SectionKind::Footer => "footer",
        }
    }
}

/// Prints the standard's name of the section, as `delivery-annotations`.
impl fmt::Display for SectionKind {
    ghost use Rattle.std.specs.Prelude.{Some};
    ghost use Rattle.amqp_section_slices.specs.Kinds.{name_of};

    ghost output = { λ kind. Some (name_of kind) };

    fn fmt<W: fmt::Write>(&self, f: &mut fmt::Formatter<W>) -> fmt::Result {
        f.write_str(self.name())
    }
}
