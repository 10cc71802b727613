//! Writing messages: the sections that are present, in the standard's order (Part 3, section 3.2).
ghost use Rattle.std.specs.Prelude.{IfSome};
ghost use Rattle.amqp_codec.specs.Written.{WritesTerms};
ghost use Rattle.amqp_messages.specs.KindsWriting.{optional};
ghost use Rattle.amqp_messages.specs.MessageWriting.{message_writing};

use crate::message::Message;
use amqp_bodies::SerializableBody;
use amqp_codec::{Encoder, Error, Pass, Serialize};
use amqp_map_sections::{ApplicationProperties, DeliveryAnnotations, Footer, MessageAnnotations};
use amqp_message_headers::{Header, Properties};

// Writes a section that may be absent; then nothing is written.
fn write_some<T: Serialize, P: Pass>(
    section: &Option<T>,
    encoder: &mut Encoder<P>,
) -> Result<(), Error>
    ensures { WritesTerms (optional T.writing.canons section.now) encoder.old result encoder.new }
{
    match section {
        Some(section) => section.serialize(encoder),
        None => encoder.check(),
    }
}

// Promises that a section that is present is of its type.
fn some_in_type<T: Serialize>(section: &Option<T>)
    ensures { IfSome section.now T.writing.is_value }
{
    if let Some(section) = section {
        section.in_type();
    }
}

/// Writes the sections in the standard's order: header, delivery annotations, message annotations, properties, application properties,
/// body, footer.
impl<B: SerializableBody> Serialize for Message<B> {
    ghost writing = { message_writing (
      ⟦<Header as Serialize>⟧.writing,
      (
        ⟦<DeliveryAnnotations as Serialize>⟧.writing,
        (
          ⟦<MessageAnnotations as Serialize>⟧.writing,
          (
            ⟦<Properties as Serialize>⟧.writing,
            (⟦<ApplicationProperties as Serialize>⟧.writing, (B.writing, (⟦<Footer as Serialize>⟧.writing, tt))),
          ),
        ),
      ),
    ) };

    fn serialize<P: Pass>(&self, encoder: &mut Encoder<P>) -> Result<(), Error> {
        write_some(&self.header, encoder)?;
        write_some(&self.delivery_annotations, encoder)?;
        write_some(&self.message_annotations, encoder)?;
        write_some(&self.properties, encoder)?;
        write_some(&self.application_properties, encoder)?;
        self.body.serialize(encoder)?;
        write_some(&self.footer, encoder)
    }

    fn in_type(&self) {
        some_in_type(&self.header);
        some_in_type(&self.delivery_annotations);
        some_in_type(&self.message_annotations);
        some_in_type(&self.properties);
        some_in_type(&self.application_properties);
        self.body.in_type();
        some_in_type(&self.footer);
    }
}
