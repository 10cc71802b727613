//! The calls of messages (Part 3, section 3.2).
ghost use Rattle.std.specs.Prelude.{◌≡◌, ◌≤◌};
ghost use Rattle.amqp_messages.specs.MessageCalls.{one_if_there, sections_of, last_code_of, HasSectionsOf};

use crate::message::Message;
use amqp_wire::section_code;

// One for a section that is present.
fn count<T>(section: &Option<T>) -> u32
    ensures count { result ≡ one_if_there section.now }
    ensures few { result ≤ 1 }
{
    match section {
        Some(_) => 1,
        None => 0,
    }
}

impl<B> Message<B> {
    /// Returns how many sections it has: one for the body, and the others that are present.
    pub fn sections(&self) -> u32
        ensures { result ≡ sections_of self.now }
    {
        let annotations = count(&self.delivery_annotations) + count(&self.message_annotations);
        let properties = count(&self.properties) + count(&self.application_properties);
        count(&self.header) + annotations + properties + 1 + count(&self.footer)
    }

    /// Returns the code of its last section: 0x78 if it has a footer, otherwise 0x77, whatever the body is.
    pub fn last_section_code(&self) -> u8
        ensures { result ≡ last_code_of self.now }
    {
        match self.footer {
            Some(_) => section_code::FOOTER,
            None => section_code::AMQP_VALUE,
        }
    }

    /// Returns the message with another body, which the closure makes of this one.
    pub fn map_body<C, F: FnOnce(B) -> C>(self, change: F) -> Message<C>
        requires { F.pre change self.body }
        ensures body { F.post change self.body result.body }
        ensures others { HasSectionsOf self result }
    {
        Message {
            header: self.header,
            delivery_annotations: self.delivery_annotations,
            message_annotations: self.message_annotations,
            properties: self.properties,
            application_properties: self.application_properties,
            body: change(self.body),
            footer: self.footer,
        }
    }
}
