//! Messages made of a value (Part 3, section 3.2).
ghost use Rattle.std.specs.Prelude.{◌≡◌};
ghost use Rattle.amqp_messages.specs.MessageCalls.{only_body};

use crate::message::Message;
use amqp_bodies::IntoBody;

/// Makes the message whose body is the value's, without any other section.
impl<T: IntoBody<Body = B>, B> From<T> for Message<B> {
    ghost from_gives = { λ value message. message ≡ only_body (T.body value) };

    fn from(value: T) -> Message<B> {
        Message {
            header: None,
            delivery_annotations: None,
            message_annotations: None,
            properties: None,
            application_properties: None,
            body: value.into_body(),
            footer: None,
        }
    }
}
