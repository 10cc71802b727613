//! The canonical text of a message (Part 3, section 3.2).
ghost use Rattle.std.specs.Prelude.{◌≡◌, [], false};
ghost use Rattle.amqp_annotations.specs.AnnotationsType.{annotations_agreement};
ghost use Rattle.amqp_map_sections.specs.SimpleMaps.{simple_map_agreement};
ghost use Rattle.amqp_bodies.specs.ReadsAs.{read_as};
ghost use Rattle.amqp_messages.specs.declared.order.Order.TheVariants.{Any};
ghost use Rattle.amqp_messages.specs.MessageAgain.{message_again, message_is_rewritten};

use crate::message::Message;
use amqp_bodies::CanonicalBody;
use amqp_codec::Canonical;

/// A message has one text, whatever the order of its sections was: the sections in the standard's order. Nothing may follow it.
impl<B: CanonicalBody> Canonical for Message<B> {
    ghost follows = { λ more. more ≡ [] };

    ghost again = { message_again B.again };

    ghost kept = { λ message. B.kept message.body };

    ghost lasts = { λ message. B.lasts message.body };

    ghost is_least = { false };

    ghost rewrites = { message_is_rewritten annotations_agreement simple_map_agreement B.is_text (read_as B.group_is B.is_read) Any };
}
