//! What holds for the sections that are maps in addition to the laws of every type. The functions do nothing; their contracts are proved.
ghost use Rattle.std.specs.Prelude.{◌≡◌, true, IsTrue};

use crate::{ApplicationProperties, DeliveryAnnotations, Footer, MessageAnnotations};
use amqp_annotations::OwnedKey;
use amqp_codec::Canonical;
use amqp_simple_values::SimpleValue;
use amqp_values::Value;

/// For these types, no encoding of a value is shorter than its canonical text, if it holds no array.
pub fn texts_are_least()
    ensures delivery_annotations { ⟦<DeliveryAnnotations as Canonical>⟧.is_least ≡ true }
    ensures message_annotations { ⟦<MessageAnnotations as Canonical>⟧.is_least ≡ true }
    ensures application_properties { ⟦<ApplicationProperties as Canonical>⟧.is_least ≡ true }
    ensures footer { ⟦<Footer as Canonical>⟧.is_least ≡ true }
{}

// A clone of a key is equal to it.
fn copies_of_keys_are_equal()
    ensures { (v copy : _) → ⟦<OwnedKey as Clone>⟧.is_clone v copy → IsTrue (⟦<OwnedKey as PartialEq>⟧.eq v copy) }
{}

/// A clone of each of these is equal to what it was made of.
pub fn copies_are_equal()
    ensures delivery_annotations { (v copy : _) → ⟦<DeliveryAnnotations as Clone>⟧.is_clone v copy
        → IsTrue (⟦<DeliveryAnnotations as PartialEq>⟧.eq v copy) }
    ensures message_annotations { (v copy : _) → ⟦<MessageAnnotations as Clone>⟧.is_clone v copy
        → IsTrue (⟦<MessageAnnotations as PartialEq>⟧.eq v copy) }
    ensures application_properties { (v copy : _) → ⟦<ApplicationProperties as Clone>⟧.is_clone v copy
        → IsTrue (⟦<ApplicationProperties as PartialEq>⟧.eq v copy) }
    ensures footer { (v copy : _) → ⟦<Footer as Clone>⟧.is_clone v copy → IsTrue (⟦<Footer as PartialEq>⟧.eq v copy) }
{
    copies_of_keys_are_equal();
    amqp_maps::laws::copies_are_equal::<OwnedKey, Value>();
    amqp_maps::laws::copies_are_equal::<String, SimpleValue>();
}
