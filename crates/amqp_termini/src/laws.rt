//! What holds for the types of termini in addition to the laws of every type. The functions do nothing; their contracts are proved.
ghost use Rattle.std.specs.Prelude.{◌≡◌, true};

use crate::{Coordinator, Source, Target, TargetArchetype};
use amqp_codec::Canonical;
pub use amqp_lifetimes::laws::reading_takes_no_memory;
use amqp_lifetimes::{
    DeleteOnClose, DeleteOnNoLinks, DeleteOnNoLinksOrMessages, DeleteOnNoMessages, LifetimePolicy,
    SupportedDistModes,
};

/// For these types, no encoding of a value is shorter than its canonical text, if it holds no array.
pub fn texts_are_least()
    ensures source { ⟦<Source as Canonical>⟧.is_least ≡ true }
    ensures target { ⟦<Target as Canonical>⟧.is_least ≡ true }
    ensures coordinator { ⟦<Coordinator as Canonical>⟧.is_least ≡ true }
    ensures target_archetype { ⟦<TargetArchetype as Canonical>⟧.is_least ≡ true }
    ensures delete_on_close { ⟦<DeleteOnClose as Canonical>⟧.is_least ≡ true }
    ensures delete_on_no_links { ⟦<DeleteOnNoLinks as Canonical>⟧.is_least ≡ true }
    ensures delete_on_no_messages { ⟦<DeleteOnNoMessages as Canonical>⟧.is_least ≡ true }
    ensures delete_on_no_links_or_messages { ⟦<DeleteOnNoLinksOrMessages as Canonical>⟧.is_least ≡ true }
    ensures lifetime_policy { ⟦<LifetimePolicy as Canonical>⟧.is_least ≡ true }
    ensures supported_dist_modes { ⟦<SupportedDistModes as Canonical>⟧.is_least ≡ true }
{}
