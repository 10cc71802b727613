//! What holds for lifetimes in addition to the laws of every type. The function does nothing; its contract is proved.
ghost use Rattle.std.specs.Prelude.{◌≡◌, false};

use crate::{
    DeleteOnClose, DeleteOnNoLinks, DeleteOnNoLinksOrMessages, DeleteOnNoMessages, LifetimePolicy,
};
use amqp_codec::Deserialize;

/// Lifetimes are read without allocating, so `from_slice` never returns `Memory` for them.
pub fn reading_takes_no_memory()
    ensures delete_on_close { ⟦<DeleteOnClose as Deserialize>⟧.reading.takes_memory ≡ false }
    ensures delete_on_no_links { ⟦<DeleteOnNoLinks as Deserialize>⟧.reading.takes_memory ≡ false }
    ensures delete_on_no_messages { ⟦<DeleteOnNoMessages as Deserialize>⟧.reading.takes_memory ≡ false }
    ensures delete_on_no_links_or_messages { ⟦<DeleteOnNoLinksOrMessages as Deserialize>⟧.reading.takes_memory ≡ false }
    ensures lifetime_policy { ⟦<LifetimePolicy as Deserialize>⟧.reading.takes_memory ≡ false }
{}
