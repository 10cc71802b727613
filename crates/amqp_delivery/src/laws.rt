//! What holds for the types of deliveries in addition to the laws of every type. The functions do nothing; their contracts are
//! proved.
ghost use Rattle.std.specs.Prelude.{◌≡◌, true};
ghost use Rattle.amqp_delivery.specs.Members.{as_state};

use crate::{DeliveryState, Modified, Outcome, Rejected, TransactionalState};
use amqp_codec::{Canonical, Serialize};
pub use amqp_plain_states::laws::{orders, reading_takes_no_memory};
use amqp_plain_states::{Accepted, Declare, Declared, Discharge, Received, Released};

/// An outcome is written as the state that is made of it.
pub fn outcomes_are_states()
    ensures { (o : _) → ⟦<DeliveryState as Serialize>⟧.writing.canons (as_state o) ≡ ⟦<Outcome as Serialize>⟧.writing.canons o }
{}

/// For these types, no encoding of a value is shorter than its canonical text, if it holds no array.
pub fn texts_are_least()
    ensures accepted { ⟦<Accepted as Canonical>⟧.is_least ≡ true }
    ensures received { ⟦<Received as Canonical>⟧.is_least ≡ true }
    ensures released { ⟦<Released as Canonical>⟧.is_least ≡ true }
    ensures rejected { ⟦<Rejected as Canonical>⟧.is_least ≡ true }
    ensures modified { ⟦<Modified as Canonical>⟧.is_least ≡ true }
    ensures delivery_state { ⟦<DeliveryState as Canonical>⟧.is_least ≡ true }
    ensures outcome { ⟦<Outcome as Canonical>⟧.is_least ≡ true }
    ensures declare { ⟦<Declare as Canonical>⟧.is_least ≡ true }
    ensures discharge { ⟦<Discharge as Canonical>⟧.is_least ≡ true }
    ensures declared { ⟦<Declared as Canonical>⟧.is_least ≡ true }
    ensures transactional_state { ⟦<TransactionalState as Canonical>⟧.is_least ≡ true }
{}
