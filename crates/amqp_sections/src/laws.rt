//! What holds for the sections of a body in addition to the laws of every type. The functions do nothing; their contracts are proved.
ghost use Rattle.std.specs.Prelude.{◌≡◌, true, IsTrue};
ghost use Rattle.std.specs.List.{AllZip};
ghost use Rattle.amqp_sections.specs.declared.amqp_sequence.AmqpSequence.{AmqpSequence};
ghost use Rattle.amqp_sections.specs.declared.amqp_value.AmqpValue.{AmqpValue};

use crate::{AmqpSequence, AmqpValue, Data};
use amqp_codec::{Canonical, DeserializeTerm};

/// Data are always shortest (`is_least`); another section is shortest exactly if its value is.
pub fn texts_are_least<T: DeserializeTerm>()
    ensures data { ⟦<Data as Canonical>⟧.is_least ≡ true }
    ensures sequence { ⟦<AmqpSequence<T> as Canonical>⟧.is_least ≡ T.term.is_least }
    ensures value { ⟦<AmqpValue<T> as Canonical>⟧.is_least ≡ T.term.is_least }
{}

/// A clone of a sequence has as many values, and they are clones of the values, in order. A clone of an `AmqpValue` holds a clone of its
/// value.
pub fn values_are_copied<T: Clone>()
    ensures sequence { (sequence copy : AmqpSequence T) → ⟦<AmqpSequence<T> as Clone>⟧.is_clone sequence copy
        → AllZip T.is_clone sequence.0.items copy.0.items }
    ensures value { (value copy : AmqpValue T) → ⟦<AmqpValue<T> as Clone>⟧.is_clone value copy → T.is_clone value.0 copy.0 }
{}

/// If clones of values are equal to them, a clone of a section is equal to it.
#[tactic(auto, using(amqp_containers::proofs::CopiesEqual::equal_all_zip))]
pub fn copies_are_equal<T: Clone + PartialEq>()
    ensures sequence { ((x y : T) → T.is_clone x y → IsTrue (T.eq x y)) → (sequence copy : AmqpSequence T)
        → ⟦<AmqpSequence<T> as Clone>⟧.is_clone sequence copy → IsTrue (⟦<AmqpSequence<T> as PartialEq>⟧.eq sequence copy) }
    ensures value { ((x y : T) → T.is_clone x y → IsTrue (T.eq x y)) → (value copy : AmqpValue T)
        → ⟦<AmqpValue<T> as Clone>⟧.is_clone value copy → IsTrue (⟦<AmqpValue<T> as PartialEq>⟧.eq value copy) }
{}
