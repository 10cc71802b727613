//! Look-up and removal of annotations, with keys of several types.
ghost use Rattle.std.specs.Prelude.{◌≡◌, IfErr, IfOk, OnErr};
ghost use Rattle.std.specs.Map.{lookup, remove_entry};
ghost use Rattle.std.specs.Option.{option_copied};
ghost use Rattle.amqp_wire.specs.declared.error.Error.TheVariants.{Memory};
ghost use Rattle.amqp_annotations.specs.declared.owned_key.OwnedKey.{OwnedKey};
ghost use Rattle.amqp_annotations.specs.OwnedKeys.{owned_primitive};

use crate::{AnnotationKey, Annotations};
use amqp_codec::Error;
use amqp_values::Value;
use std::alloc::Global;

/// Returns the value of `key`, if there is one. The key is copied to an owned key for the look-up, so the only error is `Memory`.
pub fn annotation_get<'m, K: AnnotationKey>(
    map: &'m Annotations,
    key: &K,
    alloc: Global,
) -> Result<Option<&'m Value>, Error>
    ensures found { IfOk result (λ found. (owned : OwnedKey) → owned_primitive owned ≡ K.primitive key.now
        → option_copied found ≡ lookup (⟦<crate::OwnedKey as PartialEq>⟧.eq owned) map.now) }
    ensures refused { IfErr result (λ e. e ≡ Memory) }
{
    let owned = key.key().to_owned_key(alloc)?;
    Ok(map.get(&owned))
}

/// Removes a key, and returns its value, if there is one. The other pairs keep their order. The key is copied to an owned key for the
/// look-up, so the only error is `Memory`, and then nothing is removed.
pub fn annotation_remove<K: AnnotationKey>(
    map: &mut Annotations,
    key: &K,
    alloc: Global,
) -> Result<Option<Value>, Error>
    ensures found { IfOk result (λ found. (owned : OwnedKey) → owned_primitive owned ≡ K.primitive key.now
        → found ≡ lookup (⟦<crate::OwnedKey as PartialEq>⟧.eq owned) map.old) }
    ensures removed { IfOk result (λ found. (owned : OwnedKey) → owned_primitive owned ≡ K.primitive key.now
        → map.new ≡ remove_entry (⟦<crate::OwnedKey as PartialEq>⟧.eq owned) map.old) }
    ensures kept { OnErr result (map.new ≡ map.old) }
    ensures refused { IfErr result (λ e. e ≡ Memory) }
{
    let owned = key.key().to_owned_key(alloc)?;
    Ok(map.shift_remove(&owned))
}
