//! The tables of fields by which composites are written, and the laws of all tables.
ghost use Rattle.std.specs.Prelude.{◌≡◌, ◌↔◌, ◌≤◌, ◌<◌, ℕ, List, [], ◌∷◌, ◌++◌, true, false, length, get_or, Some, None};
ghost use Rattle.std.specs.List.{AllZip};
ghost use Rattle.amqp_model.specs.Term.{null, code, name, list, array, empty_multiple, Term, leaf, described, container, barred, Terms};
ghost use Rattle.amqp_model.specs.Term.{none, more};
ghost use Rattle.amqp_model.specs.Items.{items_of, is_null, IsFree};
ghost use Rattle.amqp_model.specs.laws.Item.{AreFree};
ghost use Rattle.amqp_model.specs.Ranges.{IsNoArray};
ghost use Rattle.amqp_model.specs.FieldType.{normal};
ghost use Rattle.amqp_model.specs.Slot.{is_required, mandatory, optional, default, multiple, mandatory_multiple};
ghost use Rattle.amqp_model.specs.Fields.{rules_of, Fits, canonical_items, AreValues, Same};
ghost use Rattle.amqp_model.specs.Composite.{MeansComposite, canonical_term};
ghost use Rattle.amqp_model.specs.declared.tables.FieldRule.TheVariants.{Optional};

/// The rules of fields (Part 1, section 1.4).
#[derive(Clone, Copy, Debug, PartialEq, Eq)]
pub enum FieldRule {
    /// A value must be present.
    Mandatory,
    /// Null is no value.
    Optional,
    /// Null is the default value.
    Default,
    /// Any number of values; null is none.
    Multiple,
    /// At least one value.
    MandatoryMultiple,
}

/// A type with a table of fields. The laws below hold for every table.
pub trait HasTable {
    ghost use Rattle.amqp_model.specs.Composite.{Table};

    ghost table: { Table Self };
}

/// The canonical items of a value fit its table as the value again, normalised, if no refusal is in them.
pub fn canonical_items_fit<C: HasTable>()
    ensures { (v : C) → AreValues C.table.fields v → AreFree (canonical_items C.table.fields v)
        → Fits C.table.fields (canonical_items C.table.fields v) (normal C.table.norm v) }
{}

/// One list of items fits a table as one value, apart from where the value is in memory.
pub fn one_value<C: HasTable>()
    ensures { (items : List Term) (v w : C) → Fits C.table.fields items v → Fits C.table.fields items w → Same C.table.fields v w }
{}

/// No list of items that fits as a value is shorter than the canonical one.
pub fn canonical_items_are_fewest<C: HasTable>()
    ensures { (items : List Term) (v : C) → Fits C.table.fields items v → length (canonical_items C.table.fields v) ≤ length items }
{}

/// What fits as a value is a value of the type and its own normal value, and it can be written. Its canonical items fit as the value.
pub fn fitting_values_are_canonical<C: HasTable>()
    ensures values { (items : List Term) (v : C) → Fits C.table.fields items v → AreValues C.table.fields v }
    ensures normal { (items : List Term) (v : C) → Fits C.table.fields items v → Same C.table.fields (normal C.table.norm v) v }
    ensures free { (items : List Term) (v : C) → Fits C.table.fields items v → AreFree (canonical_items C.table.fields v) }
    ensures again { (items : List Term) (v : C) → Fits C.table.fields items v → Fits C.table.fields (canonical_items C.table.fields v) v }
{}

/// Normalising a value doesn't change its canonical items, and normalising it twice is the same as once.
pub fn normal_values<C: HasTable>()
    ensures items { (v : C) → canonical_items C.table.fields (normal C.table.norm v) ≡ canonical_items C.table.fields v }
    ensures once { (v : C) → Same C.table.fields (normal C.table.norm (normal C.table.norm v)) (normal C.table.norm v) }
{}

/// Values that differ only in where they are in memory have the same canonical items, and what fits one fits the other.
pub fn same_values<C: HasTable>()
    ensures reflexive { (v : C) → Same C.table.fields v v }
    ensures symmetric { (v w : C) → Same C.table.fields v w → Same C.table.fields w v }
    ensures transitive { (v w x : C) → Same C.table.fields v w → Same C.table.fields w x → Same C.table.fields v x }
    ensures items { (v w : C) → Same C.table.fields v w → canonical_items C.table.fields v ≡ canonical_items C.table.fields w }
    ensures fits { (items : List Term) (v w : C) → Same C.table.fields v w → Fits C.table.fields items v → Fits C.table.fields items w }
{}

/// There are no more items than fields. A null at the end means the same as a missing item, and neither fits a mandatory field.
pub fn missing_items<C: HasTable>()
    ensures no_surplus { (items : List Term) (v : C) → Fits C.table.fields items v → length items ≤ length (rules_of C.table.fields) }
    ensures as_null { (items : List Term) (v : C) → length items < length (rules_of C.table.fields)
        → (Fits C.table.fields (items ++ leaf null ∷ []) v ↔ Fits C.table.fields items v) }
    ensures required { (items : List Term) (v : C) (index : ℕ) → Fits C.table.fields items v
        → is_required (get_or (rules_of C.table.fields) index Optional) ≡ true → is_null (get_or items index (leaf null)) ≡ false }
{}

/// A composite is a described list whose items fit. Its descriptor is the code or the name, and the canonical one is the code.
pub fn composite_terms<C: HasTable>()
    ensures by_code { (items : Terms) (v : C) → MeansComposite C.table (described (code C.table.code) (container list items)) v
        ↔ Fits C.table.fields (items_of items) v }
    ensures by_name { (items : Terms) (v : C) → MeansComposite C.table (described (name C.table.name) (container list items)) v
        ↔ Fits C.table.fields (items_of items) v }
    ensures canonical { (v : C) → AreValues C.table.fields v → IsFree (canonical_term C.table v)
        → MeansComposite C.table (canonical_term C.table v) (normal C.table.norm v) }
    ensures one_value { (t : Term) (v w : C) → MeansComposite C.table t v → MeansComposite C.table t w → Same C.table.fields v w }
    ensures never_null { (t : Term) (v : C) → MeansComposite C.table t v → is_null t ≡ false }
{}

/// A type of fields.
pub trait HasFieldType {
    ghost use Rattle.amqp_model.specs.FieldType.{FieldType};

    ghost field_type: { FieldType Self };
}

/// Null doesn't fit a mandatory field, and is no value in an optional field. There any other term is what it means.
pub fn mandatory_and_optional_fields<T: HasFieldType>()
    ensures mandatory { (t : Term) (v : T) → (mandatory T.field_type).meaning.means t v ↔ (is_null t ≡ false)
        × T.field_type.meaning.means t v }
    ensures null { (t : Term) → (optional T.field_type).meaning.means t None ↔ (is_null t ≡ true) }
    ensures value { (t : Term) (v : T) → (optional T.field_type).meaning.means t (Some v) ↔ T.field_type.meaning.means t v }
    ensures canonical_null { (optional T.field_type).meaning.canon None ≡ leaf null }
{}

/// A type of fields with a default value.
pub trait HasDefault {
    ghost use Rattle.amqp_model.specs.FieldType.{FieldType};
    ghost use Rattle.amqp_model.specs.FieldRules.{DefaultValue};

    ghost field_type: { FieldType Self };

    ghost default_value: { DefaultValue field_type.meaning };
}

/// In a field with a default, null is the default value, and any other term is what it means. The default value is written as null.
pub fn default_fields<T: HasDefault>()
    ensures null { (t : Term) (v : T) → is_null t ≡ true
        → ((default T.field_type T.default_value).meaning.means t v ↔ T.field_type.meaning.same v T.default_value.value) }
    ensures value { (t : Term) (v : T) → is_null t ≡ false
        → ((default T.field_type T.default_value).meaning.means t v ↔ T.field_type.meaning.means t v) }
    ensures canonical_null { (v : T) → T.field_type.meaning.same v T.default_value.value
        → (default T.field_type T.default_value).meaning.canon v ≡ leaf null }
{}

/// A type whose values hold any number of items of another type.
pub trait HasItems<A> {
    ghost use Rattle.amqp_model.specs.FieldType.{FieldType};
    ghost use Rattle.amqp_model.specs.FieldRules.{ArrayOf};

    ghost item: { FieldType A };

    ghost array: { ArrayOf item.meaning Self };
}

/// In a multiple field, null and an array without items are no value. Another array is its items, and any other term is an array of one. An
/// array is written also for one item, and null for none.
pub fn multiple_fields<A, V: HasItems<A>>()
    ensures null { (t : Term) → is_null t ≡ true → (multiple V.item V.array).meaning.means t None }
    ensures no_items { (multiple V.item V.array).meaning.means (container array none) None }
    ensures items { (t : Term) (more_items : Terms) (v : V) → AllZip V.item.meaning.means (t ∷ items_of more_items) (V.array.contents v)
        → (multiple V.item V.array).meaning.means (container array (more t more_items)) (Some v) }
    ensures one_item { (t : Term) (item : A) (v : V) → IsNoArray t → V.item.meaning.means t item → V.array.contents v ≡ item ∷ []
        → (multiple V.item V.array).meaning.means t (Some v) }
    ensures canonical_one { (item : A) (v : V) → V.array.contents v ≡ item ∷ []
        → (multiple V.item V.array).meaning.canon (Some v) ≡ container array (more (V.item.meaning.canon item) none) }
    ensures canonical_none { (v : V) → V.array.contents v ≡ [] → (multiple V.item V.array).meaning.canon (Some v) ≡ leaf null }
{}

/// A mandatory and multiple field takes the same terms, but only those with an item. A value without items is refused.
pub fn mandatory_multiple_fields<A, V: HasItems<A>>()
    ensures same_terms { (t : Term) (v : V) → (mandatory_multiple V.item V.array).meaning.means t v
        ↔ (multiple V.item V.array).meaning.means t (Some v) }
    ensures null { (t : Term) (v : V) → is_null t ≡ true → (mandatory_multiple V.item V.array).meaning.means t v → ⊥ }
    ensures no_items { (v : V) → (mandatory_multiple V.item V.array).meaning.means (container array none) v → ⊥ }
    ensures canonical_one { (item : A) (v : V) → V.array.contents v ≡ item ∷ []
        → (mandatory_multiple V.item V.array).meaning.canon v ≡ container array (more (V.item.meaning.canon item) none) }
    ensures canonical_none { (v : V) → V.array.contents v ≡ []
        → (mandatory_multiple V.item V.array).meaning.canon v ≡ barred empty_multiple }
{}
