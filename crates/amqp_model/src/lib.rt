//! The AMQP 1.0 encoding (OASIS AMQP 1.0, Part 1): `specs/` defines which bytes encode a value and which of them are canonical. The
//! functions here carry the laws of both. They do nothing; their contracts are proved.
#![tactic(auto)]

ghost use Rattle.std.specs.Prelude.{◌≡◌, ℕ, true, pos, negsuc, List, [], ◌∷◌, ◌++◌, ◌^◌, ◌≤◌, ◌+◌, ◌*◌, Bool, false, length, take};
ghost use Rattle.amqp_model.specs.Term.{Term, Refusal, depth, zero_width_items, non_ascii, mixed_array, too_large, lazy_in_array, leaf};
ghost use Rattle.amqp_model.specs.Term.{null, boolean, uint, int, binary, symbol, kept, barred, Descriptor, container, list, map, array};
ghost use Rattle.amqp_model.specs.Term.{described, code, none, more};
ghost use Rattle.amqp_model.specs.Spelling.{IsSpelling};
ghost use Rattle.amqp_model.specs.Text.{text, Alone};
ghost use Rattle.amqp_model.specs.Measures.{nest, nodes, weight, over_descriptors, name_length};
ghost use Rattle.amqp_model.specs.Ranges.{Everywhere, IsValue, IsNoArray, IsBytes};
ghost use Rattle.amqp_model.specs.Kept.{ExpandsTo};
ghost use Rattle.amqp_model.specs.Refusals.{Refuses};
ghost use Rattle.amqp_model.specs.Standing.{Standing, Parts};

pub mod tables;

/// No input has two prefixes that encode terms, and no prefix encodes two terms. Arrays with a shared constructor and chains of descriptors
/// are included (Part 1, section 1.2).
pub fn one_reading()
    ensures one_front { (b c x y : List ℕ) (t u : Term) → IsSpelling b t → IsSpelling c u → b ++ x ≡ c ++ y → b ≡ c }
    ensures one_term { (b c x y : List ℕ) (t u : Term) → IsSpelling b t → IsSpelling c u → b ++ x ≡ c ++ y → t ≡ u }
{}

/// The canonical text of a term that nothing refuses encodes the term that it reads as (Part 1, sections 1.2 and 1.6). For that, the
/// numbers and texts of the term must be of their types, and its maps must have a value for each key.
pub fn canonical_text_spells()
    ensures spelled { (u t : Term) → ((r : Refusal) → Refuses r u → ⊥) → Everywhere IsValue u → ExpandsTo u t → IsSpelling (text u Alone) t }
{}

/// Two such terms with one canonical text read as one term.
pub fn one_text()
    ensures one_term { (u v t w : Term) → ((r : Refusal) → Refuses r u → ⊥) → Everywhere IsValue u → ExpandsTo u t
        → ((r : Refusal) → Refuses r v → ⊥) → Everywhere IsValue v → ExpandsTo v w
        → text u Alone ≡ text v Alone → t ≡ w }
{}

/// No encoding of a term without arrays is shorter than its canonical text (Part 1, section 1.6: each type has shorter and longer codes).
pub fn canonical_text_is_least()
    ensures no_longer { (b : List ℕ) (t : Term) → Everywhere IsNoArray t → IsBytes b → IsSpelling b t → length (text t Alone) ≤ length b }
{}

/// A term has at most as many values as each of its encodings has bytes, whatever the counts of its arrays (Part 1, section 1.2.4).
pub fn nodes_are_bounded()
    ensures bounded { (b : List ℕ) (t : Term) → IsSpelling b t → nodes t ≤ length b }
{}

/// A limit on what terms weigh bounds their values and their descriptors, also those that the items of an array share: a term has at most
/// as many descriptors as its bytes and its weight together, and their names have at most as many bytes as the term and 32 times its
/// weight (Part 1, sections 1.2 and 1.2.4).
pub fn descriptors_are_bounded()
    ensures values { (t : Term) (shared : Bool) → nodes t ≤ weight t shared }
    ensures descriptors { (b : List ℕ) (t : Term) → IsSpelling b t → over_descriptors (λ d. 1) t ≤ length b + weight t false }
    ensures names { (b : List ℕ) (t : Term) → IsSpelling b t → over_descriptors name_length t ≤ length b + 32 * weight t false }
{}

/// No proper prefix of an encoding encodes a term (Part 1, section 1.2).
pub fn no_proper_front()
    ensures whole { (front after : List ℕ) (t u : Term) → IsSpelling (front ++ after) t → IsSpelling front u → after ≡ [] }
{}

/// If a term is encoded as these bytes, or as this data under a shared constructor, its parts are encoded in one way (Part 1, sections
/// 1.2.3 and 1.2.4). So it is determined which bytes a value with kept bytes has.
pub fn parts_stand_in_one_way()
    ensures one_way { (s : Standing) (t : Term) (parts others : List Standing) → Parts s t parts → Parts s t others → parts ≡ others }
{}

/// Worked rows: canonical texts, and bytes that encode a term or none (Part 1, section 1.6).
pub fn worked_rows()
    ensures uint_0 { text (leaf (uint 0)) Alone ≡ 0x43 ∷ [] }
    ensures uint_255 { text (leaf (uint 255)) Alone ≡ 0x52 ∷ 0xff ∷ [] }
    ensures uint_256 { text (leaf (uint 256)) Alone ≡ 0x70 ∷ 0 ∷ 0 ∷ 1 ∷ 0 ∷ [] }
    ensures int_least { text (leaf (int (negsuc 127))) Alone ≡ 0x54 ∷ 0x80 ∷ [] }
    ensures int_128 { text (leaf (int (pos 128))) Alone ≡ 0x71 ∷ 0 ∷ 0 ∷ 0 ∷ 0x80 ∷ [] }
    ensures list_of_252 { (s : List ℕ) → length s ≡ 252
        → take 5 (text (container list (more (leaf (binary s)) none)) Alone) ≡ 0xc0 ∷ 0xff ∷ 1 ∷ 0xa0 ∷ 0xfc ∷ [] }
    ensures list_of_253 { (s : List ℕ) → length s ≡ 253
        → take 11 (text (container list (more (leaf (binary s)) none)) Alone) ≡ 0xd0 ∷ 0 ∷ 0 ∷ 1 ∷ 3 ∷ 0 ∷ 0 ∷ 0 ∷ 1 ∷ 0xa0 ∷ 0xfd ∷ [] }
    ensures array_of_uints { text (container array (more (leaf (uint 1)) (more (leaf (uint 2)) none))) Alone
        ≡ 0xe0 ∷ 0x0a ∷ 2 ∷ 0x70 ∷ 0 ∷ 0 ∷ 0 ∷ 1 ∷ 0 ∷ 0 ∷ 0 ∷ 2 ∷ [] }
    ensures array_of_accepted { text (container array (more (described (code 0x24) (container list none)) none)) Alone
        ≡ 0xe0 ∷ 0x0d ∷ 1 ∷ 0 ∷ 0x53 ∷ 0x24 ∷ 0xd0 ∷ 0 ∷ 0 ∷ 0 ∷ 4 ∷ 0 ∷ 0 ∷ 0 ∷ 0 ∷ [] }
    ensures array_of_list { text (container array (more (container list none) none)) Alone
        ≡ 0xe0 ∷ 0x0a ∷ 1 ∷ 0xd0 ∷ 0 ∷ 0 ∷ 0 ∷ 4 ∷ 0 ∷ 0 ∷ 0 ∷ 0 ∷ [] }
    ensures empty_map { text (container map none) Alone ≡ 0xc1 ∷ 1 ∷ 0 ∷ [] }
    ensures empty_array { text (container array none) Alone ≡ 0xe0 ∷ 2 ∷ 0 ∷ 0x40 ∷ [] }
    ensures empty_array_bare { IsSpelling (0xe0 ∷ 1 ∷ 0 ∷ []) (container array none) }
    ensures empty_array_typed { IsSpelling (0xe0 ∷ 2 ∷ 0 ∷ 0x40 ∷ []) (container array none) }
    ensures no_items_of_width_zero { (t : Term) → IsSpelling (0xe0 ∷ 2 ∷ 0xff ∷ 0x41 ∷ []) t → ⊥ }
    ensures empty_list_sized { IsSpelling (0xc0 ∷ 0 ∷ 0 ∷ []) (container list none) }
    ensures no_map_of_size_zero { (t : Term) → IsSpelling (0xc1 ∷ 0 ∷ 0 ∷ []) t → ⊥ }
{}

/// Worked refusals: one for each reason that a term itself can give, and a term that nothing refuses. Also arrays that an item with a
/// reason of its own doesn't make mixed, unless it is the only described item (Part 1, section 1.2.4).
pub fn worked_refusals()
    ensures mixed_items { Refuses mixed_array (container array (more (leaf (uint 1)) (more (leaf (boolean true)) none))) }
    ensures null_item { Refuses zero_width_items (container array (more (leaf null) none)) }
    ensures kept_item { (b : List ℕ) → Refuses lazy_in_array (container array (more (kept b) none)) }
    ensures symbol_of_two_bytes { Refuses non_ascii (leaf (symbol (0xc3 ∷ 0xa9 ∷ []))) }
    ensures long_binary { (s : List ℕ) → 2 ^ 32 ≤ length s → Refuses too_large (leaf (binary s)) }
    ensures below_128_levels { (d : Descriptor) (t : Term) → ExpandsTo t t → nest t ≡ 128 → Refuses depth (described d t) }
    ensures barred_item { (r : Refusal) → Refuses r (container list (more (barred r) none)) }
    ensures array_of_uints { (r : Refusal) → Refuses r (container array (more (leaf (uint 1)) (more (leaf (uint 2)) none))) → ⊥ }
    ensures null_behind_uint { (r : Refusal) → Refuses r (container array (more (leaf (uint 1)) (more (leaf null) none)))
        → r ≡ zero_width_items }
    ensures kept_behind_uint { (b : List ℕ) → Refuses mixed_array (container array (more (leaf (uint 1)) (more (kept b) none))) → ⊥ }
    ensures barred_behind_uint { (q r : Refusal) → Refuses r (container array (more (leaf (uint 1)) (more (barred q) none))) → r ≡ q }
    ensures null_under_the_descriptor { (d : Descriptor) → Refuses mixed_array
        (container array (more (described d (leaf (uint 1))) (more (described d (leaf null)) none))) → ⊥ }
    ensures null_under_a_descriptor { (d : Descriptor) → Refuses mixed_array
        (container array (more (leaf (uint 1)) (more (described d (leaf null)) none))) }
{}
