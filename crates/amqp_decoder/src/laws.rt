//! The laws of what the calls of a decoder read. The functions do nothing; their contracts are proved.
ghost use Rattle.std.specs.Prelude.{◌≡◌, ◌<◌, ◌≤◌, ◌↔◌, ◌-◌, ℕ, Option, List, [], ◌∷◌, ◌++◌, length, Some, None};
ghost use Rattle.amqp_model.specs.Term.{Container, Descriptor, Term, Terms, container, described, list, map, array};
ghost use Rattle.amqp_model.specs.Items.{items_of};
ghost use Rattle.amqp_model.specs.Measures.{nest};
ghost use Rattle.amqp_model.specs.Standing.{Standing};
ghost use Rattle.amqp_decoder.specs.declared.frame.Place.{Place};
ghost use Rattle.amqp_decoder.specs.declared.frame.Place.TheVariants.{InArray};
ghost use Rattle.amqp_decoder.specs.State.{State, Has, after_look, after_bytes, after_data, after_value, weight_at};
ghost use Rattle.amqp_decoder.specs.Within.{limited};
ghost use Rattle.amqp_decoder.specs.Steps.{Takes, IsOutside};
ghost use Rattle.amqp_decoder.specs.Reading.{ReadsCode, PeeksCode};
ghost use Rattle.amqp_decoder.specs.Primitives.{standing, Stands, ReadsValue, PrimitiveFault};
ghost use Rattle.amqp_lookahead.specs.Members.{Member};
ghost use Rattle.amqp_wire.specs.declared.error.Error.{Error};
ghost use Rattle.amqp_decoder.specs.OtherSource.{Setting, under, KeepsError};
ghost use Rattle.amqp_decoder.specs.Misspelled.{IsMisspelling, NothingStands};
ghost use Rattle.amqp_decoder.specs.Terms.{TermFault};
ghost use Rattle.amqp_decoder.specs.Containers.{Opens, OpenFault, Closes, CloseFault};
ghost use Rattle.amqp_decoder.specs.Arrays.{OpensArray, ArrayFault};
ghost use Rattle.amqp_decoder.specs.Rooms.{HasFlatItems, HasRoom};
ghost use Rattle.amqp_decoder.specs.Described.{OpensDescribed, OneOfFault, OpenFault as OpenDescribedFault};
ghost use Rattle.amqp_decoder.specs.Items.{Next, NextWithParts, Row, row_standings, Contains, ContainsArray, DescribedStands};

/// What is read after a look is what is read without the look.
pub fn looks()
    ensures moved { (n k : ℕ) (st : State) → n ≤ k → after_bytes k (after_look n st) ≡ after_bytes k st }
    ensures on { (n k : ℕ) (st : State) → n ≤ k → after_data k (after_look n st) ≡ after_data k st }
    ensures past { (n k m : ℕ) (st : State) → n ≤ k → after_value k m (after_look n st) ≡ after_value k m st }
    ensures took { (n : ℕ) (st after : State) (s : List ℕ) → n ≤ length s → (Takes (after_look n st) s after ↔ Takes st s after) }
    ensures stands { (n : ℕ) (st : State) (s : List ℕ) (t : Term) → Stands (after_look n st) s t ↔ Stands st s t }
    ensures some { (st : State) (s : List ℕ) (t : Term) → st.top.shared ≡ None → Stands st s t → 1 ≤ length s }
    ensures begun { (st looked after : State) (c d : ℕ) → PeeksCode st c looked → (ReadsCode looked d after ↔ ReadsCode st d after) }
{}

/// A list that is opened, whose items are taken in turn, and that is closed is a term that was there and is taken, with the items as its
/// parts. And if a list comes next, this is how it is taken (Part 1, sections 1.2.3 and 1.6.22).
pub fn lists()
    ensures taken { (st after : State) (items : Terms) → Contains list st (items_of items) after ↔ Next st (container list items) after }
    ensures stands { (st after : State) (items : Terms) (c : Contains list st (items_of items) after)
        → NextWithParts st (container list items) (row_standings c.mid (items_of items) c.bytes c.last c.items) after }
{}

/// The same for a map, whose items are its keys and values in turn (Part 1, section 1.6.23).
pub fn maps()
    ensures taken { (st after : State) (items : Terms) → Contains map st (items_of items) after ↔ Next st (container map items) after }
    ensures stands { (st after : State) (items : Terms) (c : Contains map st (items_of items) after)
        → NextWithParts st (container map items) (row_standings c.mid (items_of items) c.bytes c.last c.items) after }
{}

/// The same for an array, whose items are under the constructor that they share (Part 1, sections 1.2.4 and 1.6.24). If an array comes
/// next, it is taken so if containers have room, as they have in every decoder.
pub fn arrays()
    ensures opened { (st after : State) (n : ℕ) → OpensArray st n after → (after.top.place ≡ InArray) × (after.top.items ≡ Some n) }
    ensures whole { (st after : State) (items : Terms) → ContainsArray st (items_of items) after → Next st (container array items) after }
    ensures stands { (st after : State) (items : Terms) (c : ContainsArray st (items_of items) after)
        → NextWithParts st (container array items) (row_standings c.mid (items_of items) c.bytes c.last c.items) after }
    ensures parts { (st after : State) (items : Terms) → HasRoom st → Next st (container array items) after
        → ContainsArray st (items_of items) after }
{}

/// A described value that is opened, whose value is taken, and that is closed is a term that was there and is taken, with the value as its
/// part. For that, values may nest at most 128 deep, as in every decoder. And if a described value comes next, this is how it is taken
/// (Part 1, section 1.2).
pub fn described_values()
    ensures whole { (st after : State) (d : Descriptor) (t : Term) → st.nesting ≤ 128 → DescribedStands st d t after
        → Next st (described d t) after }
    ensures stands { (st after : State) (d : Descriptor) (t : Term) → st.nesting ≤ 128 → (h : DescribedStands st d t after)
        → NextWithParts st (described d t) (standing h.inner.top.shared h.bytes ∷ []) after }
    ensures parts { (st after : State) (d : Descriptor) (t : Term) → Next st (described d t) after → DescribedStands st d t after }
{}

/// Containers have room at the top level, keep it if something is looked at or taken, and have it in what is opened.
pub fn rooms()
    ensures top { (st : State) → st.saved ≡ [] → HasRoom st }
    ensures fits { (st : State) → HasRoom st → Has st.top.items 1 → (HasFlatItems st.top.shared → ⊥) → length st.saved ≤ st.nesting }
    ensures looked { (n : ℕ) (st : State) → HasRoom st → HasRoom (after_look n st) }
    ensures next { (st after : State) (t : Term) → Next st t after → HasRoom st → HasRoom after }
    ensures row { (ts : List Term) (st after : State) (b : List ℕ) → Row st ts b after → HasRoom st → HasRoom after }
    ensures opened { (kind : Container) (st after : State) (n : ℕ) → Opens kind st n after → HasRoom after }
    ensures opened_array { (st after : State) (n : ℕ) → OpensArray st n after → HasRoom after }
    ensures opened_described { (st after : State) (d : Descriptor) → OpensDescribed st d after → HasRoom after }
{}

/// At the top level, a term is there within limits exactly if it is there without limits, has no more bytes, nests no deeper and
/// weighs no more. And a look at the next code goes no further than the bytes that are left.
pub fn limits()
    ensures stands { (nesting : ℕ) (left quota : Option ℕ) (st : State) (s : List ℕ) (t : Term) → nesting ≤ st.nesting → st.top.left ≡ None
        → st.quota ≡ None → (Stands (limited nesting left quota st) s t
        ↔ (Stands st s t × Has left (length s) × (nest t ≤ nesting - length st.saved) × Has quota (weight_at st t))) }
    ensures looked { (st looked : State) (c : ℕ) → PeeksCode st c looked → Has st.top.left st.ahead → Has looked.top.left looked.ahead }
{}

/// At one state one term comes next, as one row of bytes, and one state follows it. Of two rows of terms, the shorter is a prefix of the
/// longer. And a container is opened and closed in one way.
pub fn one_reading()
    ensures stands { (st : State) (s r : List ℕ) (t u : Term) → Stands st s t → Stands st r u → (s ≡ r) × (t ≡ u) }
    ensures next { (st after other : State) (t u : Term) → Next st t after → Next st u other → (t ≡ u) × (after ≡ other) }
    ensures row { (ts us : List Term) (st mid after : State) (b c : List ℕ) → Row st ts b mid → Row st us c after → length ts ≤ length us
        → (others : List Term) × (d : List ℕ) × (us ≡ ts ++ others) × Row mid others d after }
    ensures opens { (kind : Container) (st after other : State) (n m : ℕ) → Opens kind st n after → Opens kind st m other
        → (n ≡ m) × (after ≡ other) }
    ensures opens_array { (st after other : State) (n m : ℕ) → OpensArray st n after → OpensArray st m other → (n ≡ m) × (after ≡ other) }
    ensures closes { (place : Place) (st after other : State) → Closes place st after → Closes place st other → after ≡ other }
{}

/// A type whose values are meant by terms, at their places.
pub trait HasMeaning {
    ghost use Rattle.amqp_model.specs.Term.{Term};
    ghost use Rattle.amqp_model.specs.Standing.{Standing};

    ghost means: { Standing → Term → Self → Type 0 };
}

/// Two values that are read at one state are meant by one term, and one state follows them. And a look at the next code doesn't change what
/// is read.
pub fn one_value<T: HasMeaning>()
    ensures one { (st after other : State) (v w : T) → ReadsValue T.means st v after → ReadsValue T.means st w other
        → (s : Standing) × (t : Term) × T.means s t v × T.means s t w × (after ≡ other) }
    ensures looked { (st looked after : State) (c : ℕ) (v : T) → PeeksCode st c looked
        → (ReadsValue T.means looked v after ↔ ReadsValue T.means st v after) }
{}

/// Terms that are taken in a row, and then other terms, are taken in one row.
pub fn rows()
    ensures one { (t : Term) (st after : State) → Next st t after → (b : List ℕ) × Row st (t ∷ []) b after }
    ensures joined { (ts us : List Term) (st mid after : State) (b c : List ℕ) → Row st ts b mid → Row mid us c after
        → Row st (ts ++ us) (b ++ c) after }
{}

/// A fault is the same for another source. It is also the same if values may nest deeper, or if limits on bytes or on values are lifted,
/// unless it is `Depth` or `Limit`. And no fault is `Memory` or the source's.
pub fn faults()
    ensures arrays { (c : Setting) (st : State) (e : Error) → KeepsError c e → ArrayFault st e → ArrayFault (under c st) e }
    ensures described { (c : Setting) (st : State) (e : Error) → KeepsError c e → OpenDescribedFault st e
        → OpenDescribedFault (under c st) e }
    ensures terms { (c : Setting) (st : State) (e : Error) → KeepsError c e → TermFault st e → TermFault (under c st) e }
    ensures no_array { (st : State) (e : Error) → IsOutside e → ArrayFault st e → ⊥ }
    ensures no_described { (st : State) (e : Error) → IsOutside e → OpenDescribedFault st e → ⊥ }
    ensures no_term { (st : State) (e : Error) → IsOutside e → TermFault st e → ⊥ }
{}

/// An error which means that the bytes are no term, whatever type is read, reports a fault only if no term is there. And if no term is
/// there among the items of a container, or in a described value, none is there around it (Part 1, section 1.2).
pub fn misspellings()
    ensures primitives { (k : ℕ) (st : State) (e : Error) → IsMisspelling e → PrimitiveFault k st e → NothingStands st }
    ensures lists { (st : State) (e : Error) → IsMisspelling e → OpenFault list st e → NothingStands st }
    ensures maps { (st : State) (e : Error) → IsMisspelling e → OpenFault map st e → NothingStands st }
    ensures arrays { (st : State) (e : Error) → HasRoom st → IsMisspelling e → ArrayFault st e → NothingStands st }
    ensures described { (st : State) (e : Error) → IsMisspelling e → OpenDescribedFault st e → NothingStands st }
    ensures members { (members : List Member) (st : State) (e : Error) → IsMisspelling e → OneOfFault members st e → NothingStands st }
    ensures terms { (st : State) (e : Error) → IsMisspelling e → TermFault st e → NothingStands st }
    ensures in_array { (st first mid : State) (n : ℕ) (ts : List Term) (b : List ℕ) → HasRoom st → OpensArray st n first
        → Row first ts b mid → length ts < n → NothingStands mid → NothingStands st }
    ensures at_array_end { (place : Place) (st first last : State) (n : ℕ) (ts : List Term) (b : List ℕ) (e : Error) → HasRoom st
        → OpensArray st n first → Row first ts b last → IsMisspelling e → CloseFault place last e → NothingStands st }
    ensures in_described { (st inner : State) (d : Descriptor) → OpensDescribed st d inner → NothingStands inner → NothingStands st }
{}
