//! The laws of the two passes over some terms in a row. The functions do nothing; their contracts are proved.
ghost use Rattle.std.specs.Prelude.{◌≡◌, ◌≤◌, ◌⊎◌, ◌+◌, ◌++◌, ℕ, List, [], ◌∷◌, length, map, Any, Result, Ok, Err};
ghost use Rattle.amqp_model.specs.Term.{Refusal, Term, depth};
ghost use Rattle.amqp_model.specs.Items.{terms_of};
ghost use Rattle.amqp_model.specs.Text.{Alone, text, all_sizes};
ghost use Rattle.amqp_model.specs.Kept.{ExpandsTo};
ghost use Rattle.amqp_model.specs.Refusals.{Refuses};
ghost use Rattle.amqp_wire.specs.Refusals.{error_of};
ghost use Rattle.amqp_wire.specs.declared.error.Error.{Error};
ghost use Rattle.amqp_wire.specs.declared.error.Error.TheVariants.{Memory, LazyInArray};
ghost use Rattle.amqp_encoder.specs.State.{Encoder};
ghost use Rattle.amqp_encoder.specs.declared.size.Size.{Size};
ghost use Rattle.amqp_encoder.specs.Tokens.{Token, tokens};
ghost use Rattle.amqp_encoder.specs.Measuring.{MAX};
ghost use Rattle.amqp_encoder.specs.Refused.{AllRead, HasCause, IsNesting, KnowDepths, TermHasCause};
ghost use Rattle.amqp_encoder.specs.Writes.{Writes, Fills, pass_of, bytes_of, loan_of};
ghost use Rattle.amqp_encoder.specs.Passes.{AreRefused, AreValues, BeginsFilling, BeginsMeasuring, Finds, HoldOthers, IsMeasured, as_size};
ghost use Rattle.amqp_encoder.specs.Passes.{row_text, row_tokens};

/// If the calls for some terms are made on an encoder that measures, and it returns `Ok`, it has found their length and sizes. An error is
/// a reason why they are refused; or `Memory`, if they hold a list, a map or an array. The numbers and texts of the terms must be of their
/// types.
pub fn measuring()
    ensures found { (deep : List ℕ → ℕ) (ts : List Term) (old new : Encoder) → AreValues ts → BeginsMeasuring old
        → Writes old (row_tokens deep ts) (Ok tt) new
        → Finds new (length (row_text ts)) (map as_size (all_sizes (terms_of ts)))
        × IsMeasured deep ts (length (row_text ts)) (map as_size (all_sizes (terms_of ts))) }
    ensures refused { (deep : List ℕ → ℕ) (ts : List Term) (old new : Encoder) (e : Error) → AreValues ts → BeginsMeasuring old
        → Writes old (row_tokens deep ts) (Err e) new
        → ((e ≡ Memory) × HoldOthers ts) ⊎ AreRefused deep ts e }
{}

/// If they are made on an encoder that fills, with what was measured and room for it, each of them returns `Ok`, and it has written their
/// text, into the same memory as it began. It doesn't allocate, so the error is never `Memory`.
pub fn filling()
    ensures answered { (deep : List ℕ → ℕ) (ts : List Term) (len : ℕ) (sizes : List Size) (out : List ℕ) (limit : ℕ) (old new : Encoder)
        (first rest : List Token) (answer : Result (Unit {0}) Error) → IsMeasured deep ts len sizes
        → length out + len ≤ limit → BeginsFilling old sizes out limit → first ++ rest ≡ row_tokens deep ts
        → Writes old first answer new → answer ≡ Ok tt }
    ensures written { (deep : List ℕ → ℕ) (ts : List Term) (len : ℕ) (sizes : List Size) (out : List ℕ) (limit : ℕ) (old new : Encoder)
        (answer : Result (Unit {0}) Error) → IsMeasured deep ts len sizes → length out + len ≤ limit
        → BeginsFilling old sizes out limit → Writes old (row_tokens deep ts) answer new → bytes_of new ≡ out ++ row_text ts }
    ensures lent { (deep : List ℕ → ℕ) (ts : List Term) (len : ℕ) (sizes : List Size) (out : List ℕ) (limit : ℕ) (old new : Encoder)
        (answer : Result (Unit {0}) Error) → IsMeasured deep ts len sizes → length out + len ≤ limit
        → BeginsFilling old sizes out limit → Writes old (row_tokens deep ts) answer new
        → Fills (pass_of new) × (loan_of new ≡ loan_of old) }
{}

/// Each reason for which the model refuses one of the terms is a reason for the encoder, by its error. For that, the encoder must be told
/// how deep the kept bytes in the terms nest. A term that nests too deep in kept bytes in an array is refused for those bytes.
pub fn refusals_are_complete()
    ensures nesting { (deep : List ℕ → ℕ) (us : List Term) → IsNesting deep → KnowDepths deep us }
    ensures complete { (deep : List ℕ → ℕ) (us : List Term) (r : Refusal) → KnowDepths deep us → Any (Refuses r) us
        → AreRefused deep us (error_of r) ⊎ ((r ≡ depth) × AreRefused deep us LazyInArray) }
    ensures of_one { (deep : List ℕ → ℕ) (u : Term) (r : Refusal) → KnowDepths deep (u ∷ []) → Refuses r u
        → AreRefused deep (u ∷ []) (error_of r) ⊎ ((r ≡ depth) × AreRefused deep (u ∷ []) LazyInArray) }
{}

/// Each error of the encoder is a reason for which the model refuses one of the terms, except if there are more bytes or terms than the
/// machine counts. The conditions are those of `measuring` and `refusals_are_complete`. If a count doesn't fit in four bytes, the size of
/// its items doesn't either.
pub fn refusals_are_sound()
    ensures sound { (deep : List ℕ → ℕ) (us ts : List Term) (e : Error) → KnowDepths deep us → AreValues us → AllRead us ts
        → AreRefused deep us e → HasCause us e }
    ensures of_one { (deep : List ℕ → ℕ) (u t : Term) (e : Error) → KnowDepths deep (u ∷ []) → AreValues (u ∷ []) → ExpandsTo u t
        → AreRefused deep (u ∷ []) e → TermHasCause u e }
{}

/// An encoder that measures returns `Ok` exactly if the model refuses nothing and the machine counts the bytes. Otherwise it returns such a
/// reason. In either case it may instead return `Memory`. The conditions are those of `refusals_are_sound`.
pub fn accepted_exactly()
    ensures accepted { (deep : List ℕ → ℕ) (u : Term) (old new : Encoder) → KnowDepths deep (u ∷ []) → AreValues (u ∷ [])
        → BeginsMeasuring old → Writes old (tokens deep u) (Ok tt) new
        → ((r : Refusal) → Refuses r u → ⊥) × (length (text u Alone) ≤ MAX) }
    ensures refused { (deep : List ℕ → ℕ) (u t : Term) (old new : Encoder) (e : Error) → KnowDepths deep (u ∷ []) → AreValues (u ∷ [])
        → ExpandsTo u t → BeginsMeasuring old → Writes old (tokens deep u) (Err e) new
        → (e ≡ Memory) ⊎ TermHasCause u e }
    ensures exactly { (deep : List ℕ → ℕ) (u t : Term) (old new : Encoder) (answer : Result (Unit {0}) Error) → KnowDepths deep (u ∷ [])
        → AreValues (u ∷ []) → ExpandsTo u t → BeginsMeasuring old → Writes old (tokens deep u) answer new
        → ((r : Refusal) → Refuses r u → ⊥) → length (text u Alone) ≤ MAX → (answer ≡ Ok tt) ⊎ (answer ≡ Err Memory) }
{}

/// The same for terms in a row.
pub fn rows_accepted_exactly()
    ensures accepted { (deep : List ℕ → ℕ) (us : List Term) (old new : Encoder) → KnowDepths deep us → AreValues us → BeginsMeasuring old
        → Writes old (row_tokens deep us) (Ok tt) new
        → ((e : Error) → HasCause us e → ⊥) }
    ensures refused { (deep : List ℕ → ℕ) (us ts : List Term) (old new : Encoder) (e : Error) → KnowDepths deep us → AreValues us
        → AllRead us ts → BeginsMeasuring old → Writes old (row_tokens deep us) (Err e) new
        → (e ≡ Memory) ⊎ HasCause us e }
    ensures exactly { (deep : List ℕ → ℕ) (us ts : List Term) (old new : Encoder) (answer : Result (Unit {0}) Error) → KnowDepths deep us
        → AreValues us → AllRead us ts → BeginsMeasuring old → Writes old (row_tokens deep us) answer new
        → ((e : Error) → HasCause us e → ⊥) → (answer ≡ Ok tt) ⊎ (answer ≡ Err Memory) }
{}

/// Calls one after another are calls in a row. After a refusal, further calls change nothing.
pub fn calls_in_a_row()
    ensures joined { (a b c : Encoder) (xs ys : List Token) (r : Result (Unit {0}) Error) → Writes a xs (Ok tt) b → Writes b ys r c
        → Writes a (xs ++ ys) r c }
    ensures cut { (a b : Encoder) (xs ys : List Token) (e : Error) → Writes a xs (Err e) b → Writes a (xs ++ ys) (Err e) b }
{}
