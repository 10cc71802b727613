//! The laws of the faults of bytes that begin with no term. The functions do nothing; their contracts are proved.
ghost use Rattle.std.specs.Prelude.{◌≡◌, ◌≤◌, ℕ, List};
ghost use Rattle.amqp_wire.specs.declared.error.Error.{Error};
ghost use Rattle.amqp_lengths.specs.Fronts.{Refuses};
ghost use Rattle.amqp_lengths.specs.Lengths.{IsTerm};
ghost use Rattle.amqp_lengths.specs.Faults.{inside, HasFault, TermFault};

/// Bytes with a fault begin with no term that nests at most so deep. The fault is also there, in the same place, if terms may nest deeper,
/// unless it is `deep`, the error for too deep nesting (Part 1, section 1.2). For this, `deep` has to be an error that stays the same inside
/// of a container (`inside`), as `Depth` and `Limit` are.
pub fn faults()
    ensures refuse { (deep : Error) (nesting : ℕ) (input : List ℕ) (e : Error) → HasFault deep nesting input e → Refuses (IsTerm nesting) input e }
    ensures deeper { (deep other : Error) → inside deep ≡ deep → (nesting more : ℕ) (input : List ℕ) (e : Error) (left : ℕ) → nesting ≤ more
        → (e ≡ deep → (nesting ≡ more) × (deep ≡ other)) → TermFault deep nesting input e left → TermFault other more input e left }
{}
