//! The laws of what comes next in an input. The functions do nothing; their contracts are proved.
ghost use Rattle.std.specs.Prelude.{◌≡◌, ℕ, List};
ghost use Rattle.amqp_lookahead.specs.Sections.{IsSectionAhead};

/// At most one section comes next (Part 3, section 3.2).
pub fn one_section()
    ensures { (rest : List ℕ) (b c : ℕ) → IsSectionAhead rest b → IsSectionAhead rest c → b ≡ c }
{}
