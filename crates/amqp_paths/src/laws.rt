//! The law of the nodes of a path. The function does nothing; its contract is proved.
ghost use Rattle.std.specs.Prelude.{ℕ, List};
ghost use Rattle.amqp_wire.specs.declared.error.Error.{Error};
ghost use Rattle.amqp_lengths.specs.Stands.{IsWrong, StandsAt};
ghost use Rattle.amqp_paths.specs.declared.path.Reached.{Reached};
ghost use Rattle.amqp_paths.specs.Walks.{IsReached};

/// If an error is right of what begins at a node of a path, the error stands at the place of that node, as the errors of
/// `amqp_lengths::term_len_located` do (Part 1, sections 1.2 and 1.6).
pub fn nodes()
    ensures stands { (input : List ℕ) (at : ℕ) (r : Reached) (e : Error) → (h : IsReached input at r)
        → IsWrong e h.inner h.piece h.depth h.bytes → StandsAt input e r.node.at }
{}
