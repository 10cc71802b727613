//! The laws of walks and of fields. The functions do nothing; their contracts are proved.
ghost use Rattle.std.specs.Prelude.{◌≡◌, ◌≤◌, ℕ, List, [], ◌∷◌, ◌++◌, length};
ghost use Rattle.amqp_model.specs.Term.{Term};
ghost use Rattle.amqp_model.specs.Spelling.{IsSpelling};
ghost use Rattle.amqp_model.specs.Measures.{nest};
ghost use Rattle.amqp_wire.specs.declared.error.Error.{Error};
ghost use Rattle.amqp_nodes.specs.declared.nodes.Node.{Node};
ghost use Rattle.amqp_nodes.specs.Nodes.{IsWithin, IsNode, IsNoNode, bytes_at, reach_of};
ghost use Rattle.amqp_nodes.specs.Fields.{IsCompositeOf, IsNth, IsPlaced, EndsBefore, IsField, IsOmitted, HasNoField};
ghost use Rattle.amqp_nodes.specs.Walks.{nothing, parts_of, StandsIn, StandIn, IsNodeOf, Walks, AreOf};

/// A walk of a term meets each value in it once. The parts of a node's term are in the node, from its `next` on. If terms come next in a
/// node, the call at the first of them returns its node. The others come from the end of that node on, up to the end of the enclosing node.
pub fn walks()
    ensures first { (input b after : List ℕ) (at : ℕ) (around node : Node) (t : Term) → bytes_at input at around ≡ b ++ after → StandsIn around t b
        → IsNode input at around node → IsNodeOf around t b at node
        → (node.count ≡ length (parts_of t)) × IsWithin input node.next node × StandIn node (parts_of t) (bytes_at input node.next node) }
    ensures further { (input : List ℕ) (at : ℕ) (around node : Node) (t : Term) (ts : List Term) → StandIn around (t ∷ ts) (bytes_at input at around)
        → IsNode input at around node
        → (b : List ℕ) × IsNodeOf around t b at node × IsWithin input node.end around × StandIn around ts (bytes_at input node.end around) }
    ensures told { (input : List ℕ) (at : ℕ) (around : Node) (t : Term) (ts : List Term) (e : Error)
        → StandIn around (t ∷ ts) (bytes_at input at around) → IsWithin input at around → IsNoNode input at around e → ⊥ }
    ensures last { (input : List ℕ) (at : ℕ) (around : Node) → StandIn around [] (bytes_at input at around) → IsWithin input at around
        → at ≡ reach_of input around }
    ensures once { (input front after : List ℕ) (t : Term) (told : List Node) → input ≡ front ++ after → IsSpelling front t → nest t ≤ 128
        → Walks input nothing 0 1 told → AreOf input (t ∷ []) told }
{}

/// A composite's term is a described list of its fields' terms. The node that `field_node` returns is that of the term with the number. A
/// field is omitted only if the list has no such term, or the term's node is null's. No composite is refused.
pub fn composite_fields()
    ensures found { (input : List ℕ) (around composite node : Node) (ts : List Term) (index : ℕ) → IsCompositeOf input around ts composite
        → IsField input composite index node → (fields : Node) × (t : Term) × IsNth ts index t × IsPlaced input fields t node }
    ensures omitted { (input : List ℕ) (around composite : Node) (ts : List Term) (index : ℕ) → IsCompositeOf input around ts composite
        → IsOmitted input composite index → EndsBefore input ts index }
    ensures told { (input : List ℕ) (around composite : Node) (ts : List Term) (index : ℕ) (e : Error)
        → IsCompositeOf input around ts composite → HasNoField input composite index e → ⊥ }
{}
