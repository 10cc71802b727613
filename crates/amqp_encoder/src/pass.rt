//! The two passes over a value.
ghost use Rattle.std.specs.Prelude.{◌≡◌, ◌≤◌, [], ◌∷◌, length, Ok};
ghost use Rattle.std.specs.Bool.{Decides, OnTrue, OnFalse};
ghost use Rattle.amqp_model.specs.Term.{Primitive, null, symbol, list, code as code_descriptor};
ghost use Rattle.amqp_wire.specs.Containers.{container_of};
ghost use Rattle.amqp_encoder.specs.Values.{descriptor_of};
ghost use Rattle.amqp_encoder.specs.Spelled.{IsFixed, IsVariable};
ghost use Rattle.amqp_encoder.specs.Tokens.{put, nulls, keep, begin, end, begin_described, end_described};
ghost use Rattle.amqp_encoder.specs.Writes.{Passes, Fills, Follows, IsGoing, IsPlain, bytes_in};

use crate::places::Shortest;
use amqp_wire::{Container, Descriptor, Error};

/// A pass over a value: `Measure` finds the length of its canonical text, and then `Fill` writes it. No other type is one. What writes a
/// value is the same for both, so a type's `serialize` is generic in it.
pub trait Pass: Sized + Drop {
    ghost use Rattle.std.specs.Prelude.{ℕ, List};
    ghost use Rattle.amqp_encoder.specs.State.{Pass as PassState};

    // What is seen of it. That counts as long as nothing is refused.
    ghost seen: { Self → PassState };

    // The buffer's bytes.
    ghost out: { Self → List ℕ };

    /// Returns whether it fills a buffer.
    fn fills(&self) -> bool
        ensures { Decides result (Fills (seen self.now)) };

    /// Returns whether the next value is by itself, in a list or a map or in none.
    fn is_plain(&self) -> bool
        ensures { OnTrue result (IsPlain (seen self.now)) };

    /// Writes a primitive of fixed width by itself. It returns false, and does nothing, if that may be refused.
    fn put_plain(&mut self, shortest: Shortest, wide: &[u8]) -> bool
        requires plain { IsPlain (seen self.old) }
        ensures plain { IsPlain (seen self.new) }
        ensures written { OnTrue result ((p : Primitive) → IsFixed p shortest wide.now
            → Passes (seen self.old) (put p ∷ []) (Ok tt) (seen self.new)) }
        ensures kept { Follows (out self.old) (out self.new) }
        ensures left { OnFalse result (self.new ≡ self.old) };

    /// Writes so many nulls by themselves. It returns false, and does nothing, if that may be refused.
    fn put_plain_nulls(&mut self, count: usize) -> bool
        requires plain { IsPlain (seen self.old) }
        ensures plain { IsPlain (seen self.new) }
        ensures written { OnTrue result (Passes (seen self.old) (nulls count) (Ok tt) (seen self.new)) }
        ensures kept { Follows (out self.old) (out self.new) }
        ensures left { OnFalse result (self.new ≡ self.old) };

    /// Writes a primitive of fixed width, with its code and its data as the first item of an array.
    fn put(&mut self, shortest: Shortest, wide: &[u8]) -> Result<(), Error>
        requires { 1 ≤ length wide.now }
        ensures passes { (p : Primitive) → IsFixed p shortest wide.now → Passes (seen self.old) (put p ∷ []) result (seen self.new) }
        ensures kept { Follows (out self.old) (out self.new) };

    /// Writes a binary or a string, with its codes.
    fn put_bytes(&mut self, short: u8, wide: u8, bytes: &[u8]) -> Result<(), Error>
        ensures passes { (p : Primitive) → IsVariable p short wide bytes.now
            → Passes (seen self.old) (put p ∷ []) result (seen self.new) }
        ensures kept { Follows (out self.old) (out self.new) };

    /// Writes a symbol.
    fn put_symbol(&mut self, text: &str) -> Result<(), Error>
        ensures passes { Passes (seen self.old) (put (symbol text.now) ∷ []) result (seen self.new) }
        ensures kept { Follows (out self.old) (out self.new) };

    /// Writes null.
    fn put_null(&mut self) -> Result<(), Error>
        ensures passes { Passes (seen self.old) (put null ∷ []) result (seen self.new) }
        ensures kept { Follows (out self.old) (out self.new) };

    /// Writes the bytes of one term, which nests so deep.
    fn keep(&mut self, bytes: &[u8], nesting: usize) -> Result<(), Error>
        ensures passes { Passes (seen self.old) (keep bytes.now nesting ∷ []) result (seen self.new) }
        ensures kept { Follows (out self.old) (out self.new) };

    /// Begins a list, a map or an array.
    fn begin(&mut self, container: Container) -> Result<(), Error>
        ensures passes { Passes (seen self.old) (begin (container_of container) ∷ []) result (seen self.new) }
        ensures kept { Follows (out self.old) (out self.new) };

    /// Ends the list, map or array that is open.
    fn end(&mut self, container: Container) -> Result<(), Error>
        ensures passes { Passes (seen self.old) (end (container_of container) ∷ []) result (seen self.new) }
        ensures kept { Follows (out self.old) (out self.new) };

    /// Begins a described value.
    fn begin_described(&mut self, descriptor: &Descriptor) -> Result<(), Error>
        ensures passes { Passes (seen self.old) (begin_described (descriptor_of descriptor.now) ∷ []) result (seen self.new) }
        ensures kept { Follows (out self.old) (out self.new) };

    /// Ends the described value that is open.
    fn end_described(&mut self) -> Result<(), Error>
        ensures passes { Passes (seen self.old) (end_described ∷ []) result (seen self.new) }
        ensures kept { Follows (out self.old) (out self.new) };

    /// Begins a described value that is a list.
    fn begin_composite(&mut self, code: u64) -> Result<(), Error>
        ensures passes { Passes (seen self.old) (begin_described (code_descriptor code) ∷ begin list ∷ []) result (seen self.new) }
        ensures kept { Follows (out self.old) (out self.new) };

    /// Ends the list that is open, and the described value that it is.
    fn end_composite(&mut self) -> Result<(), Error>
        ensures passes { Passes (seen self.old) (end list ∷ end_described ∷ []) result (seen self.new) }
        ensures kept { Follows (out self.old) (out self.new) };

    // It is one of the two.
    ghost going: { (p : Self) → IsGoing (seen p) };

    // The bytes are those of what is seen.
    ghost same_bytes: { (p : Self) → bytes_in (seen p) (out p) ≡ out p };
}
