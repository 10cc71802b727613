//! Symbols: values of a constrained domain, written in ASCII (Part 1, section 1.6.21).
ghost use Rattle.std.specs.Prelude.{◌≡◌, string_bytes, IfOk};

use std::alloc::{AllocError, Global};

/// A symbol. What is read is ASCII. A symbol can be made of any text, but one that isn't ASCII is refused in writing, with
/// `Error::NonAscii`.
#[derive(Clone, Debug, PartialEq, Eq, PartialOrd, Ord, Hash, Drop)]
pub struct Symbol(pub String);

impl Symbol {
    /// Returns a symbol with a copy of the text. The error is that an allocation failed.
    pub fn from_str_in(text: &str, alloc: Global) -> Result<Symbol, AllocError>
        ensures { IfOk result (λ symbol. string_bytes symbol.0 ≡ text.now) }
    {
        Ok(Symbol(String::from_str(alloc, text)?))
    }

    /// Returns the text of the symbol.
    pub fn as_str(&self) -> &str
        ensures { result.now ≡ string_bytes self.now.0 }
    {
        self.0.as_str()
    }

    /// Moves the text out of the symbol, and returns it.
    pub fn into_inner(self) -> String
        ensures { result ≡ self.0 }
    {
        let Symbol(text) = self;
        text
    }
}

impl From<String> for Symbol {
    ghost from_gives = { λ text symbol. symbol.0 ≡ text };

    fn from(text: String) -> Symbol {
        Symbol(text)
    }
}
