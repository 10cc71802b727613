//! Symbols whose text is borrowed (Part 1, section 1.6.21).
ghost use Rattle.std.specs.Prelude.{◌≡◌, refl};
ghost use Rattle.amqp_codec.specs.Agreement.{writing_of, via_writing};
ghost use Rattle.amqp_codec.specs.PrimitiveTypes.{symbol_bytes_type};

use amqp_codec::{Encoder, Error, Pass, Serialize, SerializeTerm};

/// A symbol whose text is borrowed, only for writing. One that isn't ASCII is refused in writing, with `Error::NonAscii`.
#[derive(Clone, Debug, PartialEq, Eq, PartialOrd, Ord, Hash, Drop)]
pub struct SymbolRef<'a>(pub &'a str);

impl<'a> SymbolRef<'a> {
    /// Returns the text of the symbol.
    pub fn as_str(&self) -> &'a str
        ensures { result.now ≡ self.now.0.now }
    {
        self.0
    }

    /// Moves the text out of the symbol, and returns it.
    pub fn into_inner(self) -> &'a str
        ensures { result.now ≡ self.entry.0.now }
    {
        let SymbolRef(text) = self;
        text
    }
}

impl<'a> From<&'a str> for SymbolRef<'a> {
    ghost from_gives = { λ text symbol. symbol.0.now ≡ text.now };

    fn from(text: &'a str) -> SymbolRef<'a> {
        SymbolRef(text)
    }
}

impl Serialize for SymbolRef<'_> {
    ghost writing = { via_writing (λ v. v.0.now) (writing_of symbol_bytes_type refl) };

    fn serialize<P: Pass>(&self, encoder: &mut Encoder<P>) -> Result<(), Error> {
        encoder.write_symbol(self.as_str())
    }

    fn in_type(&self) {}
}

impl SerializeTerm for SymbolRef<'_> {
    fn is_null(&self) -> bool {
        false
    }

    ghost is_term = { λ v. refl };
}
