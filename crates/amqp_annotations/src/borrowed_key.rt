//! Borrowed keys of annotations, and the keys with which annotations are looked up.
ghost use Rattle.std.specs.Prelude.{◌≡◌, IfErr, IfOk, string_bytes};
ghost use Rattle.amqp_model.specs.Term.{symbol, ulong};
ghost use Rattle.amqp_wire.specs.declared.error.Error.TheVariants.{Memory};
ghost use Rattle.amqp_annotations.specs.OwnedKeys.{owned_primitive};
ghost use Rattle.amqp_annotations.specs.BorrowedKeys.{borrowed_primitive};

use crate::OwnedKey;
use amqp_codec::{Error, Symbol};
use amqp_primitives::SymbolRef;
use std::alloc::Global;

/// A borrowed key of an annotation: a symbol or a number.
#[derive(Clone, Debug, PartialEq, Eq, PartialOrd, Ord, Hash, Drop)]
pub enum BorrowedKey<'k> {
    /// A symbol.
    Symbol(SymbolRef<'k>),
    /// A number.
    Ulong(&'k u64),
}

impl<'k> BorrowedKey<'k> {
    // An owned copy of the key. The only error is `Memory`.
    pub(crate) fn to_owned_key(&self, alloc: Global) -> Result<OwnedKey, Error>
        ensures same { IfOk result (λ made. owned_primitive made ≡ borrowed_primitive self.now) }
        ensures refused { IfErr result (λ e. e ≡ Memory) }
    {
        match self {
            BorrowedKey::Symbol(text) => OwnedKey::from_str_in(text.as_str(), alloc),
            BorrowedKey::Ulong(number) => Ok(OwnedKey::Ulong(**number)),
        }
    }
}

/// What annotations can be looked up with.
pub trait AnnotationKey {
    ghost use Rattle.amqp_model.specs.Term.{Primitive};

    // The symbol or the number.
    ghost primitive: { Self → Primitive };

    /// Returns the key, borrowed.
    fn key(&self) -> BorrowedKey<'_>
        ensures { borrowed_primitive result ≡ primitive self.now };
}

impl AnnotationKey for BorrowedKey<'_> {
    ghost primitive = { borrowed_primitive };

    fn key(&self) -> BorrowedKey<'_> {
        match self {
            BorrowedKey::Symbol(text) => BorrowedKey::Symbol(SymbolRef(text.as_str())),
            BorrowedKey::Ulong(number) => BorrowedKey::Ulong(*number),
        }
    }
}

impl AnnotationKey for OwnedKey {
    ghost primitive = { owned_primitive };

    fn key(&self) -> BorrowedKey<'_> {
        match self {
            OwnedKey::Symbol(text) => BorrowedKey::Symbol(SymbolRef(text.as_str())),
            OwnedKey::Ulong(number) => BorrowedKey::Ulong(number),
        }
    }
}

impl AnnotationKey for u64 {
    ghost primitive = { ulong };

    fn key(&self) -> BorrowedKey<'_> {
        BorrowedKey::Ulong(self)
    }
}

impl AnnotationKey for &str {
    ghost primitive = { λ text. symbol text.now };

    fn key(&self) -> BorrowedKey<'_> {
        BorrowedKey::Symbol(SymbolRef(*self))
    }
}

impl AnnotationKey for String {
    ghost primitive = { λ text. symbol (string_bytes text) };

    fn key(&self) -> BorrowedKey<'_> {
        BorrowedKey::Symbol(SymbolRef(self.as_str()))
    }
}

impl AnnotationKey for Symbol {
    ghost primitive = { λ text. symbol (string_bytes text.0) };

    fn key(&self) -> BorrowedKey<'_> {
        BorrowedKey::Symbol(SymbolRef(self.as_str()))
    }
}

impl AnnotationKey for SymbolRef<'_> {
    ghost primitive = { λ text. symbol text.0.now };

    fn key(&self) -> BorrowedKey<'_> {
        BorrowedKey::Symbol(SymbolRef(self.as_str()))
    }
}
