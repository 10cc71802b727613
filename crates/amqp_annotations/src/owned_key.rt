//! The keys of annotations (Part 3, section 3.2.10).
ghost use Rattle.std.specs.Prelude.{◌≡◌, [], IfErr, IfOk, refl, string_bytes};
ghost use Rattle.amqp_model.specs.Term.{symbol};
ghost use Rattle.amqp_wire.specs.declared.error.Error.TheVariants.{Memory};
ghost use Rattle.amqp_codec.specs.Agreement.{one_term, agreement, writing_of};
ghost use Rattle.amqp_codec.specs.laws.Key.{key_of};
ghost use Rattle.amqp_kinds.specs.KindSumType.{kind_sum_type};
ghost use Rattle.amqp_annotations.specs.declared.owned_key.OwnedKey.TheVariants as key;
ghost use Rattle.amqp_annotations.specs.laws.Key.{owned_decide};
ghost use Rattle.amqp_annotations.specs.OwnedKeys.{owned_primitive, owned_keys};

use amqp_codec::{
    ByteSource, Decoder, DeserializeTerm, Encoder, Error, MapKey, Pass, Serialize, SerializeTerm,
    Symbol,
};
use amqp_kinds::{Kind, KindSum, read_as, read_kind_sum};
use amqp_primitives::SymbolRef;
use std::alloc::Global;

/// The key of an annotation: a symbol or a number, as its first code determines. Any other type is refused with `WrongType`. Numbers are
/// reserved for the standard, and symbols are free (Part 3, section 3.2.10).
#[derive(Clone, Debug, PartialEq, Eq, PartialOrd, Ord, Hash, Drop)]
pub enum OwnedKey {
    /// A symbol.
    Symbol(Symbol),
    /// A number.
    Ulong(u64),
}

impl OwnedKey {
    /// Returns the symbol with a copy of this text. The only error is `Memory`.
    pub fn from_str_in(text: &str, alloc: Global) -> Result<OwnedKey, Error>
        ensures symbol { IfOk result (λ made. owned_primitive made ≡ symbol text.now) }
        ensures refused { IfErr result (λ e. e ≡ Memory) }
    {
        Ok(OwnedKey::Symbol(Symbol::from_str_in(text, alloc)?))
    }

    /// Returns the symbol with a copy of this symbol's text. The only error is `Memory`.
    pub fn from_symbol_ref(text: SymbolRef<'_>, alloc: Global) -> Result<OwnedKey, Error>
        ensures symbol { IfOk result (λ made. owned_primitive made ≡ symbol text.entry.0.now) }
        ensures refused { IfErr result (λ e. e ≡ Memory) }
    {
        OwnedKey::from_str_in(text.as_str(), alloc)
    }

    /// Returns the symbol without characters. It doesn't allocate.
    pub fn default_in(alloc: Global) -> OwnedKey
        ensures { owned_primitive result ≡ symbol [] }
    {
        OwnedKey::Symbol(Symbol(String::new(alloc)))
    }
}

impl From<Symbol> for OwnedKey {
    ghost from_gives = { λ own value. value ≡ key.Symbol own };

    fn from(own: Symbol) -> OwnedKey {
        OwnedKey::Symbol(own)
    }
}

impl From<u64> for OwnedKey {
    ghost from_gives = { λ own value. value ≡ key.Ulong own };

    fn from(own: u64) -> OwnedKey {
        OwnedKey::Ulong(own)
    }
}

/// Makes the symbol with this text: a string can't be a key.
impl From<String> for OwnedKey {
    ghost from_gives = { λ text value. owned_primitive value ≡ symbol (string_bytes text) };

    fn from(text: String) -> OwnedKey {
        OwnedKey::Symbol(Symbol(text))
    }
}

impl KindSum for OwnedKey {
    ghost sum = { owned_keys };

    fn read_member<R: ByteSource>(
        kind: Kind,
        decoder: &mut Decoder<R>,
        alloc: Global,
    ) -> Result<OwnedKey, Error> {
        match kind {
            Kind::Symbol => read_as::<Symbol, _, _>(decoder, alloc),
            _ => read_as::<u64, _, _>(decoder, alloc),
        }
    }
}

impl Serialize for OwnedKey {
    ghost writing = { writing_of (kind_sum_type owned_keys) refl };

    fn serialize<P: Pass>(&self, encoder: &mut Encoder<P>) -> Result<(), Error> {
        match self {
            OwnedKey::Symbol(text) => text.serialize(encoder),
            OwnedKey::Ulong(number) => number.serialize(encoder),
        }
    }

    fn in_type(&self) {
        match self {
            OwnedKey::Symbol(text) => text.in_type(),
            OwnedKey::Ulong(number) => number.in_type(),
        }
    }
}

impl SerializeTerm for OwnedKey {
    fn is_null(&self) -> bool {
        false
    }

    ghost is_term = { one_term (kind_sum_type owned_keys) refl };
}

impl DeserializeTerm for OwnedKey {
    ghost term = { kind_sum_type owned_keys };

    fn read_value<R: ByteSource>(
        decoder: &mut Decoder<R>,
        alloc: Global,
    ) -> Result<OwnedKey, Error> {
        read_kind_sum(decoder, alloc)
    }

    ghost agreement = { agreement (kind_sum_type owned_keys) refl };
}

impl MapKey for OwnedKey {
    ghost is_key = { key_of refl owned_decide };
}
