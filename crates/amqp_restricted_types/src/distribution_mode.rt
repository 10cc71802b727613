//! How a node distributes its messages (Part 3, section 3.5.7).
ghost use Rattle.std.specs.Prelude.{◌≡◌, IfErr, IfOk, refl, string_bytes};
ghost use Rattle.amqp_wire.specs.declared.error.Error.TheVariants.{Memory};
ghost use Rattle.amqp_sums.specs.Restricted.{Converts};
ghost use Rattle.amqp_codec.specs.Agreement.{one_term, agreement, writing_of};
ghost use Rattle.amqp_codec.specs.laws.Key.{key_of, variants_decide};
ghost use Rattle.amqp_restricted_types.specs.Termini.{distribution_mode_texts, distribution_mode_type};
ghost use Rattle.amqp_restricted_types.specs.contracts.distribution_mode.DistributionMode.{the_type};

use amqp_codec::{
    ByteSource, Decoder, DeserializeTerm, Encoder, Error, MapKey, Pass, Serialize, SerializeTerm,
    Symbol,
};
use amqp_sums::restricted::{RestrictedText, from_symbol, read_text, symbol_of, write_text};
use std::alloc::Global;

/// How a node gives its messages to links.
#[derive(Clone, Debug, PartialEq, Eq, Hash, Drop)]
pub enum DistributionMode {
    /// A message that was transferred is no longer available to other links: `move`.
    Move,
    /// A message that was transferred stays available to other links: `copy`.
    Copy,
}

impl DistributionMode {
    /// Returns the text. It doesn't allocate.
    pub fn as_str(&self) -> &'static str
        ensures { result.now ≡ distribution_mode_texts self.now }
    {
        match self {
            DistributionMode::Move => "move",
            DistributionMode::Copy => "copy",
        }
    }

    /// Returns the text as a symbol. The only error is `Memory`.
    pub fn to_symbol(&self, alloc: Global) -> Result<Symbol, Error>
        ensures text { IfOk result (λ symbol. string_bytes symbol.0 ≡ distribution_mode_texts self.now) }
        ensures refused { IfErr result (λ e. e ≡ Memory) }
    {
        symbol_of(self, alloc)
    }
}

/// Returns any other text as the error.
impl<'a> TryFrom<&'a str> for DistributionMode {
    type Error = &'a str;

    ghost try_from_gives = { λ text answer. Converts distribution_mode_texts text.now text answer };

    fn try_from(text: &'a str) -> Result<DistributionMode, &'a str> {
        match text {
            "move" => Ok(DistributionMode::Move),
            "copy" => Ok(DistributionMode::Copy),
            _ => Err(text),
        }
    }
}

/// Returns any other symbol as the error.
impl TryFrom<Symbol> for DistributionMode {
    type Error = Symbol;

    ghost try_from_gives = { λ symbol answer. Converts distribution_mode_texts (string_bytes symbol.0) symbol answer };

    fn try_from(symbol: Symbol) -> Result<DistributionMode, Symbol> {
        from_symbol(symbol)
    }
}

impl RestrictedText for DistributionMode {
    ghost texts = { distribution_mode_texts };

    fn text(&self) -> &'static str {
        self.as_str()
    }

    fn from_text(text: &str) -> Option<DistributionMode> {
        DistributionMode::try_from(text).ok()
    }
}

impl Serialize for DistributionMode {
    ghost writing = { writing_of distribution_mode_type refl };

    fn serialize<P: Pass>(&self, encoder: &mut Encoder<P>) -> Result<(), Error> {
        write_text(self, encoder)
    }

    fn in_type(&self) {}
}

impl SerializeTerm for DistributionMode {
    fn is_null(&self) -> bool {
        false
    }

    ghost is_term = { one_term distribution_mode_type refl };
}

impl DeserializeTerm for DistributionMode {
    ghost term = { distribution_mode_type };

    fn read_value<R: ByteSource>(
        decoder: &mut Decoder<R>,
        alloc: Global,
    ) -> Result<DistributionMode, Error> {
        read_text(decoder, alloc)
    }

    ghost agreement = { agreement distribution_mode_type refl };
}

impl MapKey for DistributionMode {
    ghost is_key = { key_of refl (variants_decide the_type tt) };
}
