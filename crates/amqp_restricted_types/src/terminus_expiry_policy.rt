//! When a terminus begins to expire (Part 3, section 3.5.6).
ghost use Rattle.std.specs.Prelude.{◌≡◌, IfErr, IfOk, refl, string_bytes};
ghost use Rattle.amqp_wire.specs.declared.error.Error.TheVariants.{Memory};
ghost use Rattle.amqp_sums.specs.Restricted.{Converts};
ghost use Rattle.amqp_codec.specs.Agreement.{one_term, agreement, writing_of};
ghost use Rattle.amqp_codec.specs.laws.Key.{key_of, variants_decide};
ghost use Rattle.amqp_restricted_types.specs.Termini.{terminus_expiry_policy_texts, terminus_expiry_policy_type};
ghost use Rattle.amqp_restricted_types.specs.contracts.terminus_expiry_policy.TerminusExpiryPolicy.{the_type};

use amqp_codec::{
    ByteSource, Decoder, DeserializeTerm, Encoder, Error, MapKey, Pass, Serialize, SerializeTerm,
    Symbol,
};
use amqp_sums::restricted::{RestrictedText, from_symbol, read_text, symbol_of, write_text};
use std::alloc::Global;

/// When a terminus begins to expire.
#[derive(Clone, Debug, PartialEq, Eq, Hash, Default, Drop)]
pub enum TerminusExpiryPolicy {
    /// When the link is detached: `link-detach`.
    LinkDetach,
    /// When the last session that it was linked in ends; the default: `session-end`.
    #[default]
    SessionEnd,
    /// When the last connection that it was linked over closes: `connection-close`.
    ConnectionClose,
    /// Never: `never`.
    Never,
}

impl TerminusExpiryPolicy {
    /// Returns the text. It doesn't allocate.
    pub fn as_str(&self) -> &'static str
        ensures { result.now ≡ terminus_expiry_policy_texts self.now }
    {
        match self {
            TerminusExpiryPolicy::LinkDetach => "link-detach",
            TerminusExpiryPolicy::SessionEnd => "session-end",
            TerminusExpiryPolicy::ConnectionClose => "connection-close",
            TerminusExpiryPolicy::Never => "never",
        }
    }

    /// Returns the text as a symbol. The only error is `Memory`.
    pub fn to_symbol(&self, alloc: Global) -> Result<Symbol, Error>
        ensures text { IfOk result (λ symbol. string_bytes symbol.0 ≡ terminus_expiry_policy_texts self.now) }
        ensures refused { IfErr result (λ e. e ≡ Memory) }
    {
        symbol_of(self, alloc)
    }
}

/// Returns any other text as the error.
impl<'a> TryFrom<&'a str> for TerminusExpiryPolicy {
    type Error = &'a str;

    ghost try_from_gives = { λ text answer. Converts terminus_expiry_policy_texts text.now text answer };

    fn try_from(text: &'a str) -> Result<TerminusExpiryPolicy, &'a str> {
        match text {
            "link-detach" => Ok(TerminusExpiryPolicy::LinkDetach),
            "session-end" => Ok(TerminusExpiryPolicy::SessionEnd),
            "connection-close" => Ok(TerminusExpiryPolicy::ConnectionClose),
            "never" => Ok(TerminusExpiryPolicy::Never),
            _ => Err(text),
        }
    }
}

/// Returns any other symbol as the error.
impl TryFrom<Symbol> for TerminusExpiryPolicy {
    type Error = Symbol;

    ghost try_from_gives = { λ symbol answer. Converts terminus_expiry_policy_texts (string_bytes symbol.0) symbol answer };

    fn try_from(symbol: Symbol) -> Result<TerminusExpiryPolicy, Symbol> {
        from_symbol(symbol)
    }
}

impl RestrictedText for TerminusExpiryPolicy {
    ghost texts = { terminus_expiry_policy_texts };

    fn text(&self) -> &'static str {
        self.as_str()
    }

    fn from_text(text: &str) -> Option<TerminusExpiryPolicy> {
        TerminusExpiryPolicy::try_from(text).ok()
    }
}

impl Serialize for TerminusExpiryPolicy {
    ghost writing = { writing_of terminus_expiry_policy_type refl };

    fn serialize<P: Pass>(&self, encoder: &mut Encoder<P>) -> Result<(), Error> {
        write_text(self, encoder)
    }

    fn in_type(&self) {}
}

impl SerializeTerm for TerminusExpiryPolicy {
    fn is_null(&self) -> bool {
        false
    }

    ghost is_term = { one_term terminus_expiry_policy_type refl };
}

impl DeserializeTerm for TerminusExpiryPolicy {
    ghost term = { terminus_expiry_policy_type };

    fn read_value<R: ByteSource>(
        decoder: &mut Decoder<R>,
        alloc: Global,
    ) -> Result<TerminusExpiryPolicy, Error> {
        read_text(decoder, alloc)
    }

    ghost agreement = { agreement terminus_expiry_policy_type refl };
}

impl MapKey for TerminusExpiryPolicy {
    ghost is_key = { key_of refl (variants_decide the_type tt) };
}
