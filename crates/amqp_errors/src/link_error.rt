//! Errors of links (Part 2, section 2.8.18).
ghost use Rattle.std.specs.Prelude.{◌≡◌, IfErr, IfOk, refl, string_bytes};
ghost use Rattle.amqp_wire.specs.declared.error.Error.TheVariants.{Memory};
ghost use Rattle.amqp_sums.specs.Restricted.{Converts};
ghost use Rattle.amqp_codec.specs.Agreement.{one_term, agreement, writing_of};
ghost use Rattle.amqp_codec.specs.laws.Key.{key_of, variants_decide};
ghost use Rattle.amqp_errors.specs.Texts.{link_error_texts};
ghost use Rattle.amqp_errors.specs.Conditions.{link_error_type};
ghost use Rattle.amqp_errors.specs.contracts.link_error.LinkError.{the_type};

use amqp_codec::{
    ByteSource, Decoder, DeserializeTerm, Encoder, Error, MapKey, Pass, Serialize, SerializeTerm,
    Symbol,
};
use amqp_sums::restricted::{RestrictedText, from_symbol, read_text, symbol_of, write_text};
use std::alloc::Global;

/// An error of a link.
#[derive(Clone, Debug, PartialEq, Eq, Hash, Drop)]
pub enum LinkError {
    /// An operator has detached it: `amqp:link:detach-forced`.
    DetachForced,
    /// The peer has sent more messages than the link's credit allows: `amqp:link:transfer-limit-exceeded`.
    TransferLimitExceeded,
    /// The peer has sent a larger message than the link allows: `amqp:link:message-size-exceeded`.
    MessageSizeExceeded,
    /// The peer is to attach to another address, as the error's information says: `amqp:link:redirect`.
    Redirect,
    /// The link was attached elsewhere: `amqp:link:stolen`.
    Stolen,
}

impl LinkError {
    /// Returns the text. It doesn't allocate.
    pub fn as_str(&self) -> &'static str
        ensures { result.now ≡ link_error_texts self.now }
    {
        match self {
            LinkError::DetachForced => "amqp:link:detach-forced",
            LinkError::TransferLimitExceeded => "amqp:link:transfer-limit-exceeded",
            LinkError::MessageSizeExceeded => "amqp:link:message-size-exceeded",
            LinkError::Redirect => "amqp:link:redirect",
            LinkError::Stolen => "amqp:link:stolen",
        }
    }

    /// Returns the text as a symbol. The only error is `Memory`.
    pub fn to_symbol(&self, alloc: Global) -> Result<Symbol, Error>
        ensures text { IfOk result (λ symbol. string_bytes symbol.0 ≡ link_error_texts self.now) }
        ensures refused { IfErr result (λ e. e ≡ Memory) }
    {
        symbol_of(self, alloc)
    }
}

/// Returns any other text as the error.
impl<'a> TryFrom<&'a str> for LinkError {
    type Error = &'a str;

    ghost try_from_gives = { λ text answer. Converts link_error_texts text.now text answer };

    fn try_from(text: &'a str) -> Result<LinkError, &'a str> {
        match text {
            "amqp:link:detach-forced" => Ok(LinkError::DetachForced),
            "amqp:link:transfer-limit-exceeded" => Ok(LinkError::TransferLimitExceeded),
            "amqp:link:message-size-exceeded" => Ok(LinkError::MessageSizeExceeded),
            "amqp:link:redirect" => Ok(LinkError::Redirect),
            "amqp:link:stolen" => Ok(LinkError::Stolen),
            _ => Err(text),
        }
    }
}

/// Returns any other symbol as the error.
impl TryFrom<Symbol> for LinkError {
    type Error = Symbol;

    ghost try_from_gives = { λ symbol answer. Converts link_error_texts (string_bytes symbol.0) symbol answer };

    fn try_from(symbol: Symbol) -> Result<LinkError, Symbol> {
        from_symbol(symbol)
    }
}

impl RestrictedText for LinkError {
    ghost texts = { link_error_texts };

    fn text(&self) -> &'static str {
        self.as_str()
    }

    fn from_text(text: &str) -> Option<LinkError> {
        LinkError::try_from(text).ok()
    }
}

impl Serialize for LinkError {
    ghost writing = { writing_of link_error_type refl };

    fn serialize<P: Pass>(&self, encoder: &mut Encoder<P>) -> Result<(), Error> {
        write_text(self, encoder)
    }

    fn in_type(&self) {}
}

impl SerializeTerm for LinkError {
    fn is_null(&self) -> bool {
        false
    }

    ghost is_term = { one_term link_error_type refl };
}

impl DeserializeTerm for LinkError {
    ghost term = { link_error_type };

    fn read_value<R: ByteSource>(
        decoder: &mut Decoder<R>,
        alloc: Global,
    ) -> Result<LinkError, Error> {
        read_text(decoder, alloc)
    }

    ghost agreement = { agreement link_error_type refl };
}

impl MapKey for LinkError {
    ghost is_key = { key_of refl (variants_decide the_type tt) };
}
