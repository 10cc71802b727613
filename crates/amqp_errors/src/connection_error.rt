//! Errors of connections (Part 2, section 2.8.16).
ghost use Rattle.std.specs.Prelude.{◌≡◌, IfErr, IfOk, refl, string_bytes};
ghost use Rattle.amqp_wire.specs.declared.error.Error.TheVariants.{Memory};
ghost use Rattle.amqp_sums.specs.Restricted.{Converts};
ghost use Rattle.amqp_codec.specs.Agreement.{one_term, agreement, writing_of};
ghost use Rattle.amqp_codec.specs.laws.Key.{key_of, variants_decide};
ghost use Rattle.amqp_errors.specs.Texts.{connection_error_texts};
ghost use Rattle.amqp_errors.specs.Conditions.{connection_error_type};
ghost use Rattle.amqp_errors.specs.contracts.connection_error.ConnectionError.{the_type};

use amqp_codec::{
    ByteSource, Decoder, DeserializeTerm, Encoder, Error, MapKey, Pass, Serialize, SerializeTerm,
    Symbol,
};
use amqp_sums::restricted::{RestrictedText, from_symbol, read_text, symbol_of, write_text};
use std::alloc::Global;

/// An error of a connection.
#[derive(Clone, Debug, PartialEq, Eq, Hash, Drop)]
pub enum ConnectionError {
    /// An operator has closed it: `amqp:connection:forced`.
    ConnectionForced,
    /// No valid frame was found in the incoming bytes: `amqp:connection:framing-error`.
    FramingError,
    /// The peer is to connect elsewhere, as the error's information says: `amqp:connection:redirect`.
    Redirect,
}

impl ConnectionError {
    /// Returns the text. It doesn't allocate.
    pub fn as_str(&self) -> &'static str
        ensures { result.now ≡ connection_error_texts self.now }
    {
        match self {
            ConnectionError::ConnectionForced => "amqp:connection:forced",
            ConnectionError::FramingError => "amqp:connection:framing-error",
            ConnectionError::Redirect => "amqp:connection:redirect",
        }
    }

    /// Returns the text as a symbol. The only error is `Memory`.
    pub fn to_symbol(&self, alloc: Global) -> Result<Symbol, Error>
        ensures text { IfOk result (λ symbol. string_bytes symbol.0 ≡ connection_error_texts self.now) }
        ensures refused { IfErr result (λ e. e ≡ Memory) }
    {
        symbol_of(self, alloc)
    }
}

/// Returns any other text as the error.
impl<'a> TryFrom<&'a str> for ConnectionError {
    type Error = &'a str;

    ghost try_from_gives = { λ text answer. Converts connection_error_texts text.now text answer };

    fn try_from(text: &'a str) -> Result<ConnectionError, &'a str> {
        match text {
            "amqp:connection:forced" => Ok(ConnectionError::ConnectionForced),
            "amqp:connection:framing-error" => Ok(ConnectionError::FramingError),
            "amqp:connection:redirect" => Ok(ConnectionError::Redirect),
            _ => Err(text),
        }
    }
}

/// Returns any other symbol as the error.
impl TryFrom<Symbol> for ConnectionError {
    type Error = Symbol;

    ghost try_from_gives = { λ symbol answer. Converts connection_error_texts (string_bytes symbol.0) symbol answer };

    fn try_from(symbol: Symbol) -> Result<ConnectionError, Symbol> {
        from_symbol(symbol)
    }
}

impl RestrictedText for ConnectionError {
    ghost texts = { connection_error_texts };

    fn text(&self) -> &'static str {
        self.as_str()
    }

    fn from_text(text: &str) -> Option<ConnectionError> {
        ConnectionError::try_from(text).ok()
    }
}

impl Serialize for ConnectionError {
    ghost writing = { writing_of connection_error_type refl };

    fn serialize<P: Pass>(&self, encoder: &mut Encoder<P>) -> Result<(), Error> {
        write_text(self, encoder)
    }

    fn in_type(&self) {}
}

impl SerializeTerm for ConnectionError {
    fn is_null(&self) -> bool {
        false
    }

    ghost is_term = { one_term connection_error_type refl };
}

impl DeserializeTerm for ConnectionError {
    ghost term = { connection_error_type };

    fn read_value<R: ByteSource>(
        decoder: &mut Decoder<R>,
        alloc: Global,
    ) -> Result<ConnectionError, Error> {
        read_text(decoder, alloc)
    }

    ghost agreement = { agreement connection_error_type refl };
}

impl MapKey for ConnectionError {
    ghost is_key = { key_of refl (variants_decide the_type tt) };
}
