//! Errors of sessions (Part 2, section 2.8.17).
ghost use Rattle.std.specs.Prelude.{◌≡◌, IfErr, IfOk, refl, string_bytes};
ghost use Rattle.amqp_wire.specs.declared.error.Error.TheVariants.{Memory};
ghost use Rattle.amqp_sums.specs.Restricted.{Converts};
ghost use Rattle.amqp_codec.specs.Agreement.{one_term, agreement, writing_of};
ghost use Rattle.amqp_codec.specs.laws.Key.{key_of, variants_decide};
ghost use Rattle.amqp_errors.specs.Texts.{session_error_texts};
ghost use Rattle.amqp_errors.specs.Conditions.{session_error_type};
ghost use Rattle.amqp_errors.specs.contracts.session_error.SessionError.{the_type};

use amqp_codec::{
    ByteSource, Decoder, DeserializeTerm, Encoder, Error, MapKey, Pass, Serialize, SerializeTerm,
    Symbol,
};
use amqp_sums::restricted::{RestrictedText, from_symbol, read_text, symbol_of, write_text};
use std::alloc::Global;

/// An error of a session.
#[derive(Clone, Debug, PartialEq, Eq, Hash, Drop)]
pub enum SessionError {
    /// The peer has sent more transfers than the window allows: `amqp:session:window-violation`.
    WindowViolation,
    /// Input was received for a link that was detached with an error: `amqp:session:errant-link`.
    ErrantLink,
    /// A link was attached with a handle that is in use: `amqp:session:handle-in-use`.
    HandleInUse,
    /// A frame has a handle that no link is attached with: `amqp:session:unattached-handle`.
    UnattachedHandle,
}

impl SessionError {
    /// Returns the text. It doesn't allocate.
    pub fn as_str(&self) -> &'static str
        ensures { result.now ≡ session_error_texts self.now }
    {
        match self {
            SessionError::WindowViolation => "amqp:session:window-violation",
            SessionError::ErrantLink => "amqp:session:errant-link",
            SessionError::HandleInUse => "amqp:session:handle-in-use",
            SessionError::UnattachedHandle => "amqp:session:unattached-handle",
        }
    }

    /// Returns the text as a symbol. The only error is `Memory`.
    pub fn to_symbol(&self, alloc: Global) -> Result<Symbol, Error>
        ensures text { IfOk result (λ symbol. string_bytes symbol.0 ≡ session_error_texts self.now) }
        ensures refused { IfErr result (λ e. e ≡ Memory) }
    {
        symbol_of(self, alloc)
    }
}

/// Returns any other text as the error.
impl<'a> TryFrom<&'a str> for SessionError {
    type Error = &'a str;

    ghost try_from_gives = { λ text answer. Converts session_error_texts text.now text answer };

    fn try_from(text: &'a str) -> Result<SessionError, &'a str> {
        match text {
            "amqp:session:window-violation" => Ok(SessionError::WindowViolation),
            "amqp:session:errant-link" => Ok(SessionError::ErrantLink),
            "amqp:session:handle-in-use" => Ok(SessionError::HandleInUse),
            "amqp:session:unattached-handle" => Ok(SessionError::UnattachedHandle),
            _ => Err(text),
        }
    }
}

/// Returns any other symbol as the error.
impl TryFrom<Symbol> for SessionError {
    type Error = Symbol;

    ghost try_from_gives = { λ symbol answer. Converts session_error_texts (string_bytes symbol.0) symbol answer };

    fn try_from(symbol: Symbol) -> Result<SessionError, Symbol> {
        from_symbol(symbol)
    }
}

impl RestrictedText for SessionError {
    ghost texts = { session_error_texts };

    fn text(&self) -> &'static str {
        self.as_str()
    }

    fn from_text(text: &str) -> Option<SessionError> {
        SessionError::try_from(text).ok()
    }
}

impl Serialize for SessionError {
    ghost writing = { writing_of session_error_type refl };

    fn serialize<P: Pass>(&self, encoder: &mut Encoder<P>) -> Result<(), Error> {
        write_text(self, encoder)
    }

    fn in_type(&self) {}
}

impl SerializeTerm for SessionError {
    fn is_null(&self) -> bool {
        false
    }

    ghost is_term = { one_term session_error_type refl };
}

impl DeserializeTerm for SessionError {
    ghost term = { session_error_type };

    fn read_value<R: ByteSource>(
        decoder: &mut Decoder<R>,
        alloc: Global,
    ) -> Result<SessionError, Error> {
        read_text(decoder, alloc)
    }

    ghost agreement = { agreement session_error_type refl };
}

impl MapKey for SessionError {
    ghost is_key = { key_of refl (variants_decide the_type tt) };
}
