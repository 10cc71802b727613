//! Errors that may come anywhere (Part 2, section 2.8.15).
ghost use Rattle.std.specs.Prelude.{◌≡◌, IfErr, IfOk, refl, string_bytes};
ghost use Rattle.amqp_wire.specs.declared.error.Error.TheVariants.{Memory};
ghost use Rattle.amqp_sums.specs.Restricted.{Converts};
ghost use Rattle.amqp_codec.specs.Agreement.{one_term, agreement, writing_of};
ghost use Rattle.amqp_codec.specs.laws.Key.{key_of, variants_decide};
ghost use Rattle.amqp_errors.specs.Texts.{amqp_error_texts};
ghost use Rattle.amqp_errors.specs.Conditions.{amqp_error_type};
ghost use Rattle.amqp_errors.specs.contracts.amqp_error.AmqpError.{the_type};

use amqp_codec::{
    ByteSource, Decoder, DeserializeTerm, Encoder, Error, MapKey, Pass, Serialize, SerializeTerm,
    Symbol,
};
use amqp_sums::restricted::{RestrictedText, from_symbol, read_text, symbol_of, write_text};
use std::alloc::Global;

/// An error that isn't of one kind of endpoint alone.
#[derive(Clone, Debug, PartialEq, Eq, Hash, Drop)]
pub enum AmqpError {
    /// An internal error occurred, and an operator may have to intervene: `amqp:internal-error`.
    InternalError,
    /// The peer tried to use something that doesn't exist: `amqp:not-found`.
    NotFound,
    /// The peer tried to use something that it may not access: `amqp:unauthorized-access`.
    UnauthorizedAccess,
    /// Data couldn't be decoded: `amqp:decode-error`.
    DecodeError,
    /// The peer has used more than it may: `amqp:resource-limit-exceeded`.
    ResourceLimitExceeded,
    /// A frame was used in a way that the standard doesn't allow: `amqp:not-allowed`.
    NotAllowed,
    /// A field of a frame's body is invalid: `amqp:invalid-field`.
    InvalidField,
    /// What the peer asked for isn't implemented: `amqp:not-implemented`.
    NotImplemented,
    /// The client tried to use something that another client is using: `amqp:resource-locked`.
    ResourceLocked,
    /// A precondition of the request didn't hold: `amqp:precondition-failed`.
    PreconditionFailed,
    /// Something that the client is using was deleted: `amqp:resource-deleted`.
    ResourceDeleted,
    /// A frame was sent that isn't permitted in the current state: `amqp:illegal-state`.
    IllegalState,
    /// The smallest encoding of a frame is larger than a frame may be: `amqp:frame-size-too-small`.
    FrameSizeTooSmall,
}

impl AmqpError {
    /// Returns the text. It doesn't allocate.
    pub fn as_str(&self) -> &'static str
        ensures { result.now ≡ amqp_error_texts self.now }
    {
        match self {
            AmqpError::InternalError => "amqp:internal-error",
            AmqpError::NotFound => "amqp:not-found",
            AmqpError::UnauthorizedAccess => "amqp:unauthorized-access",
            AmqpError::DecodeError => "amqp:decode-error",
            AmqpError::ResourceLimitExceeded => "amqp:resource-limit-exceeded",
            AmqpError::NotAllowed => "amqp:not-allowed",
            AmqpError::InvalidField => "amqp:invalid-field",
            AmqpError::NotImplemented => "amqp:not-implemented",
            AmqpError::ResourceLocked => "amqp:resource-locked",
            AmqpError::PreconditionFailed => "amqp:precondition-failed",
            AmqpError::ResourceDeleted => "amqp:resource-deleted",
            AmqpError::IllegalState => "amqp:illegal-state",
            AmqpError::FrameSizeTooSmall => "amqp:frame-size-too-small",
        }
    }

    /// Returns the text as a symbol. The only error is `Memory`.
    pub fn to_symbol(&self, alloc: Global) -> Result<Symbol, Error>
        ensures text { IfOk result (λ symbol. string_bytes symbol.0 ≡ amqp_error_texts self.now) }
        ensures refused { IfErr result (λ e. e ≡ Memory) }
    {
        symbol_of(self, alloc)
    }
}

/// Returns any other text as the error.
impl<'a> TryFrom<&'a str> for AmqpError {
    type Error = &'a str;

    ghost try_from_gives = { λ text answer. Converts amqp_error_texts text.now text answer };

    fn try_from(text: &'a str) -> Result<AmqpError, &'a str> {
        match text {
            "amqp:internal-error" => Ok(AmqpError::InternalError),
            "amqp:not-found" => Ok(AmqpError::NotFound),
            "amqp:unauthorized-access" => Ok(AmqpError::UnauthorizedAccess),
            "amqp:decode-error" => Ok(AmqpError::DecodeError),
            "amqp:resource-limit-exceeded" => Ok(AmqpError::ResourceLimitExceeded),
            "amqp:not-allowed" => Ok(AmqpError::NotAllowed),
            "amqp:invalid-field" => Ok(AmqpError::InvalidField),
            "amqp:not-implemented" => Ok(AmqpError::NotImplemented),
            "amqp:resource-locked" => Ok(AmqpError::ResourceLocked),
            "amqp:precondition-failed" => Ok(AmqpError::PreconditionFailed),
            "amqp:resource-deleted" => Ok(AmqpError::ResourceDeleted),
            "amqp:illegal-state" => Ok(AmqpError::IllegalState),
            "amqp:frame-size-too-small" => Ok(AmqpError::FrameSizeTooSmall),
            _ => Err(text),
        }
    }
}

/// Returns any other symbol as the error.
impl TryFrom<Symbol> for AmqpError {
    type Error = Symbol;

    ghost try_from_gives = { λ symbol answer. Converts amqp_error_texts (string_bytes symbol.0) symbol answer };

    fn try_from(symbol: Symbol) -> Result<AmqpError, Symbol> {
        from_symbol(symbol)
    }
}

impl RestrictedText for AmqpError {
    ghost texts = { amqp_error_texts };

    fn text(&self) -> &'static str {
        self.as_str()
    }

    fn from_text(text: &str) -> Option<AmqpError> {
        AmqpError::try_from(text).ok()
    }
}

impl Serialize for AmqpError {
    ghost writing = { writing_of amqp_error_type refl };

    fn serialize<P: Pass>(&self, encoder: &mut Encoder<P>) -> Result<(), Error> {
        write_text(self, encoder)
    }

    fn in_type(&self) {}
}

impl SerializeTerm for AmqpError {
    fn is_null(&self) -> bool {
        false
    }

    ghost is_term = { one_term amqp_error_type refl };
}

impl DeserializeTerm for AmqpError {
    ghost term = { amqp_error_type };

    fn read_value<R: ByteSource>(
        decoder: &mut Decoder<R>,
        alloc: Global,
    ) -> Result<AmqpError, Error> {
        read_text(decoder, alloc)
    }

    ghost agreement = { agreement amqp_error_type refl };
}

impl MapKey for AmqpError {
    ghost is_key = { key_of refl (variants_decide the_type tt) };
}
