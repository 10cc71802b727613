//! Error conditions (Part 2, section 2.8.14).
ghost use Rattle.std.specs.Prelude.{◌≡◌, MatchOption, false, refl, string_bytes};
ghost use Rattle.amqp_codec.specs.Agreement.{one_term, agreement, writing_of};
ghost use Rattle.amqp_errors.specs.Conditions.{condition_texts, condition_type, IsNormal, IsUnlisted, is_custom};

use crate::{AmqpError, ConnectionError, LinkError, SessionError, TransactionError};
use amqp_codec::{
    ByteSource, Decoder, DeserializeTerm, Encoder, Error, Pass, Serialize, SerializeTerm, Symbol,
};
use std::alloc::Global;

/// What went wrong: a listed error, or an extension's own. A symbol is read as the listed error whose text it is, and otherwise as
/// `Custom`. So a `Custom` with the text of a listed error is read back as the listed error.
#[derive(Clone, Debug, PartialEq, Eq, Drop)]
pub enum ErrorCondition {
    /// An error that isn't of one kind of endpoint alone.
    AmqpError(AmqpError),
    /// An error of a connection.
    ConnectionError(ConnectionError),
    /// An error of a session.
    SessionError(SessionError),
    /// An error of a link.
    LinkError(LinkError),
    /// Any other text.
    Custom(Symbol),
    /// An error of a transaction.
    TransactionError(TransactionError),
}

impl From<AmqpError> for ErrorCondition {
    ghost use Rattle.amqp_errors.specs.declared.error_condition.ErrorCondition.TheVariants as condition;

    ghost from_gives = { λ error made. made ≡ condition.AmqpError error };

    fn from(error: AmqpError) -> ErrorCondition {
        ErrorCondition::AmqpError(error)
    }
}

impl From<ConnectionError> for ErrorCondition {
    ghost use Rattle.amqp_errors.specs.declared.error_condition.ErrorCondition.TheVariants as condition;

    ghost from_gives = { λ error made. made ≡ condition.ConnectionError error };

    fn from(error: ConnectionError) -> ErrorCondition {
        ErrorCondition::ConnectionError(error)
    }
}

impl From<SessionError> for ErrorCondition {
    ghost use Rattle.amqp_errors.specs.declared.error_condition.ErrorCondition.TheVariants as condition;

    ghost from_gives = { λ error made. made ≡ condition.SessionError error };

    fn from(error: SessionError) -> ErrorCondition {
        ErrorCondition::SessionError(error)
    }
}

impl From<LinkError> for ErrorCondition {
    ghost use Rattle.amqp_errors.specs.declared.error_condition.ErrorCondition.TheVariants as condition;

    ghost from_gives = { λ error made. made ≡ condition.LinkError error };

    fn from(error: LinkError) -> ErrorCondition {
        ErrorCondition::LinkError(error)
    }
}

impl From<TransactionError> for ErrorCondition {
    ghost use Rattle.amqp_errors.specs.declared.error_condition.ErrorCondition.TheVariants as condition;

    ghost from_gives = { λ error made. made ≡ condition.TransactionError error };

    fn from(error: TransactionError) -> ErrorCondition {
        ErrorCondition::TransactionError(error)
    }
}

impl ErrorCondition {
    // The text.
    fn text(&self) -> &str
        ensures { result.now ≡ condition_texts self.now }
    {
        match self {
            ErrorCondition::AmqpError(error) => error.as_str(),
            ErrorCondition::ConnectionError(error) => error.as_str(),
            ErrorCondition::SessionError(error) => error.as_str(),
            ErrorCondition::LinkError(error) => error.as_str(),
            ErrorCondition::Custom(symbol) => symbol.as_str(),
            ErrorCondition::TransactionError(error) => error.as_str(),
        }
    }

    // The listed error that has this text.
    fn of_text(text: &str) -> Option<ErrorCondition>
        ensures { MatchOption result (IsUnlisted text.now) (λ v. (condition_texts v ≡ text.now) × (is_custom v ≡ false)) }
    {
        if let Ok(error) = AmqpError::try_from(text) {
            return Some(ErrorCondition::AmqpError(error));
        }
        if let Ok(error) = ConnectionError::try_from(text) {
            return Some(ErrorCondition::ConnectionError(error));
        }
        if let Ok(error) = SessionError::try_from(text) {
            return Some(ErrorCondition::SessionError(error));
        }
        if let Ok(error) = LinkError::try_from(text) {
            return Some(ErrorCondition::LinkError(error));
        }
        if let Ok(error) = TransactionError::try_from(text) {
            return Some(ErrorCondition::TransactionError(error));
        }
        None
    }

    // The condition that a symbol is read as.
    fn of_symbol(symbol: Symbol) -> ErrorCondition
        ensures text { condition_texts result ≡ string_bytes symbol.0 }
        ensures normal { IsNormal result }
    {
        match ErrorCondition::of_text(symbol.as_str()) {
            Some(listed) => listed,
            None => ErrorCondition::Custom(symbol),
        }
    }
}

impl Serialize for ErrorCondition {
    ghost writing = { writing_of condition_type refl };

    fn serialize<P: Pass>(&self, encoder: &mut Encoder<P>) -> Result<(), Error> {
        encoder.write_symbol(self.text())
    }

    fn in_type(&self) {}
}

impl SerializeTerm for ErrorCondition {
    fn is_null(&self) -> bool {
        false
    }

    ghost is_term = { one_term condition_type refl };
}

impl DeserializeTerm for ErrorCondition {
    ghost term = { condition_type };

    fn read_value<R: ByteSource>(
        decoder: &mut Decoder<R>,
        alloc: Global,
    ) -> Result<ErrorCondition, Error> {
        let symbol = decoder.read_symbol(alloc)?;
        Ok(ErrorCondition::of_symbol(symbol))
    }

    ghost agreement = { agreement condition_type refl };
}
