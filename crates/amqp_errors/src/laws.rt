//! What holds for error conditions in addition to the laws of every type. The functions do nothing; their contracts are proved.
ghost use Rattle.std.specs.Prelude.{◌≡◌, true, string_bytes};
ghost use Rattle.amqp_wire.specs.declared.symbol.Symbol.{Symbol};
ghost use Rattle.amqp_errors.specs.Texts.{amqp_error_texts, connection_error_texts, session_error_texts};
ghost use Rattle.amqp_errors.specs.Texts.{link_error_texts, transaction_error_texts};
ghost use Rattle.amqp_errors.specs.Conditions.{IsUnlisted, norm_condition};
ghost use Rattle.amqp_errors.specs.declared.error_condition.ErrorCondition.TheVariants as condition;

use crate::{
    AmqpError, ConnectionError, Error, ErrorCondition, LinkError, SessionError, TransactionError,
};
use amqp_codec::Canonical;

/// The normal form of a `Custom` with the text of a listed error is that error, as which it is read back. A `Custom` with any other text is
/// its own normal form.
pub fn normal_conditions()
    ensures amqp_errors { (s : Symbol) (e : _) → string_bytes s.0 ≡ amqp_error_texts e
        → norm_condition (condition.Custom s) ≡ condition.AmqpError e }
    ensures connection_errors { (s : Symbol) (e : _) → string_bytes s.0 ≡ connection_error_texts e
        → norm_condition (condition.Custom s) ≡ condition.ConnectionError e }
    ensures session_errors { (s : Symbol) (e : _) → string_bytes s.0 ≡ session_error_texts e
        → norm_condition (condition.Custom s) ≡ condition.SessionError e }
    ensures link_errors { (s : Symbol) (e : _) → string_bytes s.0 ≡ link_error_texts e
        → norm_condition (condition.Custom s) ≡ condition.LinkError e }
    ensures transaction_errors { (s : Symbol) (e : _) → string_bytes s.0 ≡ transaction_error_texts e
        → norm_condition (condition.Custom s) ≡ condition.TransactionError e }
    ensures others { (s : Symbol) → IsUnlisted (string_bytes s.0) → norm_condition (condition.Custom s) ≡ condition.Custom s }
{}

/// Every other condition is its own normal form.
pub fn listed_conditions_are_normal()
    ensures amqp_errors { (e : _) → norm_condition (condition.AmqpError e) ≡ condition.AmqpError e }
    ensures connection_errors { (e : _) → norm_condition (condition.ConnectionError e) ≡ condition.ConnectionError e }
    ensures session_errors { (e : _) → norm_condition (condition.SessionError e) ≡ condition.SessionError e }
    ensures link_errors { (e : _) → norm_condition (condition.LinkError e) ≡ condition.LinkError e }
    ensures transaction_errors { (e : _) → norm_condition (condition.TransactionError e) ≡ condition.TransactionError e }
{}

/// The canonical text of a condition is read again as the condition's normal form.
pub fn conditions_are_read_again()
    ensures again { (v : _) → ⟦<ErrorCondition as Canonical>⟧.again v ≡ norm_condition v }
{}

/// For these types, no encoding of a value is shorter than its canonical text, if it holds no array.
pub fn texts_are_least()
    ensures amqp_error { ⟦<AmqpError as Canonical>⟧.is_least ≡ true }
    ensures connection_error { ⟦<ConnectionError as Canonical>⟧.is_least ≡ true }
    ensures session_error { ⟦<SessionError as Canonical>⟧.is_least ≡ true }
    ensures link_error { ⟦<LinkError as Canonical>⟧.is_least ≡ true }
    ensures transaction_error { ⟦<TransactionError as Canonical>⟧.is_least ≡ true }
    ensures error_condition { ⟦<ErrorCondition as Canonical>⟧.is_least ≡ true }
    ensures error { ⟦<Error as Canonical>⟧.is_least ≡ true }
{}
