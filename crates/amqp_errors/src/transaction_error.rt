//! Errors of transactions (Part 4, section 4.5.8).
ghost use Rattle.std.specs.Prelude.{◌≡◌, IfErr, IfOk, refl, string_bytes};
ghost use Rattle.amqp_wire.specs.declared.error.Error.TheVariants.{Memory};
ghost use Rattle.amqp_sums.specs.Restricted.{Converts};
ghost use Rattle.amqp_codec.specs.Agreement.{one_term, agreement, writing_of};
ghost use Rattle.amqp_codec.specs.laws.Key.{key_of, variants_decide};
ghost use Rattle.amqp_errors.specs.Texts.{transaction_error_texts};
ghost use Rattle.amqp_errors.specs.Conditions.{transaction_error_type};
ghost use Rattle.amqp_errors.specs.contracts.transaction_error.TransactionError.{the_type};

use amqp_codec::{
    ByteSource, Decoder, DeserializeTerm, Encoder, Error, MapKey, Pass, Serialize, SerializeTerm,
    Symbol,
};
use amqp_sums::restricted::{RestrictedText, from_symbol, read_text, symbol_of, write_text};
use std::alloc::Global;

/// An error of a transaction.
#[derive(Clone, Debug, PartialEq, Eq, Hash, Drop)]
pub enum TransactionError {
    /// There is no transaction with that identifier: `amqp:transaction:unknown-id`.
    UnknownId,
    /// The transaction was rolled back: `amqp:transaction:rollback`.
    Rollback,
    /// The work of the transaction took too long: `amqp:transaction:timeout`.
    Timeout,
}

impl TransactionError {
    /// Returns the text. It doesn't allocate.
    pub fn as_str(&self) -> &'static str
        ensures { result.now ≡ transaction_error_texts self.now }
    {
        match self {
            TransactionError::UnknownId => "amqp:transaction:unknown-id",
            TransactionError::Rollback => "amqp:transaction:rollback",
            TransactionError::Timeout => "amqp:transaction:timeout",
        }
    }

    /// Returns the text as a symbol. The only error is `Memory`.
    pub fn to_symbol(&self, alloc: Global) -> Result<Symbol, Error>
        ensures text { IfOk result (λ symbol. string_bytes symbol.0 ≡ transaction_error_texts self.now) }
        ensures refused { IfErr result (λ e. e ≡ Memory) }
    {
        symbol_of(self, alloc)
    }
}

/// Returns any other text as the error.
impl<'a> TryFrom<&'a str> for TransactionError {
    type Error = &'a str;

    ghost try_from_gives = { λ text answer. Converts transaction_error_texts text.now text answer };

    fn try_from(text: &'a str) -> Result<TransactionError, &'a str> {
        match text {
            "amqp:transaction:unknown-id" => Ok(TransactionError::UnknownId),
            "amqp:transaction:rollback" => Ok(TransactionError::Rollback),
            "amqp:transaction:timeout" => Ok(TransactionError::Timeout),
            _ => Err(text),
        }
    }
}

/// Returns any other symbol as the error.
impl TryFrom<Symbol> for TransactionError {
    type Error = Symbol;

    ghost try_from_gives = { λ symbol answer. Converts transaction_error_texts (string_bytes symbol.0) symbol answer };

    fn try_from(symbol: Symbol) -> Result<TransactionError, Symbol> {
        from_symbol(symbol)
    }
}

impl RestrictedText for TransactionError {
    ghost texts = { transaction_error_texts };

    fn text(&self) -> &'static str {
        self.as_str()
    }

    fn from_text(text: &str) -> Option<TransactionError> {
        TransactionError::try_from(text).ok()
    }
}

impl Serialize for TransactionError {
    ghost writing = { writing_of transaction_error_type refl };

    fn serialize<P: Pass>(&self, encoder: &mut Encoder<P>) -> Result<(), Error> {
        write_text(self, encoder)
    }

    fn in_type(&self) {}
}

impl SerializeTerm for TransactionError {
    fn is_null(&self) -> bool {
        false
    }

    ghost is_term = { one_term transaction_error_type refl };
}

impl DeserializeTerm for TransactionError {
    ghost term = { transaction_error_type };

    fn read_value<R: ByteSource>(
        decoder: &mut Decoder<R>,
        alloc: Global,
    ) -> Result<TransactionError, Error> {
        read_text(decoder, alloc)
    }

    ghost agreement = { agreement transaction_error_type refl };
}

impl MapKey for TransactionError {
    ghost is_key = { key_of refl (variants_decide the_type tt) };
}
