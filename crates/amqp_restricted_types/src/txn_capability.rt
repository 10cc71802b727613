//! What a coordinator of transactions can do (Part 4, section 4.5.7).
ghost use Rattle.std.specs.Prelude.{◌≡◌, IfErr, IfOk, refl, string_bytes};
ghost use Rattle.amqp_wire.specs.declared.error.Error.TheVariants.{Memory};
ghost use Rattle.amqp_sums.specs.Restricted.{Converts};
ghost use Rattle.amqp_codec.specs.Agreement.{one_term, agreement, writing_of};
ghost use Rattle.amqp_codec.specs.laws.Key.{key_of, variants_decide};
ghost use Rattle.amqp_restricted_types.specs.Transactions.{txn_capability_texts, txn_capability_type};
ghost use Rattle.amqp_restricted_types.specs.contracts.txn_capability.TxnCapability.{the_type};

use amqp_codec::{
    ByteSource, Decoder, DeserializeTerm, Encoder, Error, MapKey, Pass, Serialize, SerializeTerm,
    Symbol,
};
use amqp_sums::restricted::{RestrictedText, from_symbol, read_text, symbol_of, write_text};
use std::alloc::Global;

/// What a coordinator of transactions can do.
#[derive(Clone, Debug, PartialEq, Eq, PartialOrd, Ord, Hash, Drop)]
pub enum TxnCapability {
    /// Local transactions: `amqp:local-transactions`.
    LocalTransactions,
    /// Transactions over several resources: `amqp:distributed-transactions`.
    DistributedTransactions,
    /// Local transactions that may become ones over several resources: `amqp:promotable-transactions`.
    PromotableTransactions,
    /// Several active transactions on one session: `amqp:multi-txns-per-ssn`.
    MultiTxnsPerSsn,
    /// One transaction on several sessions: `amqp:multi-ssns-per-txn`.
    MultiSsnsPerTxn,
}

impl TxnCapability {
    /// Returns the text. It doesn't allocate.
    pub fn as_str(&self) -> &'static str
        ensures { result.now ≡ txn_capability_texts self.now }
    {
        match self {
            TxnCapability::LocalTransactions => "amqp:local-transactions",
            TxnCapability::DistributedTransactions => "amqp:distributed-transactions",
            TxnCapability::PromotableTransactions => "amqp:promotable-transactions",
            TxnCapability::MultiTxnsPerSsn => "amqp:multi-txns-per-ssn",
            TxnCapability::MultiSsnsPerTxn => "amqp:multi-ssns-per-txn",
        }
    }

    /// Returns the text as a symbol. The only error is `Memory`.
    pub fn to_symbol(&self, alloc: Global) -> Result<Symbol, Error>
        ensures text { IfOk result (λ symbol. string_bytes symbol.0 ≡ txn_capability_texts self.now) }
        ensures refused { IfErr result (λ e. e ≡ Memory) }
    {
        symbol_of(self, alloc)
    }
}

/// Returns any other text as the error.
impl<'a> TryFrom<&'a str> for TxnCapability {
    type Error = &'a str;

    ghost try_from_gives = { λ text answer. Converts txn_capability_texts text.now text answer };

    fn try_from(text: &'a str) -> Result<TxnCapability, &'a str> {
        match text {
            "amqp:local-transactions" => Ok(TxnCapability::LocalTransactions),
            "amqp:distributed-transactions" => Ok(TxnCapability::DistributedTransactions),
            "amqp:promotable-transactions" => Ok(TxnCapability::PromotableTransactions),
            "amqp:multi-txns-per-ssn" => Ok(TxnCapability::MultiTxnsPerSsn),
            "amqp:multi-ssns-per-txn" => Ok(TxnCapability::MultiSsnsPerTxn),
            _ => Err(text),
        }
    }
}

/// Returns any other symbol as the error.
impl TryFrom<Symbol> for TxnCapability {
    type Error = Symbol;

    ghost try_from_gives = { λ symbol answer. Converts txn_capability_texts (string_bytes symbol.0) symbol answer };

    fn try_from(symbol: Symbol) -> Result<TxnCapability, Symbol> {
        from_symbol(symbol)
    }
}

impl RestrictedText for TxnCapability {
    ghost texts = { txn_capability_texts };

    fn text(&self) -> &'static str {
        self.as_str()
    }

    fn from_text(text: &str) -> Option<TxnCapability> {
        TxnCapability::try_from(text).ok()
    }
}

impl Serialize for TxnCapability {
    ghost writing = { writing_of txn_capability_type refl };

    fn serialize<P: Pass>(&self, encoder: &mut Encoder<P>) -> Result<(), Error> {
        write_text(self, encoder)
    }

    fn in_type(&self) {}
}

impl SerializeTerm for TxnCapability {
    fn is_null(&self) -> bool {
        false
    }

    ghost is_term = { one_term txn_capability_type refl };
}

impl DeserializeTerm for TxnCapability {
    ghost term = { txn_capability_type };

    fn read_value<R: ByteSource>(
        decoder: &mut Decoder<R>,
        alloc: Global,
    ) -> Result<TxnCapability, Error> {
        read_text(decoder, alloc)
    }

    ghost agreement = { agreement txn_capability_type refl };
}

impl MapKey for TxnCapability {
    ghost is_key = { key_of refl (variants_decide the_type tt) };
}
