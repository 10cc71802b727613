//! What went wrong (Part 2, section 2.8.14).
ghost use Rattle.std.specs.Prelude.{◌≡◌, IfErr, IfOk, option_map};
ghost use Rattle.amqp_wire.specs.declared.error.Error.TheVariants.{Memory};
ghost use Rattle.amqp_sums.specs.Types.{composite, fields_of, names_of, one_term, refl, agreement, writing_of};
ghost use Rattle.amqp_errors.specs.Tables.{alone, error};

use crate::{
    AmqpError, ConnectionError, ErrorCondition, Fields, LinkError, SessionError, TransactionError,
};
use amqp_codec::kernel::{Composite, FieldList, FieldRule, write_composite};
use amqp_codec::{
    ByteSource, Decoder, Encoder, Error as CodecError, Pass, Serialize, SerializeTerm, fields,
};
use std::alloc::Global;

/// What went wrong.
#[derive(Clone, Debug, PartialEq, Eq, Drop)]
pub struct Error {
    /// Which error it is.
    pub condition: ErrorCondition,
    /// A description of it, for a person to read.
    pub description: Option<String>,
    /// Further information about it.
    pub info: Option<Box<Fields>>,
}

// The fields, in order.
macro_rules! error_fields {
    ($($part:tt)*) => {
        fields! { [$($part)*]
            0 condition "condition" mandatory,
            1 description "description" optional,
            2 info "info" optional,
        }
    };
}

impl Error {
    /// The code and the name of its descriptor.
    pub const DESCRIPTOR: (u64, &'static str) = (0x1d, "amqp:error:list");

    /// The standard's names of the fields, in order.
    pub const FIELD_NAMES: &'static [&'static str] = error_fields!(names);

    /// Returns an error with this condition, this description and this information. The only error of the call is `Memory`: the information
    /// is boxed.
    pub fn new(
        condition: ErrorCondition,
        description: Option<String>,
        info: Option<Fields>,
        alloc: Global,
    ) -> Result<Error, CodecError>
        ensures condition { IfOk result (λ error. error.condition ≡ condition) }
        ensures description { IfOk result (λ error. error.description ≡ description) }
        ensures info { IfOk result (λ error. option_map (λ held. held.value) error.info ≡ info) }
        ensures refused { IfErr result (λ e. e ≡ Memory) }
    {
        let info = match info {
            Some(fields) => Some(Box::new(alloc, fields)?),
            None => None,
        };
        Ok(Error {
            condition,
            description,
            info,
        })
    }
}

/// Makes the error with this condition alone.
impl From<ErrorCondition> for Error {
    ghost from_gives = { λ condition error. error ≡ alone condition };

    fn from(condition: ErrorCondition) -> Error {
        Error {
            condition,
            description: None,
            info: None,
        }
    }
}

impl From<AmqpError> for Error {
    ghost use Rattle.amqp_errors.specs.declared.error_condition.ErrorCondition.TheVariants as condition;

    ghost from_gives = { λ e error. error ≡ alone (condition.AmqpError e) };

    fn from(error: AmqpError) -> Error {
        Error::from(ErrorCondition::from(error))
    }
}

impl From<ConnectionError> for Error {
    ghost use Rattle.amqp_errors.specs.declared.error_condition.ErrorCondition.TheVariants as condition;

    ghost from_gives = { λ e error. error ≡ alone (condition.ConnectionError e) };

    fn from(error: ConnectionError) -> Error {
        Error::from(ErrorCondition::from(error))
    }
}

impl From<SessionError> for Error {
    ghost use Rattle.amqp_errors.specs.declared.error_condition.ErrorCondition.TheVariants as condition;

    ghost from_gives = { λ e error. error ≡ alone (condition.SessionError e) };

    fn from(error: SessionError) -> Error {
        Error::from(ErrorCondition::from(error))
    }
}

impl From<LinkError> for Error {
    ghost use Rattle.amqp_errors.specs.declared.error_condition.ErrorCondition.TheVariants as condition;

    ghost from_gives = { λ e error. error ≡ alone (condition.LinkError e) };

    fn from(error: LinkError) -> Error {
        Error::from(ErrorCondition::from(error))
    }
}

impl From<TransactionError> for Error {
    ghost use Rattle.amqp_errors.specs.declared.error_condition.ErrorCondition.TheVariants as condition;

    ghost from_gives = { λ e error. error ≡ alone (condition.TransactionError e) };

    fn from(error: TransactionError) -> Error {
        Error::from(ErrorCondition::from(error))
    }
}

impl FieldList for Error {
    ghost list = { fields_of error };

    fn field_rules() -> &'static [FieldRule] {
        error_fields!(rules)
    }

    fn blank(_alloc: Global) -> Error {
        Error {
            condition: ErrorCondition::AmqpError(AmqpError::InternalError),
            description: None,
            info: None,
        }
    }

    #[inline(always)]
    fn fill_field<R: ByteSource>(
        &mut self,
        index: usize,
        decoder: &mut Decoder<R>,
        alloc: Global,
    ) -> Result<(), CodecError> {
        error_fields!(fill(self, index, decoder, alloc))
    }

    #[inline(always)]
    fn is_null_field(&self, index: usize) -> bool {
        error_fields!(is_null(self, index))
    }

    #[inline(always)]
    fn write_field<P: Pass>(
        &self,
        index: usize,
        encoder: &mut Encoder<P>,
    ) -> Result<(), CodecError> {
        error_fields!(write(self, index, encoder))
    }
}

impl Serialize for Error {
    ghost writing = { writing_of (composite error) refl };

    fn serialize<P: Pass>(&self, encoder: &mut Encoder<P>) -> Result<(), CodecError> {
        write_composite(self, Error::DESCRIPTOR.0, encoder)
    }

    fn in_type(&self) {
        error_fields!(in_type(self));
    }
}

impl SerializeTerm for Error {
    fn is_null(&self) -> bool {
        false
    }

    ghost is_term = { one_term (composite error) refl };
}

impl Composite for Error {
    ghost names = { names_of error };

    fn descriptor() -> (u64, &'static str) {
        Error::DESCRIPTOR
    }

    ghost agrees = { agreement (composite error) refl };
}
