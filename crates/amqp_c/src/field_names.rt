//! The names of fields, by the numbers of types.
ghost use Rattle.std.specs.Prelude.{MatchOption};
ghost use Rattle.amqp_c.specs.Descriptors.{IsFieldName, HasNoFieldName};

use amqp_catalogue::TypeName;

/// Returns the name of the field with this number, counted from 0, of the type with that number.
pub(crate) fn field_name(number: u32, index: usize) -> Option<&'static str>
    ensures { MatchOption result (HasNoFieldName number index) (λ name. IsFieldName number index name.now) }
{
    let named = TypeName::from_number(number)?;
    amqp_descriptors::field_name(named, index)
}
