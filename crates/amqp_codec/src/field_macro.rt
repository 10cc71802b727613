//! What is written of a composite from one list of its fields.

/// Writes a part of a composite from the list of its fields. A composite's module has the list in a macro of its own, which calls this one
/// with the part that is asked for:
///
/// ```text
/// macro_rules! received_fields {
///     ($($part:tt)*) => {
///         fields! { [$($part)*]
///             0 section_number "section-number" mandatory,
///             1 section_offset "section-offset" mandatory,
///         }
///     };
/// }
/// ```
///
/// A line has the field's number, from 0 on, its name in the struct, its name in the standard, and its rule: `optional`, `mandatory`,
/// `default` with the default as a pattern, `multiple`, or `mandatory_multiple`. The last two need the calls of `amqp_containers::multiple`
/// in scope.
///
/// The parts are `rules` and `names`, which are slices, `fill(self, index, decoder, alloc)`, `is_null(self, index)` and
/// `write(self, index, encoder)`, which are the bodies of the calls of `FieldList`, and `in_type(self)`, which is that of
/// `Serialize::in_type`.
#[macro_export]
macro_rules! fields {
    ([rules] $($number:literal $field:ident $name:literal $rule:ident $(($default:pat))?),* $(,)?) => {
        &[$($crate::fields!(@rule $rule)),*]
    };
    ([names] $($number:literal $field:ident $name:literal $rule:ident $(($default:pat))?),* $(,)?) => {
        &[$($name),*]
    };
    ([fill($me:expr, $index:expr, $decoder:expr, $alloc:expr)]
        $($number:literal $field:ident $name:literal $rule:ident $(($default:pat))?),* $(,)?) => {
        match $index {
            $($number => $crate::fields!(@fill $rule $me.$field, $decoder, $alloc),)*
            _ => unreachable!(),
        }
    };
    ([is_null($me:expr, $index:expr)]
        $($number:literal $field:ident $name:literal $rule:ident $(($default:pat))?),* $(,)?) => {
        match $index {
            $($number => $crate::fields!(@is_null $rule $(($default))? $me.$field),)*
            _ => unreachable!(),
        }
    };
    ([write($me:expr, $index:expr, $encoder:expr)]
        $($number:literal $field:ident $name:literal $rule:ident $(($default:pat))?),* $(,)?) => {
        match $index {
            $($number => $crate::fields!(@write $rule $me.$field, $encoder),)*
            _ => unreachable!(),
        }
    };
    ([in_type($me:expr)] $($number:literal $field:ident $name:literal $rule:ident $(($default:pat))?),* $(,)?) => {
        $($crate::kernel::value_in_type(&$me.$field);)*
    };
    (@rule optional) => {
        $crate::kernel::FieldRule::Optional
    };
    (@rule mandatory) => {
        $crate::kernel::FieldRule::Mandatory
    };
    (@rule default) => {
        $crate::kernel::FieldRule::Default
    };
    (@rule multiple) => {
        $crate::kernel::FieldRule::Multiple
    };
    (@rule mandatory_multiple) => {
        $crate::kernel::FieldRule::MandatoryMultiple
    };
    (@fill optional $place:expr, $decoder:expr, $alloc:expr) => {
        $crate::kernel::read_some(&mut $place, $decoder, $alloc)
    };
    (@fill mandatory $place:expr, $decoder:expr, $alloc:expr) => {
        $crate::kernel::read_into(&mut $place, $decoder, $alloc)
    };
    (@fill default $place:expr, $decoder:expr, $alloc:expr) => {
        $crate::kernel::read_into(&mut $place, $decoder, $alloc)
    };
    (@fill multiple $place:expr, $decoder:expr, $alloc:expr) => {
        read_multiple(&mut $place, $decoder, $alloc)
    };
    (@fill mandatory_multiple $place:expr, $decoder:expr, $alloc:expr) => {
        read_mandatory_multiple(&mut $place, $decoder, $alloc)
    };
    (@is_null optional $field:expr) => {
        $field.is_none()
    };
    (@is_null mandatory $field:expr) => {
        false
    };
    (@is_null default ($default:pat) $field:expr) => {
        match $field {
            $default => true,
            _ => false,
        }
    };
    (@is_null multiple $field:expr) => {
        is_null_multiple(&$field)
    };
    (@is_null mandatory_multiple $field:expr) => {
        is_null_mandatory_multiple(&$field)
    };
    (@write optional $field:expr, $encoder:expr) => {
        $crate::kernel::write_value(&$field, $encoder)
    };
    (@write mandatory $field:expr, $encoder:expr) => {
        $crate::kernel::write_value(&$field, $encoder)
    };
    (@write default $field:expr, $encoder:expr) => {
        $crate::kernel::write_value(&$field, $encoder)
    };
    (@write multiple $field:expr, $encoder:expr) => {
        write_multiple(&$field, $encoder)
    };
    (@write mandatory_multiple $field:expr, $encoder:expr) => {
        write_mandatory_multiple(&$field, $encoder)
    };
}
