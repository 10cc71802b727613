//! How the sections of a body are printed.
ghost use Rattle.std.specs.Prelude.{Some, ◌++◌, length, codes};
ghost use Rattle.std.specs.Fmt.{decimal, ◌++?◌, debug_list};

use crate::{AmqpSequence, AmqpValue, Data};
use std::fmt;

/// Prints the number of its bytes.
impl fmt::Display for Data {
    ghost output = { λ section. Some (codes "Data of length: " ++ decimal (length section.0.0.items)) };

    fn fmt<W: fmt::Write>(&self, f: &mut fmt::Formatter<W>) -> fmt::Result {
        let count = self.0.as_slice().len();
        write!(f, "Data of length: {count}")
    }
}

/// Prints its values in order.
impl<T: fmt::Display> fmt::Display for AmqpSequence<T> {
    ghost output = { λ sequence. Some (codes "AmqpSequence(") ++? (debug_list T.output sequence.0.items ++? Some (codes ")")) };

    fn fmt<W: fmt::Write>(&self, f: &mut fmt::Formatter<W>) -> fmt::Result {
        write!(f, "AmqpSequence([")?;
        let mut separator = "";
        for value in &self.0 {
            write!(f, "{separator}{value}")?;
            separator = ", ";
        }
        write!(f, "])")
    }
}

/// Prints its value.
impl<T: fmt::Display> fmt::Display for AmqpValue<T> {
    ghost output = { λ value. Some (codes "AmqpValue(") ++? (T.output value.0 ++? Some (codes ")")) };

    fn fmt<W: fmt::Write>(&self, f: &mut fmt::Formatter<W>) -> fmt::Result {
        let value = &self.0;
        write!(f, "AmqpValue({value})")
    }
}
