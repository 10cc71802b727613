//! How bodies are printed.
ghost use Rattle.amqp_bodies.specs.Members.{printed};

use crate::body::Body;
use amqp_sections::AmqpValue;
use std::fmt;

/// A value is printed as its section is; for the other bodies, only their kind is printed.
impl<T: fmt::Display> fmt::Display for Body<T> {
    ghost output = { printed ⟦<AmqpValue<T> as fmt::Display>⟧.output };

    fn fmt<W: fmt::Write>(&self, f: &mut fmt::Formatter<W>) -> fmt::Result {
        match self {
            Body::Value(value) => write!(f, "{value}"),
            Body::Data(_) => write!(f, "Data"),
            Body::Sequence(_) => write!(f, "Sequence"),
            Body::Empty => write!(f, "Nothing"),
        }
    }
}
