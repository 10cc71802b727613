//! The answer to one line.
ghost use Rattle.std.specs.Prelude.{◌≡◌, IfOk, IfErr, string_bytes};
ghost use Rattle.amqp_wire.specs.declared.error.Error.TheVariants.{Memory};
ghost use Rattle.amqp_lines.specs.Answers.{printed_of, is_good, limits_after, AnswersLine};

use crate::limits::limits_of;
use crate::request::Request;
use crate::text::canonical_text;
use amqp_codec::Error;
use amqp_read_write::Limits;
use std::alloc::Global;

/// The answer to a line.
#[derive(Drop)]
pub(crate) enum Answer {
    /// The value's canonical text, and how many of the line's bytes follow the value.
    Rewritten { text: Vec<u8>, left: usize },
    /// Why no value is read, or why it can't be written.
    Refused(Error),
    /// The limits that the line sets.
    Limited(Limits),
    /// The line has another form.
    NoRequest,
}

impl Answer {
    /// Returns the answer to a line within the limits. The only error is `Memory`.
    pub(crate) fn to_line(line: &[u8], limits: &Limits, alloc: Global) -> Result<Answer, Error>
        ensures answers { IfOk result (λ answer. AnswersLine limits.now line.now answer) }
        ensures err { IfErr result (λ e. e ≡ Memory) }
    {
        if let Some(set) = limits_of(line) {
            return Ok(Answer::Limited(set));
        }
        let Some(request) = Request::from_line(line, alloc)? else {
            return Ok(Answer::NoRequest);
        };
        let input = request.input.as_slice();
        match canonical_text(request.type_name, input, limits, alloc) {
            Ok((text, len)) => Ok(Answer::Rewritten {
                text,
                left: input.len().saturating_sub(len),
            }),
            Err(error) => Ok(Answer::Refused(error)),
        }
    }

    /// Returns whether it counts as `ok`.
    pub(crate) fn is_ok(&self) -> bool
        ensures { result ≡ is_good self.now }
    {
        match self {
            Answer::Rewritten { .. } | Answer::Limited(_) => true,
            Answer::Refused(_) | Answer::NoRequest => false,
        }
    }

    /// Returns the limits for the lines after this one.
    pub(crate) fn limits_after(&self, before: &Limits) -> Limits
        ensures { result ≡ limits_after before.now self.now }
    {
        match self {
            Answer::Limited(limits) => *limits,
            Answer::Rewritten { .. } | Answer::Refused(_) | Answer::NoRequest => *before,
        }
    }

    /// Returns the answer as it is printed, with its line feed. The only error is `Memory`.
    pub(crate) fn printed(&self, alloc: Global) -> Result<String, Error>
        ensures printed { IfOk result (λ text. string_bytes text ≡ printed_of self.now) }
        ensures err { IfErr result (λ e. e ≡ Memory) }
    {
        match self {
            Answer::Rewritten { text, left } if text.is_empty() => {
                Ok(format!(in alloc; "ok - {left}\n")?)
            }
            Answer::Rewritten { text, left } => {
                let digits = hex::encode(alloc, text)?;
                Ok(format!(in alloc; "ok {digits} {left}\n")?)
            }
            Answer::Refused(error) => {
                let number = error.number();
                let name = error.name();
                Ok(format!(in alloc; "no {number} {name}\n")?)
            }
            Answer::Limited(limits) => {
                let nesting = limits.nesting();
                let bytes = limits.bytes();
                let items = limits.items();
                Ok(format!(in alloc; "limits {nesting} {bytes} {items}\n")?)
            }
            Answer::NoRequest => Ok(String::from_str(alloc, "no 0 Line\n")?),
        }
    }
}
