//! The types of a user's own that are in `amqp_user_types`: how they are read, written and refused.
mod identifiers;
mod offers;
mod seconds;

use fe2o3_amqp_types::codec::{Canonical, canonical_text};
use std::alloc::Global;
use std::test::Fail;

/// The digits of an input, and those of its canonical text, or the name of the error.
type Row = (&'static str, &'static str);

fn answer<T: Canonical>(digits: &str, alloc: Global) -> Result<String, Fail> {
    let input = hex::decode(alloc, digits)?;
    match canonical_text::<T>(input.as_slice(), alloc) {
        Ok((_, len)) if len != input.len() => {
            Err(Fail::new(format_args!("{len} bytes of {digits} are read")))
        }
        Ok((text, _)) => Ok(hex::encode(alloc, &text)?),
        Err(error) => Ok(String::from_str(alloc, error.name())?),
    }
}

// Each row has its answer. The descriptor comes before both texts of each.
fn check<T: Canonical>(descriptor: &str, rows: &[Row], alloc: Global) -> Result<(), Fail> {
    for (digits, wanted) in rows {
        let input = format!(in alloc; "{descriptor}{digits}")?;
        let found = answer::<T>(input.as_str(), alloc)?;
        let found = found.as_str();
        if found.strip_prefix(descriptor).unwrap_or(found) != *wanted {
            return Err(Fail::new(format_args!("{input} is answered by {found}")));
        }
    }
    Ok(())
}
