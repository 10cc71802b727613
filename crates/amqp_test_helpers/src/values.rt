//! Values and errors that were made.
ghost use Rattle.std.specs.Prelude.{◌≡◌, ◌==◌, false, Ok, Err, IfOk, MatchResult, fold};
ghost use Rattle.std.specs.Hash.DefaultHasher as sip;
ghost use Rattle.std.specs.Ordering.{partial_lt};

use amqp_codec::Error;
use std::hash::{DefaultHasher, Hash, Hasher};

/// Returns whether the value is this.
pub fn is<T: PartialEq + Drop>(made: T, wanted: T) -> bool
    ensures { result ≡ T.eq made wanted }
{
    made == wanted
}

/// Returns whether the call returned this value.
pub fn is_made<T: PartialEq + Drop>(made: Result<T, Error>, wanted: T) -> Result<bool, Error>
    ensures { MatchResult made (λ value. result ≡ Ok (T.eq value wanted)) (λ e. result ≡ Err e) }
{
    match made {
        Ok(made) => Ok(made == wanted),
        Err(error) => Err(error),
    }
}

/// Returns whether two calls returned the same value.
pub fn are_equal<T: PartialEq + Drop>(
    made: Result<T, Error>,
    wanted: Result<T, Error>,
) -> Result<bool, Error>
    ensures { MatchResult made (λ value. MatchResult wanted (λ other. result ≡ Ok (T.eq value other)) (λ e. result ≡ Err e))
        (λ e. result ≡ Err e) }
{
    match made {
        Ok(made) => match wanted {
            Ok(wanted) => Ok(made == wanted),
            Err(error) => Err(error),
        },
        Err(error) => Err(error),
    }
}

/// Returns whether the call returned this error.
pub fn is_refused<T: Drop>(made: Result<T, Error>, wanted: Error) -> bool
    ensures { MatchResult made (λ _. result ≡ false) (λ e. result ≡ ⟦<Error as PartialEq>⟧.eq e wanted) }
{
    match made {
        Ok(_) => false,
        Err(error) => error == wanted,
    }
}

/// Returns whether a copy of the value is equal to it.
pub fn is_copied<T: Clone + PartialEq + Drop>(made: Result<T, Error>) -> Result<bool, Error>
    ensures { MatchResult made (λ value. IfOk result (λ well. (copy : T) × T.is_clone value copy × (well ≡ T.eq copy value)))
        (λ e. result ≡ Err e) }
{
    match made {
        Ok(value) => Ok(value.clone()? == value),
        Err(error) => Err(error),
    }
}

/// Returns the hash of the value.
pub fn hash_of<T: Hash>(value: &T) -> u64
    ensures { result ≡ sip.finish (fold sip.write sip.initial (T.hash_input value.now)) }
{
    let mut hasher = DefaultHasher::new();
    value.hash(&mut hasher);
    hasher.finish()
}

/// Returns whether two values that were made have the same hash.
pub fn have_equal_hashes<T: Hash + Drop>(
    first: Result<T, Error>,
    second: Result<T, Error>,
) -> Result<bool, Error>
    ensures { IfOk result (λ well. MatchResult first (λ x. MatchResult second (λ y.
        well ≡ (sip.finish (fold sip.write sip.initial (T.hash_input x)) == sip.finish (fold sip.write sip.initial (T.hash_input y))))
        (λ _. ⊥)) (λ _. ⊥)) }
{
    let first = hash_made(first)?;
    let second = hash_made(second)?;
    Ok(first == second)
}

// The hash of a value that was made.
fn hash_made<T: Hash + Drop>(made: Result<T, Error>) -> Result<u64, Error>
    ensures { MatchResult made (λ value. result ≡ Ok (sip.finish (fold sip.write sip.initial (T.hash_input value)))) (λ e. result ≡ Err e) }
{
    match made {
        Ok(value) => Ok(hash_of(&value)),
        Err(error) => Err(error),
    }
}

/// Returns whether the first of two values that were made is less than the second.
pub fn is_less<T: PartialOrd + Drop>(
    first: Result<T, Error>,
    second: Result<T, Error>,
) -> Result<bool, Error>
    ensures { IfOk result (λ well. MatchResult first (λ x. MatchResult second (λ y. well ≡ partial_lt T.partial_cmp x y) (λ _. ⊥))
        (λ _. ⊥)) }
{
    match first {
        Ok(first) => is_less_than(first, second),
        Err(error) => Err(error),
    }
}

fn is_less_than<T: PartialOrd + Drop>(first: T, second: Result<T, Error>) -> Result<bool, Error>
    ensures { IfOk result (λ well. MatchResult second (λ y. well ≡ partial_lt T.partial_cmp first y) (λ _. ⊥)) }
{
    match second {
        Ok(second) => Ok(first < second),
        Err(error) => Err(error),
    }
}

/// Returns whether a call that takes a value out returned this one.
pub fn is_taken<T: PartialEq + Drop, E: Drop>(taken: Result<T, E>, wanted: T) -> bool
    ensures { MatchResult taken (λ value. result ≡ T.eq value wanted) (λ _. result ≡ false) }
{
    match taken {
        Ok(taken) => taken == wanted,
        Err(_) => false,
    }
}

/// Returns whether a call that takes a value out returned this as its error, since there was nothing to take out.
pub fn is_given_back<T: Drop, E: PartialEq + Drop>(taken: Result<T, E>, wanted: E) -> bool
    ensures { MatchResult taken (λ _. result ≡ false) (λ given. result ≡ E.eq given wanted) }
{
    match taken {
        Ok(_) => false,
        Err(given) => given == wanted,
    }
}
