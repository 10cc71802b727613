//! Which member an outcome is, and the member itself.
ghost use Rattle.std.specs.Prelude.{◌≡◌, None, Ok, MatchOption, IsErrAnd, is_some, ok_or};
ghost use Rattle.amqp_delivery.specs.Members.{outcome_accepted, outcome_rejected, outcome_released, outcome_modified};
ghost use Rattle.amqp_delivery.specs.Members.{outcome_declared};

use crate::{Modified, Outcome, Rejected};
use amqp_plain_states::{Accepted, Declared, Released};

impl Outcome {
    /// Returns whether it is the accepted outcome.
    pub fn is_accepted(&self) -> bool
        ensures { result ≡ is_some (outcome_accepted self.now) }
    {
        matches!(self, Outcome::Accepted(_))
    }

    /// Returns whether it is the rejected outcome.
    pub fn is_rejected(&self) -> bool
        ensures { result ≡ is_some (outcome_rejected self.now) }
    {
        matches!(self, Outcome::Rejected(_))
    }

    /// Returns whether it is the released outcome.
    pub fn is_released(&self) -> bool
        ensures { result ≡ is_some (outcome_released self.now) }
    {
        matches!(self, Outcome::Released(_))
    }

    /// Returns whether it is the modified outcome.
    pub fn is_modified(&self) -> bool
        ensures { result ≡ is_some (outcome_modified self.now) }
    {
        matches!(self, Outcome::Modified(_))
    }

    /// Returns whether it is the outcome of a declared transaction.
    pub fn is_declared(&self) -> bool
        ensures { result ≡ is_some (outcome_declared self.now) }
    {
        matches!(self, Outcome::Declared(_))
    }

    /// Returns the accepted outcome, or else the error.
    pub fn accepted_or<E: Drop>(self, error: E) -> Result<Accepted, E>
        ensures { result ≡ ok_or (outcome_accepted self) error }
    {
        match self {
            Outcome::Accepted(accepted) => Ok(accepted),
            _ => Err(error),
        }
    }

    /// Returns the rejected outcome, or else the error.
    pub fn rejected_or<E: Drop>(self, error: E) -> Result<Rejected, E>
        ensures { result ≡ ok_or (outcome_rejected self) error }
    {
        match self {
            Outcome::Rejected(rejected) => Ok(rejected),
            _ => Err(error),
        }
    }

    /// Returns the released outcome, or else the error.
    pub fn released_or<E: Drop>(self, error: E) -> Result<Released, E>
        ensures { result ≡ ok_or (outcome_released self) error }
    {
        match self {
            Outcome::Released(released) => Ok(released),
            _ => Err(error),
        }
    }

    /// Returns the modified outcome, or else the error.
    pub fn modified_or<E: Drop>(self, error: E) -> Result<Modified, E>
        ensures { result ≡ ok_or (outcome_modified self) error }
    {
        match self {
            Outcome::Modified(modified) => Ok(modified),
            _ => Err(error),
        }
    }

    /// Returns the outcome of a declared transaction, or else the error.
    pub fn declared_or<E: Drop>(self, error: E) -> Result<Declared, E>
        ensures { result ≡ ok_or (outcome_declared self) error }
    {
        match self {
            Outcome::Declared(declared) => Ok(declared),
            _ => Err(error),
        }
    }

    /// Returns the accepted outcome, or else the error that the closure makes of the whole. Only then is the closure called.
    pub fn accepted_or_else<E, F: FnOnce(Outcome) -> E + Drop>(
        self,
        make_error: F,
    ) -> Result<Accepted, E>
        requires { outcome_accepted self ≡ None → F.pre make_error self }
        ensures { MatchOption (outcome_accepted self) (IsErrAnd result (F.post make_error self)) (λ member. result ≡ Ok member) }
    {
        match self {
            Outcome::Accepted(member) => Ok(member),
            other => Err(make_error(other)),
        }
    }

    /// Returns the rejected outcome, or else the error that the closure makes of the whole. Only then is the closure called.
    pub fn rejected_or_else<E, F: FnOnce(Outcome) -> E + Drop>(
        self,
        make_error: F,
    ) -> Result<Rejected, E>
        requires { outcome_rejected self ≡ None → F.pre make_error self }
        ensures { MatchOption (outcome_rejected self) (IsErrAnd result (F.post make_error self)) (λ member. result ≡ Ok member) }
    {
        match self {
            Outcome::Rejected(member) => Ok(member),
            other => Err(make_error(other)),
        }
    }

    /// Returns the released outcome, or else the error that the closure makes of the whole. Only then is the closure called.
    pub fn released_or_else<E, F: FnOnce(Outcome) -> E + Drop>(
        self,
        make_error: F,
    ) -> Result<Released, E>
        requires { outcome_released self ≡ None → F.pre make_error self }
        ensures { MatchOption (outcome_released self) (IsErrAnd result (F.post make_error self)) (λ member. result ≡ Ok member) }
    {
        match self {
            Outcome::Released(member) => Ok(member),
            other => Err(make_error(other)),
        }
    }

    /// Returns the modified outcome, or else the error that the closure makes of the whole. Only then is the closure called.
    pub fn modified_or_else<E, F: FnOnce(Outcome) -> E + Drop>(
        self,
        make_error: F,
    ) -> Result<Modified, E>
        requires { outcome_modified self ≡ None → F.pre make_error self }
        ensures { MatchOption (outcome_modified self) (IsErrAnd result (F.post make_error self)) (λ member. result ≡ Ok member) }
    {
        match self {
            Outcome::Modified(member) => Ok(member),
            other => Err(make_error(other)),
        }
    }

    /// Returns the outcome of a declared transaction, or else the error that the closure makes of the whole. Only then is the closure called.
    pub fn declared_or_else<E, F: FnOnce(Outcome) -> E + Drop>(
        self,
        make_error: F,
    ) -> Result<Declared, E>
        requires { outcome_declared self ≡ None → F.pre make_error self }
        ensures { MatchOption (outcome_declared self) (IsErrAnd result (F.post make_error self)) (λ member. result ≡ Ok member) }
    {
        match self {
            Outcome::Declared(member) => Ok(member),
            other => Err(make_error(other)),
        }
    }
}
