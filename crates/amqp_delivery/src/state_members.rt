//! Which member a delivery state is, and the member itself.
ghost use Rattle.std.specs.Prelude.{◌≡◌, None, Ok, MatchOption, IsErrAnd, is_some, ok_or};
ghost use Rattle.amqp_delivery.specs.Members.{state_received, state_accepted, state_rejected, state_released};
ghost use Rattle.amqp_delivery.specs.Members.{state_modified, state_declared, is_terminal};

use crate::{DeliveryState, Modified, Rejected};
use amqp_plain_states::{Accepted, Declared, Received, Released};

impl DeliveryState {
    /// Returns whether the delivery ends in it, so that no other state follows.
    pub fn is_terminal(&self) -> bool
        ensures { result ≡ is_terminal self.now }
    {
        match self {
            DeliveryState::Received(_) | DeliveryState::TransactionalState(_) => false,
            DeliveryState::Accepted(_)
            | DeliveryState::Rejected(_)
            | DeliveryState::Released(_)
            | DeliveryState::Modified(_)
            | DeliveryState::Declared(_) => true,
        }
    }

    /// Returns whether it is the received state.
    pub fn is_received(&self) -> bool
        ensures { result ≡ is_some (state_received self.now) }
    {
        matches!(self, DeliveryState::Received(_))
    }

    /// Returns whether it is the accepted outcome.
    pub fn is_accepted(&self) -> bool
        ensures { result ≡ is_some (state_accepted self.now) }
    {
        matches!(self, DeliveryState::Accepted(_))
    }

    /// Returns whether it is the rejected outcome.
    pub fn is_rejected(&self) -> bool
        ensures { result ≡ is_some (state_rejected self.now) }
    {
        matches!(self, DeliveryState::Rejected(_))
    }

    /// Returns whether it is the released outcome.
    pub fn is_released(&self) -> bool
        ensures { result ≡ is_some (state_released self.now) }
    {
        matches!(self, DeliveryState::Released(_))
    }

    /// Returns whether it is the modified outcome.
    pub fn is_modified(&self) -> bool
        ensures { result ≡ is_some (state_modified self.now) }
    {
        matches!(self, DeliveryState::Modified(_))
    }

    /// Returns the received state, or else the error.
    pub fn received_or<E: Drop>(self, error: E) -> Result<Received, E>
        ensures { result ≡ ok_or (state_received self) error }
    {
        match self {
            DeliveryState::Received(received) => Ok(received),
            _ => Err(error),
        }
    }

    /// Returns the accepted outcome, or else the error.
    pub fn accepted_or<E: Drop>(self, error: E) -> Result<Accepted, E>
        ensures { result ≡ ok_or (state_accepted self) error }
    {
        match self {
            DeliveryState::Accepted(accepted) => Ok(accepted),
            _ => Err(error),
        }
    }

    /// Returns the rejected outcome, or else the error.
    pub fn rejected_or<E: Drop>(self, error: E) -> Result<Rejected, E>
        ensures { result ≡ ok_or (state_rejected self) error }
    {
        match self {
            DeliveryState::Rejected(rejected) => Ok(rejected),
            _ => Err(error),
        }
    }

    /// Returns the released outcome, or else the error.
    pub fn released_or<E: Drop>(self, error: E) -> Result<Released, E>
        ensures { result ≡ ok_or (state_released self) error }
    {
        match self {
            DeliveryState::Released(released) => Ok(released),
            _ => Err(error),
        }
    }

    /// Returns the modified outcome, or else the error.
    pub fn modified_or<E: Drop>(self, error: E) -> Result<Modified, E>
        ensures { result ≡ ok_or (state_modified self) error }
    {
        match self {
            DeliveryState::Modified(modified) => Ok(modified),
            _ => Err(error),
        }
    }

    /// Returns the outcome of a declared transaction, or else the error.
    pub fn declared_or<E: Drop>(self, error: E) -> Result<Declared, E>
        ensures { result ≡ ok_or (state_declared self) error }
    {
        match self {
            DeliveryState::Declared(declared) => Ok(declared),
            _ => Err(error),
        }
    }

    /// Returns the accepted outcome, or else the error that the closure makes of the whole. Only then is the closure called.
    pub fn accepted_or_else<E, F: FnOnce(DeliveryState) -> E + Drop>(
        self,
        make_error: F,
    ) -> Result<Accepted, E>
        requires { state_accepted self ≡ None → F.pre make_error self }
        ensures { MatchOption (state_accepted self) (IsErrAnd result (F.post make_error self)) (λ member. result ≡ Ok member) }
    {
        match self {
            DeliveryState::Accepted(member) => Ok(member),
            other => Err(make_error(other)),
        }
    }

    /// Returns the rejected outcome, or else the error that the closure makes of the whole. Only then is the closure called.
    pub fn rejected_or_else<E, F: FnOnce(DeliveryState) -> E + Drop>(
        self,
        make_error: F,
    ) -> Result<Rejected, E>
        requires { state_rejected self ≡ None → F.pre make_error self }
        ensures { MatchOption (state_rejected self) (IsErrAnd result (F.post make_error self)) (λ member. result ≡ Ok member) }
    {
        match self {
            DeliveryState::Rejected(member) => Ok(member),
            other => Err(make_error(other)),
        }
    }

    /// Returns the released outcome, or else the error that the closure makes of the whole. Only then is the closure called.
    pub fn released_or_else<E, F: FnOnce(DeliveryState) -> E + Drop>(
        self,
        make_error: F,
    ) -> Result<Released, E>
        requires { state_released self ≡ None → F.pre make_error self }
        ensures { MatchOption (state_released self) (IsErrAnd result (F.post make_error self)) (λ member. result ≡ Ok member) }
    {
        match self {
            DeliveryState::Released(member) => Ok(member),
            other => Err(make_error(other)),
        }
    }

    /// Returns the modified outcome, or else the error that the closure makes of the whole. Only then is the closure called.
    pub fn modified_or_else<E, F: FnOnce(DeliveryState) -> E + Drop>(
        self,
        make_error: F,
    ) -> Result<Modified, E>
        requires { state_modified self ≡ None → F.pre make_error self }
        ensures { MatchOption (state_modified self) (IsErrAnd result (F.post make_error self)) (λ member. result ≡ Ok member) }
    {
        match self {
            DeliveryState::Modified(member) => Ok(member),
            other => Err(make_error(other)),
        }
    }

    /// Returns the outcome of a declared transaction, or else the error that the closure makes of the whole. Only then is the closure called.
    pub fn declared_or_else<E, F: FnOnce(DeliveryState) -> E + Drop>(
        self,
        make_error: F,
    ) -> Result<Declared, E>
        requires { state_declared self ≡ None → F.pre make_error self }
        ensures { MatchOption (state_declared self) (IsErrAnd result (F.post make_error self)) (λ member. result ≡ Ok member) }
    {
        match self {
            DeliveryState::Declared(member) => Ok(member),
            other => Err(make_error(other)),
        }
    }
}
