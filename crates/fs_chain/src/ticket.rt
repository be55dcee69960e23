//! The ticket: the number with which an answer names its call.

ghost use Rattle.std.specs.Prelude.{◌≡◌, true, false, IfErr, OnErr, OnOk};
ghost use Rattle.fs_chain.specs.Orders.{is_free};
ghost use Rattle.fs_chain.specs.Tickets.{freed, number_error, ticket_error};

use crate::chain_handle::ChainHandle;
use crate::error::ChainError;
use crate::state::ChainState;

// Why an answer's number is refused, if it is.
pub(crate) fn number_error(mine: u32, ticket: u32) -> Option<ChainError>
    ensures { result ≡ number_error mine ticket }
{
    if mine != ticket {
        return Some(ChainError::OtherCall);
    }
    None
}

impl ChainHandle {
    /// The ticket of the chain in flight. The caller passes it with each answer to the chain's call. So a
    /// late answer, to a chain that was given up, isn't taken for the next chain's. It grows by 1 from
    /// chain to chain of a handle, modulo 2^32.
    pub fn ticket(&self) -> u32
        ensures { result ≡ self.now.ticket }
    {
        self.ticket
    }

    /// Chooses the ticket of the handle's next chain; it grows by 1 from there. Handles whose numbers
    /// begin n apart share none in their first n chains. So an answer that is passed to the wrong handle
    /// is refused (`OtherCall`). `ChainInFlight` if a chain is being popped or in flight.
    pub fn number_from(&mut self, first: u32) -> Result<(), ChainError>
        ensures error { IfErr result (λ e. (e ≡ ChainError.ChainInFlight)
            × (is_free self.old.state ≡ false)) }
        ensures ok { OnOk result ((is_free self.old.state ≡ true)
            × (self.new ≡ record self.old { ticket = first })) }
        ensures same { OnErr result (self.new ≡ self.old) }
    {
        if !self.is_free() {
            return Err(ChainError::ChainInFlight);
        }
        self.ticket = first;
        Ok(())
    }

    // Frees the handle; the next chain has another number if one was in flight.
    pub(crate) fn free(&mut self)
        ensures { self.new ≡ freed self.old }
    {
        if self.is_out() {
            self.ticket = self.ticket.wrapping_add(1);
        }
        if !self.is_free() {
            self.state = ChainState::Free;
        }
        self.list_len = 0;
    }

    // Why an answer with this number is refused before it is looked at.
    pub(crate) fn ticket_error(&self, ticket: u32) -> Option<ChainError>
        ensures { result ≡ ticket_error self.now.state self.now.ticket ticket }
    {
        match &self.state {
            ChainState::Decoded(_, _) | ChainState::Listing(_, _) => number_error(
                self.ticket,
                ticket,
            ),
            _ => Some(ChainError::WrongOrder),
        }
    }
}
