//! A listing that the caller answers entry by entry.

ghost use Rattle.std.specs.Prelude.{◌≡◌, IfOk, OnOk, OnErr, length};
ghost use Rattle.fuse_fs.specs.Answers.{listed};
ghost use Rattle.server_replies.specs.Entries.{no_node};
ghost use Rattle.server_phases.specs.Gathering.{added_found, added_plain};
ghost use Rattle.fs_chain.specs.HoldsListings.{AddsEntryInRun, EndsListingInRun, FailsListingInRun};
ghost use Rattle.fs_chain.specs.Listings.{AddsTo, EndsByEntries, EndsByError, adding_error, answered_by};
ghost use Rattle.fs_chain.specs.Listings.{list_after, list_error, added_of};
ghost use Rattle.fs_chain.specs.Tickets.{UnlessRefused, ticket_error};
ghost use Rattle.fs_chain.specs.Walks.{IsAllButPlace};
ghost use Rattle.fs_chain.specs.declared.state.ChainState.TheVariants as at;

use crate::chain_handle::ChainHandle;
use crate::error::ChainError;
use crate::state::{ChainReply, ChainState, InFlight};
use fuse_fs::{DirEntry, Entry};
use fuse_wire::Errno;
use server_phases::{Listing, ListingReply, NotAdded};
use std::mem;

/// The result of an entry.
#[derive(Clone, Copy, Debug, PartialEq, Eq)]
pub enum AddOutcome {
    /// It is in the list.
    In,
    /// It doesn't fit in the size in the request: the entries so far are the answer (`end`).
    Full,
    /// It doesn't fit in the reply buffer: the listing fails by EIO (`fail`).
    NoRoom,
    /// Its name has 2^32 bytes or more: the listing fails by EOVERFLOW.
    TooLong,
}

// The result that is returned for an entry.
fn added_of(outcome: Result<(), NotAdded>) -> Result<AddOutcome, ChainError>
    ensures { result ≡ added_of outcome }
{
    match outcome {
        Ok(()) => Ok(AddOutcome::In),
        Err(NotAdded::OtherKind) => Err(ChainError::OtherKind),
        Err(NotAdded::Full) => Ok(AddOutcome::Full),
        Err(NotAdded::NoRoom) => Ok(AddOutcome::NoRoom),
        Err(NotAdded::TooLong) => Ok(AddOutcome::TooLong),
        Err(NotAdded::ShortList) => Err(ChainError::ShortBuffer),
    }
}

// The length of the list that has the listing's entries, after an entry was added to one of length `len`.
fn list_after(before: usize, len: usize, returned: Result<AddOutcome, ChainError>) -> usize
    ensures { result ≡ list_after before len returned }
{
    match returned {
        Ok(AddOutcome::In) => len,
        _ => before,
    }
}

impl ChainHandle {
    // Why an entry with this number can't be added to a list of this length.
    fn adding_error(&self, ticket: u32, len: usize) -> Option<ChainError>
        ensures { result ≡ adding_error self.now ticket len }
    {
        match self.ticket_error(ticket) {
            Some(error) => Some(error),
            None => self.list_error(len),
        }
    }

    // Why an entry can't be added to a list of this length.
    fn list_error(&self, len: usize) -> Option<ChainError>
        ensures { result ≡ list_error self.now.state self.now.list_len len }
    {
        match &self.state {
            ChainState::Listing(_, _) => {
                if self.list_len != 0 && self.list_len != len {
                    return Some(ChainError::BadArgument);
                }
                None
            }
            _ => None,
        }
    }

    // Adds an entry of READDIR to a listing.
    fn add_to(
        &mut self,
        out: InFlight,
        mut listing: Listing,
        list: &mut [u8],
        entry: &DirEntry<'_>,
    ) -> Result<AddOutcome, ChainError>
        ensures adds { AddsTo (at.Listing out listing) self.new.state list.old list.new
            (listed entry.now, no_node (listed entry.now))
            (λ l. added_plain l (length list.old) (length entry.now.name.now)) result }
        ensures list { self.new.list_len ≡ list_after self.old.list_len (length list.old) result }
        ensures stays { IsAllButPlace self.old self.new }
    {
        let len = list.len();
        let outcome = listing.add(list, entry);
        self.state = ChainState::Listing(out, listing);
        let added = added_of(outcome);
        self.list_len = list_after(self.list_len, len, added);
        added
    }

    // Adds an entry of READDIRPLUS to a listing.
    fn add_node_to(
        &mut self,
        out: InFlight,
        mut listing: Listing,
        list: &mut [u8],
        entry: &DirEntry<'_>,
        node: Entry<u64>,
    ) -> Result<AddOutcome, ChainError>
        ensures adds { AddsTo (at.Listing out listing) self.new.state list.old list.new
            (listed entry.now, node)
            (λ l. added_found l (length list.old) (length entry.now.name.now)) result }
        ensures list { self.new.list_len ≡ list_after self.old.list_len (length list.old) result }
        ensures stays { IsAllButPlace self.old self.new }
    {
        let len = list.len();
        let outcome = listing.add_with_node(list, entry, node);
        self.state = ChainState::Listing(out, listing);
        let added = added_of(outcome);
        self.list_len = list_after(self.list_len, len, added);
        added
    }

    // Puts an entry of READDIR behind those of the listing that is in flight, if one is.
    fn add_asked(&mut self, list: &mut [u8], entry: &DirEntry<'_>) -> Result<AddOutcome, ChainError>
        ensures adds { AddsTo self.old.state self.new.state list.old list.new
            (listed entry.now, no_node (listed entry.now))
            (λ l. added_plain l (length list.old) (length entry.now.name.now)) result }
        ensures list { self.new.list_len ≡ list_after self.old.list_len (length list.old) result }
        ensures stays { IsAllButPlace self.old self.new }
    {
        match mem::replace(&mut self.state, ChainState::Free) {
            ChainState::Listing(out, listing) => self.add_to(out, listing, list, entry),
            ChainState::Decoded(out, waiting) => {
                self.state = ChainState::Decoded(out, waiting);
                Err(ChainError::OtherKind)
            }
            other => {
                self.state = other;
                Err(ChainError::WrongOrder)
            }
        }
    }

    /// Puts an entry of READDIR behind the others, unless it doesn't fit (`AddOutcome`). The caller passes
    /// the same list at each call. After an error nothing changed:
    /// - `WrongOrder`: no call is in flight.
    /// - `OtherCall`: another call than that of this number is.
    /// - `BadArgument`: the listing has entries, in a list of another length.
    /// - `OtherKind`: the call is no READDIR.
    /// - `ShortBuffer`: the list ends before the entry.
    #[tactic(auto, using(crate::proofs::HoldsListed::added_plain_from))]
    pub fn add(
        &mut self,
        ticket: u32,
        list: &mut [u8],
        entry: &DirEntry<'_>,
    ) -> Result<AddOutcome, ChainError>
        ensures returned { UnlessRefused (adding_error self.old ticket (length list.old)) result
            ((self.new ≡ self.old)
            × (list.new ≡ list.old))
            (AddsTo self.old.state self.new.state list.old list.new
            (listed entry.now, no_node (listed entry.now))
            (λ l. added_plain l (length list.old) (length entry.now.name.now)) result) }
        ensures adds { OnOk result (AddsTo self.old.state self.new.state list.old list.new
            (listed entry.now, no_node (listed entry.now))
            (λ l. added_plain l (length list.old) (length entry.now.name.now)) result) }
        ensures list { self.new.list_len ≡ list_after self.old.list_len (length list.old) result }
        ensures stays { IsAllButPlace self.old self.new }
        ensures step { IfOk result (λ returned. AddsEntryInRun self.old self.new list.old list.new
            (listed entry.now, no_node (listed entry.now)) returned) }
    {
        match self.adding_error(ticket, list.len()) {
            Some(error) => Err(error),
            None => self.add_asked(list, entry),
        }
    }

    // Puts an entry of READDIRPLUS, with its node, behind those of the listing that is in flight, if one
    // is.
    fn add_node_asked(
        &mut self,
        list: &mut [u8],
        entry: &DirEntry<'_>,
        node: Entry<u64>,
    ) -> Result<AddOutcome, ChainError>
        ensures adds { AddsTo self.old.state self.new.state list.old list.new (listed entry.now, node)
            (λ l. added_found l (length list.old) (length entry.now.name.now)) result }
        ensures list { self.new.list_len ≡ list_after self.old.list_len (length list.old) result }
        ensures stays { IsAllButPlace self.old self.new }
    {
        match mem::replace(&mut self.state, ChainState::Free) {
            ChainState::Listing(out, listing) => self.add_node_to(out, listing, list, entry, node),
            ChainState::Decoded(out, waiting) => {
                self.state = ChainState::Decoded(out, waiting);
                Err(ChainError::OtherKind)
            }
            other => {
                self.state = other;
                Err(ChainError::WrongOrder)
            }
        }
    }

    /// Puts an entry of READDIRPLUS, with its node, behind the others, unless it doesn't fit (`AddOutcome`).
    /// The caller then forgets the look-up that it made for the entry. Errors are those of `add`, for
    /// READDIRPLUS.
    #[tactic(auto, using(crate::proofs::HoldsListed::added_found_from))]
    pub fn add_with_node(
        &mut self,
        ticket: u32,
        list: &mut [u8],
        entry: &DirEntry<'_>,
        node: Entry<u64>,
    ) -> Result<AddOutcome, ChainError>
        ensures returned { UnlessRefused (adding_error self.old ticket (length list.old)) result
            ((self.new ≡ self.old)
            × (list.new ≡ list.old))
            (AddsTo self.old.state self.new.state list.old list.new (listed entry.now, node)
            (λ l. added_found l (length list.old) (length entry.now.name.now)) result) }
        ensures adds { OnOk result
            (AddsTo self.old.state self.new.state list.old list.new (listed entry.now, node)
            (λ l. added_found l (length list.old) (length entry.now.name.now)) result) }
        ensures list { self.new.list_len ≡ list_after self.old.list_len (length list.old) result }
        ensures stays { IsAllButPlace self.old self.new }
        ensures step { IfOk result
            (λ returned. AddsEntryInRun self.old self.new list.old list.new (listed entry.now, node)
            returned) }
    {
        match self.adding_error(ticket, list.len()) {
            Some(error) => Err(error),
            None => self.add_node_asked(list, entry, node),
        }
    }

    fn keep_listed(&mut self, out: InFlight, reply: ListingReply) -> usize
        ensures len { result ≡ reply.len }
        ensures kept { self.new ≡ record self.old { state = answered_by out reply } }
    {
        let behind = reply.len;
        let front = Some(reply.front);
        self.state = ChainState::Replied(out, ChainReply { front, behind });
        behind
    }

    // Replies with the entries of the listing that is in flight, if one is.
    fn end_asked(&mut self) -> Result<usize, ChainError>
        ensures ended { EndsByEntries self.old.state self.new.state result }
        ensures same { OnErr result (self.new ≡ self.old) }
        ensures stays { IsAllButPlace self.old self.new }
    {
        match mem::replace(&mut self.state, ChainState::Free) {
            ChainState::Listing(out, listing) => Ok(self.keep_listed(out, listing.end())),
            ChainState::Decoded(out, waiting) => {
                self.state = ChainState::Decoded(out, waiting);
                Err(ChainError::OtherKind)
            }
            other => {
                self.state = other;
                Err(ChainError::WrongOrder)
            }
        }
    }

    /// Replies with the entries so far. Returns how many bytes of the list are the data. After an error
    /// nothing changed:
    /// - `WrongOrder`: no call is in flight.
    /// - `OtherCall`: another call than that of this number is.
    /// - `OtherKind`: the call is no listing.
    #[tactic(auto, using(crate::proofs::HoldsListed::ended_from))]
    pub fn end(&mut self, ticket: u32) -> Result<usize, ChainError>
        ensures returned { UnlessRefused (ticket_error self.old.state self.old.ticket ticket) result
            (self.new ≡ self.old) (EndsByEntries self.old.state self.new.state result) }
        ensures ended { OnOk result (EndsByEntries self.old.state self.new.state result) }
        ensures same { OnErr result (self.new ≡ self.old) }
        ensures stays { IsAllButPlace self.old self.new }
        ensures step { IfOk result (λ len. EndsListingInRun self.old self.new len) }
    {
        match self.ticket_error(ticket) {
            Some(error) => Err(error),
            None => self.end_asked(),
        }
    }

    // Replies that the listing that is in flight failed, if one is.
    fn fail_asked(&mut self, error: Errno) -> Result<usize, ChainError>
        ensures failed { EndsByError error self.old.state self.new.state result }
        ensures same { OnErr result (self.new ≡ self.old) }
        ensures stays { IsAllButPlace self.old self.new }
    {
        match mem::replace(&mut self.state, ChainState::Free) {
            ChainState::Listing(out, listing) => Ok(self.keep_listed(out, listing.fail(error))),
            ChainState::Decoded(out, waiting) => {
                self.state = ChainState::Decoded(out, waiting);
                Err(ChainError::OtherKind)
            }
            other => {
                self.state = other;
                Err(ChainError::WrongOrder)
            }
        }
    }

    /// Replies that the listing failed. Returns how many bytes of the list are the data. Errors are those
    /// of `end`.
    #[tactic(auto, using(crate::proofs::HoldsListed::failed_from))]
    pub fn fail(&mut self, ticket: u32, error: Errno) -> Result<usize, ChainError>
        ensures returned { UnlessRefused (ticket_error self.old.state self.old.ticket ticket) result
            (self.new ≡ self.old) (EndsByError error self.old.state self.new.state result) }
        ensures failed { OnOk result (EndsByError error self.old.state self.new.state result) }
        ensures same { OnErr result (self.new ≡ self.old) }
        ensures stays { IsAllButPlace self.old self.new }
        ensures step { IfOk result (λ len. FailsListingInRun error self.old self.new len) }
    {
        match self.ticket_error(ticket) {
            Some(refusal) => Err(refusal),
            None => self.fail_asked(error),
        }
    }
}
