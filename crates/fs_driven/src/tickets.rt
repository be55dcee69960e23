//! The tickets of a handle's chains.

ghost use Rattle.std.specs.Prelude.{◌≡◌, true};
ghost use Rattle.fs_chain.specs.Orders.{is_out};
ghost use Rattle.fs_chain.specs.Pushes.{IsFreed};
ghost use Rattle.fs_chain.specs.declared.chain_handle.ChainHandle.{ChainHandle};

use fs_chain::ChainHandle;
use fs_chain::laws::law_tickets;

/// Frees a handle whose chain may have a call in flight. An answer to that call is refused while the handle
/// has its next chain: that one has another ticket.
pub fn free_for_next(handle: &mut ChainHandle)
    ensures freed { IsFreed handle.old handle.new }
    ensures other { is_out handle.old.state ≡ true
        → (next : ChainHandle)
        → is_out next.state ≡ true
        → next.ticket ≡ handle.new.ticket
        → handle.old.ticket ≡ next.ticket
        → ⊥ }
{
    law_tickets();
    let _ticket = handle.ticket();
    handle.abandon();
}
