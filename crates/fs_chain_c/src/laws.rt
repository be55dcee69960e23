//! Laws of the definitions: contracts of functions that do nothing.

ghost use Rattle.fs_chain_c.specs.Notifying.{NotifyIsACheck, StoresAWish};

/// The results of `pk_set_notification` and `pk_pushed` are the device's part of the model in which no
/// notification is lost: the wish for the next chain, and the check after a push.
pub fn law_notifications()
    ensures wish { StoresAWish }
    ensures check { NotifyIsACheck }
{}
