//! Laws of a device that C moves: its record, and the addresses for a migration's log.

ghost use Rattle.fs_chain_c.specs.Logging.{PushReportsAddresses, RangesAreRoom};
ghost use Rattle.fs_chain_c.specs.Moving.{MovesByRecord, RestoresARecord, SavesARecord};

/// `pk_save` writes a record of the queues that the core has, and `pk_restore_unnumbered` resets them from
/// one. After a save, a restore that succeeds returns the same options and queues, ready for the event of a
/// move (`law_handles` of `fs_chain`).
pub fn law_moves()
    ensures saves { SavesARecord }
    ensures restores { RestoresARecord }
    ensures moves { MovesByRecord }
{}

/// The addresses of `pk_reply_ranges` and `pk_push` are those that the push's stores write.
pub fn law_log()
    ensures room { RangesAreRoom }
    ensures used { PushReportsAddresses }
{}
