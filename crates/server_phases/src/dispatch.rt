//! Decoding a request by its header.

ghost use Rattle.std.specs.Prelude.{◌+◌, Some, drop};
ghost use Rattle.fuse_fs.specs.Answers.{context_of};
ghost use Rattle.fuse_wire.specs.Opcodes.{opcode_of};
ghost use Rattle.server_requests.specs.Fronts.{record_len};
ghost use Rattle.server_meanings.specs.Grammar.{given, meant, row};
ghost use Rattle.server_meanings.specs.Serving.{setting};
ghost use Rattle.server_phases.specs.Asking.{IsAskedBy, IsRowDecoded, IsDecoded, StandsBehindHeader};

use crate::asking::{DecodedRequest, refused};
use crate::session::Session;
use fuse_in::InHeader;
use fuse_wire::{Errno, Opcode};
use server_meanings::{MAX_REQUEST_LEN, opcode_of};
use server_requests::source::Flat;

impl Session {
    // Decodes a request by its opcode.
    #[tactic(auto, unfolding(server_meanings::specs::Grammar::row))]
    fn ask_row<'a>(
        &self,
        opcode: Opcode,
        head: &InHeader,
        room: usize,
        source: Flat<'a>,
    ) -> DecodedRequest<'a>
        ensures decoded { IsRowDecoded self.now.page_size self.now.options.0 head.now room
            (λ g. row g opcode)
            source.entry.bytes.now result }
        ensures places { StandsBehindHeader source.entry.bytes.now
            (40 + record_len self.now.options.0 (Some opcode)) result }
        ensures asker { IsAskedBy (context_of head.now) result }
    {
        match opcode {
            Opcode::BatchForget => self.ask_batch_forget(head, room, source),
            Opcode::Init => self.ask_init(head, room, source),
            Opcode::Read => self.ask_read(head, room, source),
            Opcode::Write => self.ask_write(head, room, source),
            Opcode::Readdir => self.ask_listing(head, false, room, source),
            Opcode::Readdirplus => self.ask_listing(head, true, room, source),
            _ => self.ask_single(opcode, head, room, source),
        }
    }

    /// Decodes a request whose header was read.
    #[tactic(auto, using(crate::proofs::Reporting::behind_any))]
    pub(crate) fn ask_head<'a>(
        &self,
        head: &InHeader,
        room: usize,
        source: Flat<'a>,
    ) -> DecodedRequest<'a>
        ensures decoded { IsDecoded (setting self.now.page_size self.now.options.0 room)
            (meant (given head.now self.now.options.0 room) source.entry.bytes.now)
            (drop 40 source.entry.bytes.now) result }
        ensures places { StandsBehindHeader source.entry.bytes.now
            (40 + record_len self.now.options.0 (opcode_of head.now.opcode)) result }
        ensures asker { IsAskedBy (context_of head.now) result }
    {
        if head.len > MAX_REQUEST_LEN {
            return refused(head, Errno::ENOMEM, room);
        }
        match opcode_of(head.opcode) {
            Some(opcode) => self.ask_row(opcode, head, room, source),
            None => refused(head, Errno::ENOSYS, room),
        }
    }
}
