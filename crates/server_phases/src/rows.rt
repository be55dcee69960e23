//! Decoding requests by the row of their opcode.

ghost use Rattle.std.specs.Prelude.{◌≡◌, ◌+◌, ℕ, List, ◌++◌, length, true, Some};
ghost use Rattle.fuse_fs.specs.Answers.{context_of};
ghost use Rattle.server_requests.specs.Fronts.{record_len};
ghost use Rattle.server_meanings.specs.Grammar.{row, forgets_asked, batch_forget_row, init_row, listing_row};
ghost use Rattle.server_meanings.specs.Grammar.{read_row, write_row, ended, given};
ghost use Rattle.server_meanings.specs.RowMeanings.{is_single};
ghost use Rattle.server_meanings.specs.Serving.{setting};
ghost use Rattle.server_phases.specs.Asking.{DecodedStandsIn, IsAskedBy, IsRowDecoded, IsDecoded};
ghost use Rattle.server_phases.specs.Asking.{StandsBehindHeader};

use crate::asking::{
    DecodedRequest, WRITE_IN_LEN, ask_write_row, called, entries_asked, init_asked, pairs_asked,
    read_asked, refused, replied,
};
use crate::session::Session;
use fuse_in::InHeader;
use fuse_wire::Opcode;
use server_meanings::{
    ForgetsMeaning, InitMeaning, ListingMeaning, RequestMeaning, forgets_meaning, init_meaning,
    listing_meaning, read_with_room, row_meaning,
};
use server_replies::fronts::Front;
use server_replies::init::versions;
use server_requests::forgets::PairCount;
use server_requests::source::Flat;

impl Session {
    /// Decodes a request with one plain call, or with none.
    #[tactic(auto, using(crate::proofs::Reporting::behind_any))]
    pub(crate) fn ask_single<'a>(
        &self,
        opcode: Opcode,
        head: &InHeader,
        room: usize,
        source: Flat<'a>,
    ) -> DecodedRequest<'a>
        requires { is_single opcode ≡ true }
        ensures decoded { IsRowDecoded self.now.page_size self.now.options.0 head.now room
            (λ g. row g opcode)
            source.entry.bytes.now result }
        ensures places { StandsBehindHeader source.entry.bytes.now
            (40 + record_len self.now.options.0 (Some opcode)) result }
        ensures asker { IsAskedBy (context_of head.now) result }
    {
        match row_meaning(opcode, head, self.options, source) {
            RequestMeaning::Call(call) => called(head, call, room),
            RequestMeaning::Error(error) => refused(head, error, room),
            RequestMeaning::Silence => DecodedRequest::Silence,
            RequestMeaning::Fault(error) => DecodedRequest::Fault(error),
        }
    }

    // BATCH_FORGET of so many pairs.
    fn ask_pairs<'a>(
        &self,
        head: &InHeader,
        pairs: PairCount,
        room: usize,
        source: Flat<'a>,
    ) -> DecodedRequest<'a>
        ensures decoded { (bytes : List ℕ) → IsDecoded (setting self.now.page_size self.now.options.0 room)
            (ended head.now.unique (forgets_asked pairs.count (given head.now self.now.options.0 room)
            source.entry.bytes.now)) bytes result }
        ensures places { (front : List ℕ) → length front ≡ 48
            → DecodedStandsIn (front ++ source.entry.bytes.now) 48 result }
        ensures asker { IsAskedBy (context_of head.now) result }
    {
        match source.pairs(pairs) {
            Ok(counts) => pairs_asked(head, counts, room),
            Err(error) => DecodedRequest::Fault(error),
        }
    }

    /// BATCH_FORGET.
    #[tactic(auto, using(crate::proofs::Reporting::behind_any))]
    pub(crate) fn ask_batch_forget<'a>(
        &self,
        head: &InHeader,
        room: usize,
        source: Flat<'a>,
    ) -> DecodedRequest<'a>
        ensures decoded { IsRowDecoded self.now.page_size self.now.options.0 head.now room batch_forget_row
            source.entry.bytes.now result }
        ensures places { StandsBehindHeader source.entry.bytes.now 48 result }
        ensures asker { IsAskedBy (context_of head.now) result }
    {
        let mut source = source;
        match forgets_meaning(&mut source) {
            ForgetsMeaning::Pairs(pairs) => self.ask_pairs(head, pairs, room, source),
            ForgetsMeaning::Error(error) => refused(head, error, room),
            ForgetsMeaning::Fault(error) => DecodedRequest::Fault(error),
        }
    }

    /// READ.
    #[tactic(auto, using(crate::proofs::Reporting::behind_any))]
    pub(crate) fn ask_read<'a>(
        &self,
        head: &InHeader,
        room: usize,
        source: Flat<'a>,
    ) -> DecodedRequest<'a>
        ensures decoded { IsRowDecoded self.now.page_size self.now.options.0 head.now room read_row
            source.entry.bytes.now result }
        ensures places { StandsBehindHeader source.entry.bytes.now 40 result }
        ensures asker { IsAskedBy (context_of head.now) result }
    {
        match read_with_room(room, source) {
            Ok(request) => read_asked(head, &request, room),
            Err(error) => DecodedRequest::Fault(error),
        }
    }

    /// READDIR or READDIRPLUS.
    #[tactic(auto, using(crate::proofs::Reporting::behind_any))]
    pub(crate) fn ask_listing<'a>(
        &self,
        head: &InHeader,
        with_nodes: bool,
        room: usize,
        source: Flat<'a>,
    ) -> DecodedRequest<'a>
        ensures decoded { IsRowDecoded self.now.page_size self.now.options.0 head.now room
            (listing_row with_nodes)
            source.entry.bytes.now result }
        ensures places { StandsBehindHeader source.entry.bytes.now 40 result }
        ensures asker { IsAskedBy (context_of head.now) result }
    {
        match listing_meaning(room, source) {
            ListingMeaning::List(request) => entries_asked(head, &request, with_nodes, room),
            ListingMeaning::Error(error) => refused(head, error, room),
            ListingMeaning::Fault(error) => DecodedRequest::Fault(error),
        }
    }

    /// INIT.
    #[tactic(auto, using(crate::proofs::Reporting::behind_any))]
    pub(crate) fn ask_init<'a>(
        &self,
        head: &InHeader,
        room: usize,
        source: Flat<'a>,
    ) -> DecodedRequest<'a>
        ensures decoded { IsRowDecoded self.now.page_size self.now.options.0 head.now room init_row
            source.entry.bytes.now result }
        ensures places { StandsBehindHeader source.entry.bytes.now 40 result }
        ensures asker { IsAskedBy (context_of head.now) result }
    {
        match init_meaning(source) {
            InitMeaning::Start { capable, readahead } => init_asked(head, capable, readahead, room),
            InitMeaning::Versions => replied(room, Front::reply(head.unique, &versions())),
            InitMeaning::Error(error) => refused(head, error, room),
            InitMeaning::Fault(error) => DecodedRequest::Fault(error),
        }
    }

    /// WRITE with its data behind the record.
    #[tactic(auto, using(crate::proofs::Reporting::behind_any))]
    pub(crate) fn ask_write<'a>(
        &self,
        head: &InHeader,
        room: usize,
        source: Flat<'a>,
    ) -> DecodedRequest<'a>
        ensures decoded { IsRowDecoded self.now.page_size self.now.options.0 head.now room write_row
            source.entry.bytes.now result }
        ensures places { StandsBehindHeader source.entry.bytes.now 40 result }
        ensures asker { IsAskedBy (context_of head.now) result }
    {
        let len = source.bytes.len().saturating_sub(WRITE_IN_LEN);
        ask_write_row(head, len, room, source)
    }
}
