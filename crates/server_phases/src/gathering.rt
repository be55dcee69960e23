//! Adding entries to a listing, and its reply.

ghost use Rattle.std.specs.Prelude.{◌≡◌, ℕ, ◌+◌, ◌-◌, ◌<◌, ◌≤◌, ◌^◌, ◌&&◌, [], ◌∷◌, ◌++◌, List, length, take};
ghost use Rattle.std.specs.Prelude.{min, nat_lt};
ghost use Rattle.std.specs.Prelude.{Some, Ok, Err, true, false, IfOk, IfErr, OnOk, OnErr, if◌then◌else◌};
ghost use Rattle.fuse_fs.specs.Answers.{listed};
ghost use Rattle.fuse_fs.specs.Calls.{Listed, Failed, Entries};
ghost use Rattle.server_replies.specs.Entries.{dirent_bytes, entry_len, is_dot, no_node};
ghost use Rattle.server_replies.specs.WholeReplies.{data_header, listing_bytes};
ghost use Rattle.server_meanings.specs.Grammar.{FileCommand};
ghost use Rattle.server_meanings.specs.Serving.{Setting, commanded};
ghost use Rattle.server_phases.specs.Gathering.{Brought, EndsList, FailsList, Holds, IsListingFor, StaysBut};
ghost use Rattle.server_phases.specs.Gathering.{placed, added_plain, added_found, error_of, put_at};
ghost use Rattle.server_phases.specs.Gathering.{served_list};
ghost use Rattle.server_phases.specs.Gathering.{is_list_command, bytes_of, all_bytes, all_found, entries_of};
ghost use Rattle.server_phases.specs.Gathering.{look_up, look_ups};
ghost use Rattle.server_phases.specs.Waiting.{WaitsFor, first_call};

use crate::answering::{AnswerRefusal, RefusedAnswer};
use crate::entries::{node_front, put_entry};
use crate::listing::{Listing, ListingReply, NotAdded};
use crate::waiting::{Awaits, Waiting};
use fuse_fs::{DirEntry, Entry};
use fuse_wire::Errno;
use server_replies::entries::dirent_len;
use server_replies::fronts::Front;
use server_replies::init::MAX_BUFFER_SIZE;
use server_replies::replies::OUT_HEADER_LEN;

// The size of the listing in bytes, at most 2^20.
fn size_asked(size: u32) -> usize
    ensures size { size ≤ 2 ^ 20 → result ≡ size }
    ensures small { result ≤ 2 ^ 20 }
{
    size.min(MAX_BUFFER_SIZE) as usize
}

// The reply with the first `len` bytes of the list as its data.
fn entries_reply(unique: u64, len: usize) -> ListingReply
    requires { 16 + len < 2 ^ 32 }
    ensures front { result.front ≡ data_header unique (Ok len) }
    ensures len { result.len ≡ len }
{
    ListingReply {
        front: Front::data(unique, len),
        len,
    }
}

impl NotAdded {
    /// The error that the listing fails with: EIO or EOVERFLOW; None if it doesn't fail.
    pub fn error(self) -> Option<Errno>
        ensures { result ≡ error_of self }
    {
        match self {
            NotAdded::NoRoom => Some(Errno::EIO),
            NotAdded::TooLong => Some(Errno::EOVERFLOW),
            NotAdded::OtherKind | NotAdded::Full | NotAdded::ShortList => None,
        }
    }
}

impl Listing {
    /// An empty list for the entries of a READDIR or READDIRPLUS. `OtherKind` for another request,
    /// whose `waiting` is returned.
    pub fn begin(waiting: Waiting) -> Result<Listing, RefusedAnswer>
        ensures lists { IfOk result (λ l. (command : FileCommand)
            → WaitsFor waiting command
            → IsListingFor l waiting.room command) }
        ensures empty { IfOk result (λ l. l.len ≡ 0) }
        ensures taken { OnOk result ((command : FileCommand)
            → WaitsFor waiting command
            → is_list_command command ≡ true) }
        ensures refused { OnErr result ((command : FileCommand)
            → WaitsFor waiting command
            → is_list_command command ≡ false) }
        ensures given_back { IfErr result (λ r. (r.why ≡ AnswerRefusal.OtherKind) × (r.waiting ≡ waiting)) }
    {
        match waiting.awaits {
            Awaits::Entries { with_nodes, size } => Ok(Listing {
                unique: waiting.unique,
                with_nodes,
                size: size_asked(size),
                room: waiting.room.saturating_sub(OUT_HEADER_LEN),
                len: 0,
            }),
            _ => Err(RefusedAnswer {
                why: AnswerRefusal::OtherKind,
                waiting,
            }),
        }
    }

    /// The number of bytes of entries that still fit.
    pub fn left(&self) -> usize
        ensures { result ≡ min self.now.size self.now.room - self.now.len }
    {
        self.size.min(self.room) - self.len
    }

    // Appends an entry, with the bytes of its node first.
    fn put(&mut self, list: &mut [u8], node: &[u8], entry: &DirEntry<'_>) -> Result<(), NotAdded>
        requires { length node.now ≡ (if self.old.with_nodes then 128 else 0) }
        ensures outcome { result ≡ placed self.old (length list.old) (length entry.now.name.now) }
        ensures list { OnOk result
            (list.new ≡ put_at self.old.len (node.now ++ dirent_bytes (listed entry.now)) list.old) }
        ensures len { OnOk result
            (self.new.len ≡ self.old.len + entry_len self.old.with_nodes (length entry.now.name.now)) }
        ensures same { OnErr result ((self.new ≡ self.old) × (list.new ≡ list.old)) }
        ensures stays { StaysBut self.old self.new }
    {
        if entry.name.len() > u32::MAX as usize {
            return Err(NotAdded::TooLong);
        }
        let len = node.len() + dirent_len(entry.name.len());
        if self.size - self.len < len {
            return Err(NotAdded::Full);
        }
        if self.room - self.len < len {
            return Err(NotAdded::NoRoom);
        }
        let end = self.len + len;
        if list.len() < end {
            return Err(NotAdded::ShortList);
        }
        put_entry(&mut list[self.len..end], node, entry);
        self.len = end;
        Ok(())
    }

    /// Appends an entry of READDIR, padded with zeros to a multiple of 8 bytes.
    pub fn add(&mut self, list: &mut [u8], entry: &DirEntry<'_>) -> Result<(), NotAdded>
        ensures outcome { result ≡ added_plain self.old (length list.old) (length entry.now.name.now) }
        ensures holds { OnOk result ((es : List Brought)
            → Holds self.old list.old es
            → Holds self.new list.new (es ++ (listed entry.now, no_node (listed entry.now)) ∷ [])) }
        ensures list { OnOk result (list.new
            ≡ put_at self.old.len (bytes_of false (listed entry.now, no_node (listed entry.now))) list.old) }
        ensures len { OnOk result
            (self.new.len ≡ self.old.len + entry_len false (length entry.now.name.now)) }
        ensures full { result ≡ Err NotAdded.Full
            → EndsList self.old list.old (listed entry.now, no_node (listed entry.now)) }
        ensures fails { IfErr result (λ why. (errno : ℕ)
            → error_of why ≡ Some errno
            → FailsList self.old list.old (listed entry.now, no_node (listed entry.now)) errno) }
        ensures same { OnErr result ((self.new ≡ self.old) × (list.new ≡ list.old)) }
        ensures stays { StaysBut self.old self.new }
    {
        if self.with_nodes {
            return Err(NotAdded::OtherKind);
        }
        self.put(list, &[], entry)
    }

    /// Appends an entry of READDIRPLUS with its node first. `node` is the answer of its lookup, and
    /// the client's lookup count of it is one higher from then on. `.` and `..` aren't looked up:
    /// they get node 0, and `node` is ignored.
    pub fn add_with_node(
        &mut self,
        list: &mut [u8],
        entry: &DirEntry<'_>,
        node: Entry<u64>,
    ) -> Result<(), NotAdded>
        ensures outcome { result ≡ added_found self.old (length list.old) (length entry.now.name.now) }
        ensures holds { OnOk result ((es : List Brought)
            → Holds self.old list.old es
            → Holds self.new list.new (es ++ (listed entry.now, node) ∷ [])) }
        ensures list { OnOk result
            (list.new ≡ put_at self.old.len (bytes_of true (listed entry.now, node)) list.old) }
        ensures len { OnOk result (self.new.len ≡ self.old.len + entry_len true (length entry.now.name.now)) }
        ensures full { result ≡ Err NotAdded.Full → EndsList self.old list.old (listed entry.now, node) }
        ensures fails { IfErr result (λ why. (errno : ℕ)
            → error_of why ≡ Some errno
            → FailsList self.old list.old (listed entry.now, node) errno) }
        ensures same { OnErr result ((self.new ≡ self.old) × (list.new ≡ list.old)) }
        ensures stays { StaysBut self.old self.new }
    {
        if !self.with_nodes {
            return Err(NotAdded::OtherKind);
        }
        self.put(list, &node_front(entry, node), entry)
    }

    // Whether READDIRPLUS has added entries, whose nodes the client holds.
    fn brought_nodes(&self) -> bool
        ensures { result ≡ self.now.with_nodes && nat_lt 0 self.now.len }
    {
        self.with_nodes && 0 < self.len
    }

    /// The reply with the entries so far. Without entries it is the end of the directory.
    pub fn end(self) -> ListingReply
        ensures gives { (s : Setting) (command : FileCommand) (list : List ℕ) (es : List Brought)
            → IsListingFor self s.room command
            → Holds self list es
            → commanded s command (Entries (entries_of es) ∷ all_found self.with_nodes es)
            ≡ served_list (first_call command ∷ look_ups command es) s.options result list }
        ensures len { result.len ≡ self.len }
    {
        entries_reply(self.unique, self.len)
    }

    /// The reply if reading, a lookup or an entry failed: the error alone. But if READDIRPLUS has
    /// added entries, it is these, since the client holds their nodes.
    pub fn fail(self, error: Errno) -> ListingReply
        ensures reply { (list : List ℕ) (es : List Brought)
            → Holds self list es
            → result.front ++ take result.len list
            ≡ listing_bytes self.unique self.with_nodes (all_bytes self.with_nodes es) (Some error) }
        ensures alone { (self.with_nodes && nat_lt 0 self.len) ≡ false
            → (s : Setting) (command : FileCommand) (list : List ℕ)
            → IsListingFor self s.room command
            → commanded s command (Failed error ∷ [])
            ≡ served_list (first_call command ∷ []) s.options result list }
        ensures looked_up { self.with_nodes ≡ true
            → (s : Setting) (command : FileCommand) (list : List ℕ) (es : List Brought) (d : Listed)
            → IsListingFor self s.room command
            → Holds self list es
            → is_dot d.name ≡ false
            → commanded s command
            (Entries (entries_of es ++ d ∷ []) ∷ (all_found true es ++ Failed error ∷ []))
            ≡ served_list (first_call command ∷ (look_ups command es ++ look_up command d)) s.options
            result list }
    {
        if self.brought_nodes() {
            return entries_reply(self.unique, self.len);
        }
        ListingReply {
            front: Front::error(self.unique, error),
            len: 0,
        }
    }
}
