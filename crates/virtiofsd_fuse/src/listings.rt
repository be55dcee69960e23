//! READDIR and READDIRPLUS: writes the entries of a directory straight into the reply.

ghost use Rattle.std.specs.Prelude.{◌≡◌, ◌+◌, ◌<◌, ◌≤◌, ◌^◌, true, false, List, [], ◌++◌, length};
ghost use Rattle.std.specs.Prelude.{OnOk, OnErr};
ghost use Rattle.fuse_in.specs.declared.files.ReadIn.{ReadIn};
ghost use Rattle.fuse_fs.specs.Answers.{listed, numbered, context_of};
ghost use Rattle.fuse_fs.specs.Calls.{Done};
ghost use Rattle.server_replies.specs.Entries.{dirent_bytes, node_bytes, entry_len, fit_of, is_dot};
ghost use Rattle.server_replies.specs.Entries.{after_entry};
ghost use Rattle.server_meanings.specs.Listings.{listing_of, forget_lookup};
ghost use Rattle.server_meanings.specs.ListingRuns.{ListRun, EntryRun};
ghost use Rattle.server_meanings.specs.Grammar.{Asks, Lists, listing_row};
ghost use Rattle.virtiofsd_fuse.specs.ServerHandles.{RowHandles, ServerHandles, Leaves};

use crate::server::Server;
use fuse_fs::{Context, DirEntry, DirectoryIterator, Entry, FileNumber, FileSystem};
use fuse_in::{InHeader, ReadIn};
use fuse_wire::Errno;
use server_calls::directories::make_readdir_call;
use server_calls::received::received_entry;
use server_meanings::{ListingMeaning, listing_meaning};
use server_replies::entries::{is_dot, no_node, node_bytes, put_entry, reply_listing};
use server_replies::replies::{OUT_HEADER_LEN, append, reply_error};
use server_requests::source::Segments;
use server_segments::{Error, Writer};

impl<F: FileSystem> Server<F> {
    // Writes an entry with its node. Forgets the node if the entry doesn't fit.
    fn put_node(
        &mut self,
        head: &InHeader,
        node: Entry<F::Inode>,
        entry: &DirEntry<'_>,
        left: usize,
        w: &mut Writer,
    ) -> Result<usize, Option<Errno>>
        ensures outcome { result ≡ after_entry (fit_of (length entry.now.name.now)
            (entry_len true (length entry.now.name.now)) left w.old.free)
            left (entry_len true (length entry.now.name.now)) }
        ensures written { OnOk result (w.new.written ≡ w.old.written
            ++ (node_bytes (numbered F.Inode.number node) ++ dirent_bytes (listed entry.now))) }
        ensures free { OnOk result (w.new.free + entry_len true (length entry.now.name.now) ≡ w.old.free) }
        ensures same { OnErr result (w.new ≡ w.old) }
        ensures kept { OnOk result (self.new.fs ≡ self.old.fs) }
        ensures undone { OnErr result (F.may self.old.fs
            (forget_lookup (context_of head.now) (F.Inode.number node.inode)) Done self.new.fs) }
        ensures room { length w.new.written + w.new.free ≡ length w.old.written + w.old.free }
        ensures options { self.new.options ≡ self.old.options }
        ensures page_size { self.new.page_size ≡ self.old.page_size }
    {
        let inode = node.inode;
        match put_entry(w, &node_bytes(node), entry, left) {
            Ok(rest) => Ok(rest),
            Err(ended) => {
                self.fs.forget(Context::from(*head), inode, 1);
                Err(ended)
            }
        }
    }

    // Looks up an entry, and writes it with its node.
    fn look_up(
        &mut self,
        head: &InHeader,
        entry: &DirEntry<'_>,
        left: usize,
        w: &mut Writer,
    ) -> Result<usize, Option<Errno>>
        requires { is_dot entry.now.name.now ≡ false }
        ensures run { (request : ReadIn) → EntryRun F.may (listing_of true head.now request)
            (listed entry.now) left w.old.free self.old.fs w.old.written result w.new.free self.new.fs
            w.new.written }
        ensures room { length w.new.written + w.new.free ≡ length w.old.written + w.old.free }
        ensures options { self.new.options ≡ self.old.options }
        ensures page_size { self.new.page_size ≡ self.old.page_size }
    {
        let parent = F::Inode::numbered(head.nodeid);
        match received_entry(self.fs.lookup(Context::from(*head), parent, entry.name)) {
            Ok(node) => self.put_node(head, node, entry, left, w),
            Err(error) => Err(Some(error)),
        }
    }

    // Writes one entry, in READDIRPLUS with its node.
    fn list_entry(
        &mut self,
        head: &InHeader,
        entry: &DirEntry<'_>,
        with_nodes: bool,
        left: usize,
        w: &mut Writer,
    ) -> Result<usize, Option<Errno>>
        ensures run { (request : ReadIn) → EntryRun F.may (listing_of with_nodes head.now request)
            (listed entry.now) left w.old.free self.old.fs w.old.written result w.new.free self.new.fs
            w.new.written }
        ensures room { length w.new.written + w.new.free ≡ length w.old.written + w.old.free }
        ensures options { self.new.options ≡ self.old.options }
        ensures page_size { self.new.page_size ≡ self.old.page_size }
    {
        if !with_nodes {
            return put_entry(w, &[], entry, left);
        }
        if is_dot(entry.name) {
            return self.put_node(head, no_node(entry), entry, left, w);
        }
        self.look_up(head, entry, left, w)
    }

    // Writes the entries that fit. Returns the error that ended the list, if one did.
    fn list_entries(
        &mut self,
        head: &InHeader,
        entries: F::DirIter,
        with_nodes: bool,
        size: usize,
        w: &mut Writer,
    ) -> Option<Errno>
        ensures run { (request : ReadIn) → ListRun F.may (listing_of with_nodes head.now request)
            (F.DirIter.rest entries) size w.old.free self.old.fs w.old.written w.new.written result
            self.new.fs }
        ensures room { length w.new.written + w.new.free ≡ length w.old.written + w.old.free }
        ensures options { self.new.options ≡ self.old.options }
        ensures page_size { self.new.page_size ≡ self.old.page_size }
    {
        let mut entries = entries;
        let mut left = size;
        while let Some(entry) = entries.next() {
            match self.list_entry(head, &entry, with_nodes, left, w) {
                Ok(rest) => left = rest,
                Err(ended) => return ended,
            }
        }
        None
    }

    // READDIR or READDIRPLUS with this record.
    fn list(
        &mut self,
        head: &InHeader,
        request: &ReadIn,
        with_nodes: bool,
        w: &mut Writer,
    ) -> Result<usize, Error>
        requires fresh { w.old.written ≡ [] }
        requires room { w.old.free < 2 ^ 32 }
        requires enough { 16 ≤ w.old.free }
        ensures handles { ServerHandles F.may self.old w.old.free
            (Asks (Lists head.now.unique (listing_of with_nodes head.now request.now)))
            result w.new.written self.new }
        ensures rest { Leaves false result w.old w.new self.old self.new }
    {
        match make_readdir_call(&mut self.fs, head, request) {
            Ok(entries) => {
                append(w, &[0; OUT_HEADER_LEN]);
                let error = self.list_entries(head, entries, with_nodes, request.size as usize, w);
                Ok(reply_listing(w, head.unique, with_nodes, error))
            }
            Err(error) => reply_error(w, head.unique, error),
        }
    }

    /// READDIR: the entries of a directory. READDIRPLUS (`with_nodes`): each entry with its node.
    pub(crate) fn read_directory(
        &mut self,
        head: &InHeader,
        with_nodes: bool,
        source: Segments<'_, '_>,
        w: &mut Writer,
    ) -> Result<usize, Error>
        requires fresh { w.old.written ≡ [] }
        requires room { w.old.free < 2 ^ 32 }
        ensures handles { RowHandles F.may self.old w.old.free head.now (listing_row with_nodes)
            source.entry.reader.left result w.new.written self.new }
        ensures rest { Leaves false result w.old w.new self.old self.new }
    {
        let room = w.available_bytes();
        match listing_meaning(room, source) {
            ListingMeaning::List(request) => self.list(head, &request, with_nodes, w),
            ListingMeaning::Error(error) => reply_error(w, head.unique, error),
            ListingMeaning::Fault(error) => Err(error),
        }
    }
}
