//! The entries of a directory, and the iterator over them.

ghost use Rattle.std.specs.Prelude.{◌≡◌, List, [], option_map, slice_get, drop};
ghost use Rattle.std.specs.Borrow.{sem};
ghost use Rattle.std.specs.Io.BufRead.{Rests};
ghost use Rattle.fuse_fs.specs.Answers.{listed};
ghost use Rattle.fuse_fs.specs.Calls.{Listed};

/// An entry of a directory (virtiofsd's `DirEntry`, `struct fuse_dirent`).
#[derive(Drop)]
pub struct DirEntry<'a> {
    /// The node's number in the listing (`ino`).
    pub ino: u64,
    /// The offset at which a listing continues after this entry (`off`).
    pub offset: u64,
    /// The kind of node (`DT_` in dirent.h).
    pub type_: u32,
    /// The name. A zero byte in it reaches the guest unchanged.
    pub name: &'a [u8],
}

/// An iterator over finitely many entries of a directory (virtiofsd's `DirectoryIterator`).
pub trait DirectoryIterator: Drop {
    // The entries that are left.
    ghost rest: { Self → List Listed };

    /// The next entry. None if none is left.
    fn next(&mut self) -> Option<DirEntry<'_>>
        ensures entry { option_map listed result ≡ slice_get (rest self.old) 0 }
        ensures* after { sem 𝓛 (Rests Self.row self.entry (λ new. rest new ≡ drop 1 (rest self.old))) };
}

/// An iterator without entries, for a file system that leaves `readdir` to its default.
#[derive(Drop)]
pub struct NoEntries;

impl DirectoryIterator for NoEntries {
    ghost rest = { λ d. [] };

    fn next(&mut self) -> Option<DirEntry<'_>> {
        None
    }
}
