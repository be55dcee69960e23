//! The session of a client and its server: decodes requests and takes answers by the agreed options.

ghost use Rattle.std.specs.Prelude.{◌≡◌, List, ℕ, length, drop, IsTrue, bit_and};
ghost use Rattle.server_replies.specs.PageSizes.{is_page_size};
ghost use Rattle.server_requests.specs.Fronts.{first_name_at};
ghost use Rattle.server_meanings.specs.Grammar.{meaning, known_options};
ghost use Rattle.server_meanings.specs.Serving.{setting};
ghost use Rattle.server_phases.specs.Asking.{IsDecoded, HasAsker, HasAskerByFront, IsRequestFront};
ghost use Rattle.server_phases.specs.Asking.{DecodedStandsIn, FrontStandsIn, IsDecodedByFront};
ghost use Rattle.server_phases.specs.Asking.{front_suffices, is_decoded};

use crate::asking::{AskedFront, DecodedRequest, ask_write_front};
use bitflags::Flags;
use fuse_in::InHeader;
use fuse_wire::FsOptions;
use server_meanings::{REQUEST_FRONT, begins_a_write, known};
use server_requests::source::{Flat, Source};

/// The page size of the guest, and the options that client and server agreed on in INIT.
#[derive(Drop)]
pub struct Session {
    pub(crate) page_size: u32,
    pub(crate) options: FsOptions,
    ghost pages: { IsTrue (is_page_size page_size) },
    ghost known: { bit_and options.0 known_options ≡ options.0 },
}

impl Session {
    /// A session without agreed options. The guest's pages have `page_size` bytes.
    pub fn new(page_size: u32) -> Session
        requires { IsTrue (is_page_size page_size) }
        ensures page_size { result.page_size ≡ page_size }
        ensures options { result.options.0 ≡ 0 }
    {
        Session {
            page_size,
            options: FsOptions::from_bits_retain(0),
        }
    }

    /// A session with the options agreed before, except unknown bits. The guest's pages have
    /// `page_size` bytes.
    pub fn resume(page_size: u32, options: FsOptions) -> Session
        requires { IsTrue (is_page_size page_size) }
        ensures page_size { result.page_size ≡ page_size }
        ensures options { result.options.0 ≡ bit_and options.0 known_options }
    {
        Session {
            page_size,
            options: known(options.bits()),
        }
    }

    /// The agreed options.
    pub fn options(&self) -> FsOptions
        ensures { result ≡ self.now.options }
    {
        self.options
    }

    /// The size of the guest's pages, in bytes.
    pub fn page_size(&self) -> u32
        ensures { result ≡ self.now.page_size }
    {
        self.page_size
    }

    /// Decodes a request with a reply buffer of `room` bytes: returns its one call, or its result without a
    /// call. Names and values of the call are borrowed from the request. It allocates nothing.
    pub fn ask<'a>(&self, request: &'a [u8], room: usize) -> DecodedRequest<'a>
        ensures decoded { IsDecoded (setting self.now.page_size self.now.options.0 room)
            (meaning self.now.options.0 request.now room) (drop 80 request.now) result }
        ensures places { DecodedStandsIn request.now (first_name_at self.now.options.0 request.now) result }
        ensures asker { HasAsker request.now result }
    {
        let mut source = Flat { bytes: request };
        match source.record::<InHeader>() {
            Ok(head) => self.ask_head(&head, room, source),
            Err(error) => DecodedRequest::Fault(error),
        }
    }

    /// Decodes a request of `len` bytes from its first bytes. `front` is either all of them, or at
    /// least the first 80 (`REQUEST_FRONT`) of a WRITE, whose data may be elsewhere; otherwise it
    /// returns `More`. In the call of a WRITE, `size` is from the record and `len` is the number of
    /// data bytes: they may differ.
    pub fn ask_front<'a>(&self, front: &'a [u8], len: usize, room: usize) -> AskedFront<'a>
        ensures decoded { (request : List ℕ)
            → len ≡ length request
            → IsRequestFront front.now request
            → IsDecodedByFront (setting self.now.page_size self.now.options.0 room)
            (meaning self.now.options.0 request room) (drop 80 request) result }
        ensures places { FrontStandsIn self.now.options.0 front.now result }
        ensures asker { (request : List ℕ)
            → len ≡ length request
            → IsRequestFront front.now request
            → HasAskerByFront request result }
        ensures more { is_decoded result ≡ front_suffices front.now len }
    {
        if front.len() == len {
            return AskedFront::Decoded(self.ask(front, room));
        }
        if front.len() < REQUEST_FRONT || len < front.len() || !begins_a_write(front) {
            return AskedFront::More;
        }
        AskedFront::Decoded(ask_write_front(front, len, room))
    }
}
