//! The device: each step serves one chain of a queue.

ghost use Rattle.std.specs.Prelude.{◌≡◌, ◌≤◌, ◌<◌, ◌^◌, length, set, slice_get, IfErr, None, OnOk};
ghost use Rattle.std.specs.Prelude.{option_map};
ghost use Rattle.vm_memory_core.specs.Host.{shape};
ghost use Rattle.fs_record.specs.Record.{IsSavable};

use crate::answer_by_copy::serve;
use crate::exchange::Exchange;
use crate::fetched_request::FetchedRequest;
use fs_queue::{Queue, QueueLayout, Taken};
use fuse_fs::FileSystem;
use fuse_wire::FsOptions;
use plain_machine::DeviceError;
use server_meanings::MAX_REQUEST_LEN;
use std::alloc::Global;
use std::marker::Model;
use virtiofsd_fuse::Server;
use vm_memory::GuestMemory;
use vm_memory_core::HostBlocks;

/// The least limit of a device, in bytes: the server's longest request, a WRITE of 1 MiB and a page for
/// its headers.
pub const LEAST_LIMIT: u32 = MAX_REQUEST_LEN;

/// A virtio-fs device (VIRTIO 1.2, 5.11): a server with 1 to 64 queues, numbered from 0. A chain is
/// faulty (`ChainFault::OverLimit`) if its request or its reply buffer is longer than the limit, which
/// is from `LEAST_LIMIT` to `fs_queue::MOST_LIMIT` bytes.
#[derive(Drop)]
pub struct Device<F> {
    pub(crate) server: Server<F>,
    pub(crate) queues: Vec<Queue>,
    pub(crate) limit: u32,
    // The chain that a call takes and returns itself.
    pub(crate) taken: Taken,
    ghost short: { limit < 2 ^ 32 },
    pub ghost some: { 1 ≤ length queues.items },
    pub ghost few: { length queues.items ≤ 64 },
}

impl<F> Model for Device<F> {
    ghost use Rattle.fs_device.specs.DevicePartsView.{DeviceParts};

    ghost Value = { DeviceParts F };

    ghost view = { λ d. record {
      queues = d.queues.items;
      options = d.server.options.0;
      files = d.server.fs;
      limit = d.limit;
      page_size = d.server.page_size;
    } };
}

ghost use Rattle.fs_queue.specs.Queue.{fresh};
ghost use Rattle.plain_machine.specs.Step.{Calls, Step};
ghost use Rattle.fs_device.specs.DeviceView.{outcome_of, state_of};
ghost use Rattle.plain_machine.specs.declared.error.DeviceError.TheVariants.{NoSuchQueue};

impl<F: FileSystem> Device<F> {
    /// A device of a server and its queues, each new or resumed; the limit is in bytes.
    pub fn new(server: Server<F>, queues: Vec<Queue>, limit: u32) -> Device<F>
        requires some { 1 ≤ length queues.items }
        requires few { length queues.items ≤ 64 }
        requires low { 0x101000 ≤ limit }
        requires high { limit ≤ 2 ^ 31 }
        ensures { result ≡ record {
          queues = queues.items;
          options = server.options.0;
          files = server.fs;
          limit = limit;
          page_size = server.page_size;
        } }
    {
        let taken = Taken::empty(*queues.allocator());
        Device {
            server,
            queues,
            limit,
            taken,
        }
    }

    /// The queue with this number, from 0. None if there is no such queue.
    pub fn queue(&self, queue: usize) -> Option<&Queue>
        ensures { option_map (λ q. q.now) result ≡ slice_get self.now.queues queue }
    {
        self.queues.get(queue)
    }

    /// The server, with the options that were agreed in INIT and the file system.
    pub fn server(&self) -> &Server<F>
        ensures files { result.now.fs ≡ self.now.files }
        ensures options { result.now.options.0 ≡ self.now.options }
        ensures page_size { result.now.page_size ≡ self.now.page_size }
    {
        &self.server
    }

    /// The greatest length of a request and of a reply buffer, in bytes.
    pub fn limit(&self) -> u32
        ensures { result ≡ self.now.limit }
    {
        self.limit
    }

    /// The server, without its queues.
    pub fn into_server(self) -> Server<F>
        ensures files { result.fs ≡ self.files }
        ensures options { result.options.0 ≡ self.options }
        ensures page_size { result.page_size ≡ self.page_size }
    {
        let Device { server, .. } = self;
        server
    }

    // The same device with the options and queues of a record: its server goes on with these.
    #[tactic(auto, using(server_meanings::proofs::Options::known_bits_are))]
    pub(crate) fn resumed_with(self, options: FsOptions, queues: Vec<Queue>) -> Device<F>
        requires { IsSavable options.0 queues.items }
        ensures { result ≡ record self { queues = queues.items; options = options.0 } }
    {
        let Device {
            server,
            limit,
            taken,
            ..
        } = self;
        let page_size = server.page_size();
        let server = Server::resume(server.into_fs(), page_size, options);
        Device {
            server,
            queues,
            limit,
            taken,
        }
    }

    /// Serves the next chain of a queue, by its number from 0. The result is the exchange, and whether
    /// to notify the driver (VIRTIO 1.2, 2.7.7). None if no chain is available. Errors: `NoSuchQueue`,
    /// `QueueError`. `NoSuchQueue`, `OutOfMemory` and `Stopped` change nothing; any other stops the
    /// queue. An error means that no file call was made.
    pub fn process_one<M: GuestMemory, H: HostBlocks>(
        &mut self,
        alloc: Global,
        host: &mut H,
        mem: &M,
        queue: usize,
    ) -> Result<Option<(Exchange, bool)>, DeviceError>
        requires { M.IsHeld mem.now (H.host host.old) }
        ensures step { (calls : Calls)
            × Step F.may (state_of (M.memory mem.now (H.host host.old)) self.old) queue calls
            (outcome_of result)
            (state_of (M.memory mem.now (H.host host.new)) self.new) }
        ensures shape { shape (H.host host.new) ≡ shape (H.host host.old) }
    {
        let waits = Self::take_from(
            alloc,
            host,
            mem,
            self.limit,
            &mut self.queues,
            queue,
            &mut self.taken,
        )?;
        if !waits {
            return Ok(None);
        }
        let request = FetchedRequest::of(alloc, host, &self.taken)?;
        let exchange = serve(alloc, &mut self.server, &self.taken, request)?;
        let notify = self.queues[queue].give_back(host, &mut self.taken, &exchange.reply);
        Ok(Some((exchange, notify)))
    }

    /// Resets a queue, as a driver's reset does (VIRTIO 1.2, 2.6.1): its position is 0, and it isn't
    /// stopped. `NoSuchQueue` if it is missing.
    pub fn reset_queue(&mut self, queue: usize, layout: QueueLayout) -> Result<(), DeviceError>
        ensures missing { IfErr result (λ e. (e ≡ NoSuchQueue)
            × (slice_get self.old.queues queue ≡ None)
            × (self.new ≡ self.old)) }
        ensures there { OnOk result ((queue < length self.old.queues)
            × (self.new ≡ record self.old {
              queues = set self.old.queues queue (fresh layout.size layout.desc layout.avail layout.used);
            })) }
    {
        if queue < self.queues.len() {
            self.queues[queue].reset(layout);
            Ok(())
        } else {
            Err(DeviceError::NoSuchQueue)
        }
    }
}
