//! A device's record: a device is saved to it, and restored from it.

ghost use Rattle.std.specs.Prelude.{◌≡◌, ◌≤◌, ◌^◌, ℕ, List, IsTrue, IfOk, IfErr, OnOk};
ghost use Rattle.std.specs.Io.KnownBytes.{Consumes};
ghost use Rattle.fs_record.specs.Record.{HasKnownBits, IsRecordFor, IsSavable};
ghost use Rattle.fs_record.specs.Restoring.{RefusesRecord, LeavesSource};
ghost use Rattle.fs_record.specs.Streams.{Leaves};
ghost use Rattle.server_replies.specs.PageSizes.{is_page_size};
ghost use Rattle.fs_device.specs.DevicePartsView.{device_bytes};

use crate::device::Device;
use fs_record::{RecordSink, RecordSource, RestoreError, WriteFault, restore_record, save_record};
use fuse_fs::FileSystem;
use fuse_wire::FsOptions;
use std::alloc::Global;
use virtiofsd_fuse::Server;

impl<F: FileSystem> Device<F> {
    // The options that were agreed in INIT; each bit of them is a known option.
    #[tactic(auto, using(server_meanings::proofs::Options::known_bits_are))]
    fn options(&self) -> FsOptions
        ensures value { result.0 ≡ self.now.options }
        ensures known { HasKnownBits result.0 }
    {
        self.server().options()
    }

    /// Writes the device's record, of version 2, to a sink: its queues, the agreed options, the bytes
    /// of a guest's page and the limit. WriteFault if the sink returns an error or takes no byte: it
    /// then has only a part of the record.
    pub fn save<S: RecordSink>(&self, sink: &mut S) -> Result<(), WriteFault>
        ensures leaves { Leaves (device_bytes self.now) (S.sent sink.old) (S.failed sink.old) result
            (S.sent sink.new) (S.failed sink.new) }
        ensures savable { OnOk result (IsSavable self.now.options self.now.queues) }
    {
        save_record(
            sink,
            self.options(),
            &self.queues,
            self.server().page_size(),
            self.limit(),
        )
    }

    /// A device from the record, of version 1 or 2, that a source has next, over a file system that the
    /// caller carried over. `page_size` is the bytes of a guest's page, a power of two from 4096 to
    /// 65536; `limit` is from 0x101000 to 2^31. Version 1 has neither of them; `Mismatch` if version 2
    /// has others. The errors are those of `restore_record`, and return the file system.
    pub fn restore<S: RecordSource>(
        alloc: Global,
        source: &mut S,
        fs: F,
        page_size: u32,
        limit: u32,
    ) -> Result<Device<F>, (RestoreError, F)>
        requires page_size { IsTrue (is_page_size page_size) }
        requires low { 0x101000 ≤ limit }
        requires high { limit ≤ 2 ^ 31 }
        ensures ok { IfOk result (λ d. (taken : List ℕ)
            × Consumes (S.left source.old) (S.left source.new) taken
            × IsRecordFor taken page_size limit d.options d.queues
            × (S.failed source.new ≡ S.failed source.old)) }
        ensures made { IfOk result (λ d. (d.files ≡ fs) × (d.limit ≡ limit) × (d.page_size ≡ page_size)) }
        ensures err { IfErr result (λ e. (taken : List ℕ)
            × Consumes (S.left source.old) (S.left source.new) taken
            × RefusesRecord taken page_size limit e.0
            × LeavesSource e.0 (S.left source.new) (S.failed source.old) (S.failed source.new)) }
        ensures back { IfErr result (λ e. e.1 ≡ fs) }
    {
        match restore_record(alloc, source, page_size, limit) {
            Ok((options, queues)) => {
                let server = Server::resume(fs, page_size, options);
                Ok(Device::new(server, queues, limit))
            }
            Err(error) => Err((error, fs)),
        }
    }
}
