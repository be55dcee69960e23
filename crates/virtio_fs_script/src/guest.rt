//! A guest with its device, and the commands on both.

ghost use Rattle.std.specs.Prelude.{◌≡◌, ◌≤◌, length, IfOk};

use crate::calls::FirstCalls;
use crate::files::LoggingFiles;
use crate::halt::Halt;
use fs_device::{Answer, Command, Device, LEAST_LIMIT, Machine, Migrated};
use fs_queue::Queue;
use std::alloc::{AllocError, Global};
use std::cell::Cell;
use virtiofsd_fuse::Server;
use vm_memory::{GuestMemoryMmap, IommuMemory, TableIommu};
use vm_memory_core::HostMemory;

// The bytes of I/O addresses, from 0 on, whose pages are marked.
const IO_BYTES: usize = 0x10000;

// The bytes of a guest page.
pub(crate) const PAGE_BYTES: u32 = 4096;

/// A guest and the device that serves it.
#[derive(Drop)]
pub(crate) struct GuestMachine<'a> {
    alloc: Global,
    log: &'a Cell<FirstCalls>,
    machine: Machine<LoggingFiles<'a>, TableIommu>,
}

// A list of one command.
fn alone(alloc: Global, command: Command) -> Result<Vec<Command>, AllocError>
    ensures { IfOk result (λ commands. length commands.items ≡ 1) }
{
    let mut commands = Vec::with_capacity(alloc, 1)?;
    commands.push(command).unwrap();
    Ok(commands)
}

impl<'a> GuestMachine<'a> {
    /// A guest without memory, whose device has these queues and an IOMMU that is off and maps nothing. The
    /// device's file system logs its calls. AllocError if an allocation fails.
    pub fn new(
        alloc: Global,
        log: &'a Cell<FirstCalls>,
        queues: Vec<Queue>,
    ) -> Result<GuestMachine<'a>, AllocError>
        requires some { 1 ≤ length queues.items }
        requires few { length queues.items ≤ 64 }
    {
        let mut host = HostMemory::new(alloc);
        let iommu = TableIommu::new(host.new_table()?);
        let io_bitmap = host.new_io_bitmap(IO_BYTES)?;
        let layout = GuestMemoryMmap::new(alloc);
        let mem = IommuMemory::new(alloc, layout, iommu, false, io_bitmap);
        let server = Server::new(LoggingFiles::new(log), PAGE_BYTES);
        let device = Device::new(server, queues, LEAST_LIMIT);
        Ok(GuestMachine {
            alloc,
            log,
            machine: Machine::new(host, mem, device),
        })
    }

    /// Whether the device has a queue of this number, from 0.
    pub fn has_queue(&self, queue: usize) -> bool {
        self.machine.device.queue(queue).is_some()
    }

    /// Carries out one command of the machine. AllocError if an allocation fails.
    pub fn perform(&mut self, command: Command) -> Result<Answer, AllocError> {
        let mut answers = self.machine.run(self.alloc, alone(self.alloc, command)?)?;
        Ok(answers.pop().unwrap())
    }

    /// Migrates guest and device to another host; the second result is the length of the device's record in
    /// bytes. An IOMMU that is on is off during the move. If an allocation fails, the error is
    /// `Halt::OutOfMemory`, and the guest is dropped.
    pub fn moved(self) -> Result<(GuestMachine<'a>, usize), Halt> {
        let GuestMachine {
            alloc,
            log,
            mut machine,
        } = self;
        let is_on = machine.mem.get_iommu_enabled();
        machine.mem.set_iommu_enabled(false);
        let Ok(moved) = machine.migrate(alloc, Vec::new(alloc)) else {
            return Err(Halt::OutOfMemory);
        };
        let Migrated {
            mut machine,
            device_record,
            ..
        } = moved;
        machine.mem.set_iommu_enabled(is_on);
        Ok((
            GuestMachine {
                alloc,
                log,
                machine,
            },
            device_record.len(),
        ))
    }

    /// The calls of the file system since this was last called.
    pub fn take_log(&self) -> FirstCalls {
        self.log.take()
    }
}
