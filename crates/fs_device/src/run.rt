//! A machine runs commands.

ghost use Rattle.std.specs.Prelude.{◌≡◌, ◌<◌, [], IfOk, OnErr, true, length, map, zip};
ghost use Rattle.vm_iotlb.specs.declared.permissions.Permissions.TheVariants.{Read, Write};
ghost use Rattle.vm_memory.specs.Memory.{physical, reach, bytes};
ghost use Rattle.plain_machine.specs.Run.{Run, Performs, Turns, GuestRead, GuestWrite, Kick, ResetQueue};
ghost use Rattle.plain_machine.specs.Run.{guest_written};
ghost use Rattle.fs_device.specs.CommandView.{answer_of, command_of};
ghost use Rattle.fs_device.specs.MachineView.{machine_of};

use crate::command::{Answer, Command};
use crate::machine::Machine;
use crate::queues::QueueRun;
use fs_queue::QueueLayout;
use fuse_fs::FileSystem;
use plain_machine::{DeviceError, Refusal};
use std::alloc::{AllocError, Global};
use vm_memory::Iommu;
use vm_memory_core::{GuestAddress, Permissions};

impl<F: FileSystem, I: Iommu + Drop> Machine<F, I> {
    /// Whether each of `len` bytes from a physical address on is in a region that allows this access.
    pub fn reaches(&self, addr: u64, len: usize, access: Permissions) -> bool
        ensures { result ≡ reach (physical (machine_of self.now).memory) access addr len }
    {
        match addr.checked_add(len as u64) {
            Some(_) => self.mem.get_backend().has_range(GuestAddress(addr), len),
            None => false,
        }
    }

    // Reads bytes that are all mapped.
    fn fill(&self, addr: u64, buffer: &mut [u8])
        requires { reach (physical (machine_of self.now).memory) Read addr (length buffer.old) ≡ true }
        ensures { buffer.new ≡ bytes (physical (machine_of self.now).memory) addr (length buffer.old) }
    {
        let layout = self.mem.get_backend();
        let _ = layout.read_slice(&self.host, buffer, GuestAddress(addr));
    }

    // Writes bytes that are all mapped.
    fn store(&mut self, addr: u64, bytes: &[u8])
        requires { reach (physical (machine_of self.old).memory) Write addr (length bytes.now) ≡ true }
        ensures { machine_of self.new ≡ record (machine_of self.old) {
          memory = guest_written (machine_of self.old).memory addr bytes.now;
        } }
    {
        let layout = self.mem.get_backend();
        let _ = layout.write_slice(&mut self.host, bytes, GuestAddress(addr));
    }

    /// The guest reads `len` bytes from a physical address on: `Bytes`, or refused with `NoPlace` if
    /// one of them isn't mapped, or with `OutOfMemory`.
    pub fn guest_read(&self, alloc: Global, addr: u64, len: usize) -> Answer
        ensures { Performs F.may (machine_of self.now) (GuestRead addr len) [] (answer_of result)
            (machine_of self.now) }
    {
        if !self.reaches(addr, len, Permissions::Read) {
            return Answer::Refused(Refusal::NoPlace);
        }
        if len == 0 {
            return Answer::Bytes(Vec::new(alloc));
        }
        let Ok(mut bytes) = vec![in alloc; 0u8; len] else {
            return Answer::Refused(Refusal::OutOfMemory);
        };
        self.fill(addr, &mut bytes);
        Answer::Bytes(bytes)
    }

    /// The guest writes bytes from a physical address on: `Done`, or refused with `NoPlace` if one of
    /// them isn't mapped, and then nothing changed.
    pub fn guest_write(&mut self, addr: u64, bytes: &[u8]) -> Answer
        ensures { Performs F.may (machine_of self.old) (GuestWrite addr bytes.now) [] (answer_of result)
            (machine_of self.new) }
    {
        if !self.reaches(addr, bytes.len(), Permissions::Write) {
            return Answer::Refused(Refusal::NoPlace);
        }
        self.store(addr, bytes);
        Answer::Done
    }

    fn kick(&mut self, alloc: Global, queue: usize, most: u16) -> Answer
        ensures { (turns : Turns)
            × Performs F.may (machine_of self.old) (Kick queue most) turns (answer_of result)
            (machine_of self.new) }
    {
        match self
            .device
            .process_queue(alloc, &mut self.host, &self.mem, queue, most)
        {
            Ok(run) => Answer::Served(run),
            Err(DeviceError::NoSuchQueue) => Answer::Served(QueueRun::refused(
                Vec::new(alloc),
                DeviceError::NoSuchQueue,
            )),
            Err(DeviceError::Queue(_)) => Answer::Refused(Refusal::OutOfMemory),
        }
    }

    fn reset_queue(&mut self, queue: usize, layout: QueueLayout) -> Answer
        ensures { Performs F.may (machine_of self.old)
            (ResetQueue queue layout.size layout.desc layout.avail layout.used) [] (answer_of result)
            (machine_of self.new) }
    {
        match self.device.reset_queue(queue, layout) {
            Ok(()) => Answer::Done,
            Err(_) => Answer::Refused(Refusal::NoSuchQueue),
        }
    }

    // Runs one command.
    fn perform(&mut self, alloc: Global, command: Command) -> Answer
        ensures { (turns : Turns)
            × Performs F.may (machine_of self.old) (command_of command) turns (answer_of result)
            (machine_of self.new) }
    {
        match command {
            Command::GuestRead { addr, len } => self.guest_read(alloc, addr, len),
            Command::GuestWrite { addr, bytes } => self.guest_write(addr, &bytes),
            Command::NewBlock { len } => self.new_block(len),
            Command::InsertRegion { base, block } => self.insert_region(alloc, base, block),
            Command::RemoveRegion { base, size } => self.remove_region(base, size),
            Command::SetLayout(layout) => self.set_layout(layout),
            Command::Map {
                iova,
                target,
                len,
                perm,
            } => self.map(iova, target, len, perm),
            Command::Unmap { iova, len } => self.unmap(iova, len),
            Command::UnmapAll => self.unmap_all(),
            Command::SetIommu(on) => self.set_iommu(on),
            Command::Kick { queue, most } => self.kick(alloc, queue, most),
            Command::ResetQueue { queue, layout } => self.reset_queue(queue, layout),
            Command::Image => self.image(alloc),
            Command::Harvest => self.harvest(alloc),
        }
    }

    /// Runs commands in order, and returns the answer to each. It allocates the list of answers first:
    /// AllocError if that fails, and then nothing changed. It allocates no list for no commands. A
    /// refused command doesn't end the run.
    pub fn run(&mut self, alloc: Global, commands: Vec<Command>) -> Result<Vec<Answer>, AllocError>
        ensures run { IfOk result (λ answers. Run F.may (machine_of self.old)
            (zip (map command_of commands.items) (map answer_of answers.items))
            (machine_of self.new)) }
        ensures all { IfOk result (λ answers. length answers.items ≡ length commands.items) }
        ensures err { OnErr result (machine_of self.new ≡ machine_of self.old) }
        ensures memory { OnErr result (0 < length commands.items) }
    {
        let mut answers = Vec::with_capacity(alloc, commands.len())?;
        for command in commands {
            let answer = self.perform(alloc, command);
            answers.push(answer).unwrap();
        }
        Ok(answers)
    }
}
