//! A machine is moved to another host.

ghost use Rattle.std.specs.Prelude.{◌≡◌, ◌++◌, false, IsTrue, IfOk, IfErr, None, length, map, zip};
ghost use Rattle.std.specs.List.{AllByRecursion};
ghost use Rattle.vm_memory_core.specs.Host.{lengths, shape};
ghost use Rattle.fs_device.specs.Applying.{first_refused, pages_put};
ghost use Rattle.fs_device.specs.PageView.{page_view};
ghost use Rattle.fs_record.specs.Record.{IsSavable};
ghost use Rattle.fs_device.specs.DevicePartsView.{device_bytes};
ghost use Rattle.plain_machine.specs.Run.{with_host};
ghost use Rattle.fs_device.specs.CommandView.{answer_of, command_of};
ghost use Rattle.fs_device.specs.MachineView.{machine_of};
ghost use Rattle.fs_device.specs.Moving.{RunsFromImage, follows_image};
ghost use Rattle.fs_device.specs.Migrating.{IsMoved, StaysHere, pages_of_answers, until_harvest};

use crate::applying::apply;
use crate::command::{Answer, Command};
use crate::device::Device;
use crate::harvested::HarvestedPage;
use crate::laws::{law_host_marks, law_move};
use crate::machine::Machine;
use fs_queue::Queue;
use fs_record::laws::law_record;
use fs_record::{Stream, restore_record};
use fuse_fs::FileSystem;
use fuse_wire::FsOptions;
use std::alloc::{AllocError, Global};
use vm_memory::Iommu;
use vm_memory_core::{HostMemory, PageBitmap};

/// A machine that was moved: the machine on the other host, the answers to its commands, and the
/// device's record, version 2, from which the new device was made.
#[derive(Drop)]
pub struct Migrated<F, I: Iommu + Drop> {
    pub machine: Machine<F, I>,
    pub answers: Vec<Answer>,
    pub device_record: Vec<u8>,
}

/// A machine that wasn't moved, since an allocation failed. It goes on where it is. The answers are
/// those to all commands, or none if no command was done. The image and the harvests may have cleared
/// the marks of blocks.
#[derive(Drop)]
pub struct Stayed<F, I: Iommu + Drop> {
    pub machine: Machine<F, I>,
    pub answers: Vec<Answer>,
}

// The result of a run from an image: the copy of the host, the answers to the commands, and the pages
// of the last harvest.
struct ImageRun {
    copy: HostMemory<PageBitmap>,
    answers: Vec<Answer>,
    last: Vec<HarvestedPage>,
}

// Writes the pages in some answers to a copy of a host, in order.
fn put_answered(copy: &mut HostMemory<PageBitmap>, answers: &[Answer])
    requires { first_refused (lengths copy.old) 0 (pages_of_answers answers.now) ≡ None }
    ensures put { copy.new ≡ pages_put copy.old (pages_of_answers answers.now) }
    ensures shape { shape copy.new ≡ shape copy.old }
{
    for answer in answers {
        if let Answer::Pages(pages) = answer {
            let _ = apply(copy, pages);
        }
    }
}

// Writes the pages in some answers, and then those of a last harvest, to a copy of a host, in order.
fn put_harvested(copy: &mut HostMemory<PageBitmap>, answers: &[Answer], last: &[HarvestedPage])
    requires { first_refused (lengths copy.old) 0 (pages_of_answers answers.now ++ map page_view last.now)
        ≡ None }
    ensures { copy.new ≡ pages_put copy.old (pages_of_answers answers.now ++ map page_view last.now) }
{
    put_answered(copy, answers);
    let _ = apply(copy, last);
}

impl<F: FileSystem> Device<F> {
    // The options and the queues of the device's record, and the record.
    fn brought_over(&self, alloc: Global) -> Result<(FsOptions, Vec<Queue>, Vec<u8>), AllocError>
        ensures options { IfOk result (λ v. v.0.0 ≡ self.now.options) }
        ensures queues { IfOk result (λ v. v.1.items ≡ self.now.queues) }
        ensures bytes { IfOk result (λ v. v.2.items ≡ device_bytes self.now) }
        ensures savable { IfOk result (λ v. IsSavable v.0.0 v.1.items) }
    {
        let mut sink = Stream::new(Vec::new(alloc));
        if self.save(&mut sink).is_err() {
            return Err(AllocError);
        }
        let record: Vec<u8> = sink.into_inner();
        let mut source = Stream::new(record.as_slice());
        law_record();
        match restore_record(alloc, &mut source, self.server().page_size(), self.limit()) {
            Ok((options, queues)) => Ok((options, queues, record)),
            Err(_) => Err(AllocError),
        }
    }
}

impl<F: FileSystem, I: Iommu + Drop> Machine<F, I> {
    // Makes an image, runs commands and makes a last harvest. If an allocation fails, the error has the
    // commands' answers.
    fn run_from_image(
        &mut self,
        alloc: Global,
        commands: Vec<Command>,
    ) -> Result<ImageRun, Vec<Answer>>
        requires off { (machine_of self.old).memory.translates ≡ false }
        requires follow { AllByRecursion (λ c. IsTrue (follows_image (command_of c))) commands.items }
        ensures all { IfOk result (λ r. length r.answers.items ≡ length commands.items) }
        ensures from { IfOk result (λ r. RunsFromImage F.may (machine_of self.old) r.copy
            (until_harvest (zip (map command_of commands.items) (map answer_of r.answers.items))
            (map page_view r.last.items)) (machine_of self.new)) }
        ensures stayed { IfErr result (λ answers. StaysHere F.may (machine_of self.old)
            (map command_of commands.items) (map answer_of answers.items)
            (machine_of self.new)) }
        ensures off { (machine_of self.new).memory.translates ≡ false }
    {
        law_host_marks(&self.host);
        law_move::<F>();
        let Answer::Copied(copy) = self.image(alloc) else {
            return Err(Vec::new(alloc));
        };
        let Ok(answers) = self.run(alloc, commands) else {
            return Err(Vec::new(alloc));
        };
        let Answer::Pages(last) = self.harvest(alloc) else {
            return Err(answers);
        };
        Ok(ImageRun {
            copy,
            answers,
            last,
        })
    }

    // The machine over the copy of its host, with the harvested pages written to it, and with a device
    // from the record.
    fn moved_onto(self, alloc: Global, run: ImageRun) -> Result<Migrated<F, I>, Stayed<F, I>>
        requires places { first_refused (lengths run.copy) 0
            (pages_of_answers run.answers.items ++ map page_view run.last.items) ≡ None }
        requires caught_up { pages_put run.copy
            (pages_of_answers run.answers.items ++ map page_view run.last.items) ≡ self.host }
        ensures moved { IfOk result (λ m. machine_of m.machine
            ≡ with_host (machine_of self)
            (pages_put run.copy (pages_of_answers run.answers.items ++ map page_view run.last.items))) }
        ensures answers { IfOk result (λ m. m.answers ≡ run.answers) }
        ensures bytes { IfOk result (λ m. m.device_record.items ≡ device_bytes self.device) }
        ensures stayed { IfErr result (λ m. machine_of m.machine ≡ machine_of self) }
        ensures still_answers { IfErr result (λ m. m.answers ≡ run.answers) }
    {
        let ImageRun {
            mut copy,
            answers,
            last,
        } = run;
        let Ok((options, queues, device_record)) = self.device.brought_over(alloc) else {
            return Err(Stayed {
                machine: self,
                answers,
            });
        };
        put_harvested(&mut copy, &answers, &last);
        let Machine { mem, device, .. } = self;
        let device = device.resumed_with(options, queues);
        let machine = Machine {
            host: copy,
            mem,
            device,
        };
        Ok(Migrated {
            machine,
            answers,
            device_record,
        })
    }

    /// Moves the machine to another host, as a VMM would: an image; then commands, which are those of
    /// the guest and the device in the meantime, and harvests (`Command::Harvest`); then a last
    /// harvest. The new machine has the image with all harvested pages, in order, and a device from the
    /// record. The IOMMU must be off (`mem.get_iommu_enabled()`), and each command must satisfy
    /// `Command::follows_image`. A refused command doesn't end the move. The new machine equals this
    /// one after the last harvest, marks and all, and each of its runs could have been one of this
    /// machine. If an allocation fails the machine stays, with none or all of the commands done. Either
    /// may be moved again.
    pub fn migrate(
        mut self,
        alloc: Global,
        commands: Vec<Command>,
    ) -> Result<Migrated<F, I>, Stayed<F, I>>
        requires off { (machine_of self).memory.translates ≡ false }
        requires follow { AllByRecursion (λ c. IsTrue (follows_image (command_of c))) commands.items }
        ensures all { IfOk result (λ m. length m.answers.items ≡ length commands.items) }
        ensures moved { IfOk result (λ m. IsMoved F.may (machine_of self)
            (zip (map command_of commands.items) (map answer_of m.answers.items))
            (machine_of m.machine)) }
        ensures bytes { IfOk result (λ m. m.device_record.items ≡ device_bytes m.machine.device) }
        ensures off { IfOk result (λ m. (machine_of m.machine).memory.translates ≡ false) }
        ensures stayed { IfErr result (λ m. StaysHere F.may (machine_of self) (map command_of commands.items)
            (map answer_of m.answers.items)
            (machine_of m.machine)) }
        ensures still_off { IfErr result (λ m. (machine_of m.machine).memory.translates ≡ false) }
    {
        let run = match self.run_from_image(alloc, commands) {
            Ok(run) => run,
            Err(answers) => {
                return Err(Stayed {
                    machine: self,
                    answers,
                });
            }
        };
        law_move::<F>();
        self.moved_onto(alloc, run)
    }
}
