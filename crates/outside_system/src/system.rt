ghost use Rattle.std.specs.Prelude.{◌≡◌, ◌<◌, true, IsErr};
ghost use Rattle.outside.specs.declared.slot.Slot.{Slot};
ghost use Rattle.outside.specs.declared.slot.Stage.TheVariants.{Unopened as UnopenedStage, Open as OpenStage};
ghost use Rattle.outside.specs.Prelude.{AllUnopened};
ghost use Rattle.outside_system.specs.System.{untold_slot};

use crate::draft::{FileIdentity, Opened, open_target};
use outside::{Device, Devices, Failed, Files, Slot, counted, counted_write};
use std::fs::OpenFile;
use std::io::{BufWriter, ErrorKind, Read, Write};
use std::{fs, io};

/// What a file of the system is opened for.
#[derive(Clone, Copy, Debug, PartialEq, Eq)]
pub enum Access {
    /// An existing file, to read it.
    Read,
    /// A file that is made, or replaced where it exists, to write it.
    Write,
}

/// A file of the system at its stage.
#[derive(Drop)]
enum Handle<F> {
    Unopened,
    Open(Opened<F>),
    /// It was given up after a fault.
    Lost,
    Finished,
}

/// A file of the system behind a slot. It is closed when it is finished.
///
/// What is written stands at the name once it is finished and not before: a regular file, or one
/// that isn't there yet, is written as a new file beside it, which takes its place then. After a
/// fault in writing the new file is removed, and no later call succeeds. A device or a pipe is
/// written as it stands. What is written to a new file waits until there is no room for more, or
/// until it is finished, so that a fault may come later than the piece that met it.
///
/// It tells no content. Each error of the system is counted, and so is a write that takes no byte
/// of a piece that has some. An interrupted call is made again where what waits is handed on; else
/// it is an error too.
#[derive(Drop)]
pub struct SystemFile<'a, R: std::rt::Files> {
    rt: &'a R,
    pub access: Access,
    handle: Handle<BufWriter<R::File>>,
    /// The file that was opened to be read.
    identity: Option<FileIdentity>,
    /// The files that may not be written.
    others: [Option<FileIdentity>; 2],
    /// Whether it wasn't opened as memory was refused.
    lacks_memory: bool,
    faults: u64,
    ghost counted: { lacks_memory ≡ true → 0 < faults },
}

impl<'a, R: std::rt::Files + AllocGlobal> SystemFile<'a, R> {
    /// An unopened file, which will be opened for this.
    pub fn new(rt: &'a R, access: Access) -> Self
        ensures state { ⟦<SystemFile<'a, R> as Device>⟧.state result ≡ untold_slot UnopenedStage 0 }
        ensures access { result.access ≡ access }
    {
        SystemFile {
            rt,
            access,
            handle: Handle::Unopened,
            identity: None,
            others: [None; 2],
            lacks_memory: false,
            faults: 0,
        }
    }

    /// The count of faults.
    pub fn faults(&self) -> u64
        ensures { result ≡ (⟦<SystemFile<'a, R> as Device>⟧.state self.now).faults }
    {
        self.faults
    }

    /// Opens the file of the system.
    fn opened(&self, name: &str) -> io::Result<Opened<BufWriter<R::File>>> {
        match self.access {
            Access::Read => {
                let file = fs::open(self.rt, name)?;
                let identity = FileIdentity::of(&file.metadata()?);
                Ok(Opened {
                    file: BufWriter::with_capacity(self.rt.alloc(), 0, file)?,
                    draft: None,
                    identity: Some(identity),
                })
            }
            Access::Write => open_target(self.rt, name, &self.others),
        }
    }

    /// Gives up an open file after a fault, and removes what was made.
    fn give_up(&mut self)
        requires { (⟦<SystemFile<'a, R> as Device>⟧.state self.old).stage ≡ OpenStage }
        ensures { ⟦<SystemFile<'a, R> as Device>⟧.state self.new ≡ ⟦<SystemFile<'a, R> as Device>⟧.state self.old }
    {
        if let Handle::Open(opened) = &self.handle {
            if let Some(draft) = &opened.draft {
                draft.discard(self.rt);
            }
        }
        self.handle = Handle::Lost;
    }
}

/// Whether memory was refused.
fn is_out_of_memory<T>(outcome: &io::Result<T>) -> bool
    ensures { result ≡ true → IsErr outcome.now }
{
    match outcome {
        Ok(_) => false,
        Err(error) => error.kind() == ErrorKind::OutOfMemory,
    }
}

/// The error of a call on a file that was given up.
fn lost() -> io::Error {
    io::Error::from(ErrorKind::BrokenPipe)
}

impl<'a, R: std::rt::Files + AllocGlobal> Device for SystemFile<'a, R> {
    ghost use Rattle.outside_system.specs.System.{stage_of};

    ghost state = { λ file. untold_slot (stage_of file.handle) file.faults };

    ghost unopened_is_unwritten = { λ file e. tt };

    fn open(&mut self, name: &str) -> Result<(), Failed> {
        let opened = self.opened(name);
        let lacks_memory = is_out_of_memory(&opened);
        let opened = counted(opened, &mut self.faults);
        self.lacks_memory = lacks_memory;
        let opened = opened?;
        self.identity = opened.identity;
        self.handle = Handle::Open(opened);
        Ok(())
    }

    fn read(&mut self, buf: &mut [u8]) -> Result<usize, Failed> {
        let read = match &mut self.handle {
            Handle::Open(opened) => opened.file.get_mut().read(buf),
            Handle::Lost => Err(lost()),
            _ => unreachable!(),
        };
        counted(read, &mut self.faults)
    }

    fn write(&mut self, piece: &[u8]) -> Result<usize, Failed> {
        let written = match &mut self.handle {
            Handle::Open(opened) => opened.file.write(piece),
            Handle::Lost => Err(lost()),
            _ => unreachable!(),
        };
        let taken = counted_write(written, piece, &mut self.faults);
        if taken.is_err() {
            self.give_up();
        }
        taken
    }

    fn finish(&mut self) -> Result<(), Failed> {
        let finished = match &mut self.handle {
            Handle::Open(opened) => opened.finish(self.rt),
            Handle::Lost => Err(lost()),
            _ => unreachable!(),
        };
        let outcome = counted(finished, &mut self.faults);
        if outcome.is_err() {
            self.give_up();
        } else {
            self.handle = Handle::Finished;
        }
        outcome
    }
}

/// The files of a run on the system: the instance and the certificate to check are read, the
/// certificate of this run is made anew.
///
/// The certificate is opened by no name of a file that was opened before to be read: that is a
/// fault, and the file is as it was.
#[derive(Drop)]
pub struct SystemFiles<'a, R: std::rt::Files> {
    pub devices: Devices<SystemFile<'a, R>>,
}

impl<'a, R: std::rt::Files + AllocGlobal> SystemFiles<'a, R> {
    /// Whether one of them wasn't opened as memory was refused. That is counted as a fault, as each
    /// error of the system is.
    pub fn lack_memory(&self) -> bool {
        self.devices.instance.lacks_memory
            || self.devices.cert_in.lacks_memory
            || self.devices.cert_out.lacks_memory
    }
}

impl<'a, R: std::rt::Files + AllocGlobal> Files for SystemFiles<'a, R> {
    ghost state = { λ files. ⟦<Devices<SystemFile<'a, R>> as Files>⟧.state files.devices };

    ghost unopened_is_unwritten = { λ files slot e. tt };

    fn open_slot(&mut self, slot: Slot, name: &str) -> Result<(), Failed> {
        self.devices.cert_out.others = [
            self.devices.instance.identity,
            self.devices.cert_in.identity,
        ];
        self.devices.open_slot(slot, name)
    }

    fn read(&mut self, slot: Slot, buf: &mut [u8]) -> Result<usize, Failed> {
        self.devices.read(slot, buf)
    }

    fn write(&mut self, slot: Slot, piece: &[u8]) -> Result<usize, Failed> {
        self.devices.write(slot, piece)
    }

    fn finish(&mut self, slot: Slot) -> Result<(), Failed> {
        self.devices.finish(slot)
    }
}

/// The files of a run on the system, all of them unopened.
pub fn system_files<'a, R: std::rt::Files + AllocGlobal>(rt: &'a R) -> SystemFiles<'a, R>
    ensures unopened { AllUnopened (⟦<SystemFiles<'a, R> as Files>⟧.state result) }
    ensures access { (result.devices.instance.access ≡ Access.Read) × (result.devices.cert_in.access ≡ Access.Read) × (result.devices.cert_out.access ≡ Access.Write) }
    ensures faults { (slot : Slot) → (⟦<SystemFiles<'a, R> as Files>⟧.state result slot).faults ≡ 0 }
{
    SystemFiles {
        devices: Devices::new(
            SystemFile::new(rt, Access::Read),
            SystemFile::new(rt, Access::Read),
            SystemFile::new(rt, Access::Write),
        ),
    }
}
