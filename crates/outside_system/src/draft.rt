//! Where a certificate goes on the system: into a new file beside its target, which takes the
//! target's place once it is whole.

use std::fs::{Metadata, OpenFile, OpenOptions};
use std::io::{BufWriter, ErrorKind, Write};
use std::os::unix::fs::MetadataExt;
use std::path::PathBuf;
use std::{fs, io};

/// How many links are followed to a target at most, as by the system.
const MOST_LINKS: usize = 40;

/// A file of the system, by its device and its inode there.
#[derive(Clone, Copy, PartialEq, Eq)]
pub(crate) struct FileIdentity {
    device: u64,
    inode: u64,
}

impl FileIdentity {
    pub fn of(metadata: &Metadata) -> FileIdentity {
        FileIdentity {
            device: metadata.dev(),
            inode: metadata.ino(),
        }
    }
}

/// A new file, by its path, and the path that it is to take.
#[derive(Drop)]
pub(crate) struct Draft {
    path: PathBuf,
    target: PathBuf,
}

/// A file of the system that is open, its draft where it is one, and what it is where it was opened to be read.
#[derive(Drop)]
pub(crate) struct Opened<F> {
    pub file: F,
    pub draft: Option<Draft>,
    pub identity: Option<FileIdentity>,
}

impl<H: Write + OpenFile + Drop> Opened<BufWriter<H>> {
    /// Hands on what was written, and puts a draft in its target's place.
    pub fn finish(&mut self, rt: &impl std::rt::Files) -> io::Result<()> {
        self.file.flush()?;
        if let Some(draft) = &self.draft {
            self.file.get_ref().sync_all()?;
            draft.publish(rt)?;
        }
        Ok(())
    }
}

impl Draft {
    /// A new file beside the target, by the first number that no other one has.
    fn make<R: std::rt::Files + AllocGlobal>(
        rt: &R,
        target: PathBuf,
    ) -> io::Result<Opened<BufWriter<R::File>>> {
        for number in 0..u64::MAX {
            let name = format!(in rt.alloc(); "uc-{number}.draft")?;
            let path = target.as_path().with_file_name(rt.alloc(), name.as_str())?;
            let made = OpenOptions::new()
                .write(true)
                .create_new(true)
                .open(rt, path.as_path());
            match made {
                Ok(file) => return Draft { path, target }.opened(rt, file),
                Err(error) if error.kind() == ErrorKind::AlreadyExists => {}
                Err(error) => return Err(error),
            }
        }
        Err(io::Error::from(ErrorKind::AlreadyExists))
    }

    /// The file, which is removed where there is no memory for what waits to be written.
    fn opened<R: std::rt::Files + AllocGlobal>(
        self,
        rt: &R,
        file: R::File,
    ) -> io::Result<Opened<BufWriter<R::File>>> {
        match BufWriter::new(rt.alloc(), file) {
            Ok(file) => Ok(Opened {
                file,
                draft: Some(self),
                identity: None,
            }),
            Err(error) => {
                self.discard(rt);
                Err(error)
            }
        }
    }

    /// Puts the file in its target's place.
    pub fn publish(&self, rt: &impl std::rt::Files) -> io::Result<()> {
        fs::rename(rt, self.path.as_path(), self.target.as_path())
    }

    /// Removes the file; that this may fail too changes nothing.
    pub fn discard(&self, rt: &impl std::rt::Files) {
        let _ = fs::remove_file(rt, self.path.as_path());
    }
}

/// Opens what a certificate is written to, and touches nothing that stands at the name: a draft of
/// it where a regular file is there or nothing, else what is there, as a pipe. It is an error where
/// one of these files is there, which the run reads, or one that takes its output.
pub(crate) fn open_target<R: std::rt::Files + AllocGlobal>(
    rt: &R,
    name: &str,
    read: &[Option<FileIdentity>],
) -> io::Result<Opened<BufWriter<R::File>>> {
    match OpenOptions::new().write(true).open(rt, name) {
        Ok(file) => {
            let found = file.metadata()?;
            if read.contains(&Some(FileIdentity::of(&found))) {
                return Err(io::Error::from(ErrorKind::InvalidInput));
            }
            if !found.is_file() {
                return Ok(Opened {
                    file: BufWriter::with_capacity(rt.alloc(), 0, file)?,
                    draft: None,
                    identity: None,
                });
            }
            replacement(rt, name, &found)
        }
        Err(error) if error.kind() == ErrorKind::NotFound => {
            Draft::make(rt, end_of_links(rt, name)?)
        }
        Err(error) => Err(error),
    }
}

/// A draft of a regular file that was found at the name, with its permissions.
fn replacement<R: std::rt::Files + AllocGlobal>(
    rt: &R,
    name: &str,
    found: &Metadata,
) -> io::Result<Opened<BufWriter<R::File>>> {
    let target = end_of_links(rt, name)?;
    let place = FileIdentity::of(&fs::symlink_metadata(rt, target.as_path())?);
    if place != FileIdentity::of(found) || is_stream(rt, place) {
        return Err(io::Error::from(ErrorKind::InvalidInput));
    }
    let opened = Draft::make(rt, target)?;
    if let Err(error) = opened.file.get_ref().set_permissions(found.permissions()) {
        if let Some(draft) = &opened.draft {
            draft.discard(rt);
        }
        return Err(error);
    }
    Ok(opened)
}

/// Whether the run's output or error output goes to the file, by the names that the system has for them.
fn is_stream(rt: &impl std::rt::Files, file: FileIdentity) -> bool {
    leads_to(rt, "/dev/stdout", file) || leads_to(rt, "/dev/stderr", file)
}

fn leads_to(rt: &impl std::rt::Files, name: &str, file: FileIdentity) -> bool {
    match fs::metadata(rt, name) {
        Ok(metadata) => FileIdentity::of(&metadata) == file,
        Err(_) => false,
    }
}

/// The path that a name leads to once its last part is followed as long as it is a link.
fn end_of_links<R: std::rt::Files + AllocGlobal>(rt: &R, name: &str) -> io::Result<PathBuf> {
    let mut path = PathBuf::from_str(rt.alloc(), name)?;
    for _ in 0..MOST_LINKS {
        match fs::read_link(rt, path.as_path()) {
            Ok(link) => path.set_file_name(link.as_str())?,
            Err(error) if error.kind() == ErrorKind::InvalidInput => return Ok(path),
            Err(error) if error.kind() == ErrorKind::NotFound => return Ok(path),
            Err(error) => return Err(error),
        }
    }
    Err(io::Error::from(ErrorKind::InvalidInput))
}
