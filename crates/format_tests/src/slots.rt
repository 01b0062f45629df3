//! What is read up to a limit, and files and streams of the system.

ghost use Rattle.std.specs.Prelude.{◌≡◌, OnOk};
ghost use Rattle.outside.specs.declared.slot.Slot.{Slot};
ghost use Rattle.outside.specs.declared.slot.Slot.TheVariants.{CertOut};
ghost use Rattle.outside.specs.declared.slot.Stage.TheVariants.{Unopened, Open};

use outside::{
    Devices, Failed, Files, Sink, SinkWriter, Slot, SlotWriter, SlurpFault, slurp, write_all,
};
use outside_memory::{FaultyFile, Pace};
use outside_system::{StreamSink, system_files};
use std::alloc::Global;
use std::fs;
use std::test::Fail;

/// Opens the certificate's slot, and writes the bytes to it.
pub(crate) fn begin<F: Files>(files: &mut F, name: &str, bytes: &[u8]) -> Result<(), Failed>
    requires { (F.state files.old Slot.CertOut).stage ≡ Unopened }
    ensures { OnOk result ((F.state files.new Slot.CertOut).stage ≡ Open) }
{
    files.open_slot(Slot::CertOut, name)?;
    let mut writer = SlotWriter::new(files, Slot::CertOut);
    write_all(&mut writer, bytes)
}

/// Writes the bytes to the certificate's slot, and finishes it.
pub(crate) fn save<F: Files>(files: &mut F, name: &str, bytes: &[u8]) -> Result<(), Failed>
    requires { (F.state files.old Slot.CertOut).stage ≡ Unopened }
{
    begin(files, name, bytes)?;
    files.finish(Slot::CertOut)
}

/// Whether a run writes the bytes to its certificate of the name.
pub(crate) fn is_saved(rt: &HostRuntime, name: &str, bytes: &[u8]) -> bool {
    let mut files = system_files(rt);
    save(&mut files, name, bytes).is_ok()
}

// What is read of an instance of these bytes, up to eight.
fn slurped(alloc: Global, input: &[u8], pace: Pace) -> Result<Vec<u8>, SlurpFault> {
    let mut files = Devices::new(
        FaultyFile::new(alloc, "in.json", input, &[], pace)?,
        FaultyFile::new(alloc, "old.cert", b"", &[], pace)?,
        FaultyFile::new(alloc, "new.cert", b"", &[], pace)?,
    );
    slurp(alloc, &mut files, Slot::Instance, "in.json", 8)
}

#[test]
fn slurps_up_to_the_limit(rt: HostRuntime) -> Result<(), Fail> {
    for pace in [Pace::Full, Pace::ByteByByte] {
        for (length, want) in [(8, true), (9, false), (0, true)] {
            let input = &b"123456789"[..length];
            match slurped(rt.alloc(), input, pace) {
                Ok(read) => {
                    assert!(rt; want);
                    assert_eq!(rt; read.as_slice(), input);
                }
                Err(fault) => {
                    assert!(rt; !want);
                    assert_eq!(rt; fault, SlurpFault::TooLong);
                }
            }
        }
    }
    Ok(())
}

/// What is read from a file of the system, and how many faults are counted.
fn read_file(rt: &HostRuntime, name: &str) -> (Result<Vec<u8>, SlurpFault>, u64) {
    let mut files = system_files(rt);
    let read = slurp(rt.alloc(), &mut files, Slot::CertIn, name, 2);
    (read, files.devices.cert_in.faults())
}

/// Whether the bytes are read from the file, without a fault.
fn is_read(rt: &HostRuntime, name: &str, bytes: &[u8]) -> bool {
    let (read, faults) = read_file(rt, name);
    match read {
        Ok(read) => read.as_slice() == bytes && faults == 0,
        Err(_) => false,
    }
}

/// Whether the file can't be read, by a fault.
fn is_missed(rt: &HostRuntime, name: &str) -> bool {
    let (read, faults) = read_file(rt, name);
    read.is_err() && faults == 1
}

#[test]
fn reads_what_it_wrote(rt: HostRuntime) -> Result<(), Fail> {
    assert!(rt; is_saved(&rt, "outside.cert", b"{}"));
    assert!(rt; is_read(&rt, "outside.cert", b"{}"));
    assert!(rt; is_missed(&rt, "outside.none"));
    fs::remove_file(&rt, "outside.cert")?;
    let mut out = StreamSink::new(rt.stdout());
    assert!(rt; write_all(&mut SinkWriter::new(&mut out), b"line\n").is_ok());
    assert!(rt; out.flush().is_ok());
    Ok(())
}

#[test]
fn counts_a_write_that_takes_nothing(rt: HostRuntime) {
    let mut room = [0u8; 3];
    let mut full = StreamSink::new(room.as_mut_slice());
    assert_eq!(rt; full.write(b"12345"), Ok(3));
    assert_eq!(rt; full.write(b"45"), Err(Failed));
    assert_eq!(rt; full.write(b""), Ok(0));
    assert_eq!(rt; full.faults(), 1);
}
