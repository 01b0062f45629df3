//! The certificate's file on the system, which is whole or as it was.

use crate::slots::{begin, is_saved};
use outside::{Files, Slot, slurp};
use outside_system::system_files;
use std::fs;
use std::os::unix::fs::symlink;
use std::test::Fail;

/// Whether the file has this text.
fn has_text(rt: &HostRuntime, name: &str, text: &str) -> bool {
    match fs::read_to_string(rt, name) {
        Ok(read) => read.as_str() == text,
        Err(_) => false,
    }
}

/// Whether a run that has read a file counts one fault where it opens its certificate by the name.
fn is_refused(rt: &HostRuntime, name: &str) -> bool {
    let mut files = system_files(rt);
    let read = slurp(rt.alloc(), &mut files, Slot::Instance, "read/a", 3);
    let opened = files.open_slot(Slot::CertOut, name);
    read.is_ok() && opened.is_err() && files.devices.cert_out.faults() == 1
}

#[test]
fn a_file_that_is_read_is_not_written(rt: HostRuntime) -> Result<(), Fail> {
    fs::create_dir(&rt, "read")?;
    fs::write(&rt, "read/a", "old")?;
    symlink(&rt, "a", "read/symbolic")?;
    fs::hard_link(&rt, "read/a", "read/hard")?;
    for name in ["read/a", "read/../read/a", "read/symbolic", "read/hard"] {
        assert!(rt; is_refused(&rt, name) && has_text(&rt, "read/a", "old"));
    }
    fs::remove_dir_all(&rt, "read")?;
    Ok(())
}

/// Whether the first of two runs at once, which is begun before the other and ends after it, replaces what that one wrote.
fn is_replaced(rt: &HostRuntime, name: &str, other: &str) -> bool {
    let mut first = system_files(rt);
    begin(&mut first, name, b"first").is_ok()
        && has_text(rt, name, "old")
        && is_saved(rt, other, b"second")
        && has_text(rt, name, "second")
        && first.finish(Slot::CertOut).is_ok()
        && has_text(rt, name, "first")
}

#[test]
fn a_certificate_is_replaced_as_a_whole(rt: HostRuntime) -> Result<(), Fail> {
    fs::create_dir(&rt, "whole")?;
    fs::write(&rt, "whole/a", "old")?;
    symlink(&rt, "a", "whole/symbolic")?;
    assert!(rt; is_replaced(&rt, "whole/a", "whole/symbolic"));
    fs::remove_dir_all(&rt, "whole")?;
    Ok(())
}

/// How many faults a run counts where its certificate, once it is written, would take the place of a folder.
fn faults_at_folder(rt: &HostRuntime, name: &str) -> u64 {
    let mut files = system_files(rt);
    if begin(&mut files, name, b"new").is_ok() && fs::create_dir(rt, name).is_ok() {
        if files.finish(Slot::CertOut).is_err() {
            let _ = files.finish(Slot::CertOut);
        }
    }
    files.devices.cert_out.faults()
}

/// No file takes the place of a folder. The folder around it can be removed, since it is empty.
#[test]
fn a_fault_leaves_nothing(rt: HostRuntime) -> Result<(), Fail> {
    fs::create_dir(&rt, "fault")?;
    assert_eq!(rt; faults_at_folder(&rt, "fault/a"), 2);
    fs::remove_dir(&rt, "fault/a")?;
    fs::remove_dir(&rt, "fault")?;
    Ok(())
}

/// How many faults a run counts that begins to write to the device.
fn faults_at(rt: &HostRuntime, name: &str) -> u64 {
    let mut files = system_files(rt);
    let _ = begin(&mut files, name, b"new");
    files.devices.cert_out.faults()
}

#[test]
fn a_device_is_written_as_it_stands(rt: HostRuntime) {
    assert!(rt; is_saved(&rt, "/dev/null", b"new"));
    assert_eq!(rt; faults_at(&rt, "/dev/full"), 1);
}
