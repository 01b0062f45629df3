//! How a run ended, as text.

use crate::case::{Case, Place};
use crate::run::Ended;
use outside::Stage;
use outside_memory::FaultyFile;
use std::alloc::{AllocError, Global};

// A line about a run. One that is told by a range says whether it is as the last run put it.
fn put_line(case: &Case, text: &mut String, line: &str) -> Result<(), AllocError> {
    let Some(range) = case.range_of(line) else {
        return writeln!(text, "{line}");
    };
    let (least, most) = range.limits;
    write!(text, "{} {least} to {most}", range.word)?;
    text.push_str(if case.has_reported(line) {
        ", as before\n"
    } else {
        "\n"
    })
}

// A device with its name, and what was written to it.
#[derive(Clone, Copy)]
struct Device<'a> {
    place: Place,
    name: &'a str,
    bytes: Option<&'a [u8]>,
}

impl<'a> Device<'a> {
    fn new(place: Place, name: &'a str, bytes: Option<&'a [u8]>) -> Self {
        Device { place, name, bytes }
    }
}

// The lines written to a device. Behind a last line without an end stands a stroke.
fn put_lines(case: &Case, text: &mut String, device: Device) -> Result<(), AllocError> {
    let Device { place, name, bytes } = device;
    let Some(lines) = bytes.and_then(|bytes| std::str::from_utf8(bytes).ok()) else {
        return writeln!(text, "{name}: no text");
    };
    for line in lines.split_inclusive('\n') {
        if case.tells(place, line) {
            write!(text, "{name}| ")?;
            match line.strip_suffix('\n') {
                Some(line) => put_line(case, text, line)?,
                None => writeln!(text, "{line}|")?,
            }
        }
    }
    Ok(())
}

// What was written to a device. Where it is compared to what the last run wrote there, it is told whether it is the same, or a front of it.
fn put_written(case: &Case, text: &mut String, device: Device) -> Result<(), AllocError> {
    let Device { place, name, bytes } = device;
    let (written, last) = (bytes.unwrap_or_default(), case.last.to(place));
    if !case.is_compared || written.is_empty() {
        put_lines(case, text, device)
    } else if written == last {
        writeln!(text, "{name}: the same")
    } else if last.starts_with(written) {
        writeln!(text, "{name}: a front")
    } else {
        put_lines(case, text, device)
    }
}

// That a file was opened, and whether it was finished.
fn put_stage(text: &mut String, file: &FaultyFile, name: &str) -> Result<(), AllocError> {
    match file.memory.stage() {
        Stage::Unopened => Ok(()),
        Stage::Open => writeln!(text, "{name} open"),
        Stage::Finished => writeln!(text, "{name} finished"),
    }
}

// Whether the certificate that was written has a line with this front, if one is sought.
fn put_sought(case: &Case, text: &mut String, bytes: Option<&[u8]>) -> Result<(), AllocError> {
    let sought = case.sought.as_str();
    if sought.is_empty() {
        return Ok(());
    }
    let lines = bytes.and_then(|bytes| std::str::from_utf8(bytes).ok());
    for line in lines.unwrap_or_default().lines() {
        if line.starts_with(sought) {
            return writeln!(text, "new.cert has {sought}");
        }
    }
    writeln!(text, "new.cert has no {sought}")
}

// The status of a run and its files, whether it hands out what was found or what came of windows, and how often the gate was entered.
fn put_state(
    alloc: Global,
    case: &Case,
    text: &mut String,
    ended: &Ended,
) -> Result<(), AllocError> {
    let status = format!(in alloc; "status {}", ended.code)?;
    put_line(case, text, status.as_str())?;
    put_stage(text, &ended.files.instance, "in.json")?;
    put_stage(text, &ended.files.cert_in, "old.cert")?;
    put_stage(text, &ended.files.cert_out, "new.cert")?;
    if ended.has_found {
        text.push_str("found\n")?;
    }
    if ended.has_rolled {
        text.push_str("rolled\n")?;
    }
    if ended.entries > 0 {
        let entries = format!(in alloc; "gate {}", ended.entries)?;
        put_line(case, text, entries.as_str())?;
    }
    if ended.strays > 0 {
        writeln!(text, "out of turn {}", ended.strays)?;
    }
    Ok(())
}

/// How a run ended: its state, and what was written to its devices.
pub(crate) fn text_of(alloc: Global, case: &Case, ended: &Ended) -> Result<String, AllocError> {
    let mut text = String::new(alloc);
    put_state(alloc, case, &mut text, ended)?;
    let certificate = ended.files.cert_out.memory.written();
    put_sought(case, &mut text, certificate)?;
    let device = Device::new(Place::CertOut, "new.cert", certificate);
    put_written(case, &mut text, device)?;
    let report = ended.out.memory.written();
    let device = Device::new(Place::Output, "output", report);
    put_written(case, &mut text, device)?;
    if ended.out.memory.flushed() != report {
        text.push_str("output not flushed\n")?;
    }
    let fault = ended.err.memory.written();
    let device = Device::new(Place::Fault, "error", fault);
    put_written(case, &mut text, device)?;
    Ok(text)
}
