// What the programs read, print and write. Where a sheet cannot be read to its end, or something cannot be printed or
// written whole, a line on standard error says so.
#![tactic(auto)]

ghost use Rattle.std.specs.Io.{ReadsAtMost};
ghost use Rattle.files.specs.Reading.{Within};

use std::fs::{OpenFile, OpenOptions};
use std::io::{ErrorKind, Write};
use std::rt::Files;
use std::{fs, io};

// The system's words for an error, without the number that std puts behind them.
fn words(text: &str) -> &str {
    match text.split_once(" (os error ") {
        Some((before, _)) => before,
        None => text,
    }
}

// Says on standard error what failed, and why.
fn tell(rt: &(impl Eprint + Alloc), what: &str, why: io::Error) {
    match why.to_string(rt.alloc()) {
        Ok(text) => {
            let _ = eprintln!(rt; "{what}: {}", words(text.as_str()));
        }
        Err(_) => {
            let _ = eprintln!(rt; "{what}: {why}");
        }
    }
}

// Says on standard error that a path is no text, so that it names no file.
fn tell_no_text(rt: &impl Eprint) {
    let _ = eprintln!(rt; "a path is no text");
}

// How many bytes are read where no file could be opened: a missing file counts as empty, another is a failure.
fn read_none(why: io::Error, buf: &[u8]) -> io::Result<usize>
    ensures { ReadsAtMost result buf.now }
{
    if why.kind() == ErrorKind::NotFound {
        return Ok(0);
    }
    Err(why)
}

// Reads an open file from its start into buf, to its end or until buf is full: how many bytes. A read that fails does
// not find the end.
fn read_open(file: &mut impl io::Read, buf: &mut [u8]) -> io::Result<usize>
    ensures { ReadsAtMost result buf.new }
{
    let mut count = 0;
    while count < buf.len() {
        let more = file.read(&mut buf[count..])?;
        if more == 0 {
            break;
        }
        count += more;
    }
    Ok(count)
}

// Reads the file from its start into buf: how many bytes.
fn read_path(rt: &impl Files, path: &str, buf: &mut [u8]) -> io::Result<usize>
    ensures { ReadsAtMost result buf.new }
{
    match fs::open(rt, path) {
        Ok(mut file) => read_open(&mut file, buf),
        Err(why) => read_none(why, buf),
    }
}

// Reads the sheet that the file at path is into buf: how many bytes, or None where nothing can be judged, which standard
// error says. The system's paths are text here: of a path that is none no file can be read.
pub fn read_sheet(rt: &(impl Files + Eprint + Alloc), path: &[u8], buf: &mut [u8]) -> Option<usize>
    ensures { Within result buf.new }
{
    let Ok(name) = str::from_utf8(path) else {
        tell_no_text(rt);
        return None;
    };
    match read_path(rt, name, buf) {
        Ok(count) => Some(count),
        Err(why) => {
            tell(rt, name, why);
            None
        }
    }
}

// Prints the text on standard output: whether it is all printed.
pub fn print(rt: &(impl Print + Eprint + Alloc), text: &[u8]) -> bool {
    match rt.write_all(text) {
        Ok(()) => true,
        Err(why) => {
            tell(rt, "standard output", why);
            false
        }
    }
}

// Writes the bytes as the whole of a new file, in the place of one of that name; it fails where they are not all written.
fn write_part(rt: &impl Files, part: &str, bytes: &[u8]) -> io::Result<()> {
    let _ = fs::remove_file(rt, part);
    let mut file = OpenOptions::new()
        .write(true)
        .create_new(true)
        .open(rt, part)?;
    file.write_all(bytes)?;
    file.sync_all()
}

// Writes the bytes as the whole of the file named path; where that fails, standard error says so. They are written to a
// file part beside it, which takes the name path when it is whole, so that no half a sheet ever has that name.
fn write_named(rt: &(impl Files + Eprint + Alloc), path: &str, part: &str, bytes: &[u8]) {
    if let Err(why) = write_part(rt, part, bytes) {
        tell(rt, part, why);
        let _ = fs::remove_file(rt, part);
        return;
    }
    if let Err(why) = fs::rename(rt, part, path) {
        tell(rt, path, why);
        let _ = fs::remove_file(rt, part);
    }
}

// Writes the bytes as the whole of the file at path, by way of the file part; where that fails, standard error says so.
pub fn write_sheet(rt: &(impl Files + Eprint + Alloc), path: &[u8], part: &[u8], bytes: &[u8]) {
    let Ok(name) = str::from_utf8(path) else {
        tell_no_text(rt);
        return;
    };
    let Ok(beside) = str::from_utf8(part) else {
        tell_no_text(rt);
        return;
    };
    write_named(rt, name, beside, bytes);
}
