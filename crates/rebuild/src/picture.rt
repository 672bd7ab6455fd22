// The file of a whole picture.
use crate::failure;
use state::Receiver;
use std::fs::{File, OpenFile};
use std::io::{ErrorKind, Write};
use std::rt::Files;
use std::{fs, io};

// Linux's number for bytes that are no text.
const NOT_TEXT: i32 = 84;

// Writes the receiver's picture to the file of this number, or says why that cannot be done.
pub(crate) fn save(
    files: &impl Files,
    errors: &impl Print,
    receiver: &Receiver,
    area: &[u8],
    prefix: &[u8],
    number: u64,
) -> io::Result<()> {
    // The longest prefix, the most digits, and both endings: every name fits, so of one that does not nothing is said.
    let mut name = [0u8; 4160];
    let Some(length) = text::file_name(prefix, number, &mut name) else {
        return Err(io::Error::from(ErrorKind::InvalidInput));
    };
    slices::put(b".part", length, &mut name);
    let part = slices::part(&name, 0, length + 5);
    let name = slices::part(&name, 0, length);
    let saved = build(files, receiver, area, name, part);
    if let Err(error) = &saved {
        let _ = errors.write_all(b"not written: ");
        failure::say(errors, name, error);
        remove(files, part);
    }
    saved
}

fn build(
    files: &impl Files,
    receiver: &Receiver,
    area: &[u8],
    name: &[u8],
    part: &[u8],
) -> io::Result<()> {
    let mut file = [0u8; 66149];
    // Never an error: the picture is whole, and there is room for the longest file.
    let length = builder::build(receiver, area, &mut file).map_err(|_| io::Error::from(
        ErrorKind::InvalidData,
    ))?;
    put_whole(files, name, part, slices::part(&file, 0, length as usize))
}

// A file has its name once all of it is there, so that no viewer shows a part of one.
fn put_whole(files: &impl Files, name: &[u8], part: &[u8], bytes: &[u8]) -> io::Result<()> {
    let part = path(part)?;
    put(files, part, bytes)?;
    fs::rename(files, part, path(name)?)
}

// Up to the disk: behind a power cut too, a file that has its name has its end.
fn put(files: &impl Files, name: &str, bytes: &[u8]) -> io::Result<()> {
    let mut file = File::create(files, name)?;
    file.write_all(bytes)?;
    file.sync_all()
}

fn remove(files: &impl Files, name: &[u8]) {
    if let Ok(name) = path(name) {
        let _ = fs::remove_file(files, name);
    }
}

// The standard library's paths are text in UTF-8, and a prefix may be any bytes.
fn path(name: &[u8]) -> io::Result<&str> {
    str::from_utf8(name).map_err(|_| io::Error::from_raw_os_error(NOT_TEXT))
}
