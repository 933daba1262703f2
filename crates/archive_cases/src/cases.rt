// A file of each kind, whole and damaged field by field: prints what opening says.
use super::sample::Sample;
use archive::{Archive, HEADER_LENGTH, Layout};
use std::io;
use stored::{StoredKey, StoredTally};
use writing::{Rows, write, write_again};

const ROOM: usize = 512;

// What opening these bytes says.
fn told<K: StoredKey, T: StoredTally<K>>(
    rt: &HostRuntime,
    name: &str,
    bytes: &[u8],
) -> io::Result<()> {
    match Archive::<K, T>::open(bytes) {
        Ok(archive) => {
            let count = archive.count();
            println!(rt; "{name}: accepted, rows {count}")
        }
        Err(fault) => println!(rt; "{name}: {fault}"),
    }
}

// Whether the rows of the file, written again, are that file.
fn again<K: StoredKey, T: StoredTally<K>>(rt: &HostRuntime, bytes: &[u8]) -> io::Result<()> {
    let mut copy = [0u8; ROOM];
    let Ok(archive) = Archive::<K, T>::open(bytes) else {
        return println!(rt; "not accepted");
    };
    let Ok(length) = write_again::<K, T>(&archive, &mut copy) else {
        return println!(rt; "not written again");
    };
    if length > ROOM || &copy[0..length] != bytes {
        return println!(rt; "written again: another file");
    }
    println!(rt; "written again: the same file")
}

// The file with one byte changed, and then as it was.
fn changed<K: StoredKey, T: StoredTally<K>>(
    rt: &HostRuntime,
    file: &mut [u8],
    offset: usize,
    value: u8,
) -> io::Result<()> {
    if offset >= file.len() {
        return println!(rt; "no such byte");
    }
    let kept = file[offset];
    file[offset] = value;
    print!(rt; "byte {offset} is {value}, ")?;
    told::<K, T>(rt, "opened", file)?;
    file[offset] = kept;
    Ok(())
}

// The file whole, and too long or too short.
// Kept: the byte behind the file is read too, so the buffer comes whole, with the file's length.
fn lengths<K: StoredKey, T: StoredTally<K>>(
    rt: &HostRuntime,
    buffer: &[u8],
    length: usize,
) -> io::Result<()> {
    if length < 36 || length >= buffer.len() {
        return println!(rt; "no file");
    }
    told::<K, T>(rt, "whole", &buffer[0..length])?;
    again::<K, T>(rt, &buffer[0..length])?;
    told::<K, T>(rt, "nothing", &buffer[0..0])?;
    told::<K, T>(rt, "35 bytes", &buffer[0..35])?;
    told::<K, T>(rt, "one byte less", &buffer[0..length - 1])?;
    told::<K, T>(rt, "one byte more", &buffer[0..length + 1])
}

// Each field of the header.
fn headers<K: StoredKey, T: StoredTally<K>>(rt: &HostRuntime, file: &mut [u8]) -> io::Result<()> {
    for last in (3..HEADER_LENGTH).step_by(4) {
        changed::<K, T>(rt, file, last, 255)?;
    }
    changed::<K, T>(rt, file, 6, 4)
}

// Each field of the first request row, and both keys of the second, which is a count's.
fn requests<K: StoredKey, T: StoredTally<K>>(
    rt: &HostRuntime,
    layout: &Layout<K, T>,
    file: &mut [u8],
) -> io::Result<()> {
    let key = K::width();
    changed::<K, T>(rt, file, 36, 5)?;
    changed::<K, T>(rt, file, 37, 9)?;
    changed::<K, T>(rt, file, 39, 1)?;
    changed::<K, T>(rt, file, 39 + key, 255)?;
    changed::<K, T>(rt, file, 39 + 2 * key, 1)?;
    let row = HEADER_LENGTH + layout.request_length();
    changed::<K, T>(rt, file, row + 3 + key, 255)?;
    changed::<K, T>(rt, file, row + 3 + 2 * key, 255)
}

// Each field of the first answer row, and of the second, which is a count's.
fn answers<K: StoredKey, T: StoredTally<K>>(
    rt: &HostRuntime,
    layout: &Layout<K, T>,
    file: &mut [u8],
) -> io::Result<()> {
    let row = layout.answers_start();
    changed::<K, T>(rt, file, row, 3)?;
    changed::<K, T>(rt, file, row + 3, 1)?;
    changed::<K, T>(rt, file, row + 4, 1)?;
    let next = row + layout.answer_length();
    changed::<K, T>(rt, file, next, 4)?;
    changed::<K, T>(rt, file, next, 0)?;
    changed::<K, T>(rt, file, next + 4, 200)
}

// All cases of a file of three rows in a buffer.
fn file<K: StoredKey, T: StoredTally<K>>(
    rt: &HostRuntime,
    buffer: &mut [u8],
    length: usize,
) -> io::Result<()> {
    let Ok(layout) = Layout::<K, T>::new(3) else {
        return println!(rt; "no kinds");
    };
    lengths::<K, T>(rt, buffer, length)?;
    if length > buffer.len() {
        return println!(rt; "no file");
    }
    let file = &mut buffer[0..length];
    headers::<K, T>(rt, file)?;
    requests(rt, &layout, file)?;
    answers(rt, &layout, file)
}

// All cases of a sample's kinds.
pub fn cases<K: StoredKey + Drop, T: StoredTally<K> + Drop>(
    rt: &HostRuntime,
    name: &str,
    sample: &Sample<K, T>,
) -> io::Result<()> {
    let mut buffer = [0u8; ROOM];
    match write::<K, T, Sample<K, T>>(sample, &mut buffer) {
        Ok(length) => {
            println!(rt; "{name}: length {length}")?;
            file::<K, T>(rt, &mut buffer, length)
        }
        Err(refusal) => {
            println!(rt; "{name}: writing is refused {refusal}")?;
            told::<K, T>(rt, "opened", &buffer)
        }
    }
}

// A short file: its length, and one byte of it changed.
pub fn small<K: StoredKey + Drop, T: StoredTally<K> + Drop>(
    rt: &HostRuntime,
    sample: &Sample<K, T>,
    offset: usize,
) -> io::Result<()> {
    let mut buffer = [0u8; ROOM];
    let Ok(length) = write::<K, T, Sample<K, T>>(sample, &mut buffer) else {
        return println!(rt; "not written");
    };
    let count = sample.rows;
    println!(rt; "rows {count}: length {length}")?;
    if length > ROOM {
        return println!(rt; "no file");
    }
    changed::<K, T>(rt, &mut buffer[0..length], offset, 9)
}
