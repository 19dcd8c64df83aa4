// A file that is read, and one that is written whole or not at all.
use crate::told;
use arrayvec::ArrayString;
use std::fs::{Files, OpenFile, OpenOptions, Permissions};
use std::io::{ErrorKind, Read, Write};
use std::os::unix::fs::{OpenOptionsExt, PermissionsExt};
use std::random::RandomSource;
use std::{fs, io};

// What the file holds, as far as the bytes that are lent go: how many were read, or none where that failed, which is told.
pub fn read(rt: &(impl Files + Eprint), path: &str, bytes: &mut [u8]) -> Option<usize> {
    match read_once(rt, path, bytes) {
        Ok(len) => Some(len),
        Err(e) => {
            told::failed(rt, path, e);
            None
        }
    }
}

// The same by one read; how many bytes were put at the front of those that are lent.
fn read_once(rt: &impl Files, path: &str, bytes: &mut [u8]) -> io::Result<usize> {
    fs::open(rt, path)?.read(bytes)
}

// Whether there is no file of that name; else it is told why not. One that is there and can't be read is not missing.
pub fn is_missing(rt: &(impl Files + Eprint), path: &str) -> bool {
    match fs::open(rt, path) {
        Ok(_) => {
            told::there_already(rt, path);
            false
        }
        Err(e) => {
            if e.kind() == ErrorKind::NotFound {
                return true;
            }
            told::failed(rt, path, e);
            false
        }
    }
}

// The bytes to an open file and down to its device; the file is closed either way. It is readable to all, as a file made anew is.
fn fill(mut file: impl Write + OpenFile + Drop, bytes: &[u8]) -> io::Result<()> {
    let _ = file.set_permissions(Permissions::from_mode(0o644));
    file.write_all(bytes)?;
    file.sync_all()
}

// A path of 4096 bytes, a dot and six characters more.
type Name = ArrayString<4104>;

// A file's name, a dot and six characters; none where that is too long.
fn beside(path: &str, six: [char; 6]) -> Option<Name> {
    let mut name = Name::new();
    name.try_push_str(path).ok()?;
    name.try_push('.').ok()?;
    for c in six {
        name.try_push(c).ok()?;
    }
    Some(name)
}

// One of the 62 letters and digits.
fn character(b: u8) -> char {
    let characters = b"0123456789ABCDEFGHIJKLMNOPQRSTUVWXYZabcdefghijklmnopqrstuvwxyz";
    char::from(characters[(b % 62) as usize])
}

// Six of them by chance.
fn six_characters(rt: &impl RandomSource) -> io::Result<[char; 6]> {
    let mut bytes = [0u8; 6];
    rt.fill_bytes(&mut bytes)?;
    Ok(bytes.map(character))
}

// How many names are tried: 62 * 62 * 62, as by mkstemp of the C library.
const TRIES: u32 = 238_328;

// A new file beside that of the path, open for writing, and its name. It is its owner's alone until it is filled.
fn create_temp<R: Files + RandomSource>(rt: &R, path: &str) -> io::Result<(R::File, Name)> {
    let mut refused = io::Error::from(ErrorKind::AlreadyExists);
    for _ in 0..TRIES {
        let six = six_characters(rt)?;
        let Some(name) = beside(path, six) else {
            return Err(io::Error::from(ErrorKind::InvalidFilename));
        };
        match OpenOptions::new()
            .write(true)
            .create_new(true)
            .mode(0o600)
            .open(rt, name.as_str())
        {
            Ok(file) => return Ok((file, name)),
            Err(e) => refused = e,
        }
        if refused.kind() != ErrorKind::AlreadyExists {
            return Err(refused);
        }
    }
    Err(refused)
}

// By way of a new file beside it; one that can't be made is told by the name that is lent.
fn replace_by(
    rt: &(impl Files + RandomSource + Eprint),
    any: &str,
    path: &str,
    bytes: &[u8],
) -> bool {
    let (file, name) = match create_temp(rt, path) {
        Ok(made) => made,
        Err(e) => {
            told::failed(rt, any, e);
            return false;
        }
    };
    if let Err(e) = fill(file, bytes) {
        told::failed(rt, name.as_str(), e);
        let _ = fs::remove_file(rt, name.as_str());
        return false;
    }
    if let Err(e) = fs::rename(rt, name.as_str(), path) {
        told::failed(rt, path, e);
        let _ = fs::remove_file(rt, name.as_str());
        return false;
    }
    true
}

// Where the name of the folder that a file stands in ends: after the last slash; 0 where there is none.
fn folder_end(path: &[u8]) -> usize {
    path.iter().rposition(|c| *c == b'/').map_or(0, |k| k + 1)
}

// The folder too has to reach its device: until then a loss of power may bring the old file back.
fn sync_folder(rt: &(impl Files + Eprint), folder: &str) {
    if let Err(e) = sync(rt, folder) {
        told::failed(rt, folder, e);
    }
}

fn sync(rt: &impl Files, folder: &str) -> io::Result<()> {
    fs::open(rt, folder)?.sync_all()
}

fn sync_folder_of(rt: &(impl Files + Eprint), path: &str) {
    let end = folder_end(path.as_bytes());
    let folder = path.get(..end).unwrap_or("");
    if folder.is_empty() {
        return sync_folder(rt, ".");
    }
    sync_folder(rt, folder)
}

// The bytes to the file of that name, by way of a temporary file beside it that takes its name: whatever happens, all of the old file stands there or all of the new one.
pub fn replace(rt: &(impl Files + RandomSource + Eprint), path: &str, bytes: &[u8]) -> bool {
    let Some(any) = beside(path, ['X'; 6]) else {
        return false;
    };
    if !replace_by(rt, any.as_str(), path, bytes) {
        return false;
    }
    sync_folder_of(rt, path);
    true
}
