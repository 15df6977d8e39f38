// Dumps: each file that an argument names, as the rig's operator is shown it; and what that can't show, images of other lengths, and writing.
#![tactic(auto)]

mod lengths;

use std::env::FillError;
use std::fs::File;
use std::io;
use std::io::{ErrorKind, Write};
use std::rt::Env;

// A name that is no UTF-8 is that of no file.
fn open(rt: &HostRuntime, path: &[u8]) -> io::Result<File> {
    let Ok(name) = std::str::from_utf8(path) else {
        return Err(io::Error::from(ErrorKind::InvalidInput));
    };
    File::open(rt, name)
}

// A file that can't be opened is named on standard error, with the reason.
fn show_file(rt: &HostRuntime, path: &[u8]) -> io::Result<()> {
    let mut output = rt.stdout();
    output.write_all(path)?;
    output.write_all(b"\n")?;
    match open(rt, path) {
        Ok(mut file) => rig::whole::show_all(&mut file, &mut output),
        Err(error) => {
            let mut errors = rt.stderr();
            errors.write_all(path)?;
            writeln!(errors, ": {error}")
        }
    }
}

// Each file that an argument names. An argument longer than a path can be is the empty path.
fn show_files(rt: &HostRuntime) -> io::Result<()> {
    let mut path = [0u8; 4096];
    for k in 1..usize::MAX {
        match rt.arg(k, &mut path) {
            Ok(length) => show_file(rt, &path[..length])?,
            Err(FillError::TooLong) => show_file(rt, b"")?,
            Err(FillError::NotPresent) => return Ok(()),
        }
    }
    Ok(())
}

fn main(rt: HostRuntime) -> io::Result<()> {
    let mut output = rt.stdout();
    show_files(&rt)?;
    lengths::reads(&mut output)?;
    lengths::writes(&mut output)
}
