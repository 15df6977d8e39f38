// The program on each file that an argument names: its name, and what the program prints.
#![tactic(auto)]

use std::env::FillError;
use std::fs::File;
use std::io;
use std::io::{ErrorKind, Write};
use std::rt::Env;

// A name that is no UTF-8 is that of no file.
fn open(rt: &HostRuntime, path: &[u8]) -> io::Result<File> {
    let Ok(name) = std::str::from_utf8(path) else {
        return Err(io::Error::from(ErrorKind::InvalidInput));
    };
    File::open(rt, name)
}

// A file that can't be opened is named on standard error, with the reason.
fn obey_file(rt: &HostRuntime, path: &[u8]) -> io::Result<()> {
    let mut output = rt.stdout();
    output.write_all(path)?;
    output.write_all(b"\n")?;
    match open(rt, path) {
        Ok(mut file) => desk::whole::obey_all(&mut file, &mut output),
        Err(error) => {
            let mut errors = rt.stderr();
            errors.write_all(path)?;
            writeln!(errors, ": {error}")
        }
    }
}

// An argument longer than a path can be is the empty path.
fn main(rt: HostRuntime) -> io::Result<()> {
    let mut path = [0u8; 4096];
    for k in 1..usize::MAX {
        match rt.arg(k, &mut path) {
            Ok(length) => obey_file(&rt, &path[..length])?,
            Err(FillError::TooLong) => obey_file(&rt, b"")?,
            Err(FillError::NotPresent) => return Ok(()),
        }
    }
    Ok(())
}
