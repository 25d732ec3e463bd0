use std::fs::{File, OpenOptions};
use std::io;
use std::os::fd::AsRawFd;
use std::rt::Files;

/// The greatest descriptor of a standard stream.
const STANDARD: i32 = 2;

/// Opens an image file for reading and writing. It is made where it is missing and may be made.
pub fn open<Rt: Files<File = File>>(rt: &Rt, path: &str, may_make: bool) -> io::Result<File> {
    let mut options = OpenOptions::new();
    options.read(true).write(true).create(may_make);
    let file = options.open(rt, path)?;
    // Where a standard stream is closed, the file must not stand in its place, and take what is printed.
    if file.as_raw_fd() <= STANDARD {
        file.try_clone()
    } else {
        Ok(file)
    }
}
