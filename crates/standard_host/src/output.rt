//! The descriptors 0 to 2 of the program.

use crate::files::FileFault;
use std::fs::File;
use std::io;
use std::io::Write;
use std::os::fd::{AsRawFd, IntoRawFd};

/// Says the bytes on standard output, all of them or it is a fault.
pub fn say_out(rt: &HostRuntime, bytes: &[u8]) -> Result<(), FileFault> {
    match io::writer(rt).write_all(bytes) {
        Ok(()) => Ok(()),
        Err(_) => Err(FileFault::Failed),
    }
}

/// Says the bytes on standard error, as far as it takes them.
pub fn say_error_out(rt: &HostRuntime, bytes: &[u8]) {
    let _unsaid = io::writer(&rt.stderr()).write_all(bytes);
}

/// Opens what stands for a closed descriptor. It is open for reading alone, so what is printed there is refused.
fn open_null(rt: &HostRuntime) -> io::Result<File> {
    match File::open(rt, "/dev/null") {
        Ok(null) => Ok(null),
        Err(_) => File::open(rt, "/"),
    }
}

/// Sees that the descriptors 0 to 2 are taken, so that no file that is opened later is one of them: the system gives the lowest number
/// that is free. Each that is closed becomes `/dev/null`, or the root folder where there is no such file. It is to be called first.
pub fn take_standard_descriptors(rt: &HostRuntime) -> Result<(), FileFault> {
    for _ in 0..3 {
        let Ok(null) = open_null(rt) else {
            return Err(FileFault::Failed);
        };
        if null.as_raw_fd() > 2 {
            return Ok(());
        }
        let _kept_open = null.into_raw_fd();
    }
    Ok(())
}
