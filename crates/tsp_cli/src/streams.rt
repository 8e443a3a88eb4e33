//! The standard streams at the program's start.

use std::os::fd::AsFd;

/// The system's error for a number that no open stream has (EBADF).
const NOT_OPEN: i32 = 9;

/// Whether a standard stream was closed at the program's start. Then a socket could get its number,
/// and what is meant for the stream would go over the network.
pub fn is_closed(stream: &impl AsFd) -> bool {
    match stream.as_fd().try_clone_to_owned() {
        Ok(_) => false,
        Err(fault) => fault.raw_os_error() == Some(NOT_OPEN),
    }
}
