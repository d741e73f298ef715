//! The receive buffer of a socket: how many bytes of what came the system keeps until it is read.
//!
//! `std` has no call for it, so these are the calls of the system, the only ones under `unsafe`.
//! Contracts don't say what the system does with them.

use libc::net as system;
use std::os::fd::RawFd;

/// The most bytes that can be asked for: Linux gives twice as many, in 31 bits.
const MOST: u64 = (1 << 30) - 1;

/// How many bytes the buffer of a socket has, if the system says that.
fn bytes_of(socket: RawFd) -> Option<u64> {
    let (mut value, mut length) = ([0; 16], 16);
    let (level, option) = (system::SOL_SOCKET, system::SO_RCVBUF);
    let got = unsafe { system::getsockopt(socket, level, option, &mut value, &mut length) };
    if got != 0 {
        return None;
    }
    let mut number = [0; 4];
    number.copy_from_slice(&value[..4]);
    Some(u64::from(u32::from_ne_bytes(number)))
}

/// Asks for a buffer of this many bytes. A system that refuses leaves it as it is.
fn ask(socket: RawFd, bytes: u64) {
    let number = bytes.min(MOST) as u32;
    let mut value = [0; 16];
    value[..4].copy_from_slice(&number.to_ne_bytes());
    let (level, option) = (system::SOL_SOCKET, system::SO_RCVBUF);
    let _ = unsafe { system::setsockopt(socket, level, option, &value, 4) };
}

/// Asks for a buffer of this many bytes, or of as many as the socket has. Returns how many it has
/// then, if the system says that.
pub(crate) fn grow(socket: RawFd, bytes: Option<u64>) -> Option<u64> {
    let has = bytes_of(socket)?;
    ask(socket, bytes.unwrap_or(has));
    bytes_of(socket)
}
