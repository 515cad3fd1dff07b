//! The secret of a server on a device.

use crate::fault::Fault;
use live_server::Secret;
use std::fs::File;
use std::io::Read;
use std::rt::Files;

/// The system's source of random bytes.
const SOURCE: &str = "/dev/urandom";

/// A secret that nobody else has seen: 16 random bytes of the system's. A source that gives fewer is a fault of reading.
pub fn secret(rt: &impl Files) -> Result<Secret, Fault> {
    let mut bytes = [0u8; 16];
    let Ok(mut source) = File::open(rt, SOURCE) else {
        return Err(Fault::Reading);
    };
    match source.read(&mut bytes) {
        Ok(read) if read == bytes.len() => Ok(Secret(bytes)),
        _ => Err(Fault::Reading),
    }
}
