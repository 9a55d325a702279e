//! Files of data, read whole.

use pc_alone::Fault;
use pc_ports::Store;
use std::alloc::Global;

/// The most bytes of a file that is read.
const FILE_BYTES: usize = 1_048_576;

/// The bytes of the file.
pub fn bytes_of<S: Store>(alloc: Global, store: &mut S, name: &str) -> Result<Vec<u8>, Fault> {
    match store.fetch(alloc, name, FILE_BYTES) {
        Ok(bytes) if bytes.len() <= FILE_BYTES => Ok(bytes),
        _ => Err(Fault::Unreadable),
    }
}

/// The text of the file.
pub fn text_of<S: Store>(alloc: Global, store: &mut S, name: &str) -> Result<String, Fault> {
    match String::from_utf8(bytes_of(alloc, store, name)?) {
        Ok(text) => Ok(text),
        Err(_) => Err(Fault::Unreadable),
    }
}
