//! Data files with a table WITHOUT ROWID, as other programs may write them.

use std::alloc::{AllocError, Global};

const TRACER: &[u8] = b"CREATE TABLE tracer (file_id integer primary key, tracer text, \
    foreign key (file_id) references file (id))";

const WITHOUT: &[u8] =
    b"CREATE TABLE tracer (file_id integer primary key, tracer text) WITHOUT ROWID";

const PAGE: usize = 4096;

/// The first byte of a page without rows of a table WITHOUT ROWID.
const KEYS: u8 = 10;

fn place_of(bytes: &[u8], wanted: &[u8]) -> Option<usize> {
    for at in 0..bytes.len() {
        if bytes[at..].starts_with(wanted) {
            return Some(at);
        }
    }
    None
}

fn put(file: &mut [u8], at: usize, byte: u8) {
    if let Some(place) = file.get_mut(at) {
        *place = byte;
    }
}

/// A data file whose table `tracer`, which has no row, has no rowids either. The number of its page
/// stands before its text, which is followed by blanks.
pub(crate) fn without_rowids(alloc: Global, bytes: &[u8]) -> Result<Vec<u8>, AllocError> {
    let mut file = Vec::from_slice(alloc, bytes)?;
    let Some(at) = place_of(bytes, TRACER) else {
        return Ok(file);
    };
    for index in 0..TRACER.len() {
        let byte = *WITHOUT.get(index).unwrap_or(&b' ');
        put(&mut file, at.saturating_add(index), byte);
    }
    if let Some(page) = bytes.get(at.saturating_sub(1)) {
        let number = (*page as usize).saturating_sub(1);
        put(&mut file, number.saturating_mul(PAGE), KEYS);
    }
    Ok(file)
}
