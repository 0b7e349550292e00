//! Bits of lines in the last byte that may have one, and after it.

use crate::bases::{START, held, run};
use sqlite::{Connection, Error, MemStore, params};
use std::alloc::{AllocError, Global};
use std::test::Fail;

/// How many bytes of 0 there are, the byte after them, and what a base with these bits holds.
static LAST: [(usize, u8, &str); 5] = [
    (8191, 0x01, "lines;a.py . 65528 65528 1;"),
    (8191, 0x80, "lines;a.py . 65535 65535 1;"),
    (8192, 0x01, "BadRow(0)"),
    (8192, 0x80, "BadRow(0)"),
    (8192, 0x00, "lines;a.py;"),
];

fn bits_of(alloc: Global, zeros: usize, last: u8) -> Result<Vec<u8>, AllocError> {
    let mut bits = vec![in alloc; 0u8; zeros]?;
    bits.push(last)?;
    Ok(bits)
}

fn fill(base: &mut Connection<MemStore>, bits: &[u8]) -> Result<(), Error> {
    run(base, &[START])?;
    base.execute("INSERT INTO line_bits VALUES (1, 1, ?1)", params![bits])?;
    Ok(())
}

fn held_with(
    alloc: Global,
    base: &mut Connection<MemStore>,
    bits: &[u8],
) -> Result<String, AllocError> {
    match fill(base, bits) {
        Ok(()) => held(alloc, base),
        Err(error) => format!(in alloc; "refused: {error:?}"),
    }
}

fn held_by_bits(alloc: Global, bits: &[u8]) -> Result<String, AllocError> {
    let mut base = Connection::open_in_memory(alloc)?;
    held_with(alloc, &mut base, bits)
}

#[test]
fn a_line_is_at_most_65535(rt: HostRuntime) -> Result<(), Fail> {
    let alloc = rt.alloc();
    for (zeros, last, wanted) in &LAST {
        let bits = bits_of(alloc, *zeros, *last)?;
        let found = held_by_bits(alloc, &bits)?;
        assert_eq!(rt; found.as_str(), *wanted, "{zeros} bytes of 0 and {last}");
    }
    Ok(())
}
