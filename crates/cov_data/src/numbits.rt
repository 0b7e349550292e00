//! Sets of lines packed into bytes.
ghost use Rattle.std.specs.Prelude.{◌≡◌, ◌≢◌, ℕ, ◌-◌, ◌/◌, ◌<◌, ◌≤◌, ◌||◌, nat_eq, length, slice_index, IfOk};
ghost use Rattle.std.specs.Ordering.{nat_cmp};
ghost use Rattle.cov_data.specs.Numbits.{has_line, bytes_needed, IsNumbits, lines_of_bits};
ghost use Rattle.cov_data.specs.Rows.{distinct_in_order};

use crate::NoMemory;
use std::alloc::Global;

/// The bytes in which exactly these lines are set. Lines may be in any order and stand several
/// times. No line gives no byte.
pub fn numbits_of(alloc: Global, lines: &[u32]) -> Result<Vec<u8>, NoMemory>
    ensures numbits { IfOk result (λ bytes. IsNumbits lines.now bytes.items) }
    ensures shortest { IfOk result (λ bytes.
        0 < length bytes.items → slice_index bytes.items (length bytes.items - 1) ≢ 0) }
    ensures back { IfOk result (λ bytes.
        lines_of_bits bytes.items ≡ distinct_in_order nat_cmp lines.now) }
{
    let mut bytes = vec![in alloc; 0u8; bytes_needed(lines)]?;
    for line in lines {
        set_line(&mut bytes, *line);
    }
    Ok(bytes)
}

/// The lines that are set, each once, in order.
pub fn lines_of_numbits(alloc: Global, bits: &[u8]) -> Result<Vec<u32>, NoMemory>
    requires { length bits.now ≤ 536870912 }
    ensures { IfOk result (λ lines. lines.items ≡ lines_of_bits bits.now) }
{
    let mut lines = Vec::new(alloc);
    let end = 8 * bits.len() as u64;
    for n in 0..end {
        let line = n as u32;
        if has_line(bits, line) {
            lines.push(line)?;
        }
    }
    Ok(lines)
}

/// Whether a line is set. A line beyond the bytes is not.
pub fn has_line(bits: &[u8], line: u32) -> bool
    ensures { result ≡ has_line bits.now line }
{
    match bits.get((line / 8) as usize) {
        Some(byte) => (*byte >> (line % 8)) & 1 == 1,
        None => false,
    }
}

fn bytes_needed(lines: &[u32]) -> usize
    ensures { result ≡ bytes_needed lines.now }
{
    let mut most: usize = 0;
    for line in lines {
        most = most.max((*line / 8 + 1) as usize);
    }
    most
}

fn set_line(bytes: &mut [u8], line: u32)
    requires { line / 8 < length bytes.old }
    ensures { (n : ℕ) → has_line bytes.new n ≡ (nat_eq n line || has_line bytes.old n) }
{
    bytes[(line / 8) as usize] |= 1 << (line % 8);
}
