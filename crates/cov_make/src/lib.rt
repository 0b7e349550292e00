//! Sources that are made up, to measure with: a seed and a size give a text.
#![tactic(auto)]

mod blocks;
mod draws;

ghost use Rattle.std.specs.Prelude.{◌≡◌, ◌++◌, codes, string_bytes, IfOk, OnOk};
ghost use Rattle.cov_make.specs.Source.{blocks, source};

use blocks::push_block;
use draws::next_number;
use std::alloc::Global;

/// Want of memory.
pub type NoMemory = std::alloc::AllocError;

/// A Python source of `size` blocks between its first and its last line. The same seed and size
/// always give the same text.
///
/// The blocks are drawn by a linear congruential generator of 64 bits that starts from `seed`.
pub fn source_of(alloc: Global, seed: u64, size: u32) -> Result<String, NoMemory>
    ensures { IfOk result (λ text. string_bytes text ≡ source seed size) }
{
    let mut text = String::from_str(alloc, "t = 0\n")?;
    push_blocks(&mut text, seed, size)?;
    text.push_str("print(t)\n")?;
    Ok(text)
}

/// Appends the blocks of `size` draws.
fn push_blocks(text: &mut String, seed: u64, size: u32) -> Result<(), NoMemory>
    ensures { OnOk result (string_bytes text.new ≡ string_bytes text.old ++ blocks seed size) }
{
    let mut number = seed;
    for _turn in 0..size {
        number = next_number(number);
        push_block(text, number)?;
    }
    Ok(())
}

#[cfg(test)]
mod tests;
