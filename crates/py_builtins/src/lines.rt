// Lines of the input, read one byte at a time so that no byte after the line is taken.

ghost use Rattle.std.specs.Prelude.{◌≡◌, ◌≤◌, ◌∷◌, [], length, IfOk, OnOk, OnErr, IsErrOf, MatchOption};
ghost use Rattle.cov_outside.specs.Counts.{Rose};
ghost use Rattle.cov_outside.specs.Prefixes.{LosesPrefix};
ghost use Rattle.py_value.specs.Sequences.{most_items};
ghost use Rattle.py_builtins.specs.Builtins.{first_line, line_read};
ghost use Rattle.py_builtins.specs.Calls.{bytes_read, decoded, line_bytes};
ghost use Rattle.py_builtins.specs.Inputs.{OnReads};

use crate::fault::RunFault;
use cov_outside::{Failed, Source};
use py_value::{Cause, MOST_ITEMS, NoMemory, Text};
use std::alloc::Global;

/// The most bytes that are read in search of a line end.
const MOST_BYTES: usize = MOST_ITEMS + 1;

/// Reads a line, and makes a text of it.
pub(crate) fn read_text<I: Source>(
    alloc: Global,
    input: &mut I,
) -> Result<Result<Text, Cause>, RunFault>
    ensures text { IfOk result (λ text.
        OnReads I.tells (I.left input.old) (I.left input.new)
        (λ all rest. (text, rest) ≡ line_read all)) }
    ensures left { I.tells → OnOk result (I.left input.new ≡ (line_read (I.left input.old)).1) }

    ensures lost { I.tells → OnErr result (LosesPrefix (I.left input.old) (I.left input.new)) }
    ensures no_further { I.tells
        → OnErr result (LosesPrefix (I.left input.new) (line_read (I.left input.old)).1) }

    ensures count { I.faults input.old ≤ I.faults input.new }
    ensures read_fault { IsErrOf result RunFault.ReadFault
        → Rose (I.faults input.old) (I.faults input.new) }
    ensures no_write_fault { IsErrOf result RunFault.WriteFault → ⊥ }
{
    match read_line(alloc, input)? {
        Ok(line) => Ok(decode(alloc, &line)?),
        Err(cause) => Ok(Err(cause)),
    }
}

/// The bytes of a line without its end, or why there is none.
fn read_line<I: Source>(alloc: Global, input: &mut I) -> Result<Result<Vec<u8>, Cause>, RunFault>
    ensures line { IfOk result (λ line.
        OnReads I.tells (I.left input.old) (I.left input.new)
        (λ all rest. (line_bytes line, rest) ≡ bytes_read all)) }

    ensures lost { I.tells → OnErr result (LosesPrefix (I.left input.old) (I.left input.new)) }
    ensures no_further { I.tells
        → OnErr result (LosesPrefix (I.left input.new) (bytes_read (I.left input.old)).1) }

    ensures count { I.faults input.old ≤ I.faults input.new }
    ensures read_fault { IsErrOf result RunFault.ReadFault
        → Rose (I.faults input.old) (I.faults input.new) }
    ensures no_write_fault { IsErrOf result RunFault.WriteFault → ⊥ }
{
    let mut line = Vec::new(alloc);
    for _count in 0..MOST_BYTES {
        match read_byte(input)? {
            None => return Ok(at_end(line)),
            Some(byte) => {
                if byte == b'\n' {
                    return Ok(Ok(line));
                }
                line.push(byte)?;
            }
        }
    }
    Ok(Err(Cause::TooManyItems))
}

/// The line that the end of the input ends, or none where no byte was left.
fn at_end(line: Vec<u8>) -> Result<Vec<u8>, Cause>
    ensures { (line.items ≡ first_line line.items) → length line.items ≤ most_items
        → line_bytes result ≡ (bytes_read line.items).0 }
{
    if line.is_empty() {
        Err(Cause::NoInput)
    } else {
        Ok(line)
    }
}

/// The next byte; none at the end of the input.
fn read_byte<I: Source>(input: &mut I) -> Result<Option<u8>, RunFault>
    ensures byte { I.tells
        → IfOk result (λ byte.
        MatchOption byte ((I.left input.old ≡ []) × (I.left input.new ≡ []))
        (λ b. I.left input.old ≡ b ∷ I.left input.new)) }
    ensures kept { I.tells → OnErr result (I.left input.new ≡ I.left input.old) }

    ensures count { I.faults input.old ≤ I.faults input.new }
    ensures read_fault { OnErr result (Rose (I.faults input.old) (I.faults input.new)) }
    ensures only_read { OnErr result (IsErrOf result RunFault.ReadFault) }
{
    let mut buf = [0];
    match input.read(&mut buf) {
        Ok(0) => Ok(None),
        Ok(_) => Ok(Some(buf[0])),
        Err(Failed) => Err(RunFault::ReadFault),
    }
}

/// The text that these bytes are.
fn decode(alloc: Global, line: &[u8]) -> Result<Result<Text, Cause>, NoMemory>
    ensures { IfOk result (λ text. text ≡ decoded line.now) }
{
    match std::str::from_utf8(line) {
        Ok(s) => Ok(Ok(Text::from_str(alloc, s)?)),
        Err(_) => Ok(Err(Cause::InputNotUtf8)),
    }
}
