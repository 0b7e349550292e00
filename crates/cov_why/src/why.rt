//! How a command ends.

/// How a command ended, or why it was refused. `Done`, `Program`, `Budget`, `Under` and `Tests` are
/// no refusals.
#[derive(Drop)]
pub enum Why {
    Done,
    /// The program ended with this status.
    Program(u8),
    /// The program took this many steps and was cut.
    Budget(u64),
    /// So many statements and branches were covered, of so many in all: less than the limit.
    Under(u64, u64),
    /// The words are no command; the first so many begin one.
    Usage(usize),
    /// No file has this name.
    NoSuchFile(String),
    /// The file can't be read as a program from this line on, counted from 1.
    Syntax(String, u32, SyntaxKind),
    /// A count passes its limit: the count that was met for lines, total bytes and patterns, and
    /// else the limit and one more.
    Limit(LimitKind, u64),
    /// The settings aren't TOML (an empty key), or the value of this key isn't of its form.
    BadConfig(String),
    /// The pattern of this number can't be read.
    BadPattern(usize),
    /// The matcher of the pattern of this number couldn't be made.
    PatternSize(usize),
    /// The hook's file has no function of this name that can be asked.
    NoFunction(String),
    /// Data that the command needs isn't there.
    NoData(String),
    /// Two data sets that are joined have these flags for arcs, which differ.
    Mixed(bool, bool),
    /// The data file of this name can't be read as one.
    BadData(String, BadKind),
    /// The source of this path isn't there.
    NoSource(String),
    ReadFault,
    WriteFault,
    ShelfFault,
    VaultFault,
    NoMemory,
    /// So many tests passed, failed and were cut.
    Tests(u64, u64, u64),
    /// Importing the tests raised an exception, ended the program, or was cut.
    ImportFailed(String),
}

/// What is wrong with a source.
#[derive(Clone, Copy, Debug)]
pub enum SyntaxKind {
    /// A byte or character that can't stand here, a bad escape or a malformed number.
    BadCharacter,
    /// The indentation of the line fits none of those that are open.
    BadIndent,
    /// The string that begins on the line has no end.
    OpenString,
    /// The bracket on the line is the last one that was opened and not closed.
    OpenBracket,
    /// A number above 9223372036854775807.
    WideNumber,
    /// The first token on the line that no program goes on with.
    Unexpected,
    /// A `break` or `continue` in no loop of its function.
    BreakOutside,
    /// A `return` in no function, or a bare `raise` where no exception is handled.
    ReturnOutside,
    /// A name that is declared `global` after it was used, or that is a parameter.
    GlobalAfterUse,
    /// A `def` in a function.
    NestedFunction,
    /// What follows an irrefutable case, alternative or handler can't be reached.
    EarlyIrrefutable,
    /// A name that is bound twice, or by an alternative.
    TwiceNamed,
}

/// What has a limit.
#[derive(Clone, Copy, Debug)]
pub enum LimitKind {
    /// 1,048,576 bytes of a file.
    FileBytes,
    /// 16,777,216 bytes of all sources of a run.
    TotalBytes,
    /// 65,535 lines of a source.
    Lines,
    /// 256 modules of a run.
    Modules,
    /// 200 expressions in one another.
    Expressions,
    /// 64 suites in one another.
    Suites,
    /// 32 patterns of a list.
    Patterns,
    /// 200 bytes of a pattern.
    PatternBytes,
}

/// Why a data file can't be read.
#[derive(Clone, Copy)]
pub enum BadKind {
    /// It isn't of schema 7.
    NotSchema7,
    /// The row of this place, counted from 0, isn't of its form.
    BadRow(u64),
}
