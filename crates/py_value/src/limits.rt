// The limits of values.

/// The most items of a tuple, a list or a dict, and the most characters of a text.
pub const MOST_ITEMS: usize = 1_048_576;

/// The most values inside each other that a comparison or a text goes through, the innermost
/// counted too.
pub const MOST_LEVELS: u32 = 200;

/// The deepest that tuples and arguments of exceptions stand directly in each other.
pub const MOST_NESTED: u8 = 200;

/// The most pairs of values that one comparison goes through: beyond that it answers want of
/// memory.
pub const MOST_COMPARED: u64 = 268_435_456;
