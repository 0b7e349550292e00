// The limits of commands.

/// The most steps of a run in `arcs` and `make`, and of an import or a test in `select` and `mutate`,
/// where the words name none.
pub const USUAL_STEPS: u64 = 1_000_000;
