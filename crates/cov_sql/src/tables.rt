//! The tables of a data file.

/// A table of a data file.
#[derive(Clone, Copy, Drop)]
pub(crate) enum Table {
    CoverageSchema,
    Meta,
    File,
    Context,
    LineBits,
    Arc,
    Tracer,
    Hits,
}
