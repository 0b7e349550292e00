//! Loads a program: reads the script and the modules that it imports, each from its file, and
//! compiles them. `load` gives code and trees, `load_sources` the trees alone. `load_source` reads one
//! file alone, `source_of_text` a text in memory, and `check_text` takes bytes for a text.
#![tactic(auto)]

mod alone;
mod bytes;
mod imports;
mod loaded;
mod loading;
mod paths;
mod programs;
mod refusals;
mod source;

pub use alone::{SourceFile, check_text, load_source, source_of_text};
pub use loaded::LoadedSource;
pub use loading::load_sources;
pub use programs::{Loaded, load};
