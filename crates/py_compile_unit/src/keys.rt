// Constants as keys of a set.

use py_text::Text;

/// A constant as a key.
#[derive(PartialEq, Eq, Hash, Drop)]
pub(crate) enum Key {
    None,
    Bool(bool),
    Int(i64),
    Str(Text),
}
