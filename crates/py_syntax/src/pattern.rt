// Patterns of a `case`.

use py_text::Text;

/// A pattern of a `case`.
#[cycle(pattern)]
pub enum Pattern {
    Literal {
        /// Whether a minus stands in front of the number.
        minus: bool,
        value: Constant,
    },
    /// A name, which is bound. Never `_`.
    Capture(Text),
    Wild,
    /// `module.name`.
    Member(Text, Text),
    Sequence {
        brackets: Brackets,
        items: Vec<Pattern>,
        comma: bool,
    },
    Or(Vec<Pattern>),
    As(Box<Pattern>, Text),
    /// A pattern in round brackets with no comma.
    Paren(Box<Pattern>),
}

// As of `Expr`: letting a pattern go is one call.
impl Drop for Pattern {
    #[cycle(pattern)]
    fn drop(self) {
        match self {
            Pattern::Literal { minus: _, value } => drop(value),
            Pattern::Capture(name) => drop(name),
            Pattern::Wild => (),
            Pattern::Member(of, name) => {
                drop(of);
                drop(name)
            }
            Pattern::Sequence {
                brackets: _,
                items,
                comma: _,
            } => drop(items),
            Pattern::Or(items) => drop(items),
            Pattern::As(inner, name) => {
                drop(inner);
                drop(name)
            }
            Pattern::Paren(inner) => drop(inner),
        }
    }
}

/// The value of a literal pattern, without its minus.
#[derive(Drop)]
pub enum Constant {
    Int(i64),
    /// Neighbouring strings, which are one string.
    Str(Vec<Text>),
    None,
    Bool(bool),
}

/// The brackets in which a sequence pattern was written.
#[derive(Clone, Copy, Debug)]
pub enum Brackets {
    Round,
    Square,
    Bare,
}
