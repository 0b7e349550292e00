// The built-in functions and methods.

/// A built-in function. `Exit` is `sys.exit`.
#[derive(Clone, Copy)]
pub enum Builtin {
    Print,
    Len,
    Range,
    Str,
    Repr,
    Int,
    Input,
    Exit,
}

/// A method, by its name.
#[derive(Clone, Copy)]
pub enum Method {
    Append,
    Pop,
    Get,
    Keys,
    StartsWith,
    Join,
    Split,
}
