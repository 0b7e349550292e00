// Neighbouring strings.

ghost use Rattle.std.specs.Prelude.{◌≡◌, IfOk};
ghost use Rattle.py_syntax.specs.Tree.{plain, format, no_fragments};
ghost use Rattle.py_syntax.specs.View.{plain_fragments};
ghost use Rattle.py_syntax.specs.Normal.{height};
ghost use Rattle.py_grammar.specs.Machine.{snoc_plain, snoc_format, strings_of};
ghost use Rattle.py_parse_expr.specs.ExprViews.{capped, plains, view_fields, AreFields, view_strings, ValidStrings, Makes};

use crate::expr_nodes::{Fields, Measured, Strings, higher, over};
use py_syntax::{Expr, Fragment};
use py_text::{NoMemory, Text};
use std::alloc::Global;

/// Plain strings as fragments.
fn fragments(alloc: Global, texts: &[Text]) -> Result<Vec<Fragment>, NoMemory>
    ensures { IfOk result (λ fs. plain_fragments fs.items ≡ plains texts.now) }
{
    let mut fragments = Vec::new(alloc);
    for text in texts {
        fragments.push(Fragment::Plain(text.copy()?))?;
    }
    Ok(fragments)
}

impl Strings {
    pub fn text(alloc: Global, text: Text) -> Result<Strings, NoMemory>
        ensures view { IfOk result (λ s. view_strings s ≡ plain text no_fragments) }
        ensures valid { IfOk result ValidStrings }
    {
        let mut texts = Vec::new(alloc);
        texts.push(text)?;
        Ok(Strings::Plain(texts))
    }

    pub fn format(alloc: Global, fields: Fields) -> Result<Strings, NoMemory>
        requires { AreFields fields }
        ensures view { IfOk result
            (λ s. view_strings s ≡ format (view_fields fields) no_fragments) }
        ensures valid { IfOk result ValidStrings }
    {
        let mut all = Vec::new(alloc);
        all.push(Fragment::Format(fields.parts))?;
        Ok(Strings::Mixed(all, fields.height))
    }

    /// The same and a plain string.
    pub fn with_text(self, text: Text) -> Result<Strings, NoMemory>
        requires { ValidStrings self }
        ensures view { IfOk result (λ s. view_strings s ≡ snoc_plain (view_strings self) text) }
        ensures valid { IfOk result ValidStrings }
    {
        match self {
            Strings::Plain(texts) => {
                let mut texts = texts;
                texts.push(text)?;
                Ok(Strings::Plain(texts))
            }
            Strings::Mixed(fragments, height) => {
                let mut all = fragments;
                all.push(Fragment::Plain(text))?;
                Ok(Strings::Mixed(all, height))
            }
        }
    }

    /// The same and an f-string.
    pub fn with_format(self, alloc: Global, fields: Fields) -> Result<Strings, NoMemory>
        requires valid { ValidStrings self }
        requires fields { AreFields fields }
        ensures view { IfOk result
            (λ s. view_strings s ≡ snoc_format (view_strings self) (view_fields fields)) }
        ensures valid { IfOk result ValidStrings }
    {
        match self {
            Strings::Plain(texts) => {
                let mut all = fragments(alloc, &texts)?;
                all.push(Fragment::Format(fields.parts))?;
                Ok(Strings::Mixed(all, fields.height))
            }
            Strings::Mixed(fragments, height) => {
                let mut all = fragments;
                all.push(Fragment::Format(fields.parts))?;
                Ok(Strings::Mixed(all, higher(height, fields.height)))
            }
        }
    }

    /// The height of the expression.
    pub fn height(&self) -> usize
        requires { ValidStrings self.now }
        ensures { result ≡ capped (height (strings_of (view_strings self.now))) }
    {
        match self {
            Strings::Plain(_) => 1,
            Strings::Mixed(_, height) => over(*height),
        }
    }

    /// The expression.
    pub fn measured(self, alloc: Global) -> Result<Measured, NoMemory>
        requires { ValidStrings self }
        ensures { IfOk result (Makes (strings_of (view_strings self))) }
    {
        let height = self.height();
        match self {
            Strings::Plain(texts) => Measured::new(alloc, Expr::Str(texts), height, false),
            Strings::Mixed(fragments, _) => {
                Measured::new(alloc, Expr::FStr(fragments), height, false)
            }
        }
    }
}
