// The text that what was told is written into.

use py_builtins::kind_name;
use py_value::{ExcKind, Text};
use std::alloc::{AllocError, Global};
use std::test::Fail;

/// A text in the making. Where memory is wanting it goes on, and tells so at the end.
#[derive(Drop)]
pub(crate) struct Writer {
    alloc: Global,
    text: String,
    wants_memory: bool,
}

impl Writer {
    pub(crate) fn new(alloc: Global) -> Writer {
        Writer {
            alloc,
            text: String::new(alloc),
            wants_memory: false,
        }
    }

    pub(crate) fn put(&mut self, text: &str) {
        if self.text.push_str(text).is_err() {
            self.wants_memory = true;
        }
    }

    /// What was formatted.
    pub(crate) fn made(&mut self, text: Result<String, AllocError>) {
        match text {
            Ok(text) => self.put(text.as_str()),
            Err(_) => self.wants_memory = true,
        }
    }

    pub(crate) fn number(&mut self, number: i64) {
        let text = format!(in self.alloc; "{number}");
        self.made(text)
    }

    /// What stands between two words.
    pub(crate) fn between(&mut self, text: &str) {
        if !self.text.is_empty() {
            self.put(text)
        }
    }

    /// Writes down what isn't as it should be.
    pub(crate) fn compare(&mut self, title: &str, what: &str, is: &str, should: &str) {
        if is != should {
            self.put("\n");
            self.put(title);
            self.put(": ");
            self.put(what);
            self.put(" is\n");
            self.put(is);
            self.put("\nand not\n");
            self.put(should);
        }
    }

    pub(crate) fn compare_steps(&mut self, title: &str, is: u64, should: u64) {
        if is != should {
            let text = format!(in self.alloc; "\n{title}: steps are {is} and not {should}\n");
            self.made(text);
        }
    }

    /// An exception, by its kind and its text.
    pub(crate) fn raised(&mut self, kind: ExcKind, why: &Text) {
        self.put(kind_name(kind));
        if !why.is_empty() {
            self.put(": ");
            self.put(why.as_str());
        }
    }

    /// The text, where there was memory for all of it.
    pub(crate) fn done(self) -> Result<String, Fail> {
        if self.wants_memory {
            return Err(AllocError.into());
        }
        Ok(self.text)
    }
}
