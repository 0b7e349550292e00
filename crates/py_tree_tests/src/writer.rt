// The text that what was read is written into.
ghost use Rattle.std.specs.Prelude.{◌≡◌, ◌++◌, [], true, false, string_bytes, IfOk};

use py_token::{Keyword, Mark};
use std::alloc::{AllocError, Global};
use std::test::Fail;

/// A text in the making. Where memory is wanting it goes on, and tells so at the end.
#[derive(Drop)]
pub struct Writer {
    alloc: Global,
    text: String,
    wants_memory: bool,
}

impl Writer {
    pub fn new(alloc: Global) -> Writer
        ensures empty { string_bytes result.text ≡ [] }
        ensures fine { result.wants_memory ≡ false }
    {
        Writer {
            alloc,
            text: String::new(alloc),
            wants_memory: false,
        }
    }

    /// Adds the text, unless memory is wanting.
    pub fn put(&mut self, text: &str)
        ensures added { self.new.wants_memory ≡ false
            → string_bytes self.new.text ≡ string_bytes self.old.text ++ text.now }
        ensures kept { self.old.wants_memory ≡ true → self.new.wants_memory ≡ true }
    {
        if self.text.push_str(text).is_err() {
            self.wants_memory = true;
        }
    }

    /// A text in quotes.
    pub fn quoted(&mut self, text: &str) {
        self.put("'");
        self.put(text);
        self.put("'");
    }

    /// What was formatted.
    pub fn made(&mut self, text: Result<String, AllocError>)
        ensures added { self.new.wants_memory ≡ false → IfOk text (λ made.
            string_bytes self.new.text ≡ string_bytes self.old.text ++ string_bytes made) }
        ensures kept { self.old.wants_memory ≡ true → self.new.wants_memory ≡ true }
    {
        match text {
            Ok(text) => self.put(text.as_str()),
            Err(_) => self.wants_memory = true,
        }
    }

    pub fn keyword(&mut self, keyword: Keyword) {
        let text = format!(in self.alloc; "{keyword:?}");
        self.made(text)
    }

    pub fn mark(&mut self, mark: Mark) {
        let text = format!(in self.alloc; "{mark:?}");
        self.made(text)
    }

    pub fn count(&mut self, count: usize) {
        let text = format!(in self.alloc; "{count}");
        self.made(text)
    }

    pub fn number(&mut self, number: i64) {
        let text = format!(in self.alloc; "{number}");
        self.made(text)
    }

    /// So many openings, a middle and so many closings.
    pub fn nest(&mut self, open: &str, count: usize, middle: &str, close: &str) {
        for _ in 0..count {
            self.put(open);
        }
        self.put(middle);
        for _ in 0..count {
            self.put(close);
        }
    }

    /// The text, where there was memory for all of it.
    pub fn done(self) -> Result<String, Fail>
        ensures { IfOk result (λ text. text ≡ self.text) }
    {
        if self.wants_memory {
            return Err(AllocError.into());
        }
        Ok(self.text)
    }
}
