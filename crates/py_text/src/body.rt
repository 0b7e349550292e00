// The characters that the copies of a text share.

ghost use Rattle.std.specs.Prelude.{◌≡◌, ◌+◌, ◌++◌, ◌∷◌, [], length, IsTrue, IfOk, OnOk, OnErr, encode_utf8_all};
ghost use Rattle.std.specs.Str.{chars, IsAscii};
ghost use Rattle.py_text.specs.Hashes.{hash_of_text};

use crate::NoMemory;
use crate::hash::{OF_NO_CHARACTERS, mixed, mixed_all};
use crate::text::count_of;
use std::alloc::{AllocError, Global};
use std::marker::Model;

/// Characters in UTF-8, their number and their hash.
#[derive(Drop)]
pub struct Body {
    utf8: String,
    count: usize,
    hash: usize,
}

impl Model for Body {
    ghost use Rattle.std.specs.Prelude.{List, ℕ};
    ghost use Rattle.std.specs.Str.{chars};
    ghost use Rattle.std.specs.String.{string_bytes};
    ghost use Rattle.py_text.specs.Hashes.{CountAndHash};

    ghost Value = { List ℕ };

    ghost view = { λ b. chars (string_bytes b.utf8) };

    ghost invariant = { λ b. CountAndHash (chars (string_bytes b.utf8)) b.count b.hash };
}

impl Body {
    /// None yet, with room for so many bytes.
    pub fn with_capacity(alloc: Global, bytes: usize) -> Result<Body, NoMemory>
        ensures { IfOk result (λ made. made ≡ []) }
    {
        let utf8 = String::with_capacity(alloc, bytes)?;
        Ok(Body {
            utf8,
            count: 0,
            hash: OF_NO_CHARACTERS,
        })
    }

    pub fn from_str(alloc: Global, s: &str) -> Result<Body, NoMemory>
        ensures { IfOk result (λ made. made ≡ chars s.now) }
    {
        let utf8 = String::from_str(alloc, s)?;
        let count = count_of(s);
        let hash = mixed_all(OF_NO_CHARACTERS, s);
        Ok(Body { utf8, count, hash })
    }

    pub fn as_str(&self) -> &str
        ensures bytes { result.now ≡ encode_utf8_all self.now }
        ensures characters { chars result.now ≡ self.now }
    {
        self.utf8.as_str()
    }

    /// The number of characters.
    pub fn len(&self) -> usize
        ensures { result ≡ length self.now }
    {
        self.count
    }

    /// The hash of the characters.
    pub fn hash(&self) -> usize
        ensures { result ≡ hash_of_text self.now }
    {
        self.hash
    }

    /// Whether each character takes one byte.
    pub fn is_ascii(&self) -> bool
        ensures { IsTrue result → IsAscii (encode_utf8_all self.now) }
    {
        self.count == self.utf8.as_str().len()
    }

    pub fn push(&mut self, c: char) -> Result<(), NoMemory>
        ensures ok { OnOk result (self.new ≡ self.old ++ c ∷ []) }
        ensures err { OnErr result (self.new ≡ self.old) }
    {
        let count = sum(self.count, 1)?;
        self.utf8.push(c)?;
        self.count = count;
        self.hash = mixed(self.hash, c as usize);
        Ok(())
    }

    /// Adds characters, of which there are so many.
    pub fn append(&mut self, s: &str, count: usize) -> Result<(), NoMemory>
        requires { count ≡ length (chars s.now) }
        ensures ok { OnOk result (self.new ≡ self.old ++ chars s.now) }
        ensures err { OnErr result (self.new ≡ self.old) }
    {
        let count = sum(self.count, count)?;
        self.utf8.push_str(s)?;
        self.count = count;
        self.hash = mixed_all(self.hash, s);
        Ok(())
    }
}

fn sum(count: usize, more: usize) -> Result<usize, NoMemory>
    ensures { IfOk result (λ sum. sum ≡ count + more) }
{
    match count.checked_add(more) {
        Some(sum) => Ok(sum),
        None => Err(AllocError),
    }
}
