// Texts of the language: lists of characters.

ghost use Rattle.std.specs.Prelude.{◌≡◌, ◌↔◌, ◌++◌, ◌∷◌, [], length, take, drop, slice_get, IsTrue, IfOk, OnOk, OnErr, encode_utf8_all};
ghost use Rattle.std.specs.Str.{chars, IsAscii};
ghost use Rattle.py_text.specs.Parts.{repeat, is_part};
ghost use Rattle.py_text.specs.Comparison.{order_of_texts};
ghost use Rattle.py_text.specs.Hashes.{hash_of_text};

use crate::NoMemory;
use crate::body::Body;
use crate::characters::{byte_at, bytes_of, char_at, order, part};
use crate::hash::OF_NO_CHARACTERS;
use std::alloc::{AllocError, Global};
use std::cmp::Ordering;
use std::marker::Model;
use std::rc::Rc;

/// A text, seen as the list of its characters (Unicode scalar values). A copy shares them.
#[derive(Drop)]
pub struct Text {
    shared: Option<Rc<Body>>,
    alloc: Global,
}

impl Model for Text {
    ghost use Rattle.std.specs.Prelude.{List, ℕ};
    ghost use Rattle.py_text.specs.Texts.{shared_characters};

    ghost Value = { List ℕ };

    ghost view = { λ t. shared_characters t.shared };
}

impl Text {
    pub fn new(alloc: Global) -> Text
        ensures { result ≡ [] }
    {
        Text {
            shared: None,
            alloc,
        }
    }

    fn of_body(alloc: Global, body: Body) -> Result<Text, NoMemory>
        ensures { IfOk result (λ t. t ≡ body) }
    {
        match Rc::new(alloc, body) {
            Ok(shared) => Ok(Text {
                shared: Some(shared),
                alloc,
            }),
            Err(_) => Err(AllocError),
        }
    }

    pub fn from_str(alloc: Global, s: &str) -> Result<Text, NoMemory>
        ensures { IfOk result (λ t. t ≡ chars s.now) }
    {
        let body = Body::from_str(alloc, s)?;
        Text::of_body(alloc, body)
    }

    pub fn from_chars(alloc: Global, characters: &[char]) -> Result<Text, NoMemory>
        ensures { IfOk result (λ t. t ≡ characters.now) }
    {
        let mut body = Body::with_capacity(alloc, characters.len())?;
        for c in characters {
            body.push(*c)?;
        }
        Text::of_body(alloc, body)
    }

    /// The text of one character.
    pub fn of_char(alloc: Global, c: char) -> Result<Text, NoMemory>
        ensures { IfOk result (λ t. t ≡ c ∷ []) }
    {
        Text::from_chars(alloc, &[c])
    }

    /// The text as UTF-8.
    pub fn as_str(&self) -> &str
        ensures bytes { result.now ≡ encode_utf8_all self.now }
        ensures characters { chars result.now ≡ self.now }
    {
        match &self.shared {
            None => "",
            Some(body) => body.as_str(),
        }
    }

    /// Adds a character at the end, in place where no copy shares the characters.
    pub fn push(&mut self, c: char) -> Result<(), NoMemory>
        ensures ok { OnOk result (self.new ≡ self.old ++ c ∷ []) }
        ensures err { OnErr result (self.new ≡ self.old) }
    {
        if let Some(shared) = &mut self.shared {
            if let Some(body) = Rc::get_mut(shared) {
                return body.push(c);
            }
        }
        let mut body = self.body_with_room(4)?;
        body.push(c)?;
        let text = Text::of_body(self.alloc, body)?;
        *self = text;
        Ok(())
    }

    /// Adds the characters of another text at the end, in place where no copy shares those before.
    pub fn append(&mut self, other: &Text) -> Result<(), NoMemory>
        ensures ok { OnOk result (self.new ≡ self.old ++ other.now) }
        ensures err { OnErr result (self.new ≡ self.old) }
    {
        self.extend(other.as_str(), other.len())
    }

    /// Adds characters at the end, in place where no copy shares those before.
    pub fn push_str(&mut self, s: &str) -> Result<(), NoMemory>
        ensures ok { OnOk result (self.new ≡ self.old ++ chars s.now) }
        ensures err { OnErr result (self.new ≡ self.old) }
    {
        self.extend(s, count_of(s))
    }

    /// Adds characters at the end, of which there are so many.
    fn extend(&mut self, more: &str, count: usize) -> Result<(), NoMemory>
        requires { count ≡ length (chars more.now) }
        ensures ok { OnOk result (self.new ≡ self.old ++ chars more.now) }
        ensures err { OnErr result (self.new ≡ self.old) }
    {
        if let Some(shared) = &mut self.shared {
            if let Some(body) = Rc::get_mut(shared) {
                return body.append(more, count);
            }
        }
        let mut body = self.body_with_room(more.len())?;
        body.append(more, count)?;
        let text = Text::of_body(self.alloc, body)?;
        *self = text;
        Ok(())
    }

    /// The same characters in a body of their own, with room for so many more bytes.
    fn body_with_room(&self, more: usize) -> Result<Body, NoMemory>
        ensures { IfOk result (λ body. body ≡ self.now) }
    {
        let bytes = self.as_str().len().saturating_add(more);
        let mut body = Body::with_capacity(self.alloc, bytes)?;
        body.append(self.as_str(), self.len())?;
        Ok(body)
    }

    /// An equal text, which shares the characters.
    pub fn copy(&self) -> Result<Text, NoMemory>
        ensures { IfOk result (λ t. t ≡ self.now) }
    {
        let shared = match &self.shared {
            None => None,
            Some(shared) => Some(shared.clone()?),
        };
        Ok(Text {
            shared,
            alloc: self.alloc,
        })
    }

    pub fn is_same(&self, other: &Text) -> bool
        ensures { IsTrue result ↔ (self.now ≡ other.now) }
    {
        self.as_str() == other.as_str()
    }

    pub fn is_empty(&self) -> bool
        ensures { IsTrue result ↔ (self.now ≡ []) }
    {
        self.as_str().is_empty()
    }

    /// The number of characters.
    pub fn len(&self) -> usize
        ensures { result ≡ length self.now }
    {
        match &self.shared {
            None => 0,
            Some(body) => body.len(),
        }
    }

    /// The hash of the characters, which the text keeps.
    pub fn kept_hash(&self) -> usize
        ensures { result ≡ hash_of_text self.now }
    {
        match &self.shared {
            None => OF_NO_CHARACTERS,
            Some(body) => body.hash(),
        }
    }

    /// Whether each character is known to take one byte.
    fn is_ascii(&self) -> bool
        ensures { IsTrue result → IsAscii (encode_utf8_all self.now) }
    {
        match &self.shared {
            None => false,
            Some(body) => body.is_ascii(),
        }
    }

    /// The text and then another.
    pub fn concat(&self, other: &Text) -> Result<Text, NoMemory>
        ensures { IfOk result (λ t. t ≡ self.now ++ other.now) }
    {
        let mut text = self.copy()?;
        text.append(other)?;
        Ok(text)
    }

    /// The text so many times.
    pub fn repeat(&self, times: usize) -> Result<Text, NoMemory>
        ensures { IfOk result (λ t. t ≡ repeat times self.now) }
    {
        let once = self.as_str();
        let count = self.len();
        let mut body = Body::with_capacity(self.alloc, once.len().saturating_mul(times))?;
        'turns: for _ in 0..times {
            body.append(once, count)?;
        }
        Text::of_body(self.alloc, body)
    }

    /// So many characters from a place on, or as many as there are.
    pub fn part(&self, first: usize, count: usize) -> Result<Text, NoMemory>
        ensures { IfOk result (λ t. t ≡ take count (drop first self.now)) }
    {
        if self.is_ascii() {
            return Text::from_str(self.alloc, bytes_of(self.as_str(), first, count));
        }
        part(self.alloc, self.as_str(), first, count)
    }

    /// The character at a place.
    pub fn char_at(&self, at: usize) -> Option<char>
        ensures { result ≡ slice_get self.now at }
    {
        if self.is_ascii() {
            byte_at(self.as_str(), at)
        } else {
            char_at(self.as_str(), at)
        }
    }

    /// The order by characters.
    pub fn order(&self, other: &Text) -> Ordering
        ensures { result ≡ order_of_texts self.now other.now }
    {
        order(self.as_str(), other.as_str())
    }

    /// Whether the other text is a part of this one.
    pub fn contains(&self, part: &Text) -> bool
        ensures { result ≡ is_part part.now self.now }
    {
        self.as_str().contains(part.as_str())
    }
}

/// The number of characters.
pub fn count_of(s: &str) -> usize
    ensures { result ≡ length (chars s.now) }
{
    s.chars().count()
}
