//! Names with what they hold, as a list.
ghost use Rattle.std.specs.Prelude.{◌≡◌, ◌≢◌, ◌↔◌, ℕ, IsTrue, Some, None, IfOk, IfErr, OnOk, OnErr, IsErrOf, map, position, string_bytes};
ghost use Rattle.std.specs.Str.{bytes_eq};
ghost use Rattle.std.specs.FinMap as finite;
ghost use Rattle.cov_vault.specs.Contents.{contents_of};

use crate::names::{first_named, names_of};
use crate::vault::{Content, VaultError};
use cov_data::Data;
use std::alloc::{AllocError, Global};

/// Of two pairs with one name the first counts.
#[derive(Drop)]
pub struct Entries {
    pub pairs: Vec<(String, Content)>,
}

impl Entries {
    pub fn names(&self, alloc: Global) -> Result<Vec<String>, AllocError>
        ensures { IfOk result (λ names.
            map string_bytes names.items ≡ finite.keys (contents_of self.now.pairs.items)) }
    {
        names_of(alloc, &self.pairs)
    }

    pub fn load(&self, alloc: Global, name: &str) -> Result<Data, VaultError>
        ensures found { IfOk result (λ loaded.
            finite.get (contents_of self.now.pairs.items) name.now ≡ Some (Content.Good loaded)) }
        ensures absent { IsErrOf result VaultError.Absent
            → finite.get (contents_of self.now.pairs.items) name.now ≡ None }
        ensures not_schema { IsErrOf result VaultError.NotSchema7
            → finite.get (contents_of self.now.pairs.items) name.now ≡ Some Content.NotSchema7 }
        ensures bad_row { (row : ℕ) → IsErrOf result (VaultError.BadRow row)
            → finite.get (contents_of self.now.pairs.items) name.now ≡ Some (Content.BadRow row) }
        ensures not_failed { IsErrOf result VaultError.Failed → ⊥ }
    {
        let Some(place) = first_named(&self.pairs, name) else {
            return Err(VaultError::Absent);
        };
        match &self.pairs[place].1 {
            Content::Good(data) => Ok(copied(alloc, data)?),
            Content::NotSchema7 => Err(VaultError::NotSchema7),
            Content::BadRow(row) => Err(VaultError::BadRow(*row)),
        }
    }

    pub fn save(&mut self, alloc: Global, name: &str, content: &Data) -> Result<(), VaultError>
        ensures ok { OnOk result (contents_of self.new.pairs.items
            ≡ finite.insert (contents_of self.old.pairs.items) name.now
            (Content.Good content.now)) }
        ensures replaces { OnOk result
            (finite.get (contents_of self.old.pairs.items) name.now ≢ Some Content.NotSchema7) }
        ensures not_schema { IsErrOf result VaultError.NotSchema7
            → finite.get (contents_of self.old.pairs.items) name.now ≡ Some Content.NotSchema7 }
        ensures err { OnErr result (self.new.pairs.items ≡ self.old.pairs.items) }
        ensures not_absent { IsErrOf result VaultError.Absent → ⊥ }
        ensures not_bad_row { (row : ℕ) → IsErrOf result (VaultError.BadRow row) → ⊥ }
        ensures not_failed { IsErrOf result VaultError.Failed → ⊥ }
    {
        let Some(at) = first_named(&self.pairs, name) else {
            return Ok(self.add(alloc, name, content)?);
        };
        if is_not_schema(&self.pairs[at].1) {
            return Err(VaultError::NotSchema7);
        }
        let content = copied(alloc, content)?;
        self.pairs[at].1 = Content::Good(content);
        Ok(())
    }

    /// Adds a name that isn't there.
    fn add(&mut self, alloc: Global, name: &str, content: &Data) -> Result<(), AllocError>
        requires { position (λ pair.
            bytes_eq (string_bytes pair.0) name.now) self.old.pairs.items ≡ None }
        ensures ok { OnOk result (contents_of self.new.pairs.items
            ≡ finite.insert (contents_of self.old.pairs.items) name.now
            (Content.Good content.now)) }
        ensures err { OnErr result (self.new.pairs.items ≡ self.old.pairs.items) }
    {
        let name = String::from_str(alloc, name)?;
        let content = copied(alloc, content)?;
        self.pairs.push((name, Content::Good(content)))?;
        Ok(())
    }

    pub fn remove(&mut self, name: &str) -> Result<(), VaultError>
        ensures ok { OnOk result (contents_of self.new.pairs.items
            ≡ finite.remove (contents_of self.old.pairs.items) name.now) }
        ensures removes { OnOk result
            (finite.get (contents_of self.old.pairs.items) name.now ≢ None) }
        ensures absent { IfErr result (λ e.
            (e ≡ VaultError.Absent)
            × (finite.get (contents_of self.old.pairs.items) name.now ≡ None)) }
        ensures err { OnErr result (self.new.pairs.items ≡ self.old.pairs.items) }
    {
        let Some(_first) = first_named(&self.pairs, name) else {
            return Err(VaultError::Absent);
        };
        self.pairs.retain(|pair| pair.0.as_str() != name);
        Ok(())
    }
}

fn is_not_schema(content: &Content) -> bool
    ensures { IsTrue result ↔ (content.now ≡ Content.NotSchema7) }
{
    match content {
        Content::Good(_) => false,
        Content::NotSchema7 => true,
        Content::BadRow(_) => false,
    }
}

fn copied(alloc: Global, data: &Data) -> Result<Data, AllocError>
    ensures { IfOk result (λ copy. copy ≡ data.now) }
{
    let mut copy = Data::new(alloc, data.is_arcs());
    match copy.union(data) {
        Ok(()) => Ok(copy),
        // Both are of arcs, or both of lines: only memory was missing.
        Err(error) => {
            drop(error);
            Err(AllocError)
        }
    }
}
