//! The lists that restrict an alternative to architectures and to build profiles.

ghost use Rattle.std.specs.Prelude.{◌≡◌, IfOk};

use std::alloc::{AllocError, Global};
use std::marker::Model;

/// A word of a list. A contract sees its bytes.
#[derive(Drop)]
pub struct Word {
    text: Vec<u8>,
}

impl Model for Word {
    ghost use Rattle.std.specs.Prelude.{ℕ, List};

    ghost Value = { List ℕ };

    ghost view = { λ word. word.text.items };
}

impl Word {
    /// Copies a text.
    pub fn from_slice(alloc: Global, text: &[u8]) -> Result<Word, AllocError>
        ensures { IfOk result (λ word. word ≡ text.now) }
    {
        Ok(Word {
            text: Vec::from_slice(alloc, text)?,
        })
    }

    /// The bytes of the word.
    pub fn text(&self) -> &[u8]
        ensures { result.now ≡ self.now }
    {
        &self.text
    }
}

impl Clone for Word {
    ghost is_clone = { λ word copy. copy ≡ word };

    fn clone(&self) -> Result<Word, AllocError> {
        Ok(Word {
            text: self.text.clone()?,
        })
    }
}

/// The architectures of an alternative, as `[amd64 i386]` or `[!hurd-i386]` (Debian Policy 7.1).
#[derive(Drop)]
pub struct ArchList {
    /// Each name has `!` before it.
    pub negated: bool,
    pub names: Vec<Word>,
}

impl Model for ArchList {
    ghost use Rattle.deb_relation.specs.Relations as spec;

    ghost Value = { spec.ArchList };

    ghost view = { λ list. record { negated = list.negated; names = list.names.items } };
}

impl Clone for ArchList {
    ghost is_clone = { λ list copy. copy ≡ list };

    fn clone(&self) -> Result<ArchList, AllocError> {
        Ok(ArchList {
            negated: self.negated,
            names: self.names.clone()?,
        })
    }
}

/// A word of a profile list.
#[derive(Drop)]
pub struct Item {
    pub word: Word,
    /// The word has `!` before it.
    pub negated: bool,
}

impl Model for Item {
    ghost use Rattle.deb_relation.specs.Relations as spec;

    ghost Value = { spec.Item };

    ghost view = { λ item. record { word = item.word; negated = item.negated } };
}

impl Clone for Item {
    ghost is_clone = { λ item copy. copy ≡ item };

    fn clone(&self) -> Result<Item, AllocError> {
        Ok(Item {
            word: self.word.clone()?,
            negated: self.negated,
        })
    }
}

/// A profile list, as `<stage1 !nocheck>` (BuildProfileSpec). A contract sees its items.
#[derive(Drop)]
pub struct ProfileList {
    items: Vec<Item>,
}

impl Model for ProfileList {
    ghost use Rattle.std.specs.Prelude.{List};
    ghost use Rattle.deb_relation.specs.Relations as spec;

    ghost Value = { List spec.Item };

    ghost view = { λ list. list.items.items };
}

impl ProfileList {
    /// Makes a list of its items.
    pub fn from_items(items: Vec<Item>) -> ProfileList
        ensures { result ≡ items.items }
    {
        ProfileList { items }
    }

    /// The items in their order.
    pub fn items(&self) -> &[Item]
        ensures { result.now ≡ self.now }
    {
        &self.items
    }
}

impl Clone for ProfileList {
    ghost is_clone = { λ list copy. copy ≡ list };

    fn clone(&self) -> Result<ProfileList, AllocError> {
        Ok(ProfileList {
            items: self.items.clone()?,
        })
    }
}
