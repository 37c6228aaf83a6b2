//! The keys of names: a byte, by which most fields of another name are passed over.

ghost use Rattle.std.specs.Prelude.{◌≡◌, ℕ, List, [], ◌∷◌, ◌++◌, ◌+◌, ◌-◌, ◌<◌, nat_lt, slice_index_or, length};
ghost use Rattle.std.specs.Str.{str_to_ascii_lowercase};
ghost use Rattle.deb_stanza.specs.Keys.{key_of, StandBelow};

fn first_byte(name: &[u8]) -> usize
    ensures value { result ≡ slice_index_or (str_to_ascii_lowercase name.now) 0 0 }
    ensures byte { result < 256 }
{
    match name {
        [first, ..] => usize::from(first.to_ascii_lowercase()),
        [] => 0,
    }
}

fn last_byte(name: &[u8]) -> usize
    ensures value { result ≡ slice_index_or (str_to_ascii_lowercase name.now) (length name.now - 1) 0 }
    ensures byte { result < 256 }
{
    match name {
        [.., last] => usize::from(last.to_ascii_lowercase()),
        [] => 0,
    }
}

/// The key of a name: its length and the bytes at both ends. By these numbers no two fields that
/// Debian's indexes have share a key.
pub fn key_of(name: &[u8]) -> u8
    ensures { result ≡ key_of name.now }
{
    let sum = name.len() % 256 + first_byte(name) * 8 + last_byte(name) * 31;
    (sum % 256) as u8
}

/// For each key how many fields there are up to the last that has it.
#[derive(Drop)]
pub struct Latest {
    pub counts: [u32; 256],
}

impl Latest {
    /// Of no field.
    pub fn new() -> Latest
        ensures { StandBelow result.counts [] }
    {
        Latest { counts: [0; 256] }
    }

    /// Takes a field of this key, up to which there are so many.
    pub fn put(&mut self, key: u8, count: u32)
        ensures { (keys : List ℕ) → StandBelow self.old.counts keys → length keys + 1 ≡ count
            → StandBelow self.new.counts (keys ++ key ∷ []) }
    {
        self.counts[usize::from(key)] = count;
    }

    /// Tells whether a field from this one on may have the key.
    pub fn reaches(&self, key: u8, start: usize) -> bool
        ensures { result ≡ nat_lt start (slice_index_or self.now.counts key 0) }
    {
        start < self.counts[usize::from(key)] as usize
    }
}
