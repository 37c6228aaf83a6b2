//! A paragraph of a text.

ghost use Rattle.std.specs.Prelude.{◌≡◌, ◌<◌, is_some, length, option_map};
ghost use Rattle.deb_stanza.specs.Stanza.{paragraph_at, value_of};

use deb_stanza::Paragraphs;

/// A paragraph, by its place among those of a text.
#[derive(Clone, Copy)]
pub struct Paragraph<'a> {
    pub among: &'a Paragraphs,
    pub place: usize,
    ghost within: { place < length among.now },
}

impl<'a> Paragraph<'a> {
    /// The number of its first line.
    pub fn line(self) -> u32
        ensures { result ≡ (paragraph_at self.entry.among.now self.entry.place).line }
    {
        self.among.line_of(self.place)
    }

    /// The value of a field.
    pub fn value(self, name: &[u8]) -> Option<&'a [u8]>
        ensures { option_map (λ value. value.now) result
            ≡ value_of (paragraph_at self.entry.among.now self.entry.place) name.now }
    {
        self.among.field(self.place, name)
    }

    /// Tells whether it has a field.
    pub fn has(self, name: &[u8]) -> bool
        ensures { result
            ≡ is_some (value_of (paragraph_at self.entry.among.now self.entry.place) name.now) }
    {
        self.value(name).is_some()
    }
}
