//! The classes of bytes that control data is made of.

ghost use Rattle.std.specs.Prelude.{◌≡◌};
ghost use Rattle.std.specs.List.{list_all};
ghost use Rattle.deb_text.specs.Bytes.{is_word_byte};
ghost use Rattle.deb_text.specs.Classes.{in_class};
ghost use Rattle.deb_text.specs.Cuts.{first_is};

/// A class of bytes.
#[derive(Clone, Copy, PartialEq, Eq)]
pub enum Class {
    /// A space or a tab.
    Space,
    /// A space, a tab or a newline.
    Blank,
    /// All but blanks.
    Solid,
    /// `0` to `9`.
    Digit,
    /// `a` to `z` and `0` to `9`.
    Lower,
    /// `a` to `z`, `0` to `9` and `+ - .`, as in the name of a package.
    Name,
    /// `a` to `z`, `0` to `9` and `-`, as in the qualifier of a relation.
    Qualifier,
    /// `<`, `=` and `>`.
    Operator,
    /// All but blanks and `)`, as in the version of a relation.
    Version,
    /// All but blanks and `< > ! , | ( ) [ ]`.
    Word,
}

/// Tells whether a byte belongs to a class.
pub fn has(class: Class, b: u8) -> bool
    ensures { result ≡ in_class class b }
{
    match class {
        Class::Space => matches!(b, b' ' | b'\t'),
        Class::Blank => matches!(b, b' ' | b'\t' | b'\n'),
        Class::Solid => !matches!(b, b' ' | b'\t' | b'\n'),
        Class::Digit => b.is_ascii_digit(),
        Class::Lower => b.is_ascii_lowercase() || b.is_ascii_digit(),
        Class::Name => {
            b.is_ascii_lowercase() || b.is_ascii_digit() || matches!(b, b'+' | b'-' | b'.')
        }
        Class::Qualifier => b.is_ascii_lowercase() || b.is_ascii_digit() || b == b'-',
        Class::Operator => matches!(b, b'<' | b'=' | b'>'),
        Class::Version => !matches!(b, b' ' | b'\t' | b'\n' | b')'),
        Class::Word => is_word_byte(b),
    }
}

fn is_word_byte(b: u8) -> bool
    ensures { result ≡ is_word_byte b }
{
    !matches!(
        b,
        b' ' | b'\t' | b'\n' | b'<' | b'>' | b'!' | b',' | b'|' | b'(' | b')' | b'[' | b']'
    )
}

/// Tells whether each byte of a text belongs to a class.
pub fn all_in(class: Class, text: &[u8]) -> bool
    ensures { result ≡ list_all (in_class class) text.now }
{
    text.iter().all(|b| has(class, *b))
}

/// Tells whether a text has a first byte, and that belongs to a class.
pub fn begins_with(class: Class, text: &[u8]) -> bool
    ensures { result ≡ first_is (in_class class) text.now }
{
    match text {
        [first, ..] => has(class, *first),
        [] => false,
    }
}
