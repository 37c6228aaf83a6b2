//! The lines of a certificate, each by what is known at its place.

ghost use Rattle.std.specs.Prelude.{◌≡◌, ℕ, ◌<◌, ◌≤◌, ◌++◌, ◌&&◌, false, drop, length, IfOk, OnOk, if◌then◌else◌};
ghost use Rattle.bit_rows.specs.Sets.{variants_of, IsWordOf};
ghost use Rattle.cert_text.specs.Printed.{known_line, list_text, more_text, order_line};
ghost use Rattle.cert_text.specs.Rows.{IsOfUniverse, row_variants, named_variants};
ghost use Rattle.farm_model.specs.Common.{names, IsUniverse};
ghost use Rattle.farm_universe.specs.Kept.{IsKept};
ghost use Rattle.plan_model.specs.Common.{Rows, lane};
ghost use Rattle.plan_verifier.specs.Accepted.{known_rows};
ghost use Rattle.sat_rows.specs.Rows.{IsRowOf};
ghost use Rattle.cert_writer.specs.Carried.{AreSpelled, IsSpelled};
ghost use Rattle.cert_writer.specs.Lines.{item_text, in_word, is_none, part_text};
ghost use Rattle.cert_writer.specs.NewRows.{new_row};

use crate::carried::Spelled;
use deb_text::push_pieces;
use farm_model::Variant;
use farm_universe::Universe;
use itoa::Buffer;
use plan_verifier::Accepted;
use std::alloc::AllocError;

/// What a lane knows of a name, less what the initial archive has of it, as a word.
fn new_word(universe: &Universe, words: &[u64], name: u32) -> u64
    requires sound { IsUniverse universe.now }
    requires words { length words.now ≡ names universe.now }
    requires name { name < names universe.now }
    ensures { (known : Rows) (l i : ℕ) → IsRowOf universe.now (known l i) words.now
        → IsWordOf (variants_of (new_row universe.now known l i)) name result }
{
    words[name as usize] & !universe.initial(name)
}

/// Puts a variant behind others of a list.
#[tactic(auto, unfolding(cert_text::specs::Printed::variant_text))]
fn push_item(text: &mut Vec<u8>, universe: &Universe, variant: Variant) -> Result<(), AllocError>
    requires { IsOfUniverse universe.now variant }
    ensures { OnOk result (text.new.items ≡ text.old.items
        ++ item_text universe.now false variant) }
{
    let name = universe.name_text(variant.name);
    let version = universe.version(variant).text();
    push_pieces(text, &[b", ", name, b" (= ", version, b")"])
}

/// Puts the variants of a name that a word has behind others of a list.
fn push_more(
    text: &mut Vec<u8>,
    universe: &Universe,
    name: u32,
    word: u64,
) -> Result<(), AllocError>
    requires kept { IsKept universe.now }
    requires name { name < names universe.now }
    ensures { OnOk result (text.new.items ≡ text.old.items
        ++ more_text universe.now (in_word word (named_variants universe.now name))) }
{
    for bit in 0..universe.variants(name) {
        if word >> bit & 1 == 1 {
            push_item(text, universe, Variant { name, bit })?;
        }
    }
    Ok(())
}

/// Spells the variants of a name that a word has, unless they are spelled already.
fn spell(universe: &Universe, name: u32, word: u64, spelled: &mut Spelled) -> Result<(), AllocError>
    requires kept { IsKept universe.now }
    requires name { name < names universe.now }
    requires spelled { IsSpelled universe.now name spelled.old }
    ensures spelled { OnOk result (IsSpelled universe.now name spelled.new) }
    ensures word { OnOk result (spelled.new.word ≡ word) }
{
    if spelled.word == word {
        return Ok(());
    }
    spelled.text.clear();
    push_more(&mut spelled.text, universe, name, word)?;
    spelled.word = word;
    Ok(())
}

/// What stands behind others of a list, or at its start, which has no comma.
fn placed(items: &[u8], is_first: bool) -> &[u8]
    ensures { result.now ≡ (if is_first then drop 1 items.now else items.now) }
{
    if is_first && !items.is_empty() {
        return &items[1..];
    }
    items
}

/// Puts the variants of a name that a word has behind the others of a list, and tells whether the
/// next one is still the first.
fn push_named(
    text: &mut Vec<u8>,
    universe: &Universe,
    name: u32,
    word: u64,
    is_first: bool,
    spelled: &mut Spelled,
) -> Result<bool, AllocError>
    requires kept { IsKept universe.now }
    requires name { name < names universe.now }
    requires spelled { IsSpelled universe.now name spelled.old }
    ensures text { OnOk result (text.new.items ≡ text.old.items
        ++ part_text universe.now is_first (in_word word (named_variants universe.now name))) }
    ensures first { IfOk result (λ still.
        still ≡ (is_first && is_none (in_word word (named_variants universe.now name)))) }
    ensures spelled { OnOk result (IsSpelled universe.now name spelled.new) }
{
    spell(universe, name, word, spelled)?;
    let items = spelled.text.as_slice();
    text.extend_from_slice(placed(items, is_first))?;
    Ok(is_first && items.is_empty())
}

/// Puts what a lane knows at a place and the initial archive does not have behind a text, as a
/// list.
fn push_list(
    text: &mut Vec<u8>,
    accepted: &Accepted,
    number: usize,
    place: usize,
    words: &[u64],
    spelled: &mut [Spelled],
) -> Result<(), AllocError>
    requires words { IsRowOf accepted.now.universe (known_rows accepted.now number place)
        words.now }
    requires spelled { AreSpelled accepted.now.universe spelled.old }
    ensures text { OnOk result (text.new.items ≡ text.old.items
        ++ list_text accepted.now.universe (row_variants accepted.now.universe
        (new_row accepted.now.universe (known_rows accepted.now) number place))) }
    ensures spelled { OnOk result (AreSpelled accepted.now.universe spelled.new) }
{
    accepted.keeps();
    let universe = accepted.universe();
    let mut is_first = true;
    for name in 0..universe.names() {
        let word = new_word(universe, words, name);
        if word != 0 {
            let of = &mut spelled[name as usize];
            is_first = push_named(text, universe, name, word, is_first, of)?;
        }
    }
    Ok(())
}

/// Puts the line of a row behind a text: what a lane knows behind the instruction of this number,
/// from 1. The words are those of what it knows there.
#[tactic(auto, unfolding(cert_text::specs::Printed::known_line))]
pub fn push_known(
    text: &mut Vec<u8>,
    accepted: &Accepted,
    number: usize,
    place: usize,
    words: &[u64],
    spelled: &mut [Spelled],
) -> Result<(), AllocError>
    requires lane { number < length accepted.now.plan }
    requires words { IsRowOf accepted.now.universe (known_rows accepted.now number place)
        words.now }
    requires spelled { AreSpelled accepted.now.universe spelled.old }
    ensures text { OnOk result (text.new.items ≡ text.old.items
        ++ known_line accepted.now.universe (lane accepted.now.plan number).name
        (place, new_row accepted.now.universe (known_rows accepted.now) number place)) }
    ensures spelled { OnOk result (AreSpelled accepted.now.universe spelled.new) }
{
    let name = accepted.plan().lane(number).name();
    let mut digits = Buffer::new();
    let digits = digits.format(place).as_bytes();
    push_pieces(text, &[b"known ", name, b" ", digits, b":"])?;
    push_list(text, accepted, number, place, words, spelled)?;
    text.extend_from_slice(b"\n")?;
    Ok(())
}

/// Puts the line of an item of the order behind a text.
pub fn push_order(text: &mut Vec<u8>, accepted: &Accepted, number: usize) -> Result<(), AllocError>
    requires { number < length accepted.now.plan }
    ensures { OnOk result (text.new.items ≡ text.old.items ++ order_line accepted.now.plan number) }
{
    let name = accepted.plan().lane(number).name();
    push_pieces(text, &[b"order ", name, b"\n"])
}
