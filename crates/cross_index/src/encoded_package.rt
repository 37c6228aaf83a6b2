//! Whether a paragraph is that of an encoded package.

ghost use Rattle.std.specs.Prelude.{◌≡◌, ◌++◌, Some, codes, IfOk, OnOk};
ghost use Rattle.std.specs.Option.{option_map};
ghost use Rattle.cross_laws.specs.Encoding.{asker, encoded_name, encoded_needs, encoded_provides, singles};
ghost use Rattle.cross_index.specs.EncodedPackage.{HasOwn, IsCarried, IsEncodedAs, Says, encoded_source, essential_in, host_name, source_name, version_in, with_colon};

use crate::judge::{Unlike, judge_field, judge_says, judge_value};
use crate::reading::inside;
use cross_laws::types::Side;
use cross_relations::{Asker, Binary, Sense, Sides, encode_needs, encode_provides, encoded_name};
use deb_fields::Paragraph;
use deb_relation::{Kind, Relations};
use deb_text::{cut_at_first, trim};
use std::alloc::{AllocError, Global};

/// The name of the architecture that a package of a side has, if it has one.
pub fn host_name<'a>(sides: &Sides<'a>, side: Side) -> Option<&'a [u8]>
    ensures { option_map (λ v. v.now) result ≡ host_name sides.now side }
{
    match side {
        Side::Build => None,
        Side::Host => Some(sides.host()),
    }
}

/// The value of Essential that a package of a side has.
pub fn essential_in<'a>(is_archive: bool, side: Side, value: Option<&'a [u8]>) -> Option<&'a [u8]>
    ensures { option_map (λ v. v.now) result
        ≡ essential_in is_archive side (option_map (λ v. v.now) value.entry) }
{
    match side {
        Side::Build => value,
        Side::Host => {
            if is_archive {
                return None;
            }
            value
        }
    }
}

/// A value that has a colon.
fn with_colon<'a>(value: Option<&'a [u8]>) -> Option<&'a [u8]>
    ensures { option_map (λ v. v.now) result
        ≡ with_colon (option_map (λ v. v.now) value.entry) }
{
    let value = value?;
    match cut_at_first(b':', value) {
        Some(_) => Some(value),
        None => None,
    }
}

/// The encoded value of Source where a version stands behind the name.
fn versioned_source(
    alloc: Global,
    sides: &Sides,
    side: Side,
    name: &[u8],
    behind: &[u8],
) -> Result<Vec<u8>, AllocError>
    ensures { IfOk result (λ made. made.items
        ≡ source_name sides.now side name.now ++ version_in behind.now) }
{
    let mut made = encoded_name(alloc, sides, Sense::Of(side), trim(name))?;
    made.extend_from_slice(b" (")?;
    made.extend_from_slice(trim(inside(behind).unwrap_or(b"")))?;
    made.extend_from_slice(b")")?;
    Ok(made)
}

/// The encoded value of Source of a package of a side.
#[tactic(auto, unfolding(crate::specs::EncodedPackage::encoded_source))]
pub fn encoded_source(
    alloc: Global,
    sides: &Sides,
    side: Side,
    text: &[u8],
) -> Result<Vec<u8>, AllocError>
    ensures { IfOk result (λ made. made.items ≡ encoded_source sides.now side text.now) }
{
    match cut_at_first(b'(', text) {
        Some((name, behind)) => versioned_source(alloc, sides, side, name, behind),
        None => encoded_name(alloc, sides, Sense::Of(side), trim(text)),
    }
}

/// Judges a value of Source, which is to be the encoded one.
fn judge_source(
    alloc: Global,
    sides: &Sides,
    side: Side,
    old: Option<&[u8]>,
    new: Option<&[u8]>,
) -> Result<(), Unlike>
    ensures { OnOk result (option_map (λ v. v.now) new.entry
        ≡ option_map (encoded_source sides.now side) (option_map (λ v. v.now) old.entry)) }
{
    match old {
        Some(text) => {
            let made = encoded_source(alloc, sides, side, text)?;
            judge_value(new, Some(made.as_slice()))?;
            Ok(())
        }
        None => {
            judge_value(new, None)?;
            Ok(())
        }
    }
}

/// Judges a value, which is to be the encoded name of a package.
fn judge_name(
    alloc: Global,
    sides: &Sides,
    binary: &Binary,
    new: Option<&[u8]>,
) -> Result<(), Unlike>
    ensures { OnOk result
        (option_map (λ v. v.now) new.entry ≡ Some (encoded_name sides.now binary.now)) }
{
    let made = encoded_name(alloc, sides, Sense::Of(binary.side()), binary.name())?;
    judge_value(new, Some(made.as_slice()))?;
    Ok(())
}

/// Judges what a paragraph says of a package itself.
fn judge_own(
    alloc: Global,
    sides: &Sides,
    is_archive: bool,
    binary: &Binary,
    old: &Paragraph,
    new: &Paragraph,
) -> Result<(), Unlike>
    ensures { OnOk result (HasOwn sides.now is_archive binary.now old.now new.now) }
{
    let side = binary.side();
    judge_name(alloc, sides, binary, new.field(b"Package"))?;
    judge_field(old, b"Version", new, b"Version")?;
    judge_value(new.field(b"Architecture"), host_name(sides, side))?;
    judge_source(
        alloc,
        sides,
        side,
        old.field(b"Source"),
        new.field(b"Source"),
    )?;
    judge_field(old, b"Installed-Size", new, b"Installed-Size")?;
    judge_field(old, b"Priority", new, b"Priority")?;
    let essential = essential_in(is_archive, side, old.field(b"Essential"));
    judge_value(new.field(b"Essential"), essential)?;
    Ok(())
}

/// Judges what a paragraph carries along of the relations of the given one.
fn judge_carried(old: &Paragraph, new: &Paragraph) -> Result<(), Unlike>
    ensures { OnOk result (IsCarried old.now new.now) }
{
    judge_field(old, b"Multi-Arch", new, b"Multi-Arch")?;
    let pre_depends = with_colon(old.field(b"Pre-Depends"));
    judge_value(new.field(b"Given-Pre-Depends"), pre_depends)?;
    let depends = with_colon(old.field(b"Depends"));
    judge_value(new.field(b"Given-Depends"), depends)?;
    judge_field(old, b"Conflicts", new, b"Given-Conflicts")?;
    judge_field(old, b"Breaks", new, b"Given-Breaks")?;
    judge_field(old, b"Provides", new, b"Given-Provides")?;
    Ok(())
}

/// Judges a field of needs, which is to say what one of a package comes to.
fn judge_needs(
    alloc: Global,
    sides: &Sides,
    binary: &Binary,
    paragraph: &Paragraph,
    name: &[u8],
    needs: &Relations,
) -> Result<(), Unlike>
    ensures { OnOk result (Says paragraph.now Kind.Need name.now
        (encoded_needs sides.now (asker binary.now) needs.now)) }
{
    let at = Asker {
        side: binary.side(),
        is_build: false,
    };
    let made = encode_needs(alloc, sides, at, needs)?;
    judge_says(alloc, paragraph, Kind::Need, name, &made)?;
    Ok(())
}

/// Judges Provides, which is to say what a package provides, encoded.
pub fn judge_provides(
    alloc: Global,
    sides: &Sides,
    binary: &Binary,
    paragraph: &Paragraph,
) -> Result<(), Unlike>
    ensures { OnOk result (Says paragraph.now Kind.Provide (codes "Provides")
        (singles (encoded_provides sides.now binary.now))) }
{
    let made = encode_provides(alloc, sides, binary)?;
    judge_says(alloc, paragraph, Kind::Provide, b"Provides", &made)?;
    Ok(())
}

/// Judges a paragraph, which is to be that of a package, encoded, which was read of the given one.
pub fn judge_encoded(
    alloc: Global,
    sides: &Sides,
    is_archive: bool,
    binary: &Binary,
    old: &Paragraph,
    new: &Paragraph,
) -> Result<(), Unlike>
    ensures { OnOk result (IsEncodedAs sides.now is_archive binary.now old.now new.now) }
{
    judge_own(alloc, sides, is_archive, binary, old, new)?;
    judge_carried(old, new)?;
    judge_needs(
        alloc,
        sides,
        binary,
        new,
        b"Pre-Depends",
        binary.pre_depends(),
    )?;
    judge_needs(alloc, sides, binary, new, b"Depends", binary.depends())?;
    judge_provides(alloc, sides, binary, new)?;
    Ok(())
}
