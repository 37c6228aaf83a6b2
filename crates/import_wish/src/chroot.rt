//! The paragraphs of a wish that are base chroots.

ghost use Rattle.std.specs.Prelude.{◌≡◌};
ghost use Rattle.std.specs.Option.{option_map};
ghost use Rattle.deb_text.specs.Common.{Gives, lists};
ghost use Rattle.deb_relation.specs.View.{refusal_of};
ghost use Rattle.import_wish.specs.Chroot.{capacity_in, chroot_at, chroot_view};

use crate::recipe::read_new_name;
use deb_fields::{Paragraph, or_text, read_number_in};
use deb_relation::{Kind, RelationError, Relations};
use std::alloc::Global;

/// The most KiB of a base chroot, which stand where no capacity is said: no limit.
pub const MOST_CAPACITY: u64 = 999_999_999_999_999;

/// What a base chroot holds besides Essential packages, where that is not said.
const BUILD_ESSENTIAL: &[u8] = b"build-essential";

/// A base chroot that is wanted: its capacity in KiB, and entries for its packages.
#[derive(Drop)]
pub struct WishedChroot {
    pub name: Vec<u8>,
    pub capacity: u64,
    pub packages: Relations,
}

/// Reads a capacity that may be absent.
fn read_capacity(value: Option<&[u8]>) -> Result<u64, RelationError>
    ensures { Gives refusal_of (λ n. n) result
        (capacity_in (option_map (λ v. v.now) value.entry)) }
{
    match read_number_in(MOST_CAPACITY, value)? {
        Some(capacity) => Ok(capacity),
        None => Ok(MOST_CAPACITY),
    }
}

/// Reads the paragraph of a base chroot, behind chroots of other names.
///
/// # Errors
///
/// 201 where it has no name, 121 where that is none, 203 where another chroot has it; 202 where the
/// capacity is no number; those of relation fields.
#[tactic(auto, unfolding(crate::specs::Chroot::chroot_at))]
pub fn read_chroot(
    alloc: Global,
    others: &[Vec<u8>],
    paragraph: &Paragraph,
) -> Result<WishedChroot, RelationError>
    ensures { Gives refusal_of chroot_view result (chroot_at (lists others.now) paragraph.now) }
{
    let name = read_new_name(alloc, others, paragraph.needed(b"Chroot")?)?;
    let capacity = read_capacity(paragraph.field(b"Capacity"))?;
    let text = or_text(paragraph.field(b"Packages"), BUILD_ESSENTIAL);
    let packages = Relations::parse(alloc, text, Kind::Need)?;
    Ok(WishedChroot {
        name,
        capacity,
        packages,
    })
}
