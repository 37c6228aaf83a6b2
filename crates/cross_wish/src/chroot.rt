//! The base chroots of a wish for two architectures.

ghost use Rattle.std.specs.Prelude.{◌≡◌, IfOk};
ghost use Rattle.deb_text.specs.Common.{Gives, lists};
ghost use Rattle.deb_relation.specs.View.{refusal_of};
ghost use Rattle.cross_wish.specs.Views.{cross_chroot_view, cross_head_view};
ghost use Rattle.cross_wish.specs.Wish.{cross_chroot_at, packages_free, packages_or};

use crate::entries::judge_free;
use crate::head::CrossHead;
use deb_fields::Paragraph;
use deb_relation::{RelationError, Relations};
use import_wish::{WishedChroot, read_chroot};
use std::alloc::{AllocError, Global};

/// A base chroot, with entries for its packages as they are given, and its line.
#[derive(Drop)]
pub struct CrossChroot {
    pub native: WishedChroot,
    pub is_said: bool,
    pub line: u32,
}

/// The entries of a base chroot: what each build for the host needs besides, where it has none of its
/// own.
fn packages_or(
    head: &CrossHead,
    is_said: bool,
    packages: Relations,
) -> Result<Relations, AllocError>
    ensures { IfOk result (λ entries.
        entries ≡ packages_or (cross_head_view head.now) is_said packages) }
{
    if is_said {
        return Ok(packages);
    }
    head.essential.clone()
}

fn judge_packages(
    head: &CrossHead,
    is_said: bool,
    packages: &Relations,
) -> Result<(), RelationError>
    ensures { Gives refusal_of (λ _. tt) result
        (packages_free (cross_head_view head.now) is_said packages.now) }
{
    if is_said {
        return judge_free(&head.sides, packages);
    }
    Ok(())
}

/// Reads the paragraph of a base chroot, behind chroots of other names.
///
/// # Errors
///
/// Those of `read_chroot` of import_wish; then 707 where a name in Packages is taken.
#[tactic(auto, unfolding(crate::specs::Wish::cross_chroot_at))]
pub fn read_cross_chroot(
    alloc: Global,
    head: &CrossHead,
    others: &[Vec<u8>],
    paragraph: &Paragraph,
) -> Result<CrossChroot, RelationError>
    ensures { Gives refusal_of cross_chroot_view result
        (cross_chroot_at (cross_head_view head.now) (lists others.now) paragraph.now) }
{
    let native = read_chroot(alloc, others, paragraph)?;
    let is_said = paragraph.field(b"Packages").is_some();
    judge_packages(head, is_said, &native.packages)?;
    let packages = packages_or(head, is_said, native.packages)?;
    Ok(CrossChroot {
        native: WishedChroot {
            name: native.name,
            capacity: native.capacity,
            packages,
        },
        is_said,
        line: paragraph.line(),
    })
}
