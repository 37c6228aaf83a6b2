//! What a run comes to, in lines of text.

use chroot_state::{Chroot, Phase};
use farm_archive::Publication;
use farm_universe::{Universe, Variant};
use std::alloc::AllocError;

/// A name and a version, as the packages text spells them.
pub fn push_variant(
    text: &mut String,
    universe: &Universe,
    variant: Variant,
) -> Result<(), AllocError> {
    if variant.name >= universe.names() || variant.bit >= universe.variants(variant.name) {
        return text.push_str("?");
    }
    let name = universe.name_text(variant.name).escape_ascii();
    let version = universe.version(variant).text().escape_ascii();
    write!(text, "{name} {version}")
}

/// A publication, as `published SERIAL LANE NAME VERSION`.
pub fn push_published(
    text: &mut String,
    universe: &Universe,
    publication: Publication,
) -> Result<(), AllocError> {
    let Publication {
        serial,
        lane,
        variant,
    } = publication;
    write!(text, "published {serial} {lane} ")?;
    push_variant(text, universe, variant)?;
    text.push_str("\n")
}

/// Publications, a line each.
pub fn push_history(
    text: &mut String,
    universe: &Universe,
    history: &[Publication],
) -> Result<(), AllocError> {
    for publication in history {
        push_published(text, universe, *publication)?;
    }
    Ok(())
}

const fn phase_text(phase: Phase) -> &'static str {
    match phase {
        Phase::Absent => " absent\n",
        Phase::Unpacked => " unpacked\n",
        Phase::Configured => " configured\n",
    }
}

/// What a chroot holds, a line `  NAME VERSION PHASE` for each present name.
pub fn push_chroot(
    text: &mut String,
    universe: &Universe,
    chroot: &Chroot,
) -> Result<(), AllocError> {
    for name in 0..universe.names() {
        if let Some(variant) = chroot.current(name) {
            text.push_str("  ")?;
            push_variant(text, universe, variant)?;
            text.push_str(phase_text(chroot.phase(name)))?;
        }
    }
    Ok(())
}
