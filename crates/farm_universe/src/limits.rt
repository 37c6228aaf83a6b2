//! How much the texts of a farm may hold.

/// Names of packages.
pub const MOST_NAMES: usize = 4096;

/// Relation entries of all packages as they are read, and those of all recipes after reduction.
pub const MOST_ENTRIES: usize = 65_536;

/// Entries that are kept of a relation field or a build while it is read: they tell that there are
/// too many.
pub const KEPT_ENTRIES: usize = MOST_ENTRIES + 1;

/// Versions of a name: as many as a word of the archive has bits.
pub const MOST_VARIANTS: usize = 64;

/// Sources.
pub const MOST_SOURCES: usize = 4096;

/// Recipes.
pub const MOST_RECIPES: usize = 1024;

/// Base chroots.
pub const MOST_BASES: usize = 64;

/// Installed-Size and Scratch in KiB, and Steps.
pub const MOST_SIZE: u64 = 4_294_967_295;

/// The capacity of a chroot, in KiB.
pub const MOST_CAPACITY: u64 = 999_999_999_999_999;
