//! What a refusal of a text is about.

ghost use Rattle.std.specs.Prelude.{◌≡◌, None};
ghost use Rattle.explain_faults.specs.Found.{no_facts};

use std::alloc::Global;

/// What a refusal of a text is about. Items are told by their places in their list, the first
/// being 0.
#[derive(Clone, Copy, PartialEq, Eq)]
pub enum Found {
    /// An item of the list of variants of the paragraph, or of its `Source`.
    Item(usize),
    /// An item that is the same variant as an earlier one, and that one.
    Again(usize, usize),
    /// The first member of a base chroot that keeps it from being settled, and what is wrong with it.
    Member(usize, Wrong),
    /// The members of a base chroot take more disk space than it can hold.
    TooLarge,
    /// The limit that the paragraph goes over.
    Over(Limit),
}

/// What is wrong with a member of a base chroot. Entries are told by their places in their field, and
/// members by those among the items of `Packages`, the first being 0.
#[derive(Clone, Copy, PartialEq, Eq)]
pub enum Wrong {
    /// Another version of its name is a member.
    Twice,
    /// No member satisfies this entry of its Depends.
    Depends(usize),
    /// No member satisfies this entry of its Pre-Depends.
    PreDepends(usize),
    /// It conflicts with this member, or breaks it.
    Excludes(usize),
}

/// A limit of a farm.
#[derive(Clone, Copy, PartialEq, Eq)]
pub enum Limit {
    Names,
    /// Relation entries of all packages.
    Entries,
    Sources,
    /// Base chroots.
    Bases,
    Recipes,
    /// Needs and clashes of all recipes.
    RecipeEntries,
}

impl Limit {
    /// The line that tells of it.
    pub fn text(self) -> &'static [u8] {
        match self {
            Limit::Names => b"  over the limit of 4,096 names\n",
            Limit::Entries => b"  over the limit of 65,536 relation entries of all packages\n",
            Limit::Sources => b"  over the limit of 4,096 sources\n",
            Limit::Bases => b"  over the limit of 64 base chroots\n",
            Limit::Recipes => b"  over the limit of 1,024 recipes\n",
            Limit::RecipeEntries => {
                b"  over the limit of 65,536 needs and clashes of all recipes\n"
            }
        }
    }
}

/// What a refusal of a text is about, as its line has it.
#[derive(Drop)]
pub struct FaultFacts {
    /// The field that is absent or cannot be read.
    pub field: Option<&'static [u8]>,
    /// The item of a list, by its place, the first being 0.
    pub item: Option<usize>,
    /// The line at which that item begins.
    pub item_line: Option<usize>,
    /// The word that is not known, or the word or value that cannot be read.
    pub word: Option<Vec<u8>>,
    /// The line of the plan that the refused one repeats.
    pub plan_line: Option<u32>,
}

impl FaultFacts {
    /// Nothing to tell.
    pub fn none() -> FaultFacts
        ensures { result ≡ no_facts }
    {
        FaultFacts {
            field: None,
            item: None,
            item_line: None,
            word: None,
            plan_line: None,
        }
    }
}

/// What a refusal of a text is about, and the line that tells of it: no byte where there is nothing
/// to tell.
#[derive(Drop)]
pub struct FaultNote {
    pub found: Option<Found>,
    pub facts: FaultFacts,
    pub text: Vec<u8>,
}

impl FaultNote {
    /// Nothing to tell.
    pub fn none(alloc: Global) -> FaultNote
        ensures found { result.found ≡ None }
        ensures facts { result.facts ≡ no_facts }
    {
        FaultNote::of(FaultFacts::none(), Vec::new(alloc))
    }

    /// A line on what is no item, no cause and no limit of the farm.
    pub fn of(facts: FaultFacts, text: Vec<u8>) -> FaultNote
        ensures found { result.found ≡ None }
        ensures facts { result.facts ≡ facts }
    {
        FaultNote {
            found: None,
            facts,
            text,
        }
    }
}
