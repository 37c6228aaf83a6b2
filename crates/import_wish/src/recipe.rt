//! The paragraphs of a wish that are recipes.

ghost use Rattle.std.specs.Prelude.{◌≡◌, IfOk};
ghost use Rattle.std.specs.Option.{option_map};
ghost use Rattle.deb_text.specs.Common.{Gives, lists};
ghost use Rattle.deb_relation.specs.View.{refusal_of};
ghost use Rattle.import_wish.specs.Head.{head_view};
ghost use Rattle.import_wish.specs.Recipe.{new_name_at, recipe_at, recipe_view, source_at, source_of, source_view, way_at, way_view};

use crate::error::{TWICE, UNKNOWN_SOURCE};
use crate::fields::{read_mode, read_words};
use crate::head::Head;
use crate::lists::{is_among, read_drops, read_outputs};
use deb_fields::{Paragraph, or_text, read_name, read_number_in};
use deb_relation::{Entry, Kind, RelationError, Relations};
use farm_model::Mode;
use std::alloc::{AllocError, Global};

/// The most steps, and the most KiB of scratch space.
pub const MOST_SIZE: u64 = 4_294_967_295;

/// The source of a build: its name, and its version, if that is said.
#[derive(Drop)]
pub struct WishedSource {
    pub name: Vec<u8>,
    pub version: Option<Vec<u8>>,
}

/// In which way a recipe is built: its mode, its profiles as words, and its steps and its scratch
/// space in KiB, if they are said.
#[derive(Drop)]
pub struct Way {
    pub mode: Mode,
    pub profiles: Vec<u8>,
    pub steps: Option<u64>,
    pub scratch: Option<u64>,
}

/// A build that is wanted. Of its outputs those are named that are wanted, if not all are; and as
/// words the names of packages on which what it gives does not depend.
#[derive(Drop)]
pub struct WishedRecipe {
    pub line: u32,
    pub name: Vec<u8>,
    pub source: WishedSource,
    pub way: Way,
    pub outputs: Option<Vec<Vec<u8>>>,
    pub drops: Vec<u8>,
}

/// The source that an entry names.
fn source_of(alloc: Global, entry: &Entry) -> Result<Option<WishedSource>, AllocError>
    ensures { IfOk result (λ source. option_map source_view source ≡ source_of entry.now) }
{
    let [atom] = entry.alternatives() else {
        return Ok(None);
    };
    if atom.qualifier().is_some() {
        return Ok(None);
    }
    let version = match atom.relation() {
        Some((_, version)) => Some(Vec::from_slice(alloc, version.text())?),
        None => None,
    };
    Ok(Some(WishedSource {
        name: Vec::from_slice(alloc, atom.name())?,
        version,
    }))
}

/// Reads the source of a recipe: `NAME`, or `NAME (= VERSION)`.
#[tactic(auto, unfolding(crate::specs::Recipe::source_at))]
fn read_source(alloc: Global, text: &[u8]) -> Result<WishedSource, RelationError>
    ensures { Gives refusal_of source_view result (source_at text.now) }
{
    let list = Relations::parse(alloc, text, Kind::Provide)?;
    let [entry] = list.entries() else {
        return Err(RelationError {
            code: UNKNOWN_SOURCE,
        });
    };
    match source_of(alloc, entry)? {
        Some(source) => Ok(source),
        None => Err(RelationError {
            code: UNKNOWN_SOURCE,
        }),
    }
}

/// Reads a name that is none of others.
#[tactic(auto, unfolding(crate::specs::Recipe::new_name_at))]
pub fn read_new_name(
    alloc: Global,
    others: &[Vec<u8>],
    text: &[u8],
) -> Result<Vec<u8>, RelationError>
    ensures { Gives refusal_of (λ name. name.items) result
        (new_name_at (lists others.now) text.now) }
{
    let name = read_name(alloc, text)?;
    if is_among(&name, others) {
        return Err(RelationError { code: TWICE });
    }
    Ok(name)
}

/// Reads the way in which a recipe is built.
#[tactic(auto, unfolding(crate::specs::Recipe::way_at))]
fn read_way(alloc: Global, head: &Head, paragraph: &Paragraph) -> Result<Way, RelationError>
    ensures { Gives refusal_of way_view result (way_at (head_view head.now) paragraph.now) }
{
    let mode = read_mode(paragraph.field(b"Mode"), head.mode)?;
    let profiles = read_words(alloc, or_text(paragraph.field(b"Profiles"), head.profiles))?;
    let steps = read_number_in(MOST_SIZE, paragraph.field(b"Steps"))?;
    let scratch = read_number_in(MOST_SIZE, paragraph.field(b"Scratch"))?;
    Ok(Way {
        mode,
        profiles,
        steps,
        scratch,
    })
}

/// Reads the paragraph of a recipe, behind recipes of other names.
///
/// # Errors
///
/// 201 where it has no name, 121 where that is none, 203 where another recipe has it; those of
/// relation fields, and 206 where the source is not one; 202 where the mode is none or a number
/// none, 131 where a profile is no word; 208, 205 and 203 for the outputs; 131, 121 and 203 for what
/// is dropped.
#[tactic(auto, unfolding(crate::specs::Recipe::recipe_at))]
pub fn read_recipe(
    alloc: Global,
    head: &Head,
    others: &[Vec<u8>],
    paragraph: &Paragraph,
) -> Result<WishedRecipe, RelationError>
    ensures { Gives refusal_of recipe_view result
        (recipe_at (head_view head.now) (lists others.now) paragraph.now) }
{
    let name = read_new_name(alloc, others, paragraph.needed(b"Recipe")?)?;
    let source = read_source(alloc, or_text(paragraph.field(b"Source"), &name))?;
    let way = read_way(alloc, head, paragraph)?;
    let outputs = read_outputs(alloc, paragraph.field(b"Outputs"))?;
    let drops = read_drops(alloc, or_text(paragraph.field(b"Drops"), b""))?;
    Ok(WishedRecipe {
        line: paragraph.line(),
        name,
        source,
        way,
        outputs,
        drops,
    })
}
