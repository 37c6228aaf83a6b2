//! The import of a wish that leaves a choice.

ghost use Rattle.std.specs.Prelude.{◌≡◌, ◌++◌, [], false, IfOk};
ghost use Rattle.deb_stanza.specs.Stanza.{paragraphs_at};
ghost use Rattle.import_farm.specs.Made.{IsBlockIn, IsOneOf};
ghost use Rattle.import_farm.specs.Notes.{HasNotes};
ghost use Rattle.import_farm.specs.declared.imported.Imported.TheVariants.{Texts};
ghost use Rattle.import_wish.specs.Targets.{leaves_choice_in};
ghost use Rattle.target_import.specs.ForTargets.{AreForTargets, AreMadeFor, HasNoTexts, IsOfExplicit, IsOfIndexes, IsOfParagraphs};

use crate::asked::Left;
use crate::explicit::{Chosen, choose};
use deb_profile::ArchNames;
use deb_stanza::Paragraphs;
use import_closure::{NameTable, PackageNames, Shelf, SourceShelf};
use import_farm::{
    Choice, Given, Imported, Inputs, Judged, Packages, Read, Sources, Stop, Tell, Watch, all_names,
    architectures_of, import, import_shelved, read_packages, read_sources, wish_of,
    wish_paragraphs,
};
use import_wish::{Wish, leaves_a_choice};
use std::alloc::{AllocError, Global};

/// Texts, what nothing in their farm meets, the lines on both, and the explicit wish.
#[derive(Drop)]
struct Made {
    judged: Judged,
    wish: Vec<u8>,
}

/// A wish that leaves a choice, as it was read, and the names of recipes that are forbidden.
#[derive(Clone, Copy)]
struct WishRead<'a> {
    text: &'a [u8],
    paragraphs: &'a Paragraphs,
    wish: &'a Wish<'a>,
    forbidden: &'a [&'a str],
}

/// The same with the names of the architecture, and the blocks of sources.
#[derive(Clone, Copy)]
struct Cut<'a> {
    text: &'a [u8],
    paragraphs: &'a Paragraphs,
    wish: &'a Wish<'a>,
    forbidden: &'a [&'a str],
    names: &'a [u8],
    architectures: &'a ArchNames,
    sources: &'a [&'a [u8]],
}

impl<'a> Cut<'a> {
    /// The wish that leaves a choice, over these packages.
    fn left(self, alloc: Global, packages: &'a Packages<'a>) -> Left<'a> {
        let wish = self.wish;
        let (mode, profiles) = match wish.choice() {
            Some(choice) => choice,
            None => (wish.head.mode, wish.head.profiles),
        };
        Left {
            alloc,
            read: Read {
                text: self.text,
                paragraphs: self.paragraphs,
                choice: None,
                names: self.names,
                sources: self.sources,
                of: Given {
                    wish,
                    packages,
                    architectures: self.architectures,
                },
            },
            mode,
            profiles,
            forbidden: self.forbidden,
        }
    }
}

/// Puts the lines that tell of a choice ahead of those of an import.
fn with_table(judged: Judged, table: Vec<u8>) -> Result<Judged, AllocError>
    requires { HasNotes judged.unmet.items judged.lines.items }
    ensures texts { IfOk result (λ told. told.texts ≡ judged.texts) }
    ensures unmet { IfOk result (λ told. told.unmet ≡ judged.unmet) }
    ensures noted { IfOk result (λ told. HasNotes told.unmet.items told.lines.items) }
{
    let mut lines = table;
    lines.extend_from_slice(&judged.lines)?;
    Ok(Judged {
        texts: judged.texts,
        unmet: judged.unmet,
        lines,
    })
}

/// The paragraphs of an explicit wish, and what it was made of.
#[derive(Clone, Copy)]
struct Explicit<'a> {
    text: &'a [u8],
    paragraphs: &'a Paragraphs,
    choice: Choice<'a>,
    names: &'a [u8],
    architectures: &'a ArchNames,
    sources: &'a [&'a [u8]],
}

/// Imports an explicit wish.
fn import_wish<T: Tell>(
    alloc: Global,
    explicit: Explicit,
    packages: &Packages,
    shelf: &mut Shelf,
    sources: &mut SourceShelf,
) -> Result<Judged, Stop>
    ensures texts { IfOk result (λ judged. IsOfParagraphs
        (IsOneOf packages.now.blocks.items) (IsOneOf explicit.entry.sources.now)
        explicit.entry.paragraphs.now judged.texts judged.unmet.items) }
    ensures noted { IfOk result (λ judged. HasNotes judged.unmet.items judged.lines.items) }
{
    let wish = wish_of(alloc, explicit.paragraphs)?;
    let read = Read {
        text: explicit.text,
        paragraphs: explicit.paragraphs,
        choice: Some(explicit.choice),
        names: explicit.names,
        sources: explicit.sources,
        of: Given {
            wish: &wish,
            packages,
            architectures: explicit.architectures,
        },
    };
    import_shelved::<T>(alloc, read, shelf, sources)
}

/// Refuses an explicit wish that leaves a choice.
fn judge_explicit(alloc: Global, wish: &[u8]) -> Result<(), Stop>
    ensures { IfOk result (λ _. leaves_choice_in wish.now ≡ false) }
{
    if leaves_a_choice(alloc, wish)? {
        return Err(Stop::Wrong);
    }
    Ok(())
}

/// Imports the explicit wish of a choice.
fn import_chosen<T: Tell>(
    alloc: Global,
    cut: Cut,
    packages: &Packages,
    chosen: &Chosen,
    shelf: &mut Shelf,
    sources: &mut SourceShelf,
) -> Result<Judged, Stop>
    ensures texts { IfOk result (λ judged. IsOfExplicit
        (IsOneOf packages.now.blocks.items) (IsOneOf cut.entry.sources.now)
        chosen.now.wish.items judged.texts judged.unmet.items) }
    ensures noted { IfOk result (λ judged. HasNotes judged.unmet.items judged.lines.items) }
    ensures explicit { IfOk result (λ _. leaves_choice_in chosen.now.wish.items ≡ false) }
{
    judge_explicit(alloc, &chosen.wish)?;
    let paragraphs = wish_paragraphs(alloc, &chosen.wish)?;
    let explicit = Explicit {
        text: &chosen.wish,
        paragraphs: &paragraphs,
        choice: Choice {
            text: cut.text,
            paragraphs: cut.paragraphs,
            notes: &chosen.notes,
        },
        names: cut.names,
        architectures: cut.architectures,
        sources: cut.sources,
    };
    import_wish::<T>(alloc, explicit, packages, shelf, sources)
}

/// Texts with the explicit wish, and the lines that tell of the choice ahead of the others.
fn made_with(judged: Judged, chosen: Chosen) -> Result<Made, AllocError>
    requires { HasNotes judged.unmet.items judged.lines.items }
    ensures texts { IfOk result (λ made. made.judged.texts ≡ judged.texts) }
    ensures unmet { IfOk result (λ made. made.judged.unmet ≡ judged.unmet) }
    ensures noted { IfOk result (λ made.
        HasNotes made.judged.unmet.items made.judged.lines.items) }
    ensures wish { IfOk result (λ made. made.wish ≡ chosen.wish) }
{
    let judged = with_table(judged, chosen.table)?;
    Ok(Made {
        judged,
        wish: chosen.wish,
    })
}

/// The same packages, of which those of these names are there at the beginning, if there are any names.
fn with_beginning<'a>(packages: Packages<'a>, begin: Option<PackageNames>) -> Packages<'a>
    ensures { result.blocks ≡ packages.entry.blocks }
{
    match begin {
        Some(names) => Packages {
            blocks: packages.blocks,
            target: packages.target,
            own: Some(names),
        },
        None => packages,
    }
}

/// Takes the names of what is there at the beginning from a choice.
fn take_beginning(chosen: &mut Chosen) -> Option<PackageNames> {
    chosen.begin.take()
}

/// Chooses among packages that may be looked at, and imports the explicit wish.
fn import_over<'a, T: Tell>(
    alloc: Global,
    cut: Cut<'a>,
    packages: Packages<'a>,
    shelf: &mut Shelf,
    sources: &mut SourceShelf,
) -> Result<Made, Stop>
    ensures texts { IfOk result (λ made. IsOfExplicit (IsOneOf packages.entry.blocks.items)
        (IsOneOf cut.entry.sources.now) made.wish.items made.judged.texts
        made.judged.unmet.items) }
    ensures noted { IfOk result (λ made.
        HasNotes made.judged.unmet.items made.judged.lines.items) }
    ensures explicit { IfOk result (λ made. leaves_choice_in made.wish.items ≡ false) }
{
    let mut chosen = choose::<T>(cut.left(alloc, &packages), shelf, sources)?;
    let begin = take_beginning(&mut chosen);
    let packages = with_beginning(packages, begin);
    let judged = import_chosen::<T>(alloc, cut, &packages, &chosen, shelf, sources)?;
    Ok(made_with(judged, chosen)?)
}

/// Chooses among packages of these blocks, of which nothing was read.
fn import_blocks<'a, T: Tell>(
    alloc: Global,
    cut: Cut<'a>,
    blocks: &[&[u8]],
    packages: Packages<'a>,
    names: NameTable,
) -> Result<Made, Stop>
    ensures texts { IfOk result (λ made. IsOfExplicit (IsOneOf packages.entry.blocks.items)
        (IsOneOf cut.entry.sources.now) made.wish.items made.judged.texts
        made.judged.unmet.items) }
    ensures noted { IfOk result (λ made.
        HasNotes made.judged.unmet.items made.judged.lines.items) }
    ensures explicit { IfOk result (λ made. leaves_choice_in made.wish.items ≡ false) }
{
    let mut shelf = Shelf::new(alloc, blocks, cut.architectures)?;
    let mut sources = SourceShelf {
        blocks: cut.sources,
        names,
        unreadable: Vec::new(alloc),
    };
    import_over::<T>(alloc, cut, packages, &mut shelf, &mut sources)
}

/// The names of the architecture, as a text and as they were read, and the blocks of sources.
#[derive(Clone, Copy)]
struct Around<'a> {
    names: &'a [u8],
    architectures: &'a ArchNames,
    sources: &'a [&'a [u8]],
}

/// A wish as it was read, with what stands around it.
fn cut_of<'a>(wish: WishRead<'a>, around: Around<'a>) -> Cut<'a>
    ensures { result.sources.now ≡ around.entry.sources.now }
{
    Cut {
        text: wish.text,
        paragraphs: wish.paragraphs,
        wish: wish.wish,
        forbidden: wish.forbidden,
        names: around.names,
        architectures: around.architectures,
        sources: around.sources,
    }
}

/// The same over packages and sources that were cut.
fn import_around<'a, T: Tell>(
    alloc: Global,
    wish: WishRead<'a>,
    around: Around<'a>,
    packages: Packages<'a>,
    names: NameTable,
) -> Result<Made, Stop>
    ensures texts { IfOk result (λ made. IsOfExplicit (IsOneOf packages.entry.blocks.items)
        (IsOneOf around.entry.sources.now) made.wish.items made.judged.texts
        made.judged.unmet.items) }
    ensures noted { IfOk result (λ made.
        HasNotes made.judged.unmet.items made.judged.lines.items) }
    ensures explicit { IfOk result (λ made. leaves_choice_in made.wish.items ≡ false) }
{
    let blocks = Vec::from_slice(alloc, &packages.blocks)?;
    import_blocks::<T>(alloc, cut_of(wish, around), &blocks, packages, names)
}

/// Chooses among packages and sources of which nothing was read.
fn import_cut<'a, T: Tell>(
    alloc: Global,
    wish: WishRead<'a>,
    names: Vec<u8>,
    architectures: ArchNames,
    packages: Packages<'a>,
    sources: Sources<'a>,
) -> Result<Made, Stop>
    ensures texts { IfOk result (λ made. IsOfExplicit (IsOneOf packages.entry.blocks.items)
        (IsOneOf sources.entry.blocks.items) made.wish.items made.judged.texts
        made.judged.unmet.items) }
    ensures noted { IfOk result (λ made.
        HasNotes made.judged.unmet.items made.judged.lines.items) }
    ensures explicit { IfOk result (λ made. leaves_choice_in made.wish.items ≡ false) }
{
    let source_names = sources.names;
    let around = Around {
        names: &names,
        architectures: &architectures,
        sources: &sources.blocks,
    };
    import_around::<T>(alloc, wish, around, packages, source_names)
}

/// Reads the indexes, and chooses among them.
fn import_read<'a, T: Tell, W: Watch>(
    alloc: Global,
    inputs: Inputs<'a>,
    wish: WishRead<'a>,
    watch: &mut W,
) -> Result<Made, Stop>
    ensures texts { IfOk result (λ made. IsOfIndexes inputs.entry made.wish.items
        made.judged.texts made.judged.unmet.items) }
    ensures noted { IfOk result (λ made.
        HasNotes made.judged.unmet.items made.judged.lines.items) }
    ensures explicit { IfOk result (λ made. leaves_choice_in made.wish.items ≡ false) }
{
    let names = all_names(alloc, &wish.wish.head.architectures)?;
    let architectures = architectures_of(alloc, &names)?;
    let packages = read_packages(
        alloc,
        &architectures,
        inputs.packages,
        inputs.archive,
        watch,
    )?;
    let sources = read_sources(alloc, inputs.sources, watch)?;
    let made = import_cut::<T>(alloc, wish, names, architectures, packages, sources)?;
    Ok(made)
}

/// Reads a wish of these paragraphs, and makes the texts of it.
fn import_paragraphs<T: Tell, W: Watch>(
    alloc: Global,
    inputs: Inputs,
    forbidden: &[&str],
    paragraphs: &Paragraphs,
    watch: &mut W,
) -> Result<Made, Stop>
    ensures texts { IfOk result (λ made. IsOfIndexes inputs.entry made.wish.items
        made.judged.texts made.judged.unmet.items) }
    ensures noted { IfOk result (λ made.
        HasNotes made.judged.unmet.items made.judged.lines.items) }
    ensures explicit { IfOk result (λ made. leaves_choice_in made.wish.items ≡ false) }
{
    let wish = wish_of(alloc, paragraphs)?;
    let read = WishRead {
        text: inputs.wish,
        paragraphs,
        wish: &wish,
        forbidden,
    };
    import_read::<T, W>(alloc, inputs, read, watch)
}

/// Reads a wish, and makes the texts of it.
fn import_text<T: Tell, W: Watch>(
    alloc: Global,
    inputs: Inputs,
    forbidden: &[&str],
    watch: &mut W,
) -> Result<Made, Stop>
    ensures texts { IfOk result (λ made. IsOfIndexes inputs.entry made.wish.items
        made.judged.texts made.judged.unmet.items) }
    ensures noted { IfOk result (λ made.
        HasNotes made.judged.unmet.items made.judged.lines.items) }
    ensures explicit { IfOk result (λ made. leaves_choice_in made.wish.items ≡ false) }
{
    let paragraphs = wish_paragraphs(alloc, inputs.wish)?;
    import_paragraphs::<T, W>(alloc, inputs, forbidden, &paragraphs, watch)
}

fn no_wish(alloc: Global, imported: Imported) -> (Imported, Vec<u8>)
    ensures imported { result.0 ≡ imported }
    ensures wish { result.1.items ≡ [] }
{
    (imported, Vec::new(alloc))
}

/// Texts, what nothing in their farm meets, the lines on both, and the explicit wish.
fn answer_of(made: Made) -> (Imported, Vec<u8>)
    ensures imported { result.0 ≡ Texts made.judged.texts made.judged.unmet made.judged.lines }
    ensures wish { result.1 ≡ made.wish }
{
    let Made { judged, wish } = made;
    let Judged {
        texts,
        unmet,
        lines,
    } = judged;
    (Imported::Texts(texts, unmet, lines), wish)
}

/// The answer where there are no texts.
fn answer_without<T: Tell>(
    alloc: Global,
    inputs: Inputs,
    stop: Stop,
) -> Result<(Imported, Vec<u8>), AllocError>
    ensures imported { IfOk result (λ answer. HasNoTexts answer.0) }
    ensures wish { IfOk result (λ answer. answer.1.items ≡ []) }
{
    match stop {
        Stop::Refused(refusal) => {
            let lines = T::refusal_lines(alloc, inputs, &refusal)?;
            Ok(no_wish(alloc, Imported::Refused(lines)))
        }
        Stop::Told(lines) => Ok(no_wish(alloc, Imported::Refused(lines))),
        Stop::Wrong => Ok(no_wish(alloc, Imported::Wrong)),
        Stop::OutOfMemory => Err(AllocError),
    }
}

/// Makes the texts of a farm of a wish that leaves a choice and of indexes, without recipes of these
/// names, and tells of them in the words of `T`; and gives the explicit wish that they are made of, which
/// is empty where there are no texts. Of a wish that leaves no choice the same as [`import`], and no
/// explicit wish.
pub fn import_for_targets<T: Tell, W: Watch>(
    alloc: Global,
    inputs: Inputs,
    forbidden: &[&str],
    watch: &mut W,
) -> Result<(Imported, Vec<u8>), AllocError>
    ensures { IfOk result (AreForTargets inputs.entry) }
{
    if !leaves_a_choice(alloc, inputs.wish)? {
        let imported = import::<T, W>(alloc, inputs, watch)?;
        return Ok(no_wish(alloc, imported));
    }
    match import_text::<T, W>(alloc, inputs, forbidden, watch) {
        Ok(made) => Ok(answer_of(made)),
        Err(stop) => answer_without::<T>(alloc, inputs, stop),
    }
}
