//! The texts of the farm that goes on where a run has stopped.

ghost use Rattle.std.specs.Prelude.{◌≡◌, IfOk, true};
ghost use Rattle.std.specs.List.{list_all};
ghost use Rattle.leg_laws.specs.Named.{is_listed};
ghost use Rattle.rest_farm.specs.declared.judgement.Judged.TheVariants.{Right};
ghost use Rattle.rest_texts.specs.Afters.{OfRest};
ghost use Rattle.rest_texts.specs.Rests.{IsRestOf};
ghost use Rattle.rest_texts.specs.Words.{items_came, items_withdrawn};

use crate::archives::{Archives, Known, NamedItems, archives_of, named_items};
use crate::control::{ControlText, Keyed, line_at};
use crate::farm_text::{Origin, farm_text};
use crate::lists::{distinct, listed, push_items};
use crate::notes::{Made, lines_of};
use crate::packages::{Farm, MadePackages, headed, packages_of};
use crate::past::Past;
use crate::pending::{Pending, judge_pending};
use crate::settled::{Settled, names_of, published_names, settle};
use crate::sketch::sketch_by;
use crate::stop::{Stop, refused_at, refused_made};
use crate::wanted::{Earlier, RECIPE, wanted_recipes};
use crate::words::Said;
use deb_text::Fault;
use deb_text::files::{FARM, PACKAGES, SOURCES};
use drive_replay::Follower;
use farm_universe::ABSENT;
use rest_farm::{Claims, Item, Items, Judged, RestTexts, judge};
use sha2::{Digest, Sha256};
use std::alloc::{AllocError, Global};

/// A run that has stopped: its core, as its journal leads to it; its name, and the whole lines of its
/// journal; and its texts.
#[derive(Clone, Copy)]
pub struct Stopped<'a> {
    pub run: &'a Follower<'a>,
    pub name: &'a [u8],
    pub journal: &'a [u8],
    pub packages: &'a [u8],
    pub sources: &'a [u8],
    pub farm: &'a [u8],
}

/// The texts that are given in place of those of the run, and a sketch in place of the one of its
/// lanes.
#[derive(Clone, Copy)]
pub struct Given<'a> {
    pub packages: Option<&'a [u8]>,
    pub sources: Option<&'a [u8]>,
    pub farm: Option<&'a [u8]>,
    pub sketch: Option<&'a [u8]>,
}

/// What comes of a run that has stopped: the texts of the farm that goes on, a sketch, and lines that
/// tell of it; the lines of a refusal; or that the texts that were made are of another farm, which is
/// a fault of this program.
#[derive(Drop)]
pub enum Rest {
    Texts(RestTexts, Vec<u8>, Vec<u8>),
    Refused(Vec<u8>),
    Wrong,
}

/// What is asked: the run, the texts that are given, and the words.
#[derive(Clone, Copy)]
struct Question<'a> {
    of: Stopped<'a>,
    given: Given<'a>,
    said: Said<'a>,
}

/// The farm of the run, and the one that is wanted.
#[derive(Clone, Copy)]
struct Farms<'a> {
    earlier: Earlier<'a>,
    wanted: Farm<'a>,
}

/// What is in archives, and what words name.
#[derive(Clone, Copy)]
struct Stock<'a> {
    archives: &'a Archives,
    named: &'a NamedItems,
}

fn are_all_in(list: &Items, items: &[Item]) -> bool
    ensures { result ≡ list_all (λ i. is_listed list.now i) items.now }
{
    items.iter().all(|item| list.has_item(item))
}

/// Reads texts that were made, and looks whether they are of the farm that goes on, and follow the
/// words.
fn judge_made(
    alloc: Global,
    of: Claims<'_>,
    named: &NamedItems,
    texts: &RestTexts,
) -> Result<Judged, AllocError>
    ensures { IfOk result (λ judged. judged ≡ Right
        → IsRestOf of.entry.run.now named.now.came named.now.withdrawn texts.now) }
{
    if !are_all_in(&named.came, of.brought.list()) {
        return Ok(Judged::Wrong);
    }
    if !are_all_in(of.gone, named.withdrawn.list()) {
        return Ok(Judged::Wrong);
    }
    judge(alloc, of, texts)
}

/// The text of a file among those that were made.
fn made_text(texts: &RestTexts, file: u8) -> &[u8] {
    match file {
        PACKAGES => &texts.packages,
        SOURCES => &texts.sources,
        _ => &texts.farm,
    }
}

fn refused_text(alloc: Global, texts: &RestTexts, fault: Fault) -> Stop {
    let line = line_at(made_text(texts, fault.file), fault.line);
    refused_made(alloc, fault, line)
}

/// The digest of the lines of a journal.
fn sum_of(alloc: Global, journal: &[u8]) -> Result<String, AllocError> {
    hex::encode(alloc, Sha256::digest(journal))
}

fn farm_of(
    alloc: Global,
    asked: Question<'_>,
    farms: Farms<'_>,
    stock: Stock<'_>,
    settled: &Settled,
    pending: &Pending,
) -> Result<Vec<u8>, AllocError> {
    let sum = sum_of(alloc, asked.of.journal)?;
    let pending = pending.kept(alloc, &stock.archives.archive)?;
    let origin = Origin {
        run: asked.of.name,
        sum: sum.as_bytes(),
        archives: stock.archives,
        pending: &pending,
    };
    farm_text(alloc, farms.wanted, origin, settled)
}

/// Gives texts out that were made, if they are right.
fn judged(
    alloc: Global,
    asked: Question<'_>,
    stock: Stock<'_>,
    settled: &Settled,
    texts: RestTexts,
    told: (Vec<u8>, Vec<u8>),
) -> Result<Rest, Stop>
    requires came { stock.named.now.came ≡ items_came asked.said }
    requires withdrawn { stock.named.now.withdrawn ≡ items_withdrawn asked.said }
    ensures { IfOk result (OfRest (IsRestOf asked.entry.of.run.now.core
        (items_came asked.entry.said) (items_withdrawn asked.entry.said))) }
{
    let claims = Claims {
        run: &asked.of.run.core,
        brought: &stock.archives.brought,
        gone: &stock.archives.gone,
        names: names_of(&settled.said, &settled.published),
        recipes: &settled.recipes,
    };
    match judge_made(alloc, claims, stock.named, &texts)? {
        Judged::Right => Ok(Rest::Texts(texts, told.0, told.1)),
        Judged::Refused(fault) => Err(refused_text(alloc, &texts, fault)),
        Judged::Wrong => Ok(Rest::Wrong),
    }
}

/// The texts of the farm that goes on, given that of its packages.
fn texts_of(
    alloc: Global,
    asked: Question<'_>,
    farms: Farms<'_>,
    stock: Stock<'_>,
    settled: &Settled,
    made: (&Pending, Vec<u8>),
) -> Result<RestTexts, AllocError> {
    let (pending, packages) = made;
    let farm = farm_of(alloc, asked, farms, stock, settled, pending)?;
    let sources = headed(alloc, asked.given.sources.unwrap_or(asked.of.sources))?;
    Ok(RestTexts {
        packages,
        sources,
        farm,
    })
}

/// The sketch, and the lines that tell of the farm, given what of its packages comes from the old
/// text, and what has other fields than there.
fn told_of(
    alloc: Global,
    asked: Question<'_>,
    farms: Farms<'_>,
    stock: Stock<'_>,
    settled: &Settled,
    of: (&[Item], &[Item]),
) -> Result<(Vec<u8>, Vec<u8>), AllocError> {
    let run = asked.of.run;
    let sketch = sketch_by(alloc, run, farms.wanted, settled, asked.given.sketch)?;
    let made = Made {
        run,
        earlier: farms.earlier,
        farm: farms.wanted,
        settled,
        archives: stock.archives,
        carried: of.0,
        changed: of.1,
        sketch: &sketch,
    };
    let lines = lines_of(alloc, made)?;
    Ok((sketch.into_text(), lines))
}

/// Makes the texts, and gives them out if they are right.
fn rest_settled(
    alloc: Global,
    asked: Question<'_>,
    farms: Farms<'_>,
    stock: Stock<'_>,
    settled: &Settled,
    pending: &Pending,
) -> Result<Rest, Stop>
    requires came { stock.named.now.came ≡ items_came asked.said }
    requires withdrawn { stock.named.now.withdrawn ≡ items_withdrawn asked.said }
    ensures { IfOk result (OfRest (IsRestOf asked.entry.of.run.now.core
        (items_came asked.entry.said) (items_withdrawn asked.entry.said))) }
{
    let archive = &stock.archives.archive;
    let (old, given) = (asked.of.packages, asked.given.packages);
    let made = packages_of(alloc, old, given, archive, farms.wanted, settled)?;
    let MadePackages {
        text,
        carried,
        changed,
    } = made;
    let told = told_of(alloc, asked, farms, stock, settled, (&carried, &changed))?;
    let texts = texts_of(alloc, asked, farms, stock, settled, (pending, text))?;
    judged(alloc, asked, stock, settled, texts, told)
}

/// Refuses what open publishes may have put into the archive (725).
fn pending_of(
    alloc: Global,
    asked: Question<'_>,
    farms: Farms<'_>,
    settled: &Settled,
) -> Result<Pending, Stop> {
    let run = asked.of.run;
    let before = farms.earlier.farm.value(0, b"Pending");
    let pending = Pending::of(alloc, run, &farms.earlier.past.left, before)?;
    for (recipe, fate) in settled.recipes.iter().zip(&settled.fates) {
        if fate.is_left() {
            judge_pending(alloc, run, &pending, *fate, recipe)?;
        }
    }
    Ok(pending)
}

fn settled_of(
    alloc: Global,
    asked: Question<'_>,
    farms: Farms<'_>,
    archives: &Archives,
) -> Result<Settled, Stop> {
    let earlier = farms.earlier;
    let done = earlier.farm.value(0, b"Done");
    let universe = asked.of.run.core.universe();
    let published = published_names(alloc, universe, earlier.past, done)?;
    let recipes = wanted_recipes(alloc, earlier, farms.wanted.text, farms.wanted.recipes)?;
    settle(alloc, archives, asked.said.recipes, published, recipes)
}

/// Goes on from what is in archives.
fn rest_stocked(
    alloc: Global,
    asked: Question<'_>,
    farms: Farms<'_>,
    stock: Stock<'_>,
) -> Result<Rest, Stop>
    requires came { stock.named.now.came ≡ items_came asked.said }
    requires withdrawn { stock.named.now.withdrawn ≡ items_withdrawn asked.said }
    ensures { IfOk result (OfRest (IsRestOf asked.entry.of.run.now.core
        (items_came asked.entry.said) (items_withdrawn asked.entry.said))) }
{
    let settled = settled_of(alloc, asked, farms, stock.archives)?;
    let pending = pending_of(alloc, asked, farms, &settled)?;
    rest_settled(alloc, asked, farms, stock, &settled, &pending)
}

fn gone_before(alloc: Global, farms: Farms<'_>) -> Result<Vec<Item>, AllocError> {
    let mut gone = listed(alloc, farms.earlier.farm.value(0, b"Withdrawn"))?;
    push_items(
        &mut gone,
        &listed(alloc, farms.wanted.text.value(0, b"Withdrawn"))?,
    )?;
    Ok(gone)
}

/// Goes on from what is known of archives.
fn rest_known(
    alloc: Global,
    asked: Question<'_>,
    farms: Farms<'_>,
    known: Known<'_>,
) -> Result<Rest, Stop>
    ensures { IfOk result (OfRest (IsRestOf asked.entry.of.run.now.core
        (items_came asked.entry.said) (items_withdrawn asked.entry.said))) }
{
    let named = named_items(alloc, known, asked.said)?;
    let archives = archives_of(alloc, known, &named)?;
    let stock = Stock {
        archives: &archives,
        named: &named,
    };
    rest_stocked(alloc, asked, farms, stock)
}

/// Goes on from the farm of the run, and the one that is wanted.
fn rest_wanted(alloc: Global, asked: Question<'_>, farms: Farms<'_>) -> Result<Rest, Stop>
    ensures { IfOk result (OfRest (IsRestOf asked.entry.of.run.now.core
        (items_came asked.entry.said) (items_withdrawn asked.entry.said))) }
{
    let gone = gone_before(alloc, farms)?;
    let archive = farms.wanted.text.value(0, b"Archive");
    let given = distinct(alloc, listed(alloc, archive)?)?;
    let known = Known {
        left: &farms.earlier.past.left,
        given: &given,
        gone: &gone,
    };
    rest_known(alloc, asked, farms, known)
}

/// Goes on from the farm texts of the run and of what is wanted.
fn rest_read(
    alloc: Global,
    asked: Question<'_>,
    old: &ControlText<'_>,
    new: &ControlText<'_>,
) -> Result<Rest, Stop>
    ensures { IfOk result (OfRest (IsRestOf asked.entry.of.run.now.core
        (items_came asked.entry.said) (items_withdrawn asked.entry.said))) }
{
    if new.count() == 0 {
        return Err(refused_at(alloc, Fault::place(FARM, 0, ABSENT)));
    }
    let recipes = Keyed::of(alloc, old, 1, RECIPE)?;
    let past = Past::of(alloc, asked.of.run, old.value(0, b"Archive"))?;
    let wanted = Keyed::of(alloc, new, 1, RECIPE)?;
    let farms = Farms {
        earlier: Earlier {
            farm: old,
            recipes: &recipes,
            past: &past,
        },
        wanted: Farm {
            text: new,
            recipes: &wanted,
        },
    };
    rest_wanted(alloc, asked, farms)
}

fn read_farm(alloc: Global, text: &[u8]) -> Result<ControlText<'_>, Stop> {
    match ControlText::read(alloc, text) {
        Ok(text) => Ok(text),
        Err(fault) => Err(refused_at(alloc, fault.in_file(FARM))),
    }
}

fn rest_asked(alloc: Global, asked: Question<'_>) -> Result<Rest, Stop>
    ensures { IfOk result (OfRest (IsRestOf asked.entry.of.run.now.core
        (items_came asked.entry.said) (items_withdrawn asked.entry.said))) }
{
    let old = read_farm(alloc, asked.of.farm)?;
    let new = read_farm(alloc, asked.given.farm.unwrap_or(asked.of.farm))?;
    rest_read(alloc, asked, &old, &new)
}

/// Makes the texts of the farm that goes on where a run has stopped: what the run has left in the
/// archive, what came by hand and is named, and the recipes that are left; and a sketch of the lanes.
pub fn rest_of(
    alloc: Global,
    of: Stopped<'_>,
    given: Given<'_>,
    said: Said<'_>,
) -> Result<Rest, AllocError>
    ensures { IfOk result (OfRest (IsRestOf of.entry.run.now.core (items_came said.entry)
        (items_withdrawn said.entry))) }
{
    match rest_asked(alloc, Question { of, given, said }) {
        Ok(rest) => Ok(rest),
        Err(Stop::Refused(lines)) => Ok(Rest::Refused(lines)),
        Err(Stop::OutOfMemory) => Err(AllocError),
    }
}
