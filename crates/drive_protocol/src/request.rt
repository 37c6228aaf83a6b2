//! The line by which a driver is asked for something, written to a sink.

ghost use Rattle.std.specs.Prelude.{◌≡◌, ◌++◌, is_err};
ghost use Rattle.deb_text.specs.Lists.{lists};
ghost use Rattle.drive_protocol.specs.RequestText as spec;
ghost use Rattle.drive_protocol.specs.RequestText.{head_text, asked_words, instruction_line, open_line, unpack_line, variant_words, variants_words};
ghost use Rattle.farm_model.specs.Chroot.{slot};
ghost use Rattle.report_sink.specs.Sinks.{IsWritten};

use chroot_state::Chroot;
use farm_universe::{Universe, Variant};
use itoa::Buffer;
use plan_reader::{Instruction, Members, name_of, version_of};
use report_sink::{Sink, WriteFailed, whether_written, write_pieces, write_text};

/// Which lane is asked, at which instruction, counted from 1; the name of its base chroot; and
/// whether it was asked before.
#[derive(Clone, Copy)]
pub struct Head<'a> {
    pub again: bool,
    pub lane: &'a [u8],
    pub number: u32,
    pub chroot: &'a [u8],
}

fn write_head<S: Sink>(out: &mut S, head: Head<'_>) -> Result<(), WriteFailed>
    ensures written { IsWritten (S.state out.old) (S.state out.new)
        (head_text head.entry.again head.entry.lane.now head.entry.number head.entry.chroot.now) }
    ensures told { is_err result ≡ (S.state out.new).failed }
{
    let mut digits = Buffer::new();
    let number = digits.format(head.number);
    let word: &[u8] = if head.again { b"again " } else { b"start " };
    write_pieces(
        out,
        &[word, head.lane, b" ", number.as_bytes(), b" ", head.chroot],
    )
}

fn write_variant<S: Sink>(
    out: &mut S,
    universe: &Universe,
    variant: Variant,
) -> Result<(), WriteFailed>
    ensures written { IsWritten (S.state out.old) (S.state out.new)
        (variant_words universe.now variant) }
    ensures told { is_err result ≡ (S.state out.new).failed }
{
    let name = name_of(universe, variant.name);
    write_pieces(out, &[b" ", name, b" ", version_of(universe, variant)])
}

fn write_variants<S: Sink>(
    out: &mut S,
    universe: &Universe,
    variants: &[Variant],
) -> Result<(), WriteFailed>
    ensures written { IsWritten (S.state out.old) (S.state out.new)
        (variants_words universe.now variants.now) }
    ensures told { is_err result ≡ (S.state out.new).failed }
{
    for variant in variants {
        write_variant(out, universe, *variant)?;
    }
    whether_written(out)
}

fn write_held<S: Sink>(
    out: &mut S,
    universe: &Universe,
    chroot: &Chroot,
    name: u32,
) -> Result<(), WriteFailed>
    ensures written { IsWritten (S.state out.old) (S.state out.new)
        (spec.held_words universe.now name (slot chroot.now.slots name)) }
    ensures told { is_err result ≡ (S.state out.new).failed }
{
    match chroot.current(name) {
        Some(variant) => write_variant(out, universe, variant),
        None => whether_written(out),
    }
}

fn write_each_held<S: Sink>(
    out: &mut S,
    universe: &Universe,
    chroot: &Chroot,
    members: &[u32],
) -> Result<(), WriteFailed>
    ensures written { IsWritten (S.state out.old) (S.state out.new)
        (spec.members_words universe.now chroot.now.slots members.now) }
    ensures told { is_err result ≡ (S.state out.new).failed }
{
    for name in members {
        write_held(out, universe, chroot, *name)?;
    }
    whether_written(out)
}

fn write_set<S: Sink>(
    out: &mut S,
    universe: &Universe,
    chroot: &Chroot,
    word: &[u8],
    members: &Members,
) -> Result<(), WriteFailed>
    ensures written { IsWritten (S.state out.old) (S.state out.new)
        (word.now ++ spec.members_words universe.now chroot.now.slots members.now) }
    ensures told { is_err result ≡ (S.state out.new).failed }
{
    write_text(out, word)?;
    write_each_held(out, universe, chroot, members.as_slice())
}

fn recipe_words(recipes: &[Vec<u8>], recipe: u32) -> &[u8]
    ensures { result.now ≡ spec.recipe_words (lists recipes.now) recipe }
{
    match recipes.get(recipe as usize) {
        Some(words) => words.as_slice(),
        None => b"",
    }
}

fn write_build<S: Sink>(
    out: &mut S,
    universe: &Universe,
    recipes: &[Vec<u8>],
    recipe: u32,
) -> Result<(), WriteFailed>
    ensures written { IsWritten (S.state out.old) (S.state out.new)
        (spec.build_words universe.now (lists recipes.now) recipe) }
    ensures told { is_err result ≡ (S.state out.new).failed }
{
    let (name, words) = (universe.recipe_name(recipe), recipe_words(recipes, recipe));
    write_pieces(out, &[b" build ", name, words, b" ,"])?;
    write_variants(out, universe, universe.outputs(recipe))
}

fn write_publish<S: Sink>(out: &mut S, universe: &Universe, recipe: u32) -> Result<(), WriteFailed>
    ensures written { IsWritten (S.state out.old) (S.state out.new)
        (spec.publish_words universe.now recipe) }
    ensures told { is_err result ≡ (S.state out.new).failed }
{
    write_pieces(out, &[b" publish ", universe.recipe_name(recipe)])?;
    write_variants(out, universe, universe.outputs(recipe))
}

#[tactic(auto, unfolding(crate::specs::RequestText::asked_words))]
fn write_asked<S: Sink>(
    out: &mut S,
    universe: &Universe,
    recipes: &[Vec<u8>],
    chroot: &Chroot,
    instruction: &Instruction,
) -> Result<(), WriteFailed>
    ensures written { IsWritten (S.state out.old) (S.state out.new)
        (asked_words universe.now (lists recipes.now) chroot.now.slots instruction.now) }
    ensures told { is_err result ≡ (S.state out.new).failed }
{
    match instruction {
        Instruction::Configure(members) => {
            write_set(out, universe, chroot, b" configure", members)
        }
        Instruction::Deconfigure(members) => {
            write_set(out, universe, chroot, b" deconfigure", members)
        }
        Instruction::Remove(members) => write_set(out, universe, chroot, b" remove", members),
        Instruction::Build(recipe) => write_build(out, universe, recipes, *recipe),
        Instruction::Publish(recipe) => write_publish(out, universe, *recipe),
        _ => whether_written(out),
    }
}

/// Asks for what an instruction says, in a chroot. `recipes` has the words of each recipe beside
/// its name.
///
/// # Errors
///
/// [`WriteFailed`] where the sink has failed. It has then taken a first part of the line.
pub fn write_instruction<S: Sink>(
    out: &mut S,
    head: Head<'_>,
    universe: &Universe,
    recipes: &[Vec<u8>],
    chroot: &Chroot,
    instruction: &Instruction,
) -> Result<(), WriteFailed>
    ensures written { IsWritten (S.state out.old) (S.state out.new)
        (instruction_line (head_text head.entry.again head.entry.lane.now head.entry.number
        head.entry.chroot.now)
        (asked_words universe.now (lists recipes.now) chroot.now.slots instruction.now)) }
    ensures told { is_err result ≡ (S.state out.new).failed }
{
    write_head(out, head)?;
    write_asked(out, universe, recipes, chroot, instruction)?;
    write_text(out, b"\n")
}

/// Asks for the unpack of this very variant.
///
/// # Errors
///
/// [`WriteFailed`] where the sink has failed. It has then taken a first part of the line.
pub fn write_unpack<S: Sink>(
    out: &mut S,
    head: Head<'_>,
    universe: &Universe,
    variant: Variant,
) -> Result<(), WriteFailed>
    ensures written { IsWritten (S.state out.old) (S.state out.new)
        (unpack_line (head_text head.entry.again head.entry.lane.now head.entry.number
        head.entry.chroot.now) universe.now variant) }
    ensures told { is_err result ≡ (S.state out.new).failed }
{
    write_head(out, head)?;
    write_text(out, b" unpack")?;
    write_variant(out, universe, variant)?;
    write_text(out, b"\n")
}

/// Asks for a chroot with these variants, configured.
///
/// # Errors
///
/// [`WriteFailed`] where the sink has failed. It has then taken a first part of the line.
pub fn write_open<S: Sink>(
    out: &mut S,
    head: Head<'_>,
    universe: &Universe,
    packages: &[Variant],
) -> Result<(), WriteFailed>
    ensures written { IsWritten (S.state out.old) (S.state out.new)
        (open_line (head_text head.entry.again head.entry.lane.now head.entry.number
        head.entry.chroot.now) universe.now packages.now) }
    ensures told { is_err result ≡ (S.state out.new).failed }
{
    write_head(out, head)?;
    write_text(out, b" open")?;
    write_variants(out, universe, packages)?;
    write_text(out, b"\n")
}
