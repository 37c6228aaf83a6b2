//! The names of the files that a command writes.

ghost use Rattle.std.specs.Prelude.{◌≡◌, ◌∷◌, [], IfOk, OnOk, codes, map, ◌++◌};
ghost use Rattle.std.specs.Option.{option_map};
ghost use Rattle.std.specs.String.{string_bytes};
ghost use Rattle.farm_commands.specs.TextFiles.{farm_files_in, file_in, file_of};
ghost use Rattle.farm_commands.specs.TextFiles as spec;

use import_farm::ImportedTexts;
use rest_farm::RestTexts;
use std::alloc::{AllocError, Global};

/// A file, the one beside it that is written first, and its text.
#[derive(Drop)]
pub struct TextFile<'a> {
    pub own: String,
    pub beside: String,
    pub text: &'a [u8],
}

/// What comes between the names of a folder and of a file in it.
fn slash_after(folder: &str) -> &'static str
    ensures { result.now ≡ spec.slash_after folder.now }
{
    if folder.as_bytes().ends_with(b"/") {
        ""
    } else {
        "/"
    }
}

/// The path of a file in a folder, with an ending.
fn path_in(alloc: Global, folder: &str, name: &str, ending: &str) -> Result<String, AllocError>
    ensures { IfOk result (λ path.
        string_bytes path ≡ spec.path_in folder.now (name.now ++ ending.now)) }
{
    let mut path = String::from_str(alloc, folder)?;
    path.push_str(slash_after(folder))?;
    path.push_str(name)?;
    path.push_str(ending)?;
    Ok(path)
}

fn push_file<'a>(
    alloc: Global,
    files: &mut Vec<TextFile<'a>>,
    folder: &str,
    name: &str,
    text: &'a [u8],
) -> Result<(), AllocError>
    ensures { OnOk result (map file_of files.new.items
        ≡ map file_of files.old.items ++ file_in folder.now name.now text.entry.now ∷ []) }
{
    let own = path_in(alloc, folder, name, "")?;
    let beside = path_in(alloc, folder, name, ".new")?;
    files.push(TextFile { own, beside, text })?;
    Ok(())
}

/// The files of a folder for the texts of a farm.
fn farm_files_in<'a>(
    alloc: Global,
    folder: &str,
    packages: &'a [u8],
    sources: &'a [u8],
    farm: &'a [u8],
) -> Result<Vec<TextFile<'a>>, AllocError>
    ensures { IfOk result (λ files. map file_of files.items
        ≡ farm_files_in folder.now packages.entry.now sources.entry.now farm.entry.now []) }
{
    let mut files = Vec::new(alloc);
    push_file(alloc, &mut files, folder, "packages", packages)?;
    push_file(alloc, &mut files, folder, "sources", sources)?;
    push_file(alloc, &mut files, folder, "farm", farm)?;
    Ok(files)
}

/// The files of a folder for the texts of a farm, and for the explicit wish if one was chosen.
pub fn files_in<'a>(
    alloc: Global,
    folder: &str,
    texts: &'a ImportedTexts,
    chosen: Option<&'a [u8]>,
) -> Result<Vec<TextFile<'a>>, AllocError>
    ensures { IfOk result (λ files. map file_of files.items
        ≡ spec.files_in folder.now texts.entry.now (option_map (λ text. text.now) chosen.entry)) }
{
    let mut files = farm_files_in(alloc, folder, &texts.packages, &texts.sources, &texts.farm)?;
    if let Some(text) = chosen {
        push_file(alloc, &mut files, folder, "wish", text)?;
    }
    Ok(files)
}

/// The files of a folder for the texts of a farm that goes on, and for a sketch of its lanes.
pub fn rest_files_in<'a>(
    alloc: Global,
    folder: &str,
    texts: &'a RestTexts,
    sketch: &'a [u8],
) -> Result<Vec<TextFile<'a>>, AllocError>
    ensures { IfOk result (λ files. map file_of files.items
        ≡ spec.rest_files_in folder.now texts.entry.now sketch.entry.now) }
{
    let mut files = farm_files_in(alloc, folder, &texts.packages, &texts.sources, &texts.farm)?;
    push_file(alloc, &mut files, folder, "sketch", sketch)?;
    Ok(files)
}
