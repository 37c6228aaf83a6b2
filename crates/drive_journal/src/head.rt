//! The lines that say which texts a journal is of.

ghost use Rattle.std.specs.Prelude.{◌≡◌, ◌++◌, IfOk, OnOk, true};
ghost use Rattle.std.specs.String.{string_bytes};
ghost use Rattle.drive_journal.specs.HeadText.{head_text, is_stamp, run_line, run_name, stamp_text, sum_line, sum_of, sums_of};

use deb_text::push_pieces;
use sha2::{Digest, Sha256};
use std::alloc::{AllocError, Global};
use std::marker::Model;

/// The four texts that a run is of.
#[derive(Clone, Copy)]
pub struct Texts<'t> {
    pub packages: &'t [u8],
    pub sources: &'t [u8],
    pub farm: &'t [u8],
    pub plan: &'t [u8],
}

/// The SHA-256 digests of four texts, each as 64 hex digits.
#[derive(Drop)]
pub struct Sums {
    packages: String,
    sources: String,
    farm: String,
    plan: String,
}

impl Model for Sums {
    ghost use Rattle.std.specs.String.{string_bytes};
    ghost use Rattle.drive_journal.specs.HeadText.{TextSums};

    ghost Value = { TextSums };

    ghost view = { λ s. record {
      packages = string_bytes s.packages;
      sources = string_bytes s.sources;
      farm = string_bytes s.farm;
      plan = string_bytes s.plan;
    } };
}

fn sum_of(alloc: Global, text: &[u8]) -> Result<String, AllocError>
    ensures { IfOk result (λ sum. string_bytes sum ≡ sum_of text.now) }
{
    hex::encode(alloc, Sha256::digest(text))
}

impl Sums {
    /// The digests of these texts.
    pub fn of(alloc: Global, texts: Texts<'_>) -> Result<Sums, AllocError>
        ensures { IfOk result (λ sums. sums ≡ sums_of texts.entry.packages.now
            texts.entry.sources.now texts.entry.farm.now texts.entry.plan.now) }
    {
        Ok(Sums {
            packages: sum_of(alloc, texts.packages)?,
            sources: sum_of(alloc, texts.sources)?,
            farm: sum_of(alloc, texts.farm)?,
            plan: sum_of(alloc, texts.plan)?,
        })
    }
}

fn push_sum(head: &mut Vec<u8>, name: &[u8], sum: &str) -> Result<(), AllocError>
    ensures { OnOk result (head.new.items ≡ head.old.items ++ sum_line name.now sum.now) }
{
    push_pieces(head, &[name, b" ", sum.as_bytes(), b"\n"])
}

/// Gives the head of a journal of texts with these digests, up to the line of its run.
pub fn head_of(alloc: Global, sums: &Sums) -> Result<Vec<u8>, AllocError>
    ensures { IfOk result (λ head. head.items ≡ head_text sums.now) }
{
    let mut head = Vec::from_slice(alloc, b"journal 1\n")?;
    push_sum(&mut head, b"packages", sums.packages.as_str())?;
    push_sum(&mut head, b"sources", sums.sources.as_str())?;
    push_sum(&mut head, b"farm", sums.farm.as_str())?;
    push_sum(&mut head, b"plan", sums.plan.as_str())?;
    Ok(head)
}

/// Gives the stamp of a run that begins so many nanoseconds after 1970, as 16 hex digits.
pub fn stamp_of(alloc: Global, nanoseconds: u64) -> Result<String, AllocError>
    ensures text { IfOk result (λ stamp. string_bytes stamp ≡ stamp_text nanoseconds) }
    ensures stamp { IfOk result (λ stamp. is_stamp (string_bytes stamp) ≡ true) }
{
    hex::encode(alloc, nanoseconds.to_be_bytes())
}

/// Gives the line of a journal that tells the stamp of its run.
pub fn run_line_of(alloc: Global, stamp: &[u8]) -> Result<Vec<u8>, AllocError>
    ensures { IfOk result (λ line. line.items ≡ run_line stamp.now) }
{
    let mut line = Vec::from_slice(alloc, b"run ")?;
    push_pieces(&mut line, &[stamp, b"\n"])?;
    Ok(line)
}

/// The four digests, one behind the other.
fn joined(alloc: Global, sums: &Sums) -> Result<Vec<u8>, AllocError>
    ensures { IfOk result (λ text. text.items
        ≡ sums.now.packages ++ sums.now.sources ++ sums.now.farm ++ sums.now.plan) }
{
    let mut text = Vec::from_slice(alloc, sums.packages.as_bytes())?;
    text.extend_from_slice(sums.sources.as_bytes())?;
    text.extend_from_slice(sums.farm.as_bytes())?;
    text.extend_from_slice(sums.plan.as_bytes())?;
    Ok(text)
}

/// Gives the name of a run, by which drivers may name their jobs: 16 hex digits of its texts, and
/// its stamp.
pub fn run_name_of(alloc: Global, sums: &Sums, stamp: &[u8]) -> Result<Vec<u8>, AllocError>
    ensures { IfOk result (λ name. name.items ≡ run_name sums.now stamp.now) }
{
    let digest = Sha256::digest(joined(alloc, sums)?);
    let digits = hex::encode(alloc, &digest[..8])?;
    let mut name = Vec::from_slice(alloc, digits.as_bytes())?;
    push_pieces(&mut name, &[b"-", stamp])?;
    Ok(name)
}
