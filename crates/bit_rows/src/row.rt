//! A row of words, and what it does with other rows.

ghost use Rattle.std.specs.Prelude.{◌≡◌, ◌<◌, ◌≤◌, ◌↔◌, IsTrue, IsOk, IfOk, OnOk, OnErr, length, replicate, slice_index, slice_set};
ghost use Rattle.clause_kernel.specs.Kernels.{hits, met, within, same_rows, joined, common, remaining};
ghost use Rattle.bit_rows.specs.Sets.{variants_of, HasNone, IsWordOf, IsSubset, HaveSame, HaveCommon, HasNameInside, IsUnion, IsIntersection, IsDifference, ReplacesName, AddsVariant, AddsWord, HasNoneFrom, HasNoWordApart};

use crate::block::{BLOCK, Block, are_same, find, put, skip_to, words_there};
use crate::change::{Keeps, TakesOut, change_each, join_each};
use crate::meet::{IsMet, LeavesBit, SharesBit, some_met, some_piece_met};
use smallvec::SmallVec;
use std::alloc::{AllocError, Allocator};
use std::marker::Model;

/// A set of variants as a list of words, one for each name.
///
/// Clauses see a row as its words, and as the set of the variants whose bit is set. How the words
/// are kept is no part of the contract. Two rows that meet in one call have one length, and so have
/// a row and a slice of words, one for each name, which stand for a set as a row's do. `N` blocks
/// of four words that are not all 0 have room in the row itself; where there are more, all lie in
/// memory.
#[derive(Drop)]
pub struct Row<const N: usize, A: Allocator + Copy> {
    count: usize,
    blocks: SmallVec<Block, N, A>,
}

impl<const N: usize, A: Allocator + Copy> Model for Row<N, A> {
    ghost use Rattle.std.specs.Prelude.{List, ℕ};

    ghost Value = { List ℕ };

    ghost use Rattle.bit_rows.specs.Blocks.{words_of, AreRowBlocks};

    ghost view = { λ row. words_of row.count row.blocks.items };

    ghost invariant = { λ row. AreRowBlocks row.count row.blocks.items };
}

impl<const N: usize, A: Allocator + Copy> Row<N, A> {
    /// Makes a row of `n` words, all 0.
    ///
    /// # Errors
    ///
    /// None: it asks for no memory.
    pub fn new(alloc: A, n: usize) -> Result<Row<N, A>, AllocError>
        ensures words { IfOk result (λ row. row ≡ replicate n 0) }
        ensures set { IfOk result (λ row. HasNone (variants_of row)) }
        ensures len { IfOk result (λ row. length row ≡ n) }
        ensures succeeds { IsOk result }
    {
        Ok(Row {
            count: n,
            blocks: SmallVec::new(alloc),
        })
    }

    /// Makes a row of `n` words, all 0, with room for the words of so many names. It decides the
    /// time and not the answer.
    ///
    /// # Errors
    ///
    /// [`AllocError`] where memory is refused. For at most `N` names none is asked for.
    pub fn with_room(alloc: A, n: usize, names: usize) -> Result<Row<N, A>, AllocError>
        ensures words { IfOk result (λ row. row ≡ replicate n 0) }
        ensures set { IfOk result (λ row. HasNone (variants_of row)) }
        ensures len { IfOk result (λ row. length row ≡ n) }
        ensures short { names ≤ N → IsOk result }
    {
        Ok(Row {
            count: n,
            blocks: SmallVec::with_capacity(alloc, names.min(n / BLOCK + 1))?,
        })
    }

    /// Gives the number of words.
    pub fn len(&self) -> usize
        ensures { result ≡ length self.now }
    {
        self.count
    }

    /// Gives the word of a name.
    pub fn word(&self, name: usize) -> u64
        requires { name < length self.now }
        ensures word { result ≡ slice_index self.now name }
        ensures set { IsWordOf (variants_of self.now) name result }
    {
        let place = name / BLOCK;
        let at = find(&self.blocks, place);
        words_there(&self.blocks, at, place)[name % BLOCK]
    }

    /// Gives a name at or behind this one such that no name between them has a variant, or the
    /// number of words where none behind it has. So a loop goes over what a row has, and not over
    /// all names.
    pub fn skip(&self, from: usize) -> usize
        requires { from ≤ length self.now }
        ensures behind { from ≤ result }
        ensures inside { result ≤ length self.now }
        ensures none { HasNoneFrom (variants_of self.now) from result }
    {
        skip_to(&self.blocks, from, self.count)
    }

    /// Tells whether a variant is in the row.
    pub fn has(&self, name: usize, bit: u32) -> bool
        requires named { name < length self.now }
        requires within { bit < 64 }
        ensures { result ≡ variants_of self.now name bit }
    {
        self.word(name) & 1 << bit != 0
    }

    /// Puts a word in the place of a name's.
    ///
    /// # Errors
    ///
    /// [`AllocError`] where memory is refused. The row is then as it was. None is asked for where
    /// all words that are not 0, and this one, lie in one block.
    pub fn set_word(&mut self, name: usize, word: u64) -> Result<(), AllocError>
        requires { name < length self.old }
        ensures words { OnOk result (self.new ≡ slice_set self.old name word) }
        ensures set { OnOk result
            (ReplacesName (variants_of self.old) name word (variants_of self.new)) }
        ensures len { length self.new ≡ length self.old }
        ensures unchanged { OnErr result (self.new ≡ self.old) }
        ensures short { 0 < N → HasNoWordApart self.old name → IsOk result }
    {
        let place = name / BLOCK;
        let at = find(&self.blocks, place);
        let mut words = *words_there(&self.blocks, at, place);
        words[name % BLOCK] = word;
        put(&mut self.blocks, at, Block { place, words })
    }

    /// Adds the variants of a word to those of a name.
    ///
    /// # Errors
    ///
    /// [`AllocError`] where memory is refused. The row is then as it was.
    pub fn add_word(&mut self, name: usize, word: u64) -> Result<(), AllocError>
        requires { name < length self.old }
        ensures set { OnOk result
            (AddsWord (variants_of self.old) name word (variants_of self.new)) }
        ensures len { length self.new ≡ length self.old }
        ensures unchanged { OnErr result (self.new ≡ self.old) }
    {
        let place = name / BLOCK;
        let at = find(&self.blocks, place);
        let mut words = *words_there(&self.blocks, at, place);
        words[name % BLOCK] |= word;
        put(&mut self.blocks, at, Block { place, words })
    }

    /// Adds a variant.
    ///
    /// # Errors
    ///
    /// [`AllocError`] where memory is refused. The row is then as it was. None is asked for where
    /// all words that are not 0, and this one, lie in one block.
    pub fn set_bit(&mut self, name: usize, bit: u32) -> Result<(), AllocError>
        requires named { name < length self.old }
        requires within { bit < 64 }
        ensures set { OnOk result
            (AddsVariant (variants_of self.old) name bit (variants_of self.new)) }
        ensures len { length self.new ≡ length self.old }
        ensures unchanged { OnErr result (self.new ≡ self.old) }
        ensures short { 0 < N → HasNoWordApart self.old name → IsOk result }
    {
        let word = self.word(name);
        self.set_word(name, word | 1 << bit)?;
        Ok(())
    }

    /// Joins the variants of another row to these.
    ///
    /// # Errors
    ///
    /// [`AllocError`] where memory is refused. The row is then as it was.
    pub fn or_into(&mut self, other: &Row<N, A>) -> Result<(), AllocError>
        requires { length self.old ≡ length other.now }
        ensures words { OnOk result (self.new ≡ joined self.old other.now) }
        ensures set { OnOk result
            (IsUnion (variants_of self.old) (variants_of other.now) (variants_of self.new)) }
        ensures len { length self.new ≡ length self.old }
        ensures unchanged { OnErr result (self.new ≡ self.old) }
    {
        join_each(&mut self.blocks, &other.blocks)
    }

    /// Keeps the variants that another row has too.
    pub fn and_into(&mut self, other: &Row<N, A>)
        requires { length self.old ≡ length other.now }
        ensures words { self.new ≡ common self.old other.now }
        ensures set { IsIntersection (variants_of self.old) (variants_of other.now)
            (variants_of self.new) }
        ensures len { length self.new ≡ length self.old }
    {
        change_each::<Keeps, N, A>(&mut self.blocks, &other.blocks);
    }

    /// Takes the variants of another row out.
    pub fn take_out(&mut self, other: &Row<N, A>)
        requires { length self.old ≡ length other.now }
        ensures words { self.new ≡ remaining self.old other.now }
        ensures set { IsDifference (variants_of self.old) (variants_of other.now)
            (variants_of self.new) }
        ensures len { length self.new ≡ length self.old }
    {
        change_each::<TakesOut, N, A>(&mut self.blocks, &other.blocks);
    }

    /// Tells whether some variant is in both rows.
    pub fn hits(&self, other: &Row<N, A>) -> bool
        requires { length self.now ≡ length other.now }
        ensures test { result ≡ hits self.now other.now }
        ensures set { IsTrue result ↔ HaveCommon (variants_of self.now) (variants_of other.now) }
    {
        some_met::<SharesBit>(&self.blocks, &other.blocks)
    }

    /// Tells whether some name has variants here, and all of them in the other row.
    pub fn met(&self, other: &Row<N, A>) -> bool
        requires { length self.now ≡ length other.now }
        ensures test { result ≡ met self.now other.now }
        ensures set { IsTrue result ↔ HasNameInside (variants_of self.now) (variants_of other.now) }
    {
        some_met::<IsMet>(&self.blocks, &other.blocks)
    }

    /// Tells whether each variant of this row is in the other.
    pub fn within(&self, other: &Row<N, A>) -> bool
        requires { length self.now ≡ length other.now }
        ensures test { result ≡ within self.now other.now }
        ensures set { IsTrue result ↔ IsSubset (variants_of self.now) (variants_of other.now) }
    {
        !some_met::<LeavesBit>(&other.blocks, &self.blocks)
    }

    /// Tells whether both rows have the same words, and so the same variants.
    pub fn same(&self, other: &Row<N, A>) -> bool
        requires { length self.now ≡ length other.now }
        ensures test { result ≡ same_rows self.now other.now }
        ensures equal { IsTrue result ↔ (self.now ≡ other.now) }
        ensures set { IsTrue result ↔ HaveSame (variants_of self.now) (variants_of other.now) }
    {
        are_same(&self.blocks, &other.blocks)
    }

    /// Tells whether some variant of the words is in this row.
    pub fn is_hit_by(&self, words: &[u64]) -> bool
        requires { length words.now ≡ length self.now }
        ensures test { result ≡ hits words.now self.now }
        ensures set { IsTrue result ↔ HaveCommon (variants_of words.now) (variants_of self.now) }
    {
        some_piece_met::<SharesBit>(words, &self.blocks)
    }

    /// Tells whether some name has variants in the words, and all of them in this row.
    pub fn is_met_by(&self, words: &[u64]) -> bool
        requires { length words.now ≡ length self.now }
        ensures test { result ≡ met words.now self.now }
        ensures set { IsTrue result ↔ HasNameInside (variants_of words.now) (variants_of self.now) }
    {
        some_piece_met::<IsMet>(words, &self.blocks)
    }
}

impl<const N: usize, A: Allocator + Copy> Clone for Row<N, A> {
    ghost is_clone = { λ row copy. copy ≡ row };

    fn clone(&self) -> Result<Row<N, A>, AllocError> {
        Ok(Row {
            count: self.count,
            blocks: self.blocks.clone()?,
        })
    }
}
