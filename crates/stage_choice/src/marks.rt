//! Marks of numbers, from 0 on.

ghost use Rattle.std.specs.Prelude.{◌≡◌, ◌<◌, ◌++◌, ◌∷◌, [], ℕ, Bool, false, true, List, IfOk, OnOk, vec_len, slice_index_or};
ghost use Rattle.std.specs.List.{list_all};
ghost use Rattle.stage_choice.specs.Marks.{AreMarked};

use std::alloc::{AllocError, Global};

/// No marks, with room for those of so many numbers.
pub(crate) fn no_marks(alloc: Global, count: usize) -> Result<Vec<bool>, AllocError>
    ensures { IfOk result (λ marks. AreMarked marks.items []) }
{
    let mut marks = Vec::new(alloc);
    for _ in 0..count {
        marks.push(false)?;
    }
    Ok(marks)
}

/// Tells whether a number is marked.
pub(crate) fn has_mark(marks: &[bool], number: usize) -> bool
    ensures { result ≡ slice_index_or marks.now number false }
{
    match marks.get(number) {
        Some(mark) => *mark,
        None => false,
    }
}

/// Tells whether some numbers are all marked.
pub(crate) fn have_marks(marks: &[bool], numbers: &[u32]) -> bool
    ensures { result ≡ list_all (λ number. slice_index_or marks.now number false) numbers.now }
{
    for number in numbers {
        if !has_mark(marks, *number as usize) {
            return false;
        }
    }
    true
}

/// Makes room for the mark of a number.
fn make_room(marks: &mut Vec<bool>, number: usize) -> Result<(), AllocError>
    ensures room { OnOk result (number < vec_len marks.new) }
    ensures same { OnOk result ((n : ℕ) → slice_index_or marks.new.items n false ≡ slice_index_or marks.old.items n false) }
{
    while marks.len() <= number {
        marks.push(false)?;
    }
    Ok(())
}

/// Marks a number.
pub(crate) fn mark(marks: &mut Vec<bool>, number: usize) -> Result<(), AllocError>
    ensures { OnOk result ((list : List ℕ) → AreMarked marks.old.items list → AreMarked marks.new.items (list ++ number ∷ [])) }
{
    make_room(marks, number)?;
    marks[number] = true;
    Ok(())
}

/// Marks some numbers.
pub(crate) fn mark_all(marks: &mut Vec<bool>, numbers: &[u32]) -> Result<(), AllocError>
    ensures { OnOk result ((list : List ℕ) → AreMarked marks.old.items list → AreMarked marks.new.items (list ++ numbers.now)) }
{
    for number in numbers {
        mark(marks, *number as usize)?;
    }
    Ok(())
}
