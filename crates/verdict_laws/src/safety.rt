//! Laws of safe instructions.

ghost use Rattle.verdict_laws.specs.FirstUnsafe.{FirstUnsafeIsOne, SafeOrFirstUnsafe};
ghost use Rattle.verdict_laws.specs.MoreKnown.{SafeUnderMore, GreatestIsAnnotation, GreatestRowsAnnotate};

/// Two instructions that are the first unsafe one are the same lane, place and hazard.
pub fn first_unsafe_is_one()
    ensures { FirstUnsafeIsOne }
{}

/// Each instruction of a plan is safe, or there is a first unsafe one.
pub fn safe_or_first_unsafe()
    ensures { SafeOrFirstUnsafe }
{}

/// A plan that is safe under some rows is safe under any greater ones that keep to the inclusions.
pub fn safe_under_more()
    ensures { SafeUnderMore }
{}

/// Where a plan has an annotation, the greatest known rows are one.
pub fn greatest_is_annotation()
    ensures { GreatestIsAnnotation }
{}

/// Where a plan has an annotation, the rows that are left after all rounds of taking away are one.
pub fn greatest_rows_annotate()
    ensures { GreatestRowsAnnotate }
{}
