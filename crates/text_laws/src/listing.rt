//! Laws of the text of a plan.

ghost use Rattle.text_laws.specs.Laws.{ListingIsReadAgain};
ghost use Rattle.text_laws.specs.LinesSay.{LinesSay};

/// The listing of each plan that was read is read again as that plan.
pub fn listing_is_read_again()
    ensures { ListingIsReadAgain }
{}

/// Where a text is a plan, the plan has an origin for each instruction, whose line says that
/// instruction.
#[tactic(auto, using(crate::proofs::LineLaws::lines_say))]
pub fn lines_say()
    ensures { LinesSay }
{}
