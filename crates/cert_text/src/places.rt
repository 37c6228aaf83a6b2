//! The instructions of a lane behind which a certificate has a row.

ghost use Rattle.std.specs.Prelude.{◌≡◌, ◌≤◌, length, IfOk};
ghost use Rattle.cert_text.specs.Certificates.{row_places};

use plan_reader::Lane;
use std::alloc::{AllocError, Global};

/// The numbers of the waits, publishes and `when`s of a lane, whose first instruction has the
/// number 1.
pub fn row_places(alloc: Global, lane: &Lane) -> Result<Vec<u32>, AllocError>
    requires { length lane.now.instructions ≤ 65536 }
    ensures { IfOk result (λ places. places.items ≡ row_places lane.now) }
{
    let instructions = lane.instructions();
    let mut places = Vec::new(alloc);
    for number in 0..instructions.len() {
        if instructions[number].teaches() {
            places.push(number as u32 + 1)?;
        }
    }
    Ok(places)
}
