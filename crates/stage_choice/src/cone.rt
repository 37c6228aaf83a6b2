//! What the end needs of a set of builds.

use crate::giving::Giving;
use crate::places::Places;
use crate::task::Task;
use std::alloc::AllocError;

/// Builds in an order in which they can be made, and who gives what.
#[derive(Drop)]
struct Ordered {
    giving: Giving,
    ready: Places,
    order: Vec<usize>,
}

impl Ordered {
    /// Those of some builds that can be made: of those that can be next, the first place.
    fn new(task: Task<'_>, places: &[usize]) -> Result<Ordered, AllocError> {
        let mut ordered = Ordered {
            giving: Giving::new(task, places)?,
            ready: Places::none(task.alloc, task.builds.len())?,
            order: Vec::new(task.alloc),
        };
        for place in places {
            if ordered.giving.is_ready(*place) {
                ordered.ready.add(*place);
            }
        }
        for _ in 0..places.len() {
            match ordered.ready.first() {
                Some(place) => ordered.make(task, place)?,
                None => break,
            }
        }
        Ok(ordered)
    }

    fn make(&mut self, task: Task<'_>, place: usize) -> Result<(), AllocError> {
        let mut ready = Vec::new(task.alloc);
        self.giving.give(task, place, &mut ready)?;
        self.order.push(place)?;
        self.ready.remove(place);
        for other in &ready {
            self.ready.add(*other);
        }
        Ok(())
    }

    /// What the end needs, itself too, each thing from the first that gives it.
    fn cone(&self, task: Task<'_>) -> Result<Vec<usize>, AllocError> {
        let mut found = Places::none(task.alloc, task.builds.len())?;
        let mut todo = Vec::new(task.alloc);
        found.add(task.end);
        todo.push(task.end)?;
        for number in 0..task.builds.len() {
            match todo.get(number) {
                Some(place) => {
                    let place = *place;
                    self.push_givers(task, place, &mut found, &mut todo)?;
                }
                None => break,
            }
        }
        found.list(task.alloc)
    }

    /// Puts those that give what a build needs to what is found, and to a list if they are new.
    fn push_givers(
        &self,
        task: Task<'_>,
        place: usize,
        found: &mut Places,
        todo: &mut Vec<usize>,
    ) -> Result<(), AllocError> {
        for thing in task.needs(place) {
            let giver = self.giving.giver(*thing);
            if giver < task.builds.len() && !found.has(giver) {
                found.add(giver);
                todo.push(giver)?;
            }
        }
        Ok(())
    }
}

/// Those of some builds that can be made, in an order in which they can.
pub(crate) fn order_of(task: Task<'_>, places: &[usize]) -> Result<Vec<usize>, AllocError> {
    Ok(Ordered::new(task, places)?.order)
}

/// What the end needs of some builds, in the order of places.
pub(crate) fn cone_of(task: Task<'_>, places: &[usize]) -> Result<Vec<usize>, AllocError> {
    Ordered::new(task, places)?.cone(task)
}
