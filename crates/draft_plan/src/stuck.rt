//! Why recipes cannot be built.

use crate::about::About;
use crate::causes::Causes;
use crate::chain::World;
use crate::circle::{circles, place_of};
use crate::refused::GIVEN_UP;
use crate::through::{Edge, Stuck, is_held, push_edge};
use deb_text::push_pieces;
use draft_lanes::{Ground, Order, Wish};
use draft_search::{Found, Search, put};
use std::alloc::AllocError;

/// What is looked at.
#[derive(Clone, Copy)]
struct Given<'a> {
    world: World<'a>,
    wish: &'a Wish,
    order: &'a Order,
    /// By recipe: 1 where it is stuck.
    far: &'a [usize],
}

/// What is known of a recipe that is not through.
#[derive(Drop)]
enum Known {
    /// It can be built were the others there that keep it.
    Kept(Stuck),
    /// It cannot be built, as was found over this base chroot last.
    Never(Option<usize>),
    /// The search was given up.
    Nothing,
}

/// Puts an edge in, where there is none to the recipe.
fn add_edge(edges: &mut Vec<Edge>, edge: Edge) -> Result<(), AllocError> {
    if edges.iter().any(|other| other.to == edge.to) {
        return Ok(());
    }
    edges.push(edge)?;
    Ok(())
}

impl<'a> Given<'a> {
    fn is_stuck(self, recipe: usize) -> bool {
        self.order.wanted().contains(&recipe) && !self.order.is_through(recipe)
    }

    /// What a recipe comes after, if its chroot is to hold these, in the order of the recipes.
    fn edges(
        self,
        recipe: usize,
        ground: &Ground,
        found: &[usize],
    ) -> Result<Vec<Edge>, AllocError> {
        let about = self.world.about;
        let mut edges = Vec::new(about.alloc);
        for variant in found {
            match about.numbers.facts(*variant).giver {
                Some((giver, _)) => {
                    if self.is_stuck(giver) && !is_held(about, ground, *variant) {
                        let edge = Edge {
                            to: giver,
                            variant: Some(*variant),
                        };
                        add_edge(&mut edges, edge)?;
                    }
                }
                None => {}
            }
        }
        if let Some(before) = self.order.before(recipe) {
            if self.is_stuck(before) {
                let edge = Edge {
                    to: before,
                    variant: None,
                };
                add_edge(&mut edges, edge)?;
            }
        }
        edges.sort_by_key(|edge| edge.to)?;
        Ok(edges)
    }

    /// How far what each recipe gives is for a recipe: what it gives itself is farthest.
    fn far_for(self, recipe: usize) -> Result<Vec<usize>, AllocError> {
        let mut far = Vec::from_slice(self.world.about.alloc, self.far)?;
        put(&mut far, recipe, 2);
        Ok(far)
    }

    /// Which others keep a recipe from being built, if it could be were they there.
    fn known(self, search: &mut Search, recipe: usize) -> Result<Known, AllocError> {
        let numbers = self.world.about.numbers;
        if self.order.gave_up(recipe) {
            return Ok(Known::Nothing);
        }
        let far = self.far_for(recipe)?;
        let mut is_known = true;
        let mut last = None;
        for (number, ground) in self.order.grounds().iter().enumerate() {
            if !self.order.is_over(self.wish, recipe, ground.base) {
                continue;
            }
            last = Some(number);
            let needs = numbers.needs(recipe);
            let clashes = numbers.clashes(recipe);
            let found = self.world.look(search, ground, needs, clashes, &far)?;
            match found {
                Found::Held(found) => {
                    let edges = self.edges(recipe, ground, &found)?;
                    if !edges.is_empty() {
                        return Ok(Known::Kept(Stuck {
                            recipe,
                            ground: number,
                            found,
                            edges,
                        }));
                    }
                    is_known = false;
                }
                Found::Nothing => {}
                Found::OutOfFuel => is_known = false,
            }
        }
        if is_known {
            Ok(Known::Never(last))
        } else {
            Ok(Known::Nothing)
        }
    }

    /// The lines of a circle of recipes (802). Gives those in it.
    fn push_circle(
        self,
        text: &mut Vec<u8>,
        all: &[Stuck],
        places: &[usize],
    ) -> Result<Vec<usize>, AllocError> {
        let about = self.world.about;
        let mut told = Vec::new(about.alloc);
        push_pieces(text, &[b"refused 802 recipes"])?;
        for place in places {
            if let Some(stuck) = all.get(*place) {
                told.push(stuck.recipe)?;
                push_pieces(text, &[b" ", about.recipe_name(stuck.recipe)])?;
            }
        }
        push_pieces(text, &[b"\n"])?;
        for (number, recipe) in told.iter().enumerate() {
            let next = match told.get(number.saturating_add(1)) {
                Some(next) => *next,
                None => told.first().copied().unwrap_or(*recipe),
            };
            self.push_step(text, all, *recipe, next)?;
        }
        Ok(told)
    }

    /// The lines of all circles of recipes. Gives those in them.
    fn push_circles(self, text: &mut Vec<u8>, all: &[Stuck]) -> Result<Vec<usize>, AllocError> {
        let alloc = self.world.about.alloc;
        let mut told = Vec::new(alloc);
        for places in &circles(alloc, all)? {
            told.extend_from_slice(&self.push_circle(text, all, places)?)?;
        }
        Ok(told)
    }

    /// The lines on why a recipe of a circle comes after the next one.
    fn push_step(
        self,
        text: &mut Vec<u8>,
        all: &[Stuck],
        recipe: usize,
        next: usize,
    ) -> Result<(), AllocError> {
        let Some(place) = place_of(all, recipe) else {
            return Ok(());
        };
        let Some(stuck) = all.get(place) else {
            return Ok(());
        };
        for edge in &stuck.edges {
            if edge.to == next {
                let grounds = self.order.grounds();
                return push_edge(text, self.world.about, grounds, stuck, *edge);
            }
        }
        Ok(())
    }

    /// The line of those that are stuck only behind others.
    fn push_behind(
        self,
        text: &mut Vec<u8>,
        stuck: &[usize],
        told: &[usize],
    ) -> Result<(), AllocError> {
        let mut is_first = true;
        for recipe in stuck {
            if !told.contains(recipe) {
                if is_first {
                    push_pieces(text, &[b"  behind these:"])?;
                    is_first = false;
                }
                let name = self.world.about.recipe_name(*recipe);
                push_pieces(text, &[b" ", name])?;
            }
        }
        if !is_first {
            push_pieces(text, &[b"\n"])?;
        }
        Ok(())
    }

    /// The lines on all that is stuck.
    fn note(self, search: &mut Search, stuck: &[usize]) -> Result<Vec<u8>, AllocError> {
        let alloc = self.world.about.alloc;
        let mut text = Vec::new(alloc);
        let mut told = Vec::new(alloc);
        let mut others = Vec::new(alloc);
        let mut causes = Causes::new(alloc);
        for recipe in stuck {
            match self.known(search, *recipe)? {
                Known::Kept(other) => others.push(other)?,
                Known::Nothing => {
                    push_given_up(&mut text, self.world.about, *recipe)?;
                    told.push(*recipe)?;
                }
                Known::Never(last) => {
                    let ground = match last {
                        Some(number) => self.order.grounds().get(number),
                        None => None,
                    };
                    let cause = self.world.push_never(&mut text, search, ground, *recipe)?;
                    if let Some(entry) = cause {
                        causes.add(alloc, entry)?;
                    }
                    told.push(*recipe)?;
                }
            }
        }
        if told.is_empty() {
            told = self.push_circles(&mut text, &others)?;
        }
        causes.push(&mut text)?;
        self.push_behind(&mut text, stuck, &told)?;
        Ok(text)
    }
}

/// The lines of a recipe of which it is not known whether it can be built (800).
fn push_given_up(text: &mut Vec<u8>, about: &About<'_>, recipe: usize) -> Result<(), AllocError> {
    let name = about.recipe_name(recipe);
    push_pieces(text, &[b"refused 800 recipe ", name, b"\n", GIVEN_UP])
}

/// The lines on recipes that are not through: 800 of each for which the search was given up, 801 of
/// each that has a need which nothing can meet, or else circles of them (802), and below these the
/// recipes that are only behind them.
pub fn stuck_note<'a>(
    about: &'a About<'a>,
    search: &mut Search,
    wish: &'a Wish,
    order: &'a Order,
    stuck: &[usize],
) -> Result<Vec<u8>, AllocError> {
    let count = about.numbers.recipes();
    let mut wanted = vec![in about.alloc; false; count]?;
    let mut far = vec![in about.alloc; 0; count]?;
    let zeros = vec![in about.alloc; 0; count]?;
    for recipe in order.wanted() {
        put(&mut wanted, *recipe, true);
    }
    for recipe in stuck {
        put(&mut far, *recipe, 1);
    }
    let world = World {
        about,
        wanted: &wanted,
        zeros: &zeros,
    };
    let given = Given {
        world,
        wish,
        order,
        far: &far,
    };
    given.note(search, stuck)
}
