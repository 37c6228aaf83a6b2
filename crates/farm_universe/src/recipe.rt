//! A recipe.

ghost use Rattle.std.specs.Prelude.{◌≡◌};

use deb_relation::Relations;
use farm_model::Variant;
use std::marker::Model;

/// A build of a source: what it costs, what it needs and excludes, and what it gives.
#[derive(Drop)]
pub struct Recipe {
    name: Vec<u8>,
    steps: u64,
    scratch: u64,
    needs: Relations,
    clashes: Relations,
    outputs: Vec<Variant>,
}

impl Model for Recipe {
    ghost use Rattle.farm_model.specs.Universe as universe;

    ghost Value = { universe.Recipe };

    ghost view = { λ r. record {
      name = r.name.items;
      steps = r.steps;
      scratch = r.scratch;
      needs = r.needs;
      clashes = r.clashes;
      outputs = r.outputs.items;
    } };
}

impl Recipe {
    /// A recipe of these parts: what it takes in steps and in KiB, what it needs and excludes, and
    /// what it gives.
    pub(crate) fn new(
        name: Vec<u8>,
        steps: u64,
        scratch: u64,
        needs: Relations,
        clashes: Relations,
        outputs: Vec<Variant>,
    ) -> Recipe
        ensures { result ≡ record {
          name = name.items;
          steps = steps;
          scratch = scratch;
          needs = needs;
          clashes = clashes;
          outputs = outputs.items;
        } }
    {
        Recipe {
            name,
            steps,
            scratch,
            needs,
            clashes,
            outputs,
        }
    }

    /// The name.
    pub fn name(&self) -> &[u8]
        ensures { result.now ≡ self.now.name }
    {
        &self.name
    }

    /// What the build costs.
    pub fn steps(&self) -> u64
        ensures { result ≡ self.now.steps }
    {
        self.steps
    }

    /// The disk space that the build takes beside the packages, in KiB.
    pub fn scratch(&self) -> u64
        ensures { result ≡ self.now.scratch }
    {
        self.scratch
    }

    /// What the build needs, by its mode and its profiles.
    pub fn needs(&self) -> &Relations
        ensures { result.now ≡ self.now.needs }
    {
        &self.needs
    }

    /// What must be absent, by its mode and its profiles.
    pub fn clashes(&self) -> &Relations
        ensures { result.now ≡ self.now.clashes }
    {
        &self.clashes
    }

    /// The variants that the build gives, in the order in which they are published.
    pub fn outputs(&self) -> &[Variant]
        ensures { result.now ≡ self.now.outputs }
    {
        &self.outputs
    }
}
