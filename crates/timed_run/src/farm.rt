//! A farm at work, as a timed run asks of it.

ghost use Rattle.std.specs.Prelude.{◌≡◌, ◌≢◌, ◌<◌, true, false, length, slice_get};
ghost use Rattle.std.specs.Option.{option_map};
ghost use Rattle.farm_model.specs.Common.{Universe, IsKnown};
ghost use Rattle.farm_model.specs.declared.types.Trap.{Trap};
ghost use Rattle.plan_model.specs.Common.{Plan, instruction_at, State, Publication, Moved, Trapped, lane_state, is_publish};
ghost use Rattle.plan_model.specs.Run as run;
ghost use Rattle.timed_run.specs.Clocks.{StaysOver};
ghost use Rattle.timed_run.specs.Path.{WaitsFor};

use farm_model::Variant;

/// A farm at work. A contract sees its universe, its plan, and the state that it has come to.
pub trait Farm {
    ghost universe: { Self → Universe };

    ghost plan: { Self → Plan };

    ghost state: { Self → State };

    /// Takes the turn of a lane that meets no trap, and tells whether the lane has gone on.
    fn step(&mut self, lane: usize) -> bool
        requires free { (trap : Trap)
            → run.step (universe self.old) (plan self.old) (state self.old) lane ≢ Trapped trap }
        ensures universe { universe self.new ≡ universe self.old }
        ensures plan { plan self.new ≡ plan self.old }
        ensures moved { result ≡ true → run.step (universe self.old) (plan self.old)
            (state self.old) lane ≡ Moved (state self.new) }
        ensures stayed { result ≡ false → state self.new ≡ state self.old }
        ensures unmoved { result ≡ false → (next : State) → run.step (universe self.old)
            (plan self.old) (state self.old) lane ≡ Moved next → ⊥ };

    /// The place of a lane, the number of instructions before it.
    fn done(&self, lane: usize) -> u32
        requires { lane < length (plan self.now) }
        ensures { result ≡ (lane_state (state self.now) lane).done };

    /// What a lane has spent.
    fn spent(&self, lane: usize) -> u64
        requires { lane < length (plan self.now) }
        ensures { result ≡ (lane_state (state self.now) lane).spent };

    /// How many variants were published.
    fn published(&self) -> usize
        ensures { result ≡ length (state self.now).published };

    /// What was published behind so many publications, if there is more.
    fn output_behind(&self, published: usize) -> Option<Variant>
        ensures { result ≡ option_map (λ (q : Publication). q.variant)
            (slice_get (state self.now).published published) };

    /// Tells whether the next event of a lane is an output.
    fn gives(&self, lane: usize) -> bool
        requires { lane < length (plan self.now) }
        ensures { result ≡ is_publish
            (instruction_at (plan self.now) lane (lane_state (state self.now) lane).done) };

    /// Tells whether a lane stands at a wait that a variant does not satisfy.
    fn stays(&self, lane: usize, variant: Variant) -> bool
        requires { lane < length (plan self.now) }
        ensures { result ≡ true → StaysOver (universe self.now) (plan self.now)
            (state self.now) lane variant };

    /// Tells whether an instruction of a lane is a wait that a variant satisfies.
    fn lets_pass(&self, lane: usize, place: u32, variant: Variant) -> bool
        requires { IsKnown (universe self.now) variant }
        ensures passes { result ≡ true
            → WaitsFor (universe self.now) (plan self.now) lane place variant }
        ensures waits { result ≡ false
            → WaitsFor (universe self.now) (plan self.now) lane place variant → ⊥ };
}
