//! Which lanes an output wakes.

ghost use Rattle.std.specs.Prelude.{◌≡◌, length};
ghost use Rattle.timed_run.specs.Clocks.{AreWoken, woken};

use crate::Clock;
use crate::farm::Farm;
use farm_model::Variant;

/// The lane is tried again from this time on, or from when it was free.
fn woken(clock: Clock, time: u128) -> Clock
    ensures { result ≡ woken clock time }
{
    Clock {
        free: clock.free,
        next: clock.free.max(time),
        awake: true,
    }
}

/// Wakes the lanes that an output may let go on, from the time on at which it is in the archive.
pub fn wake<F: Farm>(farm: &F, clocks: &mut Vec<Clock>, variant: Variant, time: u128)
    requires { length clocks.old.items ≡ length (F.plan farm.now) }
    ensures { AreWoken (F.universe farm.now) (F.plan farm.now) (F.state farm.now) variant time
        (length clocks.old.items) clocks.old.items clocks.new.items }
{
    for lane in 0..clocks.len() {
        let clock = clocks[lane];
        if !clock.awake && !farm.stays(lane, variant) {
            clocks[lane] = woken(clock, time);
        }
    }
}
