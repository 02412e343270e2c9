//! Tests that count and aren't made again.
ghost use Rattle.moon_core.specs.Replays.{turn_after};
ghost use Rattle.std.specs.Prelude.{◌≡◌};

use encl_core::Trail;

/// Counts so many tests that aren't made anew, since they are decided as those of another run of the same formula were.
#[tactic(auto, using(crate::proofs::Replays::turns))]
pub fn count_again(tests: u32, trail: &mut Trail)
    ensures counted { trail.new.count ≡ turn_after tests trail.old.count }
{
    if tests > 0 {
        trail.step();
        count_again(tests - 1, trail);
    }
}
