//! The arc of light (ARCL), which is the moon's elongation from the sun, by its cosine.
ghost use Rattle.book_model.specs.programs.Calls.{Holds2, Narrows2};
ghost use Rattle.std.specs.Prelude.{◌≡◌};
ghost use Rattle.rise_set.specs.Altitudes.{IsMoonAngle, IsMoonLatitude};
ghost use Rattle.crescent.specs.Widths.{IsArcCosine};
ghost use Rattle.book_model.specs.sky.Crescent as spec;

use encl_core::Enclosure;
use rise_set::cos_deg;

/// The cosine of the arc of light between the moon and the sun, by the moon's latitude and its phase, in degrees.
#[tactic(auto, unfolding(book_model::specs::sky::Crescent::arc_cosine_of))]
pub fn arc_cosine<E: Enclosure>(latitude: E, phase: E) -> E
    ensures holds { Holds2 E.shown spec.arc_cosine_of latitude phase result }
    ensures narrow { Narrows2 E.shown E.BITS spec.arc_cosine_of latitude phase result }
    ensures measured { E.BITS ≡ 56 → IsMoonLatitude (E.shown latitude) → IsMoonAngle (E.shown phase)
        → IsArcCosine (E.shown result) }
{
    cos_deg(latitude).mul(cos_deg(phase))
}
