//! Bisection: the middle of the last bounds, and after how many tests.
ghost use Rattle.book_model.specs.programs.Programs.{answer};

use super::measures::fraction;
use angle_search::{Angular, invert_angular};
use book_model::{Fail as FormulaFail, Site};
use encl_core::{Coarse, Enclosure, Span, Trail};

/// The number itself as an angle of which no linear model is known.
#[derive(Drop)]
struct Identity;

impl<E: Enclosure> Angular<E> for Identity {
    ghost angle_of = { λ x. answer x };

    ghost spread = { λ v. v };

    #[tactic(auto, using(book_model::proofs::Leads::leading))]
    fn at(&self, x: E, trail: &mut Trail) -> Result<E, FormulaFail> {
        Ok(x)
    }

    fn near(&self, _x: E, _trail: &mut Trail) -> Result<E, FormulaFail> {
        Err(FormulaFail::Void(Site::Bisect))
    }

    fn over(&self, _interval_of_days: E, _trail: &Trail) -> Option<Self> {
        None
    }

    fn time_of(&self, degrees: E) -> E {
        degrees
    }
}

#[test]
fn a_third_is_found_to_the_middle_of_the_last_bounds(rt: HostRuntime) {
    let mut trail = Trail::new();
    let (low, high) = (Coarse::from_int(0), Coarse::from_int(1));
    let found = match invert_angular(&Identity, fraction(1, 3), low, high, &mut trail) {
        Ok(found) => found.span(),
        Err(_) => None,
    };
    let middle = 87_381 << 38;
    assert_eq!(rt;
        found,
        Some(Span {
            lo: middle,
            hi: middle
        })
    );
    assert_eq!(rt; trail.count(), 17 * 3 + 1);
}
