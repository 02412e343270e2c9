//! The tests on endpoints.
ghost use Rattle.std.specs.Prelude.{◌≡◌, IfSome, IsNone, Some, None};
ghost use Rattle.book_model.specs.programs.Programs.{integers, cell_at, compare_at};
ghost use Rattle.book_model.specs.programs.Leading.{AreEndpoints};
ghost use Rattle.interval_endpoints.specs.Shown.{shown_endpoints};

use crate::endpoints::Endpoints;
use crate::word::MachineWord;
use book_model::{Site, Undecided};

/// The greatest whole number that is not above the endpoints, where both have the same.
#[inline]
pub fn cell_of_endpoints<I: MachineWord>(endpoints: Option<Endpoints<I>>) -> Option<I>
    ensures value { IfSome result (λ q. cell_at integers (shown_endpoints endpoints) ≡ Some (I.value q)) }
    ensures none { IsNone result → cell_at integers (shown_endpoints endpoints) ≡ None }
{
    let e = endpoints?;
    let cell = e.lo.floor();
    if cell.is_equal(e.hi.floor()) {
        Some(cell)
    } else {
        None
    }
}

// An undecided result tells the endpoints at which the test was found undecided, and its clause says that the test is
// undecided at these: so a body that gives up at once is refused.
/// An undecided test at these endpoints, which it tells in units of 2⁻⁵⁶.
pub fn undecided_test_at<I: MachineWord>(
    endpoints: Option<Endpoints<I>>,
    site: Site,
    turn: u32,
) -> Undecided
    ensures named { (result.site ≡ site) × (result.turn ≡ turn) }
    ensures endpoints { AreEndpoints result.lo result.hi (shown_endpoints endpoints) }
{
    match endpoints {
        Some(e) => Undecided {
            turn,
            site,
            lo: e.lo.at_fine_scale(),
            hi: e.hi.at_fine_scale(),
        },
        None => Undecided {
            turn,
            site,
            lo: i128::MIN,
            hi: i128::MAX,
        },
    }
}

/// Whether each number between the first endpoints is below each between the second, where that is so of all or of none.
#[inline]
pub fn order_of_endpoints<I: MachineWord>(
    x: Option<Endpoints<I>>,
    y: Option<Endpoints<I>>,
) -> Option<bool>
    ensures value { result ≡ compare_at (shown_endpoints x) (shown_endpoints y) }
{
    let x = x?;
    let y = y?;
    if x.hi.is_less(y.lo) {
        Some(true)
    } else if x.lo.is_less(y.hi) {
        None
    } else {
        Some(false)
    }
}
