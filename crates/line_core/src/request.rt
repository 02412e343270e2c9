//! Requests that come from no line.
ghost use Rattle.std.specs.Prelude.{◌≡◌, IsTrue, IfOk};
ghost use Rattle.book_model.specs.lines.Requests as spec;

use crate::dates::checked_date;
use crate::reach::reach_of;
use book_model::{Request, Rule, Version};

// A request tells its line (`laws::text_is_read`), so this is the check of words and date alone.
/// A request itself, or the first rule of a version that its line breaks: `Calendar` for a word that the version hasn't; `Field`
/// where the calendar can have no such date; `Range` for a date that the version doesn't answer, as far as that can be told
/// without any fact.
pub fn checked_request(request: &Request, version: Version) -> Result<Request, Rule>
    ensures request { result ≡ spec.checked_request version request.now }
    ensures possible { IfOk result (λ r. IsTrue (spec.is_possible r)) }
    ensures in_reach { IfOk result (λ r. IsTrue (spec.is_in_reach version r)) }
{
    if !version.has_since(request.from.since()) || !version.has_since(request.to.since()) {
        return Err(Rule::Calendar);
    }
    let reach = reach_of(version, request.from, request.to);
    let (date, _) = checked_date(version, reach, request.from.calendar(), &request.date)?;
    Ok(Request {
        from: request.from,
        date,
        to: request.to,
    })
}
