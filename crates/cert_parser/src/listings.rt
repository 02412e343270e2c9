//! Which line listed a fact last.
ghost use Rattle.std.specs.Prelude.{◌≡◌, ◌+◌, ◌-◌, IsTrue, [], length, slice_set};
ghost use Rattle.cert_parser.specs.Listings as spec;
ghost use Rattle.cert_parser.specs.Reading.{are_of_facts as numbers_of_facts};

/// Marks the fact with this number as listed by the line, if there is one that the line hasn't listed yet, and says whether
/// there is.
fn mark(marks: &mut [u32], line: u32, number: u32) -> bool
    ensures unlisted { result ≡ spec.is_unlisted marks.old line number }
    ensures marked { IsTrue result → marks.new ≡ slice_set marks.old (number - 1) line }
{
    if number == 0 || number as usize > marks.len() {
        return false;
    }
    let place = number as usize - 1;
    if marks[place] == line {
        return false;
    }
    marks[place] = line;
    true
}

/// Whether each of the numbers that a line lists is that of a fact, and all are distinct. A mark for each fact, the number of
/// the line that listed it last, tells that at once, whatever numbers a stranger chooses. The line has to be a later one than
/// those of the marks.
pub(crate) fn are_of_facts(marks: &mut [u32], line: u32, numbers: &[u32]) -> bool
    requires later { spec.AreBelow line marks.old }
    ensures facts { result ≡ numbers_of_facts (length marks.old) [] numbers.now }
    ensures len { length marks.new ≡ length marks.old }
    ensures below { IsTrue result → spec.AreBelow (line + 1) marks.new }
{
    for number in numbers {
        if !mark(marks, line, *number) {
            return false;
        }
    }
    true
}
