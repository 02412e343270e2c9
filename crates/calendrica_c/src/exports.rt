//! The calls of the header.
ghost use Rattle.std.specs.Prelude.{◌≡◌, ◌⊎◌, true, false, pos};
ghost use Rattle.answered_lines.specs.Below.{answer_text, brief_text};
ghost use Rattle.calendrica_c.specs.Handing as spec;

use crate::evaluator::Evaluator;
use crate::handed::Handed;
use crate::kept::Kept;
use crate::parts::Parts;
use std::alloc::{AllocError, Global};
use std::mem;

/// The box of what an open evaluator keeps, which is left closed.
fn taken(alloc: Global, evaluator: &mut Evaluator) -> Box<Kept>
    requires open { evaluator.old.is_open ≡ true }
    ensures closed { evaluator.new.is_open ≡ false }
{
    mem::replace(evaluator, Evaluator::none())
        .into_parts(alloc)
        .into_box()
}

/// Puts a box into an evaluator, which is open then.
fn put_back(evaluator: &mut Evaluator, kept: Box<Kept>)
    ensures open { evaluator.new.is_open ≡ true }
{
    *evaluator = Evaluator::of(Parts::of(kept));
}

/// The box of what keeps no fact yet. The error comes where memory runs out.
fn boxed(alloc: Global) -> Result<Box<Kept>, AllocError> {
    let kept = Kept::open(alloc)?;
    Ok(Box::new(alloc, kept)?)
}

/// `calendrica_open` of the header: opens an evaluator. Where memory runs out it is closed.
#[unsafe(no_mangle)]
pub extern "C" fn calendrica_open(alloc: Global, evaluator: &mut Evaluator) -> i32
    requires closed { evaluator.old.is_open ≡ false }
    ensures opened { ((result ≡ pos 0) × (evaluator.new.is_open ≡ true))
        ⊎ ((result ≡ pos 5) × (evaluator.new.is_open ≡ false)) }
{
    match boxed(alloc) {
        Ok(kept) => {
            put_back(evaluator, kept);
            Handed::Done.number()
        }
        Err(AllocError) => Handed::Memory.number(),
    }
}

/// `calendrica_close` of the header: gives up what an open evaluator keeps, and closes it.
#[unsafe(no_mangle)]
pub extern "C" fn calendrica_close(alloc: Global, evaluator: &mut Evaluator)
    requires open { evaluator.old.is_open ≡ true }
    ensures closed { evaluator.new.is_open ≡ false }
{
    drop(taken(alloc, evaluator));
}

/// `calendrica_answer` of the header: hands over the answer to a line, its facts and the line of the number 1, which is that of an
/// outcome that is right for the line.
#[unsafe(no_mangle)]
pub extern "C" fn calendrica_answer(
    alloc: Global,
    evaluator: &mut Evaluator,
    line: &[u8],
    room: &mut [u8],
    length: &mut usize,
) -> i32
    requires open { evaluator.old.is_open ≡ true }
    ensures open { evaluator.new.is_open ≡ true }
    ensures answered { spec.Endpoints (spec.HandsAnswer (answer_text line.now) line.now room.old room.new
        length.new) result }
{
    let mut kept = taken(alloc, evaluator);
    let handed = kept.answer(alloc, line, room, length);
    put_back(evaluator, kept);
    handed.number()
}

/// `calendrica_result` of the header: hands over the result of a line alone, or why it has none, by an outcome that is right for it.
#[unsafe(no_mangle)]
pub extern "C" fn calendrica_result(
    alloc: Global,
    evaluator: &mut Evaluator,
    line: &[u8],
    room: &mut [u8],
    length: &mut usize,
) -> i32
    requires open { evaluator.old.is_open ≡ true }
    ensures open { evaluator.new.is_open ≡ true }
    ensures answered { spec.Endpoints (spec.HandsAnswer brief_text line.now room.old room.new length.new)
        result }
{
    let mut kept = taken(alloc, evaluator);
    let handed = kept.answer_briefly(alloc, line, room, length);
    put_back(evaluator, kept);
    handed.number()
}

/// `calendrica_check` of the header: checks a certificate, and hands over the verdicts of its lines, or why the bytes are none.
#[unsafe(no_mangle)]
pub extern "C" fn calendrica_check(
    alloc: Global,
    evaluator: &mut Evaluator,
    text: &[u8],
    room: &mut [u8],
    length: &mut usize,
) -> i32
    requires open { evaluator.old.is_open ≡ true }
    ensures open { evaluator.new.is_open ≡ true }
    ensures checked { spec.Endpoints (spec.HandsCheck text.now room.old room.new length.new) result }
{
    let mut kept = taken(alloc, evaluator);
    let handed = kept.check(alloc, text, room, length);
    put_back(evaluator, kept);
    handed.number()
}
