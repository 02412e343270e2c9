//! What answers lines, and keeps facts from one to the next.
ghost use Rattle.std.specs.Prelude.{◌≡◌, ◌≤◌, ◌<◌, ◌⊎◌, true, false, length};
ghost use Rattle.std.specs.Io.KnownBytes.{Keeps};
ghost use Rattle.byte_streams.specs.Stream.{Rose};
ghost use Rattle.answered_lines.specs.Below as spec;

use crate::counted::Counted;
use book_model::Fact;
use oracle_core::{Answer, Evaluator};
use run_core::{Sink, Status, WriteStop, answer_briefly, answer_line, check_bytes};
use shelf_core::Shelf;
use std::alloc::{AllocError, Global};

/// How many facts an answerer keeps at most. With these its shelf has at most 86 MiB: 60 MiB of blocks, if days of all kinds and
/// places are asked, half a MiB for their places, and 96 bytes for each fact.
pub const MOST_FACTS: u64 = 262_144;

/// Answers lines by an evaluator, and keeps the facts that it has evaluated on a shelf, `MOST_FACTS` and those of a line at most.
/// Once there are so many, the next call begins with an empty shelf. Contracts see nothing of it, since an answer from the shelf is
/// as right as one from the evaluator.
#[derive(Drop)]
pub struct Answerer<E: Evaluator> {
    alloc: Global,
    counted: Counted<E>,
    shelf: Shelf,
}

impl<E: Evaluator> Answerer<E> {
    /// An answerer that keeps no fact yet. The error comes where memory runs out.
    ///
    /// ```
    /// let mut answerer = Answerer::open(rt.alloc(), Staged::new())?;
    /// answerer.answer(&mut sink, b"gregorian 2027-02-06 chinese")?; // five facts, and `line 1 .. 78-44-1-0-1 facts 1 2 3 4 5`
    /// ```
    pub fn open(alloc: Global, evaluator: E) -> Result<Answerer<E>, AllocError>
    where
        E: Drop,
    {
        let shelf = Shelf::open(alloc)?;
        Ok(Answerer {
            alloc,
            counted: Counted::new(evaluator),
            shelf,
        })
    }

    // All at once, and not one by one: a slot that is set stays.
    /// Empties the shelf, where it has as many facts as are kept. The error comes where memory runs out.
    fn renew(&mut self) -> Result<(), AllocError> {
        if self.counted.count() >= MOST_FACTS {
            self.shelf = Shelf::open(self.alloc)?;
            self.counted.forget();
        }
        Ok(())
    }

    /// Writes what stands for a line by itself: the facts that it lists, numbered from 1, and then the line, of the number 1; and
    /// says whether it has a result. The line is taken as it is, without a line feed or a carriage return at its end. At a fault of
    /// the sink, and where memory runs out, a prefix of the text was written, or nothing.
    pub fn answer<K: Sink>(&mut self, sink: &mut K, line: &[u8]) -> Result<bool, WriteStop>
        ensures performs { spec.Performs K.written K.faults sink.old sink.new
            (spec.Answered (spec.answer_text line.now) (K.written sink.old) (K.written sink.new)
            line.now)
            (spec.AnswerCutShort (spec.answer_text line.now) (K.written sink.old)
            (K.written sink.new) line.now) result }
    {
        self.renew()?;
        answer_line(self.alloc, sink, &*self, line)
    }

    /// Writes the result of a line and nothing else, as `78-44-1-0-1`, or why it has none: `refused R`, `refused 4 DAY`,
    /// `refused 5 BACK`, `undecided` or `void`; and says whether it has a result. The line is taken as it is. At a fault of the sink, and where
    /// memory runs out, a prefix of the text was written, or nothing.
    pub fn answer_briefly<K: Sink>(&mut self, sink: &mut K, line: &[u8]) -> Result<bool, WriteStop>
        ensures performs { spec.Performs K.written K.faults sink.old sink.new
            (spec.Answered spec.brief_text (K.written sink.old) (K.written sink.new) line.now)
            (spec.AnswerCutShort spec.brief_text (K.written sink.old) (K.written sink.new) line.now)
            result }
    {
        self.renew()?;
        answer_briefly(self.alloc, sink, &*self, line)
    }

    /// Checks a certificate, whoever made it: writes the verdicts of its lines, or the line that says why the bytes are none.
    /// `Done` says that each verdict is yes, `Mixed` that one isn't, `BadText` that the bytes aren't in the grammar, `TooLarge` that
    /// they are more than 268,435,456, `WriteFault` and `Memory` that a write failed or memory ran out.
    pub fn check<K: Sink>(&mut self, sink: &mut K, input: &[u8]) -> Status
        ensures done { result ≡ Status.Done → spec.ChecksText (K.written sink.old)
            (K.written sink.new) input.now true }
        ensures mixed { result ≡ Status.Mixed → spec.ChecksText (K.written sink.old)
            (K.written sink.new) input.now false }
        ensures bad_text { result ≡ Status.BadText → spec.RefusesText (spec.grammar_of input.now)
            (K.written sink.old) (K.written sink.new) }
        ensures cut { result ≡ Status.WriteFault → spec.CheckCutShort (K.written sink.old)
            (K.written sink.new) input.now }
        ensures memory { result ≡ Status.Memory → Keeps (K.written sink.old) (K.written sink.new)
            ⊎ spec.CheckCutShort (K.written sink.old) (K.written sink.new) input.now }
        ensures too_large { result ≡ Status.TooLarge → (spec.LONGEST_FILE < length input.now)
            × (sink.new ≡ sink.old) }
        ensures only { spec.IsOfCheck result }
        ensures cause { result ≡ Status.WriteFault → Rose (K.faults sink.old) (K.faults sink.new) }
        ensures later { K.faults sink.old ≤ K.faults sink.new }
    {
        match self.renew() {
            Ok(()) => check_bytes(self.alloc, sink, &*self, input),
            Err(AllocError) => Status::Memory,
        }
    }
}

impl<E: Evaluator> Evaluator for Answerer<E> {
    fn eval(&self, fact: Fact) -> Answer {
        if self.counted.count() < MOST_FACTS {
            self.shelf.answer(self.alloc, &self.counted, fact)
        } else {
            self.counted.eval(fact)
        }
    }
}
