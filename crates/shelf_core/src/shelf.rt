//! The slots, and the passes by which they are read and set.
ghost use Rattle.std.specs.Prelude.{◌≡◌, ◌<◌, ◌/◌, vec_len};
ghost use Rattle.book_model.specs.sky.Facts.{IsValueDay};
ghost use Rattle.shelf_core.specs.Rows.{first_rows as first_rows_from, place_lists};
ghost use Rattle.shelf_core.specs.Slots.{slot_of, slot_count, bay_count, bay_of as bay_of_fact, block_of, place_of, BLOCK as CELLS, BAY as SLOTS};

use crate::Entry;
use crate::block::{BLOCK, Block};
use crate::notes::know_the_same;
use crate::rows::{fact_rows, first_rows, row_of};
use book_model::{FIRST_DAY, Fact, LAST_DAY};
use once_cell::race::{Note, OnceBox};
use oracle_core::{Answer, Evaluator};
use std::alloc::{AllocError, Global};

/// The days of a shelf: those of which a fact may have a value.
const DAYS: usize = (LAST_DAY - FIRST_DAY + 1) as usize;

/// How many slots a bay has.
const BAY: usize = BLOCK * BLOCK;

/// Blocks of slots that stand side by side.
pub(crate) type Bay = Block<Block<Entry>>;

/// A slot for each kind, place and day of which a fact may have a value. A slot is set once, to an entry, and then stays. It
/// stands in a block of 256, and the block in a bay of as many blocks; each is made when the first of its slots is set. Threads
/// share a shelf by `&`, and no call waits.
#[derive(Drop)]
pub struct Shelf {
    pub(crate) bays: Vec<OnceBox<Bay>>,
    /// The first row of each kind, which is counted when the shelf is opened.
    pub(crate) first_rows: Vec<usize>,
    ghost whole: { vec_len bays ≡ bay_count },
    ghost counted: { first_rows.items ≡ first_rows_from 0 place_lists },
}

/// A fact, and the entry that was seen in its slot, if any. What a pass has seen it sees at each later call.
#[derive(Drop)]
pub struct Pass {
    pub(crate) fact: Fact,
    /// The number of the fact's slot, which is computed once.
    slot: usize,
    pub(crate) bay: Note<Bay>,
    pub(crate) block: Option<Note<Block<Entry>>>,
    pub(crate) entry: Option<Note<Entry>>,
    ghost in_reach: { IsValueDay fact.day },
    ghost numbered: { slot ≡ slot_of fact },
    ghost within: { slot < slot_count },
}

/// The number of bays.
#[tactic(auto, unfolding(crate::specs::Slots::slot_count, crate::specs::Slots::bay_count))]
fn bay_count_of() -> usize
    ensures count { result ≡ bay_count }
{
    fact_rows() * DAYS / BAY + 1
}

/// The place of the bay of a slot with this number.
#[tactic(auto, unfolding(crate::specs::Slots::bay_count))]
fn bay_of(slot: usize) -> usize
    requires within { slot < slot_count }
    ensures number { result ≡ slot / SLOTS }
    ensures within { result < bay_count }
{
    slot / BAY
}

impl Pass {
    /// The place of the fact's bay.
    fn bay_number(&self) -> usize
        ensures number { result ≡ bay_of_fact self.now.fact }
        ensures within { result < bay_count }
    {
        bay_of(self.slot)
    }

    /// The place of the fact's block in its bay.
    fn place_in_bay(&self) -> usize
        ensures number { result ≡ block_of self.now.fact }
        ensures within { result < CELLS }
    {
        self.slot / BLOCK % BLOCK
    }

    /// The place of the fact's slot in its block.
    fn place_in_block(&self) -> usize
        ensures number { result ≡ place_of self.now.fact }
        ensures within { result < CELLS }
    {
        self.slot % BLOCK
    }
}

impl Shelf {
    ghost use Rattle.std.specs.Prelude.{◌↔◌, IfSome, IfNone, IsSome, OnErr, IfOk};
    ghost use Rattle.std.specs.declared.option.Option.TheVariants.{None, Some};
    ghost use Rattle.once_cell.specs.Once.{Agrees};
    ghost use Rattle.oracle_core.specs.Answers.{IsRightAnswer};
    ghost use Rattle.shelf_core.specs.Passes.{IsPassOf, seen};
    ghost use Rattle.shelf_core.specs.Shelves.{IsStep};

    /// A shelf whose slots are empty. It takes a place for each bay and a number for each kind, and no bay. The error comes
    /// where memory runs out.
    pub fn open(alloc: Global) -> Result<Shelf, AllocError> {
        let mut bays = Vec::new(alloc);
        bays.resize_with(bay_count_of(), move || OnceBox::new(alloc))?;
        let first_rows = first_rows(alloc)?;
        Ok(Shelf { bays, first_rows })
    }

    /// The number of a fact's slot.
    #[tactic(auto, unfolding(crate::specs::Slots::slot_of, crate::specs::Slots::slot_count))]
    fn slot_number(&self, fact: Fact) -> usize
        requires in_reach { IsValueDay fact.day }
        ensures number { result ≡ slot_of fact }
        ensures within { result < slot_count }
    {
        row_of(&self.first_rows, fact.kind(), fact.place()) * DAYS
            + (fact.day() - FIRST_DAY) as usize
    }

    /// A pass of a fact, which has seen nothing; `None` exactly where the fact's day lies outside 1 July 1700 to
    /// 31 December 2149. It takes no memory.
    pub fn pass(&self, fact: Fact) -> Option<Pass>
        ensures some { IsSome result ↔ IsValueDay fact.day }
        ensures fact { IfSome result (λ p. p.fact ≡ fact) }
        ensures of_shelf { IfSome result (λ p. IsPassOf self.now p) }
        ensures unseen { IfSome result (λ p. seen p ≡ None) }
    {
        if FIRST_DAY <= fact.day() && fact.day() <= LAST_DAY {
            let slot = self.slot_number(fact);
            let bay = self.bays[bay_of(slot)].note();
            Some(Pass {
                fact,
                slot,
                bay,
                block: None,
                entry: None,
            })
        } else {
            None
        }
    }

    /// The entry of the fact's slot, which the pass has seen from then on; `None` only where it has seen nothing. The entry's
    /// answer is right for the entry's own fact, and no clause says that this is the fact of the pass. It takes no memory.
    pub fn get(&self, pass: &mut Pass) -> Option<Entry>
        requires of_shelf { IsPassOf self.now pass.old }
        ensures of_shelf { IsPassOf self.now pass.new }
        ensures fact { pass.new.fact ≡ pass.old.fact }
        ensures some { IfSome result (λ e. (seen pass.new ≡ Some e) × Agrees (seen pass.old) e) }
        ensures none { IfNone result ((seen pass.old ≡ None) × (seen pass.new ≡ None)) }
    {
        let bay = self.bays[pass.bay_number()].get_as(&mut pass.bay)?;
        let (note, block) = bay.look(pass.place_in_bay(), pass.block.take());
        pass.block = Some(note);
        let (note, entry) = block?.look(pass.place_in_block(), pass.entry.take());
        pass.entry = Some(note);
        Some(*entry?)
    }

    /// Sets the fact's slot, where it is empty, to the entry of the pass's fact and this answer, and gives the slot's entry,
    /// which the pass has seen from then on. Where memory runs out the slot stays as it was, and the pass has seen what it had
    /// seen.
    pub fn fill(&self, alloc: Global, pass: &mut Pass, answer: Answer) -> Result<Entry, AllocError>
        requires of_shelf { IsPassOf self.now pass.old }
        requires right { IsRightAnswer pass.old.fact answer }
        ensures of_shelf { IsPassOf self.now pass.new }
        ensures fact { pass.new.fact ≡ pass.old.fact }
        ensures ok { IfOk result (λ e. (seen pass.new ≡ Some e) × Agrees (seen pass.old) e) }
        ensures step { IfOk result (λ e. IsStep (seen pass.old) (pass.old.fact, answer) e) }
        ensures err { OnErr result (seen pass.new ≡ seen pass.old) }
    {
        let entry = Entry::new(pass.fact, answer);
        let made = &self.bays[pass.bay_number()];
        let bay = made.get_or_try_init_as(move || Block::boxed(alloc), &mut pass.bay)?;
        let place = pass.place_in_bay();
        let (note, block) = bay.put(place, pass.block.take(), move || Block::boxed(alloc));
        pass.block = Some(note);
        let place = pass.place_in_block();
        let (note, filled) = block?.put(
            place,
            pass.entry.take(),
            move || Ok(Box::new(alloc, entry)?),
        );
        pass.entry = Some(note);
        Ok(*filled?)
    }

    /// Two passes of one fact that have both seen an entry have seen the same one. It does nothing.
    pub fn meet(&self, one: &Pass, other: &Pass)
        requires one_of_shelf { IsPassOf self.now one.now }
        requires other_of_shelf { IsPassOf self.now other.now }
        requires fact { one.now.fact ≡ other.now.fact }
        ensures same { IfSome (seen other.now) (Agrees (seen one.now)) }
    {
        if let (Some(first), Some(second)) = (&one.entry, &other.entry) {
            if let (Some(first_block), Some(second_block)) = (&one.block, &other.block) {
                know_the_same(&one.bay, &other.bay);
                know_the_same(first_block, second_block);
                know_the_same(first, second);
            }
        }
    }

    /// The answer of the fact's slot, where its entry is of the fact; else the evaluator's, which is put there if the slot is
    /// empty and there is memory. A fact whose day has no slot is evaluated. Whoever set the slot, the answer is right.
    pub fn answer<E: Evaluator>(&self, alloc: Global, evaluator: &E, fact: Fact) -> Answer
        ensures right { IsRightAnswer fact result }
    {
        let Some(mut pass) = self.pass(fact) else {
            return evaluator.eval(fact);
        };
        if let Some(entry) = self.get(&mut pass) {
            // No clause says that the slot's entry is of this fact; the comparison costs little,
            // and makes every answer right whoever set the slot.
            if entry.fact() == fact {
                return entry.answer();
            }
        }
        let answer = evaluator.eval(fact);
        // Where there is no memory for a block or a slot it stays empty: the computed answer is given all
        // the same.
        let _ = self.fill(alloc, &mut pass, answer);
        answer
    }
}
