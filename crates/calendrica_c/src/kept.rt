//! What an evaluator of C keeps, and what it hands over.
ghost use Rattle.std.specs.Prelude.{◌≡◌};
ghost use Rattle.answered_lines.specs.Below.{answer_text, brief_text};
ghost use Rattle.calendrica_c.specs.Handing as spec;
ghost use Rattle.calendrica_c.specs.Rooms.{HandsAs};

use crate::handed::{Handed, hand_over};
use answered_lines::{Answerer, Gathered, Status};
use fact_eval::Staged;
use std::alloc::{AllocError, Global};
use std::marker::Model;

/// An answerer over the evaluator of the program. Contracts see nothing of it.
#[derive(Drop)]
pub struct Kept {
    answerer: Answerer<Staged>,
}

impl Model for Kept {
    ghost Value = { Unit {0} };

    ghost view = { λ _. tt };
}

/// Hands over a text with which a call ends so, where the room is large enough, and says how it ends.
fn hand_as(ending: Handed, text: &[u8], room: &mut [u8], told: &mut usize) -> Handed
    ensures handed { HandsAs ending text.now room.old room.new told.new result }
{
    if hand_over(text, room, told) {
        ending
    } else {
        Handed::NoRoom
    }
}

impl Kept {
    /// What keeps no fact yet. The error comes where memory runs out.
    pub(crate) fn open(alloc: Global) -> Result<Kept, AllocError> {
        Ok(Kept {
            answerer: Answerer::open(alloc, Staged::new())?,
        })
    }

    /// Hands over the answer to a line: its facts, and the line.
    pub(crate) fn answer(
        &mut self,
        alloc: Global,
        line: &[u8],
        room: &mut [u8],
        told: &mut usize,
    ) -> Handed
        ensures answered { spec.HandsAnswer (answer_text line.now) line.now room.old room.new
            told.new result }
    {
        let mut text = Gathered::new(alloc);
        *told = 0;
        match self.answerer.answer(&mut text, line) {
            Ok(is_result) => hand_as(Handed::of(is_result), text.bytes(), room, told),
            Err(_) => Handed::Memory,
        }
    }

    /// Hands over the result of a line alone, or why it has none.
    pub(crate) fn answer_briefly(
        &mut self,
        alloc: Global,
        line: &[u8],
        room: &mut [u8],
        told: &mut usize,
    ) -> Handed
        ensures answered { spec.HandsAnswer brief_text line.now room.old room.new told.new result }
    {
        let mut text = Gathered::new(alloc);
        *told = 0;
        match self.answerer.answer_briefly(&mut text, line) {
            Ok(is_result) => hand_as(Handed::of(is_result), text.bytes(), room, told),
            Err(_) => Handed::Memory,
        }
    }

    /// Checks a certificate, and hands over the verdicts of its lines, or why the bytes are none.
    pub(crate) fn check(
        &mut self,
        alloc: Global,
        input: &[u8],
        room: &mut [u8],
        told: &mut usize,
    ) -> Handed
        ensures checked { spec.HandsCheck input.now room.old room.new told.new result }
    {
        let mut text = Gathered::new(alloc);
        *told = 0;
        match self.answerer.check(&mut text, input) {
            Status::Done => hand_as(Handed::Done, text.bytes(), room, told),
            Status::Mixed => hand_as(Handed::Mixed, text.bytes(), room, told),
            Status::BadText => hand_as(Handed::BadText, text.bytes(), room, told),
            Status::TooLarge => Handed::TooLarge,
            Status::Words | Status::ReadFault | Status::WriteFault | Status::Memory => {
                Handed::Memory
            }
        }
    }
}
