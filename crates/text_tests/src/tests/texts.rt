//! Lists hold what they are given; each form of a line is written; sinks that are full in the middle of a block.
ghost use Rattle.std.specs.Prelude.{◌≤◌, ◌+◌, ◌^◌, length, IfOk};

use super::known::correction_on;
use book_model::{Site, Undecided};
use byte_streams::{Failed, MemorySink};
use cert_text::{Block, CertLine, Echo, Numbers, Word, write_block};
use oracle_core::FactValues;
use std::alloc::{AllocError, Global};
use std::test::Fail;

/// A fact, and a line of each form.
const TEXT: &[u8] = b"fact 1 dt - 738926 73871\n\
    line 1 gregorian 2024-02-10 dt 73871 facts 1\n\
    line 2 persian 1427-10-12 gregorian refused 4 748018 facts 1\n\
    line 3 persian 1402-12-30 gregorian refused 5 1403-1-1 facts\n\
    line 4 refused 3\n\
    line 5 undecided round 2 -5 7 fact dt - 738926\n\
    line 6 void bisect-end fact dt - -5\n";

/// The list of the first fact.
fn first_fact(alloc: Global) -> Result<Numbers, AllocError> {
    let mut numbers = Numbers::new(alloc);
    numbers.push(1)?;
    Ok(numbers)
}

/// A line with a result.
fn shown(alloc: Global) -> Result<CertLine, AllocError> {
    let echo = Echo::of(alloc, b"gregorian", b"2024-02-10", b"dt")?;
    let correction = Word::of(alloc, b"73871")?;
    let facts = first_fact(alloc)?;
    Ok(CertLine::Shown {
        echo,
        result: correction,
        facts,
    })
}

/// A line whose computed day is out of range.
fn too_far(alloc: Global) -> Result<CertLine, AllocError> {
    let echo = Echo::of(alloc, b"persian", b"1427-10-12", b"gregorian")?;
    let facts = first_fact(alloc)?;
    let day = 748_018;
    Ok(CertLine::TooFar { echo, day, facts })
}

/// A line whose day has another date.
fn no_date(alloc: Global) -> Result<CertLine, AllocError> {
    let echo = Echo::of(alloc, b"persian", b"1402-12-30", b"gregorian")?;
    let back = Word::of(alloc, b"1403-1-1")?;
    let facts = Numbers::new(alloc);
    Ok(CertLine::NoDate { echo, back, facts })
}

/// An undecided test of a rounding.
const ROUNDING: Undecided = Undecided {
    turn: 2,
    site: Site::Round,
    lo: -5,
    hi: 7,
};

/// A block of a fact and a line with a result.
fn first_block(alloc: Global) -> Result<Block, Fail>
    ensures { IfOk result (λ b. b.first + length b.facts ≤ 2 ^ 32) }
{
    let mut facts = FactValues::new(alloc);
    facts.push((correction_on(738_926)?, 73_871))?;
    let line = shown(alloc)?;
    Ok(Block {
        facts,
        first: 1,
        number: 1,
        line,
    })
}

/// Writes a line with its number as a block without facts.
fn write_alone(
    alloc: Global,
    sink: &mut MemorySink,
    number: u32,
    line: CertLine,
) -> Result<(), Failed> {
    let block = Block {
        facts: FactValues::new(alloc),
        first: 2,
        number,
        line,
    };
    write_block(sink, &block)
}

/// Writes the second to the fourth line.
fn write_refusals(alloc: Global, sink: &mut MemorySink) -> Result<(), Fail> {
    write_alone(alloc, sink, 2, too_far(alloc)?)?;
    write_alone(alloc, sink, 3, no_date(alloc)?)?;
    write_alone(alloc, sink, 4, CertLine::Refused(3))?;
    Ok(())
}

/// Writes the fifth and the sixth line.
fn write_undecided_and_void(alloc: Global, sink: &mut MemorySink) -> Result<(), Fail> {
    let fact = correction_on(738_926)?;
    let earlier = correction_on(-5)?;
    let undecided = CertLine::Undecided { fact, at: ROUNDING };
    write_alone(alloc, sink, 5, undecided)?;
    let void = CertLine::Void {
        fact: earlier,
        site: Site::BisectEnd,
    };
    write_alone(alloc, sink, 6, void)?;
    Ok(())
}

#[test]
fn each_form_is_written(rt: HostRuntime) -> Result<(), Fail> {
    let alloc = rt.alloc();
    let mut sink = MemorySink::new(alloc, 1000, Vec::new(alloc))?;
    write_block(&mut sink, &first_block(alloc)?)?;
    write_refusals(alloc, &mut sink)?;
    write_undecided_and_void(alloc, &mut sink)?;
    assert!(rt; sink.written() == TEXT);
    Ok(())
}

/// The bytes of the first block.
const FIRST_BLOCK: usize = 70;

#[test]
fn a_sink_that_is_full_keeps_a_prefix_of_the_block(rt: HostRuntime) -> Result<(), Fail> {
    let alloc = rt.alloc();
    for room in 0..FIRST_BLOCK + 1 {
        let mut sink = MemorySink::new(alloc, room, Vec::new(alloc))?;
        let written = write_block(&mut sink, &first_block(alloc)?);
        assert!(rt; written.is_ok() == (room == FIRST_BLOCK), "room for {room}");
        assert!(rt;
            sink.written() == &TEXT[..room.min(TEXT.len())],
            "room for {room}"
        );
    }
    Ok(())
}

#[test]
fn words_and_numbers_hold_what_they_are_given(rt: HostRuntime) -> Result<(), Fail> {
    let alloc = rt.alloc();
    let word = Word::of(alloc, b"dt")?;
    assert!(rt; word.bytes() == b"dt".as_slice());
    let mut numbers = Numbers::new(alloc);
    numbers.push(7)?;
    numbers.push(u32::MAX)?;
    assert!(rt; numbers.numbers() == [7, u32::MAX].as_slice());
    Ok(())
}
