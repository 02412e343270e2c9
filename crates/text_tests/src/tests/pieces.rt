//! The order of places, and how often the gate is told.
use jobs_core::{Gate, OpenGate, map_places};
use std::alloc::{AllocError, Global};
use std::sync::atomic::AtomicUsize;
use std::sync::atomic::Ordering::SeqCst;
use std::test::Fail;

/// Counts how often the first chunks begin.
#[derive(Drop)]
struct Told {
    pieces: [AtomicUsize; 4],
}

impl Told {
    fn new() -> Told {
        Told {
            pieces: [
                AtomicUsize::new(0),
                AtomicUsize::new(0),
                AtomicUsize::new(0),
                AtomicUsize::new(0),
            ],
        }
    }
}

impl Gate for Told {
    fn at(&self, piece: usize) {
        if piece < 4 {
            self.pieces[piece].fetch_add(1, SeqCst);
        }
    }
}

/// What a place gives in this test.
fn square(place: usize) -> Result<usize, AllocError> {
    place.checked_mul(place).ok_or(AllocError)
}

#[test]
fn places_stand_in_order(rt: HostRuntime) -> Result<(), Fail> {
    let alloc: Global = rt.alloc();
    for jobs in [1usize, 2, 3, 7, 64] {
        let squares = map_places(&rt, alloc, 100, jobs, &OpenGate, &square)?;
        assert!(rt; squares.len() == 100, "{jobs}");
        for (place, found) in squares.iter().enumerate() {
            assert!(rt; Ok(*found) == square(place), "{jobs}");
        }
    }
    Ok(())
}

#[test]
fn the_gate_is_told_once_of_each_chunk(rt: HostRuntime) -> Result<(), Fail> {
    for (count, jobs) in [(7usize, 3usize), (1, 3), (0, 3)] {
        let gate = Told::new();
        let squares = map_places(&rt, rt.alloc(), count, jobs, &gate, &square)?;
        assert!(rt; squares.len() == count);
        for piece in 0..4usize {
            let told = usize::from(piece < jobs);
            assert!(rt;
                gate.pieces[piece].load(SeqCst) == told,
                "{piece} of {count}"
            );
        }
    }
    Ok(())
}
