//! Bytes that come and go one by one.
ghost use Rattle.std.specs.Prelude.{None};

use super::{ROW, ROW_TEXT, run_over};
use fact_eval::Staged;
use run_core::{Failed, OpenGate, Sink, Source, Status};
use std::test::Fail;

/// Gives one byte at a call.
#[derive(Drop)]
struct Drops {
    bytes: Vec<u8>,
    taken: usize,
    faults: u64,
}

impl Source for Drops {
    ghost left = { λ s. None };

    ghost faults = { λ s. s.faults };

    fn read(&mut self, into: &mut [u8]) -> Result<usize, Failed> {
        match self.bytes.get(self.taken) {
            Some(byte) if !into.is_empty() => {
                into[0] = *byte;
                self.taken = self.taken.saturating_add(1);
                Ok(1)
            }
            _ => Ok(0),
        }
    }
}

/// Takes one byte at a call, and fails at one of its calls.
#[derive(Drop)]
struct Sips {
    bytes: Vec<u8>,
    calls: u32,
    failing: u32,
    faults: u64,
}

impl Sink for Sips {
    ghost written = { λ s. None };

    ghost faults = { λ s. s.faults };

    fn write(&mut self, from: &[u8]) -> Result<usize, Failed> {
        let Some(byte) = from.first() else {
            return Ok(0);
        };
        self.calls = self.calls.saturating_add(1);
        if self.calls == self.failing || self.bytes.push(*byte).is_err() {
            self.faults = self.faults.saturating_add(1);
            return Err(Failed);
        }
        Ok(1)
    }
}

#[test]
fn bytes_come_and_go_one_by_one(rt: HostRuntime) -> Result<(), Fail> {
    let alloc = rt.alloc();
    let text = ROW_TEXT.as_bytes();
    for failing in 1..114u32 {
        let mut source = Drops {
            bytes: ROW.as_bytes().to_vec(alloc)?,
            taken: 0,
            faults: 0,
        };
        let mut sink = Sips {
            bytes: Vec::new(alloc),
            calls: 0,
            failing,
            faults: 0,
        };
        let words = ["convert"];
        let got = run_over(
            &rt,
            alloc,
            &words,
            &mut source,
            &mut sink,
            &Staged::new(),
            &OpenGate,
        )?;
        let want = if failing < 113 {
            Status::WriteFault
        } else {
            Status::Done
        };
        assert!(rt; got == want, "at {failing}");
        let prefix = &text[..text.len().min(failing as usize - 1)];
        assert!(rt; sink.bytes.as_slice() == prefix, "at {failing}");
    }
    Ok(())
}
