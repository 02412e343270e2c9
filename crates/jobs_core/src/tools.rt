//! What is handed down, unread, to whatever computes.
ghost use Rattle.std.specs.Prelude.{◌≤◌};

use std::alloc::Global;

/// What work is done with: the runtime, the allocator, an evaluator of facts, the number of threads, from 1 to 64, and a gate.
#[derive(Drop)]
pub struct Tools<'a, R, E, G> {
    pub rt: &'a R,
    pub alloc: Global,
    pub evaluator: &'a E,
    pub jobs: usize,
    pub gate: &'a G,
    ghost some: { 1 ≤ jobs },
    ghost few: { jobs ≤ 64 },
}
