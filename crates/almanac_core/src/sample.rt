//! The lines of a sample.
ghost use Rattle.std.specs.Prelude.{◌≡◌, ◌<◌, IfOk};
ghost use Rattle.almanac_core.specs.Sample as spec;
ghost use Rattle.book_model.specs.lines.Requests.{AreSpelled};

use book_model::{Fields, FromWord, Request, ToWord};
use std::alloc::{AllocError, Global};

/// The multiplier, the increment and the modulus of the generator (Knuth, MMIX).
const MULTIPLIER: u128 = 6_364_136_223_846_793_005;

const INCREMENT: u128 = 1_442_695_040_888_963_407;

const MODULUS: u128 = 1 << 64;

/// The first day that a line of a sample may name, 1 January 1802 (R.D.), and how many there are from it on. They stay when
/// more days are answered, so that a sample stays as it is.
const FIRST_DAY: u64 = 657_802;

const DAYS: u64 = 90_216;

/// The state after another.
#[tactic(auto, unfolding(crate::specs::Sample::state_after))]
fn state_after(state: u64) -> u64
    ensures state { result ≡ spec.state_after state }
{
    ((u128::from(state) * MULTIPLIER + INCREMENT) % MODULUS) as u64
}

/// The day (R.D.) that a state names.
#[tactic(auto, unfolding(crate::specs::Sample::day_by))]
fn day_by(state: u64) -> u64
    ensures day { result ≡ spec.day_by state }
    ensures few { result < 1000000 }
{
    FIRST_DAY + (state >> 33) % DAYS
}

/// What the line of an index, from 0, asks of its day.
#[tactic(auto, unfolding(crate::specs::Sample::asked_at))]
fn asked_at(index: u32) -> ToWord
    ensures word { result ≡ spec.asked_at index }
{
    match index % 7 {
        0 => ToWord::Dt,
        1 => ToWord::Persian,
        2 => ToWord::Bahai,
        3 => ToWord::Chinese,
        4 => ToWord::Islamic,
        5 => ToWord::HinduSolar,
        _ => ToWord::HinduLunar,
    }
}

/// The line of a state.
#[tactic(auto, unfolding(crate::specs::Sample::sample_line_of))]
fn line_by(state: u64, index: u32) -> Request
    ensures request { result ≡ spec.sample_line_of state index }
{
    Request {
        from: FromWord::Fixed,
        date: Fields {
            count: 1,
            values: [day_by(state) as i32, 0, 0, 0, 0],
        },
        to: asked_at(index),
    }
}

/// The line of an index, from 0, of a sample, and the state after it, by the state before it: a day from 1802 to 2048 by a
/// linear congruential generator, and in turn each of seven questions. It takes no memory.
pub fn sample_line(state: u64, index: u32) -> (Request, u64)
    ensures request { result.0 ≡ spec.sample_line_of (spec.state_after state) index }
    ensures state { result.1 ≡ spec.state_after state }
{
    let state = state_after(state);
    (line_by(state, index), state)
}

/// So many lines of a sample, whose generator begins at the seed, in their order. The error comes where memory runs out.
pub fn sample_requests(alloc: Global, count: u32, seed: u64) -> Result<Vec<Request>, AllocError>
    ensures requests { IfOk result (λ requests. requests.items ≡ spec.sample_requests count seed) }
    ensures spelled { IfOk result (λ requests. AreSpelled requests.items) }
{
    let mut requests = Vec::with_capacity(alloc, count as usize)?;
    let mut state = seed;
    for index in 0..count {
        let (request, next) = sample_line(state, index);
        requests.push(request)?;
        state = next;
    }
    Ok(requests)
}
