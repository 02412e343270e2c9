//! The trail of a run: the count of its tests, and what it has evaluated and may ask again.
ghost use Rattle.std.specs.Fn.{FnOnceReturnsAtMut};
ghost use Rattle.std.specs.Prelude.{◌≡◌, Ok, IfErr, IfOk, IfSome};
ghost use Rattle.book_model.specs.programs.Leading.{next_turn};
ghost use Rattle.encl_core.specs.Kept.{IsKept, IsKeptWithin, program_of, tests_of};

use crate::Span;
use crate::asked::Asked;
use crate::kept::Kept;

/// How many tests a run has made, and what it caches: the new moon of number 0, some of the last other new moons, and ΔT of the
/// last year, each at its place (`Asked`). The count stops at the greatest `u32`. What is cached is only ever what the run would
/// evaluate anew, so it changes no answer; and it is taken only by enclosures of the scale at which it was evaluated.
#[derive(Drop)]
pub struct Trail {
    count: u32,
    kept: [Option<Kept>; 5],
}

impl Trail {
    /// The trail of a run that has made no test, and caches nothing.
    pub fn new() -> Self
        ensures empty { result.count ≡ 0 }
    {
        Trail {
            count: 0,
            kept: [None; 5],
        }
    }

    // The evaluator has one trail for each scale, which caches the new moon of number 0 and from
    // which each run begins.
    /// The trail of another run, which has made no test, and caches what this one does.
    pub fn anew(&self) -> Self
        ensures empty { result.count ≡ 0 }
    {
        Trail {
            count: 0,
            kept: self.kept,
        }
    }

    /// How many tests have been made.
    pub fn count(&self) -> u32
        ensures value { result ≡ self.now.count }
    {
        self.count
    }

    // Public, since a formula that decides a test in whole numbers counts it itself.
    /// Counts one more test, and gives its number.
    #[tactic(auto, unfolding(book_model::specs::programs::Leading::next_turn))]
    pub fn step(&mut self) -> u32
        ensures counted { self.new.count ≡ next_turn self.old.count }
        ensures number { result ≡ self.new.count }
    {
        self.count = self.count.saturating_add(1);
        self.count
    }

    /// What a call gives on this trail, as a try: where it fails its tests are no part of the run, and another is made in its place.
    pub fn attempt<T, X, F: FnOnce(&mut Trail) -> Result<T, X>>(&mut self, call: F) -> Result<T, X>
        requires { F.IsAlwaysCallable call }
        ensures found { IfOk result (λ t. FnOnceReturnsAtMut F.FnOnce call self.old (Ok t) self.new) }
        ensures back { IfErr result (λ x. self.new.count ≡ self.old.count) }
    {
        let before = self.count;
        let result = call(self);
        if result.is_err() {
            self.count = before;
        }
        result
    }

    /// The endpoints of what is asked, if they are cached at scale 2 to the power of minus `bits`. Who takes them counts the tests
    /// that they were evaluated by.
    pub fn kept(&self, asked: Asked, bits: u32) -> Option<Span>
        ensures evaluated { IfSome result (IsKept (tests_of asked) (program_of asked)) }
        ensures measured { IfSome result (IsKeptWithin asked bits) }
    {
        self.kept[asked.place()]?.at(asked, bits)
    }

    // It asks for endpoints that were evaluated: what a trail caches says by its type that it is right.
    /// Caches the endpoints of what is asked, as enclosures at scale 2 to the power of minus `bits` gave them, if they did, in place of
    /// what was cached there.
    pub fn keep(&mut self, asked: Asked, bits: u32, endpoints: Option<Span>)
        requires evaluated { IfSome endpoints (IsKept (tests_of asked) (program_of asked)) }
        requires measured { IfSome endpoints (IsKeptWithin asked bits) }
        ensures counted { self.new.count ≡ self.old.count }
    {
        if let Some(endpoints) = endpoints {
            self.kept[asked.place()] = Some(Kept::new(asked, bits, endpoints));
        }
    }
}
