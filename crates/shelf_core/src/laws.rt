//! Laws of shelves. Each function does nothing; its contract is the law.
ghost use Rattle.std.specs.Prelude.{◌≡◌, ℕ, List, Some, None, IsTrue};
ghost use Rattle.std.specs.FinMap as map;
ghost use Rattle.book_model.specs.declared.fact.Fact.{Fact};
ghost use Rattle.book_model.specs.sky.Facts.{IsValueDay};
ghost use Rattle.book_model.specs.sky.Names.{has_place};
ghost use Rattle.shelf_core.specs.Shelves.{Entry, Slots, AllRight, IsRight, Step, OfferRight, settled, set_once, after};
ghost use Rattle.shelf_core.specs.Slots.{slot_of};

/// One step sets one slot: it holds the entry where it was empty, and what it held where it was set, and no other slot
/// changes. On a slot that is set it changes nothing at all.
#[tactic(auto, using(crate::proofs::StepLemmas::sets, crate::proofs::StepLemmas::settles, crate::proofs::StepLemmas::leaves, crate::proofs::StepLemmas::keeps, crate::proofs::StepLemmas::right_once))]
pub fn step()
    ensures sets { (s : Slots) (slot : ℕ) (e : Entry) → map.get s slot ≡ None
        → map.get (set_once s slot e) slot ≡ Some e }
    ensures settles { (s : Slots) (slot : ℕ) (e : Entry)
        → map.get (set_once s slot e) slot ≡ Some (settled (map.get s slot) e) }
    ensures leaves { (s : Slots) (slot other : ℕ) (e : Entry) → ¬ (other ≡ slot)
        → map.get (set_once s slot e) other ≡ map.get s other }
    ensures keeps { (s : Slots) (slot : ℕ) (e held : Entry) → map.get s slot ≡ Some held
        → set_once s slot e ≡ s }
    ensures right { (s : Slots) (slot : ℕ) (e : Entry) → AllRight s → IsRight e
        → AllRight (set_once s slot e) }
{}

/// Whatever list of steps any workers make, in any order: where each offers a right entry, every entry is right after
/// them, if every one was before; and an entry that stood in a slot stands there still.
#[tactic(auto, using(crate::proofs::StepLemmas::stay_right, crate::proofs::StepLemmas::stays))]
pub fn steps()
    ensures right { (s : Slots) (steps : List Step) → AllRight s → OfferRight steps
        → AllRight (after s steps) }
    ensures stays { (s : Slots) (steps : List Step) (slot : ℕ) (held : Entry)
        → map.get s slot ≡ Some held
        → map.get (after s steps) slot ≡ Some held }
{}

/// No two facts have one slot: facts of places that their kinds have, on days of which facts may have values.
pub fn slots()
    ensures own { (f g : Fact) → IsTrue (has_place f.kind f.place)
        → IsTrue (has_place g.kind g.place)
        → IsValueDay f.day → IsValueDay g.day → slot_of f ≡ slot_of g → f ≡ g }
{}
