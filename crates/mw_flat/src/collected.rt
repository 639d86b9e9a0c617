//! The steps that were collected for the next event of a log, as a judge of its goals.
ghost use Rattle.std.specs.Prelude.{◌≡◌, ◌+◌, ◌<◌, ◌^◌, false, true, [], ◌∷◌, ◌++◌, All, OnOk, OnErr};
ghost use Rattle.mw_heap.specs.Objects.{object_at, IsIn};
ghost use Rattle.mw_model.specs.Terms.Object.{Object};
ghost use Rattle.mw_model.specs.Events.Refusal.{PROOF};
ghost use Rattle.mw_flat.specs.Collecting.{conclusion_numbered, by_number, judged_by_number};

use crate::numbered::numbered;
use mw_heap::{Heap, Memory, Ref, Refusal, View};
use mw_term::Marks;
use mw_theory::{Judge, Theory};
use std::alloc::Global;

/// How many steps there are, and their conclusions: as many, where each step is good.
#[derive(Drop)]
pub(crate) struct Collected {
    pub conclusions: Vec<Ref>,
    pub good: bool,
    pub count: u64,
}

impl Collected {
    /// No steps.
    pub(crate) fn none(alloc: Global) -> Collected
        ensures conclusions { result.conclusions.items ≡ [] }
        ensures good { result.good ≡ true }
        ensures count { result.count ≡ 0 }
    {
        Collected {
            conclusions: Vec::new(alloc),
            good: true,
            count: 0,
        }
    }

    /// Adds a step with this conclusion.
    pub(crate) fn add(&mut self, conclusion: Ref) -> Result<(), Memory>
        requires room { self.old.count + 1 < 2 ^ 64 }
        ensures conclusions { OnOk result (self.new.conclusions.items ≡ self.old.conclusions.items ++ conclusion ∷ []) }
        ensures good { self.new.good ≡ self.old.good }
        ensures count { OnOk result (self.new.count ≡ self.old.count + 1) }
        ensures err { OnErr result (self.new.conclusions.items ≡ self.old.conclusions.items) }
        ensures err_count { OnErr result (self.new.count ≡ self.old.count) }
    {
        self.conclusions.push(conclusion)?;
        self.count += 1;
        Ok(())
    }

    /// Adds a step that is not good.
    pub(crate) fn add_bad(&mut self)
        requires room { self.old.count + 1 < 2 ^ 64 }
        ensures conclusions { self.new.conclusions ≡ self.old.conclusions }
        ensures good { self.new.good ≡ false }
        ensures count { self.new.count ≡ self.old.count + 1 }
    {
        self.good = false;
        self.count += 1;
    }

    /// Forgets the steps.
    pub(crate) fn forget(&mut self)
        ensures conclusions { self.new.conclusions.items ≡ [] }
        ensures good { self.new.good ≡ true }
        ensures count { self.new.count ≡ 0 }
    {
        self.conclusions.clear();
        self.good = true;
        self.count = 0;
    }
}

// Whether the object is the number of the conclusion that is the formula.
fn concludes(heap: &Heap, conclusions: &[Ref], formula: Ref, number: Ref) -> bool
    requires conclusions { All (IsIn heap.now.objects) conclusions.now }
    requires formula { IsIn heap.now.objects formula }
    requires number { IsIn heap.now.objects number }
    ensures yes { result ≡ true → by_number heap.now.objects conclusions.now (object_at heap.now.objects formula) (object_at heap.now.objects number) ≡ None }
    ensures no { result ≡ false → by_number heap.now.objects conclusions.now (object_at heap.now.objects formula) (object_at heap.now.objects number) ≡ Some PROOF }
{
    let View::Nat(n) = heap.view(number) else {
        return false;
    };
    match numbered(conclusions, n) {
        Some(conclusion) => heap.same(conclusion, formula),
        None => false,
    }
}

impl Judge for Collected {
    ghost ready = { λ c os. All (IsIn os) c.conclusions.items };

    ghost limit = { λ c. 0 };

    ghost judges = { λ c os. judged_by_number os c.conclusions.items };

    fn refusal(
        &mut self,
        heap: &mut Heap,
        formula: Ref,
        proof: Ref,
        _theory: &Theory,
        _marks: &mut Marks,
    ) -> Result<Option<Refusal>, Memory> {
        if concludes(heap, &self.conclusions, formula, proof) {
            Ok(None)
        } else {
            Ok(Some(Refusal::Proof))
        }
    }
}
