//! Judging the proofs that events come with.
ghost use Rattle.std.specs.Prelude.{◌≡◌, ℕ, List, IfOk, option_map};
ghost use Rattle.mw_model.specs.Terms.Object.{Object};
ghost use Rattle.mw_heap.specs.Objects.{object_at, IsIn, Grows};
ghost use Rattle.mw_heap.specs.Variants.{refusal_of};
ghost use Rattle.mw_term.specs.Marking.{AreMarks};
ghost use Rattle.mw_theory.specs.Knowledge.{parts_of, meant, IsHeld};
ghost use Rattle.mw_theory.specs.Proofs.{Judge as Judges};

use crate::theory::Theory;
use mw_heap::{Heap, Memory, Ref, Refusal};
use mw_term::Marks;

/// What judges proofs.
pub trait Judge {
    // over these objects it may judge, and over more
    ghost ready: { Self → List Object → Type 0 };

    // with how many units it runs a checker, if it does
    ghost limit: { Self → ℕ };

    // why an object is refused as a proof of a formula at a theory, where it is, by a judge that is ready over these objects
    ghost judges: { Self → List Object → Judges };

    /// Why the object is refused as a proof of the formula at the theory, where it is. The marks, which are under the theory's arity
    /// table, are extended. The one error is out of memory.
    fn refusal(
        &mut self,
        heap: &mut Heap,
        formula: Ref,
        proof: Ref,
        theory: &Theory,
        marks: &mut Marks,
    ) -> Result<Option<Refusal>, Memory>
        requires formula { IsIn heap.old.objects formula }
        requires proof { IsIn heap.old.objects proof }
        requires held { IsHeld heap.old.objects theory.now }
        requires ready { (os : List Object) × Grows os heap.old.objects × ready self.old os }
        requires marked { AreMarks theory.now.arity heap.old.objects marks.old }
        ensures grows { Grows heap.old.objects heap.new.objects }
        ensures marked { AreMarks theory.now.arity heap.new.objects marks.new }
        ensures same { judges self.new ≡ judges self.old }
        ensures limit { limit self.new ≡ limit self.old }
        ensures ready { (os : List Object) → ready self.old os → ready self.new os }
        ensures refusal { (os : List Object) → Grows os heap.old.objects → ready self.old os → IfOk result (λ r. option_map refusal_of r ≡ judges self.old os (meant heap.old.objects (parts_of theory.now)) (object_at heap.old.objects formula) (object_at heap.old.objects proof)) };
}
