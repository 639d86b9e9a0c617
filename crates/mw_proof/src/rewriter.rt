//! Rewriting proofs.
ghost use Rattle.std.specs.Prelude.{◌≤◌, length};
ghost use Rattle.mw_model.specs.Terms.Object.{Member};
ghost use Rattle.mw_model.specs.Terms.Term.{formula_object};
ghost use Rattle.mw_model.specs.Proofs.Axioms.{axiom_1, axiom_2};
ghost use Rattle.mw_model.specs.Laws.Rewriting.{Turning};
ghost use Rattle.mw_heap.specs.Objects.{object_at, IsIn, Grows};
ghost use Rattle.mw_heap.specs.Lists.{list_object};
ghost use Rattle.mw_heap.specs.Variants.{profile_of};
ghost use Rattle.mw_term.specs.Marking.{AreMarks};
ghost use Rattle.mw_rules.specs.Basis.{IsBasisIn};
ghost use Rattle.mw_proof.specs.Rewritten.{IsRewriting};

use mw_heap::{Heap, Ref};
use mw_rules::Basis;
use mw_term::{Arity, Marks};

/// What becomes of a proof: another, itself where it turns to none, or out of memory.
#[derive(Clone, Copy, Debug, PartialEq, Eq)]
pub enum Rewritten {
    Proof(Ref),
    Keep,
    Memory,
}

/// What rewrites proofs. Its meaning is a relation: which objects turn to which.
pub trait Rewriter {
    ghost turns: { Turning };

    /// What `proof` turns to over this basis, under the arity table; `Keep` where it turns to nothing. The first two axioms of the
    /// primitives, of equality, are among its axioms. The marks, which are under that table, may come to reach further.
    fn rewrite(
        &mut self,
        heap: &mut Heap,
        proof: Ref,
        basis: &Basis,
        marks: &mut Marks,
        arity: &Arity,
    ) -> Rewritten
        requires within { IsIn heap.old.objects proof }
        requires basis { IsBasisIn heap.old.objects basis.now }
        requires first { Member (formula_object axiom_1) (list_object heap.old.objects basis.now.axioms.now) }
        requires second { Member (formula_object axiom_2) (list_object heap.old.objects basis.now.axioms.now) }
        requires marked { AreMarks arity.now heap.old.objects marks.old }
        ensures grows { Grows heap.old.objects heap.new.objects }
        ensures marked { AreMarks arity.now heap.new.objects marks.new }
        ensures kept { length marks.old ≤ length marks.new }
        ensures rewritten { IsRewriting (turns (list_object heap.old.objects basis.now.axioms.now) (list_object heap.old.objects basis.now.theorems.now) arity.now (profile_of basis.now.profile) (object_at heap.old.objects proof)) heap.new.objects result };
}
