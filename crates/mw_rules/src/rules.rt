//! The rules of proof.
ghost use Rattle.std.specs.Prelude.{◌≡◌, ◌<◌, true, All, length, IfOk};
ghost use Rattle.mw_heap.specs.Objects.{object_at, IsIn, Grows, AreDistinct};
ghost use Rattle.mw_term.specs.Marking.{AreMarks};
ghost use Rattle.mw_model.specs.Terms.Term.{ArityTable};
ghost use Rattle.mw_model.specs.Terms.Object.{is_member};
ghost use Rattle.mw_model.specs.Laws.Rules.{is_formula_object};
ghost use Rattle.mw_heap.specs.Lists.{list_object};
ghost use Rattle.mw_rules.specs.Basis.{IsBasisIn, rule_holds_over};

use crate::basis::Basis;
use crate::known::Known;
use crate::method::Method;
use mw_base::base_eval;
use mw_equal::{beta, functional_equality, instantiation};
use mw_heap::{Heap, Memory, Ref};
use mw_induct::premises_hold;
use mw_prop::{associativity, contraction, cut, expansion, schema};
use mw_term::Marks;

/// Whether the conclusion follows by the method from those of the subproofs, with these extras, over a basis. Each arm is a row of the table
/// of methods: only the first two take extras. The marks say what is a term. The error is out of memory.
pub fn follows(
    heap: &mut Heap,
    method: Method,
    conclusion: Ref,
    conclusions: &[Ref],
    extras: Ref,
    basis: &Basis,
    marks: &Marks,
) -> Result<bool, Memory>
    requires marks { (A : ArityTable) × AreMarks A heap.old.objects marks.now }
    requires conclusion { conclusion < length marks.now }
    requires formula { (A : ArityTable) × (is_formula_object A (object_at heap.old.objects conclusion) ≡ true) }
    requires premises { All (IsIn heap.old.objects) conclusions.now }
    requires formulas { All (λ r. (A : ArityTable) × (is_formula_object A (object_at heap.old.objects r) ≡ true)) conclusions.now }
    requires extras { extras < length marks.now }
    requires basis { IsBasisIn heap.old.objects basis.now }
    ensures grows { Grows heap.old.objects heap.new.objects }
    ensures answer { IfOk result (λ b. (A : ArityTable) → AreMarks A heap.old.objects marks.now → b ≡ rule_holds_over heap.old.objects basis.now A method conclusion conclusions.now extras) }
{
    match (method, conclusions) {
        (Method::Instantiation, [a]) => instantiation(heap, conclusion, *a, extras, marks),
        (Method::Induction, _) => premises_hold(heap, conclusion, extras, conclusions, marks),
        _ if !heap.is_nil(Some(extras)) => Ok(false),
        (Method::Axiom, []) => Ok(is_known(heap, basis.axioms, conclusion)),
        (Method::Theorem, []) => Ok(is_known(heap, basis.theorems, conclusion)),
        (Method::PropositionalSchema, []) => Ok(schema(heap, conclusion)),
        (Method::FunctionalEquality, []) => Ok(functional_equality(heap, conclusion)),
        (Method::BetaReduction, []) => beta(heap, conclusion),
        (Method::BaseEval, []) => base_eval(heap, conclusion, basis.profile),
        (Method::Expansion, [a]) => Ok(expansion(heap, conclusion, *a)),
        (Method::Contraction, [a]) => Ok(contraction(heap, conclusion, *a)),
        (Method::Associativity, [a]) => Ok(associativity(heap, conclusion, *a)),
        (Method::Cut, [a, b]) => Ok(cut(heap, conclusion, *a, *b)),
        _ => Ok(false),
    }
}

/// Whether the object is one of those that are known.
pub fn is_known(heap: &Heap, known: &Known, x: Ref) -> bool
    requires within { IsIn heap.now.objects x }
    requires known { All (IsIn heap.now.objects) known.now }
    ensures { result ≡ is_member (object_at heap.now.objects x) (list_object heap.now.objects known.now) }
{
    heap.order();
    known.holds(x)
}
