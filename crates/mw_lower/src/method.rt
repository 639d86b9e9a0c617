//! Steps by the methods of proof.
ghost use Rattle.std.specs.Prelude.{◌≡◌, ◌<◌, true, All, List, length, IfOk};
ghost use Rattle.mw_heap.specs.Objects.{object_at, IsIn, Grows};
ghost use Rattle.mw_term.specs.Marking.{AreMarks};
ghost use Rattle.mw_model.specs.Terms.Term.{ArityTable, Formula};
ghost use Rattle.mw_model.specs.Proofs.Proof.{ProveEach};
ghost use Rattle.mw_model.specs.Proofs.Judgment.{methods, method_among};
ghost use Rattle.mw_model.specs.Laws.Rules.{is_formula_object};
ghost use Rattle.mw_rules.specs.Step.{rule_holds};
ghost use Rattle.mw_rules.specs.Basis.{IsBasisIn};
ghost use Rattle.mw_proof.specs.Judging.{basis_over};
ghost use Rattle.mw_heap.specs.Lists.{list_object};
ghost use Rattle.mw_lower.specs.Methods.{ProvesSome, method_follows, IsMethodStep, AreConclusions, WithProofs};

use mw_heap::{Heap, Memory, Ref, list_of};
use mw_proof::Members;
use mw_rules::{Basis, Method, follows};
use mw_term::Marks;

/// A step by its method with other proofs for its premises, and with these the step itself where they are its own; nothing where it does
/// not hold.
pub(crate) fn method_step(
    heap: &mut Heap,
    p: Ref,
    step: Members,
    proofs: &[Ref],
    basis: &Basis,
    marks: &Marks,
) -> Result<Option<Ref>, Memory>
    requires marks { (A : ArityTable) × AreMarks A heap.old.objects marks.now }
    requires itself { IsIn heap.old.objects p }
    requires method { IsIn heap.old.objects step.method }
    requires conclusion { step.conclusion < length marks.now }
    requires formula { (A : ArityTable) × (is_formula_object A (object_at heap.old.objects step.conclusion) ≡ true) }
    requires subproofs { IsIn heap.old.objects step.subproofs }
    requires extras { step.extras < length marks.now }
    requires within { All (IsIn heap.old.objects) proofs.now }
    requires basis { IsBasisIn heap.old.objects basis.now }
    requires proofs { (A : ArityTable) → AreMarks A heap.old.objects marks.now → ProvesSome (basis_over heap.old.objects A basis.now) (list_object heap.old.objects proofs.now) }
    ensures grows { Grows heap.old.objects heap.new.objects }
    ensures answer { IfOk result (λ o. (A : ArityTable) → AreMarks A heap.old.objects marks.now → IsMethodStep (basis_over heap.old.objects A basis.now) heap.old.objects p step (list_object heap.old.objects proofs.now) heap.new.objects o) }
{
    if !follows_from(heap, step, proofs, basis, marks)? {
        return Ok(None);
    }
    Ok(Some(with_proofs(heap, p, step, proofs)?))
}

// Whether the conclusion of a step follows by its method, which may be none, from what the proofs prove.
fn follows_from(
    heap: &mut Heap,
    step: Members,
    proofs: &[Ref],
    basis: &Basis,
    marks: &Marks,
) -> Result<bool, Memory>
    requires marks { (A : ArityTable) × AreMarks A heap.old.objects marks.now }
    requires method { IsIn heap.old.objects step.method }
    requires conclusion { step.conclusion < length marks.now }
    requires formula { (A : ArityTable) × (is_formula_object A (object_at heap.old.objects step.conclusion) ≡ true) }
    requires extras { step.extras < length marks.now }
    requires within { All (IsIn heap.old.objects) proofs.now }
    requires basis { IsBasisIn heap.old.objects basis.now }
    requires proofs { (A : ArityTable) → AreMarks A heap.old.objects marks.now → ProvesSome (basis_over heap.old.objects A basis.now) (list_object heap.old.objects proofs.now) }
    ensures grows { Grows heap.old.objects heap.new.objects }
    ensures answer { IfOk result (λ b. (A : ArityTable) → AreMarks A heap.old.objects marks.now → method_follows (basis_over heap.old.objects A basis.now) heap.old.objects step (list_object heap.old.objects proofs.now) ≡ b) }
{
    let Some(method) = Method::of(heap, step.method) else {
        return Ok(false);
    };
    let conclusions = each_conclusion(heap, proofs)?;
    follows(
        heap,
        method,
        step.conclusion,
        conclusions.as_slice(),
        step.extras,
        basis,
        marks,
    )
}

// The conclusion of each of the proofs.
fn each_conclusion(heap: &Heap, proofs: &[Ref]) -> Result<Vec<Ref>, Memory>
    requires { All (IsIn heap.now.objects) proofs.now }
    ensures within { IfOk result (λ v. All (IsIn heap.now.objects) v.items) }
    ensures conclusions { IfOk result (λ v. AreConclusions heap.now.objects proofs.now v.items) }
{
    let mut conclusions = Vec::new(heap.alloc());
    for p in proofs {
        if let Some(conclusion) = heap.second_of(*p) {
            conclusions.push(conclusion)?;
        }
    }
    Ok(conclusions)
}

// The step with other proofs, itself where they are its own.
fn with_proofs(heap: &mut Heap, p: Ref, step: Members, proofs: &[Ref]) -> Result<Ref, Memory>
    requires itself { IsIn heap.old.objects p }
    requires method { IsIn heap.old.objects step.method }
    requires conclusion { IsIn heap.old.objects step.conclusion }
    requires subproofs { IsIn heap.old.objects step.subproofs }
    requires extras { IsIn heap.old.objects step.extras }
    requires within { All (IsIn heap.old.objects) proofs.now }
    ensures grows { Grows heap.old.objects heap.new.objects }
    ensures made { IfOk result (λ q. IsIn heap.new.objects q × WithProofs heap.old.objects p step (list_object heap.old.objects proofs.now) (object_at heap.new.objects q)) }
{
    let list = list_of(heap, proofs)?;
    if heap.same(list, step.subproofs) {
        return Ok(p);
    }
    list_of(heap, &[step.method, step.conclusion, list, step.extras])
}
