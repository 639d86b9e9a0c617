//! A list of proofs as steps.
ghost use Rattle.std.specs.Prelude.{◌≡◌, ℕ, List, ◌++◌, map, All, IfOk, OnOk, OnErr};
ghost use Rattle.mw_commands.specs.Commands.Subproofs.{distinct_proofs};
ghost use Rattle.mw_commands.specs.Commands.Flattening.{number_among, StepsWritten};
ghost use Rattle.mw_heap.specs.Objects.{object_at, IsIn};
ghost use Rattle.mw_heap.specs.Lists.{list_object};

use crate::number::numbers_of;
use crate::steps::write_steps;
use crate::walk::complete_proofs;
use indexmap::IndexSet;
use mw_heap::{Heap, Memory, Ref};

// The same, over the distinct proofs that these are made of.
fn write_complete(
    heap: &Heap,
    complete: &IndexSet<Ref>,
    proofs: &[Ref],
    out: &mut Vec<u8>,
) -> Result<Vec<u64>, Memory>
    requires proofs { All (IsIn heap.now.objects) proofs.now }
    requires complete { All (IsIn heap.now.objects) complete.now.keys }
    requires distinct { map (object_at heap.now.objects) complete.now.keys ≡ distinct_proofs (list_object heap.now.objects proofs.now) }
    ensures steps { OnOk result ((text : List ℕ) × StepsWritten (list_object heap.now.objects proofs.now) text × (out.new.items ≡ out.old.items ++ text)) }
    ensures numbers { IfOk result (λ v. v.items ≡ map (λ r. number_among (distinct_proofs (list_object heap.now.objects proofs.now)) (object_at heap.now.objects r)) proofs.now) }
    ensures longer { (more : List ℕ) × (out.new.items ≡ out.old.items ++ more) }
{
    let numbers = numbers_of(heap, complete, proofs)?;
    write_steps(heap, complete, out)?;
    Ok(numbers)
}

// The same as `flatten`, where after an error part of the steps may stand.
fn write_all(heap: &Heap, proofs: &[Ref], out: &mut Vec<u8>) -> Result<Vec<u64>, Memory>
    requires { All (IsIn heap.now.objects) proofs.now }
    ensures steps { OnOk result ((text : List ℕ) × StepsWritten (list_object heap.now.objects proofs.now) text × (out.new.items ≡ out.old.items ++ text)) }
    ensures numbers { IfOk result (λ v. v.items ≡ map (λ r. number_among (distinct_proofs (list_object heap.now.objects proofs.now)) (object_at heap.now.objects r)) proofs.now) }
    ensures longer { (more : List ℕ) × (out.new.items ≡ out.old.items ++ more) }
{
    let complete = complete_proofs(heap, proofs)?;
    write_complete(heap, &complete, proofs, out)
}

/// Writes one step for each distinct proof that these proofs are made of, after what `out` has, in the order in which they are complete,
/// subproofs first, and answers the number of each of these proofs. Whatever the objects are, they are taken as proofs by CAR and CDR.
/// Each distinct proof and each distinct cell of a list of proofs is entered once, and each step costs what is written for it. The error
/// is out of memory, or that the steps would name more than 2^24 subproofs and 64 more for each distinct proof, or take more
/// than 2^26 bytes and 2^10 more for each, since many of them may share one long list or conclusion: then `out` keeps its bytes.
pub fn flatten(heap: &Heap, proofs: &[Ref], out: &mut Vec<u8>) -> Result<Vec<u64>, Memory>
    requires { All (IsIn heap.now.objects) proofs.now }
    ensures steps { OnOk result ((text : List ℕ) × StepsWritten (list_object heap.now.objects proofs.now) text × (out.new.items ≡ out.old.items ++ text)) }
    ensures numbers { IfOk result (λ v. v.items ≡ map (λ r. number_among (distinct_proofs (list_object heap.now.objects proofs.now)) (object_at heap.now.objects r)) proofs.now) }
    ensures err { OnErr result (out.new.items ≡ out.old.items) }
{
    let had = out.len();
    match write_all(heap, proofs, out) {
        Ok(numbers) => Ok(numbers),
        Err(refusal) => {
            out.truncate(had);
            Err(refusal)
        }
    }
}
