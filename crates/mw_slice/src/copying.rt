//! Copies of objects of another heap.
ghost use Rattle.std.specs.Prelude.{◌≡◌, ℕ, true, None, Some, [], ◌∷◌, ◌++◌, IfOk, OnOk, OnErr};
ghost use Rattle.mw_model.specs.Terms.Object.{Natural, Pair};
ghost use Rattle.mw_model.specs.Values.Primitive.{is_symbol};
ghost use Rattle.mw_heap.specs.Objects.{object_at, IsIn, Grows};
ghost use Rattle.mw_heap.specs.Parts.{part_at, IsPart};
ghost use Rattle.mw_slice.specs.Copies.{AreCopies, IsCopied, CanBeDone, IsDone, GetsCopy, copy_of};
ghost use Rattle.mw_slice.specs.declared.copying.Job.TheVariants.{Copy, Join};

use crate::Copies;
use mw_heap::{Heap, Memory, Ref, View};

/// What is to be done: a cell is copied, or a pair is joined, once its parts have copies.
#[derive(Clone, Copy)]
pub(crate) enum Job {
    Copy(Ref),
    Join(Ref, Ref, Ref),
}

// For how many jobs there is room at once: most objects need no more.
const JOBS: usize = 64;

// The copy of a cell that has one.
fn copy_of(copies: &Copies, x: Ref) -> Ref
    requires { IsCopied copies.now x }
    ensures { copy_of copies.now x ≡ Some result }
{
    match copies.get(x) {
        Some(made) => made,
        None => unreachable!(),
    }
}

// Notes the copy of a cell.
fn note(from: &Heap, to: &Heap, copies: &mut Copies, x: Ref, made: Ref) -> Result<(), Memory>
    requires within { IsIn to.now.objects made }
    requires same { object_at to.now.objects made ≡ object_at from.now.objects x }
    requires copies { AreCopies from.now.objects to.now.objects copies.old }
    ensures copies { OnOk result (AreCopies from.now.objects to.now.objects copies.new) }
    ensures copied { OnOk result (GetsCopy copies.old copies.new x) }
{
    let _ = from;
    let _ = to;
    copies.put(x, made)
}

// Has the parts of a pair copied, and then the pair joined.
fn enter(jobs: &mut Vec<Job>, x: Ref, first: Ref, second: Ref) -> Result<(), Memory>
    ensures { OnOk result (jobs.new.items ≡ jobs.old.items ++ Join x first second ∷ Copy second ∷ Copy first ∷ []) }
{
    jobs.push(Job::Join(x, first, second))?;
    jobs.push(Job::Copy(second))?;
    jobs.push(Job::Copy(first))?;
    Ok(())
}

// Joins the copies of a pair's parts.
fn join(
    from: &Heap,
    to: &mut Heap,
    copies: &mut Copies,
    x: Ref,
    first: Ref,
    second: Ref,
) -> Result<(), Memory>
    requires pair { object_at from.now.objects x ≡ Pair (object_at from.now.objects first) (object_at from.now.objects second) }
    requires first_copied { IsCopied copies.old first }
    requires second_copied { IsCopied copies.old second }
    requires copies { AreCopies from.now.objects to.old.objects copies.old }
    ensures grows { Grows to.old.objects to.new.objects }
    ensures copies { OnOk result (AreCopies from.now.objects to.new.objects copies.new) }
    ensures copied { OnOk result (GetsCopy copies.old copies.new x) }
{
    let made = to.cons(copy_of(copies, first), copy_of(copies, second))?;
    note(from, to, copies, x, made)
}

// Copies a pair whose parts have copies, and enters any other one.
fn copy_pair(
    from: &Heap,
    to: &mut Heap,
    copies: &mut Copies,
    jobs: &mut Vec<Job>,
    x: Ref,
    first: Ref,
    second: Ref,
) -> Result<(), Memory>
    requires pair { object_at from.now.objects x ≡ Pair (object_at from.now.objects first) (object_at from.now.objects second) }
    requires first_in { IsIn from.now.objects first }
    requires second_in { IsIn from.now.objects second }
    requires copies { AreCopies from.now.objects to.old.objects copies.old }
    ensures grows { Grows to.old.objects to.new.objects }
    ensures copies { OnOk result (AreCopies from.now.objects to.new.objects copies.new) }
    ensures done { OnOk result (IsDone from.now.objects (Copy x) copies.old copies.new jobs.old.items jobs.new.items) }
{
    if copies.get(first).is_some() && copies.get(second).is_some() {
        return join(from, to, copies, x, first, second);
    }
    enter(jobs, x, first, second)
}

// Copies a natural.
fn copy_natural(
    from: &Heap,
    to: &mut Heap,
    copies: &mut Copies,
    x: Ref,
    n: u128,
) -> Result<(), Memory>
    requires natural { object_at from.now.objects x ≡ Natural n }
    requires copies { AreCopies from.now.objects to.old.objects copies.old }
    ensures grows { Grows to.old.objects to.new.objects }
    ensures copies { OnOk result (AreCopies from.now.objects to.new.objects copies.new) }
    ensures copied { OnOk result (GetsCopy copies.old copies.new x) }
{
    let made = to.nat(n)?;
    note(from, to, copies, x, made)
}

// Copies a symbol.
fn copy_symbol(from: &Heap, to: &mut Heap, copies: &mut Copies, x: Ref) -> Result<(), Memory>
    requires within { IsIn from.now.objects x }
    requires symbol { is_symbol (object_at from.now.objects x) ≡ true }
    requires copies { AreCopies from.now.objects to.old.objects copies.old }
    ensures grows { Grows to.old.objects to.new.objects }
    ensures copies { OnOk result (AreCopies from.now.objects to.new.objects copies.new) }
    ensures copied { OnOk result (GetsCopy copies.old copies.new x) }
{
    let made = to.symbol(from.name_of(x))?;
    note(from, to, copies, x, made)
}

// Copies a cell that is no pair, or whose parts have copies, and enters any other pair. A cell that has a copy is passed over.
fn copy_cell(
    from: &Heap,
    to: &mut Heap,
    copies: &mut Copies,
    jobs: &mut Vec<Job>,
    x: Ref,
) -> Result<(), Memory>
    requires within { IsIn from.now.objects x }
    requires copies { AreCopies from.now.objects to.old.objects copies.old }
    ensures grows { Grows to.old.objects to.new.objects }
    ensures copies { OnOk result (AreCopies from.now.objects to.new.objects copies.new) }
    ensures done { OnOk result (IsDone from.now.objects (Copy x) copies.old copies.new jobs.old.items jobs.new.items) }
{
    if copies.get(x).is_some() {
        return Ok(());
    }
    match from.view(x) {
        View::Nat(n) => copy_natural(from, to, copies, x, n),
        View::Symbol => copy_symbol(from, to, copies, x),
        View::Pair(first, second) => copy_pair(from, to, copies, jobs, x, first, second),
    }
}

// Does a job.
fn work(
    from: &Heap,
    to: &mut Heap,
    copies: &mut Copies,
    jobs: &mut Vec<Job>,
    job: Job,
) -> Result<(), Memory>
    requires possible { CanBeDone from.now.objects copies.old [] job }
    requires copies { AreCopies from.now.objects to.old.objects copies.old }
    ensures grows { Grows to.old.objects to.new.objects }
    ensures copies { OnOk result (AreCopies from.now.objects to.new.objects copies.new) }
    ensures done { OnOk result (IsDone from.now.objects job copies.old copies.new jobs.old.items jobs.new.items) }
{
    match job {
        Job::Copy(x) => copy_cell(from, to, copies, jobs, x),
        Job::Join(x, first, second) => join(from, to, copies, x, first, second),
    }
}

// Does one job after another, of which the first is that the object is copied, and answers its copy.
fn copy_cells(
    from: &Heap,
    x: Ref,
    to: &mut Heap,
    copies: &mut Copies,
    jobs: &mut Vec<Job>,
) -> Result<Ref, Memory>
    requires within { IsIn from.now.objects x }
    requires none { (y : ℕ) → copy_of copies.old y ≡ None }
    requires job { jobs.old.items ≡ Copy x ∷ [] }
    ensures grows { Grows to.old.objects to.new.objects }
    ensures made { IfOk result (λ r. IsIn to.new.objects r × (object_at to.new.objects r ≡ object_at from.now.objects x)) }
{
    while let Some(job) = jobs.pop() {
        work(from, to, copies, jobs, job)?;
    }
    Ok(copy_of(copies, x))
}

/// The copy of an object of another heap. It takes time in proportion to the distinct cells of the object, and memory, beside that for
/// the copy, up to the greatest place of a copied cell. Copies of an earlier object are forgotten. The error is that memory is
/// refused: the heap may then have grown.
pub fn copy(from: &Heap, x: Ref, to: &mut Heap, copies: &mut Copies) -> Result<Ref, Memory>
    requires { IsIn from.now.objects x }
    ensures grows { Grows to.old.objects to.new.objects }
    ensures made { IfOk result (λ r. IsIn to.new.objects r × (object_at to.new.objects r ≡ object_at from.now.objects x)) }
{
    copies.begin();
    let mut jobs = Vec::with_capacity(to.alloc(), JOBS)?;
    jobs.push(Job::Copy(x))?;
    copy_cells(from, x, to, copies, &mut jobs)
}

/// The same, where the heap is as it was after running out of memory.
pub(crate) fn copy_or_cut(
    from: &Heap,
    x: Ref,
    to: &mut Heap,
    copies: &mut Copies,
) -> Result<Ref, Memory>
    requires { IsIn from.now.objects x }
    ensures grows { Grows to.old.objects to.new.objects }
    ensures made { IfOk result (λ r. IsIn to.new.objects r × (object_at to.new.objects r ≡ object_at from.now.objects x)) }
    ensures err { OnErr result (to.new.objects ≡ to.old.objects) }
{
    let start = to.mark();
    match copy(from, x, to, copies) {
        Ok(made) => Ok(made),
        Err(refusal) => {
            to.cut_back(start);
            Err(refusal)
        }
    }
}

/// The copy of a part of an object of another heap, and NIL where it is missing. It costs what `copy` does.
pub(crate) fn copy_part(
    from: &Heap,
    part: Option<Ref>,
    to: &mut Heap,
    copies: &mut Copies,
) -> Result<Ref, Memory>
    requires { IsPart from.now.objects part }
    ensures grows { Grows to.old.objects to.new.objects }
    ensures made { IfOk result (λ r. IsIn to.new.objects r × (object_at to.new.objects r ≡ part_at from.now.objects part)) }
{
    match part {
        Some(x) => copy(from, x, to, copies),
        None => to.nil(),
    }
}
