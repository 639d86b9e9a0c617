//! The parts of the body that is laid out: code of the terms that it holds more than once.
ghost use Rattle.std.specs.Prelude.{◌≡◌, ℕ, ◌≤◌, List, [], true, Some, IfSome, OnOk};
ghost use Rattle.std.specs.Map.{lookup};
ghost use Rattle.mw_model.specs.Terms.Object.{Object};
ghost use Rattle.mw_model.specs.Values.Primitive.{Profile};
ghost use Rattle.mw_code.specs.Jobs.{part_height, part_task};
ghost use Rattle.mw_code.specs.Meaning.{Signature};
ghost use Rattle.mw_code.specs.Places.{same_variable};
ghost use Rattle.mw_code.specs.Reused.{AreParts, BeginsPart};
ghost use Rattle.mw_code.specs.declared.instruction.Instruction.{Instruction};

use crate::job::{Job, Scope, Task};
use crate::shared::Shared;
use indexmap::IndexMap;
use mw_heap::{Memory, Ref};
use std::alloc::Global;

/// A task whose code was laid out as a part, and the place from which it runs.
#[derive(Clone, Copy)]
pub(crate) struct Part {
    pub task: Task,
    pub place: u32,
}

/// The terms that the body holds more than once, and the parts that are laid out so far, by their terms and scopes.
#[derive(Drop)]
pub(crate) struct Parts {
    shared: Shared,
    laid: IndexMap<(Ref, u64), Part>,
}

// The key under which the part of a task is noted: the term, and one number for its scope and for whether it is last. Two tasks may have
// one key, since `find` compares the tasks themselves: then the part that was noted last is found.
fn key_of(task: &Task) -> (Ref, u64) {
    let formals = match task.scope.formals {
        Some(formals) => formals.index() as u64,
        None => 0,
    };
    let scope = formals.wrapping_mul(1 << 33) ^ (u64::from(task.scope.start) << 1);
    (task.term, scope ^ u64::from(task.is_last))
}

// The height of the frame in which the code of a task runs as a part.
fn part_height(task: &Task) -> u32
    ensures { result ≡ part_height task.now.is_last task.now }
{
    if task.is_last {
        task.height
    } else {
        task.scope.end
    }
}

/// A task as it runs in a part.
pub(crate) fn part_task(task: &Task) -> Task
    ensures { result ≡ part_task task.now }
{
    Task {
        height: part_height(task),
        ..*task
    }
}

fn same_formals(a: Option<Ref>, b: Option<Ref>) -> bool
    ensures { result ≡ true → a ≡ b }
{
    match (a, b) {
        (Some(a), Some(b)) => a == b,
        (None, None) => true,
        _ => false,
    }
}

fn same_scope(a: Scope, b: Scope) -> bool
    ensures { result ≡ true → a ≡ b }
{
    same_formals(a.formals, b.formals) && a.start == b.start && a.end == b.end
}

fn same_task(a: Task, b: Task) -> bool
    ensures { result ≡ true → a ≡ b }
{
    a.term == b.term
        && same_scope(a.scope, b.scope)
        && a.height == b.height
        && a.is_last == b.is_last
}

impl Parts {
    /// No part is laid out yet.
    pub fn new(alloc: Global, shared: Shared) -> Parts
        ensures { result.laid.entries ≡ [] }
    {
        Parts {
            shared,
            laid: IndexMap::new(alloc),
        }
    }

    /// Whether the body holds the term more than once, so that a part serves. This is a hint.
    pub fn is_shared(&self, term: Ref) -> bool {
        self.shared.terms.contains(&term)
    }

    /// The place of the part for a task, where one is laid out.
    pub fn find(&self, task: &Task) -> Option<u32>
        ensures { IfSome result (λ place. (key : ℕ × ℕ) × (lookup (same_variable key) self.now.laid.entries ≡ Some (record { task = part_task task.now; place = place }))) }
    {
        let Some(part) = self.laid.get(&key_of(task)).copied() else {
            return None;
        };
        if same_task(part.task, part_task(task)) {
            Some(part.place)
        } else {
            None
        }
    }

    /// Notes the part that a job is of, where it is of one: its code begins at this place. The error is out of memory.
    pub fn note(&mut self, job: &Job, place: u32) -> Result<(), Memory>
        ensures { (P : Profile) (os : List Object) (S : Signature) (from : ℕ) (code : List Instruction) → BeginsPart P os S code place job.now → from ≤ place → AreParts P os S from code self.old.laid.entries → OnOk result (AreParts P os S from code self.new.laid.entries) }
    {
        if let Job::Part(task, _, _) = *job {
            let part = Part {
                task: part_task(&task),
                place,
            };
            self.laid.insert(key_of(&task), part)?;
        }
        Ok(())
    }
}
