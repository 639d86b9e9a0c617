//! Lists of formals.
ghost use Rattle.std.specs.Prelude.{◌≡◌, length, option_map, true, IfOk, IfSome};
ghost use Rattle.mw_model.specs.Terms.Term.{Term, is_among, is_closed};
ghost use Rattle.mw_model.specs.Terms.Reading.{term_of};
ghost use Rattle.mw_model.specs.Values.Primitive.{is_symbol, name_of};
ghost use Rattle.mw_heap.specs.Objects.{object_at, IsIn};
ghost use Rattle.mw_term.specs.Parts.{formals_of, names_at, AreSymbols};

use crate::formals::{formal_set, is_among_symbols};
use crate::free::is_closed;
use crate::work::Work;
use indexmap::IndexSet;
use mw_heap::{Heap, Memory, Ref};
use std::marker::Model;

/// Formals, which are distinct variables, as references to their symbols. Seen as the list of these.
#[derive(Drop)]
pub struct Formals {
    symbols: IndexSet<Ref>,
}

impl Model for Formals {
    ghost use Rattle.std.specs.Prelude.{List, ℕ};

    ghost Value = { List ℕ };

    ghost view = { λ f. f.symbols.keys };
}

impl Formals {
    /// The formals of which `x` is the list, where it is a proper list of distinct variables. The one error is out of memory.
    pub fn of_list(heap: &Heap, x: Ref) -> Result<Option<Formals>, Memory>
        requires { IsIn heap.now.objects x }
        ensures formals { IfOk result (λ o. option_map (names_at heap.now.objects) o ≡ formals_of (object_at heap.now.objects x)) }
        ensures symbols { IfOk result (λ o. IfSome o (AreSymbols heap.now.objects)) }
    {
        let mut work = Work::of_one_walk(heap.alloc());
        match formal_set(heap, x, &mut work)? {
            Some(symbols) => Ok(Some(Formals { symbols })),
            None => Ok(None),
        }
    }

    /// The same, where each member that is looked at takes a look from those that are left. The errors are out of memory, and that no look
    /// is left.
    pub fn of_list_counted(
        heap: &Heap,
        x: Ref,
        looks_left: &mut u64,
    ) -> Result<Option<Formals>, Memory>
        requires { IsIn heap.now.objects x }
        ensures formals { IfOk result (λ o. option_map (names_at heap.now.objects) o ≡ formals_of (object_at heap.now.objects x)) }
        ensures symbols { IfOk result (λ o. IfSome o (AreSymbols heap.now.objects)) }
    {
        let mut work = Work::new(heap.alloc(), *looks_left);
        let set = formal_set(heap, x, &mut work)?;
        *looks_left = work.looks_left;
        match set {
            Some(symbols) => Ok(Some(Formals { symbols })),
            None => Ok(None),
        }
    }

    /// The number of formals.
    pub fn len(&self) -> usize
        ensures { result ≡ length self.now }
    {
        self.symbols.len()
    }

    /// The references, in order.
    pub fn as_slice(&self) -> &[Ref]
        ensures { result.now ≡ self.now }
    {
        self.symbols.as_slice()
    }

    /// Whether the symbol `x` is one of them.
    pub fn contains(&self, heap: &Heap, x: Ref) -> bool
        requires within { IsIn heap.now.objects x }
        requires symbol { is_symbol (object_at heap.now.objects x) ≡ true }
        requires symbols { AreSymbols heap.now.objects self.now }
        ensures { result ≡ is_among (name_of (object_at heap.now.objects x)) (names_at heap.now.objects self.now) }
    {
        is_among_symbols(heap, &self.symbols, x)
    }

    /// Whether each free variable of a term is one of them. The one error is out of memory.
    pub fn closes(&self, heap: &Heap, term: Ref) -> Result<bool, Memory>
        requires within { IsIn heap.now.objects term }
        requires symbols { AreSymbols heap.now.objects self.now }
        ensures { IfOk result (λ b. (t : Term) → term_of (object_at heap.now.objects term) ≡ Some t → b ≡ is_closed (names_at heap.now.objects self.now) t) }
    {
        let mut work = Work::of_one_walk(heap.alloc());
        Ok(is_closed(heap, &self.symbols, term, &mut work)?)
    }

    /// The same, where each cell that is looked at and each variable that is tested takes a look from those that are left. The errors are
    /// out of memory, and that no look is left.
    pub fn closes_counted(
        &self,
        heap: &Heap,
        term: Ref,
        looks_left: &mut u64,
    ) -> Result<bool, Memory>
        requires within { IsIn heap.now.objects term }
        requires symbols { AreSymbols heap.now.objects self.now }
        ensures { IfOk result (λ b. (t : Term) → term_of (object_at heap.now.objects term) ≡ Some t → b ≡ is_closed (names_at heap.now.objects self.now) t) }
    {
        let mut work = Work::new(heap.alloc(), *looks_left);
        let closed = is_closed(heap, &self.symbols, term, &mut work)?;
        *looks_left = work.looks_left;
        Ok(closed)
    }
}
