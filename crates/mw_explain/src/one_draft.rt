//! What is shown of a draft whose formals, terms or variables are refused.
ghost use Rattle.std.specs.Prelude.{◌≡◌, ◌++◌, [], ◌∷◌, true, cond, is_some, map, unwrap_or, option_map, IfOk, IfSome};
ghost use Rattle.std.specs.Option.{option_map_or};
ghost use Rattle.mw_model.specs.Terms.Object.{Symbol, is_name, name_of_bytes, same_name, symbol};
ghost use Rattle.mw_model.specs.Terms.Term.{firsts, occurrences};
ghost use Rattle.mw_model.specs.Events.Admission.{formals_of};
ghost use Rattle.mw_model.specs.Events.Expansion.{expand, without};
ghost use Rattle.mw_heap.specs.Objects.{object_at, IsIn, Grows};
ghost use Rattle.mw_heap.specs.Variants.{refusal_of};
ghost use Rattle.mw_term.specs.Parts.{names_at, AreSymbols};
ghost use Rattle.mw_define.specs.Blocks.{draft_at, IsDraftIn};
ghost use Rattle.mw_commands.specs.Commands.ExplanationTerms.{bad_raw};
ghost use Rattle.mw_commands.specs.Commands.Explanation.{draft_shown, or_else_shown, raw_shown};
ghost use Rattle.mw_bad_steps.specs.Shown.{Shows};

use crate::other_variables::other_variables;
use crate::putting_first::put_symbol;
use crate::raw_part::bad_raw;
use crate::shown_part::part_shown_under;
use mw_define::{Draft, expanded_body};
use mw_heap::{Heap, Memory, Ref, Refusal, looks_for};
use mw_term::{Arity, Formals, take_searches};

// The formals of a list, where it is one of formals. Each member takes a search.
fn read_formals(heap: &mut Heap, list: Ref) -> Result<Option<Formals>, Memory>
    requires { IsIn heap.old.objects list }
    ensures same { heap.new.objects ≡ heap.old.objects }
    ensures formals { IfOk result (λ o. option_map (names_at heap.old.objects) o ≡ formals_of (object_at heap.old.objects list)) }
    ensures symbols { IfOk result (λ o. IfSome o (AreSymbols heap.old.objects)) }
{
    let most = looks_for(heap.mark().cells()) / 16;
    let mut looks_left = most;
    let formals = Formals::of_list_counted(heap, list, &mut looks_left)?;
    take_searches(heap, most.saturating_sub(looks_left))?;
    Ok(formals)
}

// A list that is none of formals.
fn formals_shown(heap: &mut Heap, list: Ref) -> Result<Vec<Ref>, Memory>
    requires { IsIn heap.old.objects list }
    ensures grows { Grows heap.old.objects heap.new.objects }
    ensures shown { IfOk result (λ v. Shows heap.new.objects v.items (cond (is_some (formals_of (object_at heap.old.objects list))) [] (object_at heap.old.objects list ∷ []))) }
{
    let formals = read_formals(heap, list)?;
    let Some(_) = formals else {
        let mut shown = Vec::new(heap.alloc());
        shown.push(list)?;
        return Ok(shown);
    };
    Ok(Vec::new(heap.alloc()))
}

// The first part that keeps a raw term from expanding to a term under two tables, with its arity, after a word; nothing of a raw term
// that expands.
fn term_shown(
    heap: &mut Heap,
    word: &[u8],
    raw: Ref,
    newer: &Arity,
    older: &Arity,
) -> Result<Vec<Ref>, Memory>
    requires word { is_name word.now ≡ true }
    requires raw { IsIn heap.old.objects raw }
    ensures grows { Grows heap.old.objects heap.new.objects }
    ensures shown { IfOk result (λ v. Shows heap.new.objects v.items (raw_shown (Symbol (name_of_bytes word.now)) (newer.now ++ older.now) (bad_raw (newer.now ++ older.now) (object_at heap.old.objects raw)))) }
{
    match bad_raw(heap, raw, newer, older)? {
        Some(part) => {
            let shown = part_shown_under(heap, newer, older, part)?;
            put_symbol(heap, word, shown)
        }
        None => Ok(Vec::new(heap.alloc())),
    }
}

// What keeps the body of a draft from being a term, or else the measure.
fn terms_shown(
    heap: &mut Heap,
    draft: Draft,
    newer: &Arity,
    older: &Arity,
) -> Result<Vec<Ref>, Memory>
    requires { IsDraftIn heap.old.objects draft }
    ensures grows { Grows heap.old.objects heap.new.objects }
    ensures shown { IfOk result (λ v. Shows heap.new.objects v.items (or_else_shown (raw_shown (symbol "BODY") (newer.now ++ older.now) (bad_raw (newer.now ++ older.now) (object_at heap.old.objects draft.body))) (raw_shown (symbol "MEASURE") older.now (bad_raw older.now (object_at heap.old.objects draft.measure))))) }
{
    let shown = term_shown(heap, b"BODY", draft.body, newer, older)?;
    if !shown.as_slice().is_empty() {
        return Ok(shown);
    }
    let none = Arity::new(heap.alloc());
    term_shown(heap, b"MEASURE", draft.measure, &none, older)
}

// The variables of the body and the measure of a draft that are no formals.
fn variables_shown(
    heap: &mut Heap,
    draft: Draft,
    newer: &Arity,
    older: &Arity,
) -> Result<Vec<Ref>, Memory>
    requires { IsDraftIn heap.old.objects draft }
    ensures grows { Grows heap.old.objects heap.new.objects }
    ensures shown { IfOk result (λ v. Shows heap.new.objects v.items (map Symbol (without (firsts same_name (option_map_or occurrences (expand (newer.now ++ older.now) (object_at heap.old.objects draft.body)) [] ++ option_map_or occurrences (expand older.now (object_at heap.old.objects draft.measure)) [])) (unwrap_or (formals_of (object_at heap.old.objects draft.formals)) [])))) }
{
    let none = Arity::new(heap.alloc());
    let body = expanded_body(heap, draft.body, newer, older)?;
    let measure = expanded_body(heap, draft.measure, &none, older)?;
    let formals = read_formals(heap, draft.formals)?;
    let most = looks_for(heap.mark().cells()) / 16;
    let mut looks_left = most;
    let others = other_variables(heap, &formals, body, measure, &mut looks_left)?;
    take_searches(heap, most.saturating_sub(looks_left))?;
    Ok(others)
}

// What is shown of a draft whose measure stands under the older table, and its body under both: nothing where it passes this test.
pub(crate) fn draft_shown(
    heap: &mut Heap,
    reason: Refusal,
    draft: Draft,
    newer: &Arity,
    older: &Arity,
) -> Result<Vec<Ref>, Memory>
    requires { IsDraftIn heap.old.objects draft }
    ensures grows { Grows heap.old.objects heap.new.objects }
    ensures shown { IfOk result (λ v. Shows heap.new.objects v.items (draft_shown (refusal_of reason) older.now (newer.now ++ older.now) (draft_at heap.old.objects draft))) }
{
    match reason {
        Refusal::Formals => formals_shown(heap, draft.formals),
        Refusal::Term => terms_shown(heap, draft, newer, older),
        _ => variables_shown(heap, draft, newer, older),
    }
}
