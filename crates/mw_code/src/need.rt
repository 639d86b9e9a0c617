//! How many places of the stack code needs.
ghost use Rattle.std.specs.Prelude.{◌≡◌, ℕ, ◌+◌, ◌-◌, ◌<◌, ◌≤◌, ◌^◌, List, length, drop, slice_index, slice_get, Some, IfOk};
ghost use Rattle.mw_heap.specs.Variants.{primitive_of};
ghost use Rattle.mw_code.specs.Jobs.{IsFrom, AreFrom};
ghost use Rattle.mw_code.specs.Needs.{arity_by, top_need, need_of, need_at};

use crate::{Instruction, Signature};
use mw_heap::{Memory, Primitive};
use std::alloc::Global;

fn arity_of(primitive: Primitive) -> u32
    ensures { result ≡ arity_by (primitive_of primitive) }
{
    match primitive {
        Primitive::If => 3,
        Primitive::Consp | Primitive::Car | Primitive::Cdr | Primitive::Symbolp | Primitive::Natp =>
            1,
        Primitive::Equal
        | Primitive::Cons
        | Primitive::SymbolLess
        | Primitive::Less
        | Primitive::Plus
        | Primitive::Minus
        | Primitive::Times => 2,
    }
}

// What a place needs, of those from a place on; none after these.
fn need_at(needs: &[u32], from: usize, place: u32) -> u32
    requires { from ≤ place }
    ensures { result ≡ slice_index needs.now (place - from) }
{
    let index = place as usize - from;
    if index < needs.len() { needs[index] } else { 0 }
}

fn top_need(needs: &[u32]) -> u32
    requires { 0 < length needs.now }
    ensures { result ≡ top_need needs.now }
{
    needs[needs.len() - 1]
}

// What an instruction needs. Of the smaller places, those from a place on need these.
fn need_of(needs: &[u32], from: usize, signature: &Signature, instruction: Instruction) -> u32
    requires some { 0 < length needs.now }
    requires small { top_need needs.now + 1 < 2 ^ 32 }
    requires jumps { IsFrom from instruction }
    ensures { (ns : List ℕ) → needs.now ≡ drop from ns → result ≡ need_of signature.now ns instruction }
{
    let top = top_need(needs);
    match instruction {
        Instruction::Constant(_) | Instruction::Local(_) | Instruction::Enter(_, _) => top + 1,
        Instruction::Apply(primitive) => (top + 1).saturating_sub(arity_of(primitive)),
        Instruction::Call(index) => (top + 1).saturating_sub(signature.arity(index)),
        Instruction::JumpNil(place) => need_at(needs, from, place).max(top).saturating_sub(1),
        Instruction::Jump(place) => need_at(needs, from, place),
        Instruction::Slide(count) => top.saturating_sub(count),
        Instruction::TailCall(_) | Instruction::Return => 0,
    }
}

/// The instruction at an index.
pub(crate) fn instruction_at(code: &[Instruction], index: usize) -> Instruction
    requires { index < length code.now }
    ensures { slice_get code.now index ≡ Some result }
{
    code[index]
}

/// What the last place of code needs. Only the part from a place on is looked at: nothing is needed where it begins, and it goes to no
/// place before that. The error is out of memory.
pub(crate) fn find_need(
    alloc: Global,
    code: &[Instruction],
    from: usize,
    signature: &Signature,
) -> Result<u32, Memory>
    requires few { length code.now < 2 ^ 32 }
    requires within { from ≤ length code.now }
    requires still { need_at signature.now code.now from ≡ 0 }
    requires jumps { AreFrom from code.now }
    ensures { IfOk result (λ n. n ≡ need_at signature.now code.now (length code.now)) }
{
    let mut needs = Vec::new(alloc);
    needs.push(0)?;
    for index in from..code.len() {
        let need = need_of(
            needs.as_slice(),
            from,
            signature,
            instruction_at(code, index),
        );
        needs.push(need)?;
    }
    Ok(top_need(needs.as_slice()))
}
