//! Whether code enters parts.
ghost use Rattle.std.specs.Prelude.{◌≡◌, ℕ, ◌<◌, false, length, slice_get, Some};
ghost use Rattle.mw_code.specs.declared.instruction.Instruction.TheVariants.{Enter};
ghost use Rattle.mw_code.specs.Whole.{AreWholeFrom};

use crate::Instruction;
use crate::need::instruction_at;

fn enters_at(code: &[Instruction], index: usize) -> bool
    requires { index < length code.now }
    ensures { result ≡ false → (k p : ℕ) → slice_get code.now index ≡ Some (Enter k p) → ⊥ }
{
    matches!(instruction_at(code, index), Instruction::Enter(_, _))
}

/// Whether an instruction from an index on enters a part.
pub(crate) fn enters_part(code: &[Instruction], from: usize) -> bool
    ensures { result ≡ false → AreWholeFrom from code.now }
{
    for index in from..code.len() {
        if enters_at(code, index) {
            return true;
        }
    }
    false
}
