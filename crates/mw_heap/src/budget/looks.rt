//! How much work may go over the same cells again and again.
ghost use Rattle.std.specs.Prelude.{◌≡◌, ◌+◌, ◌*◌, ◌-◌, ◌^◌, min, OnOk, OnErr};

use crate::Memory;

// The looks that any work may take: they take half a second.
const MOST_LOOKS: u64 = 1 << 26;

// How many more for each cell that it is about: several times what reading takes for one, so that what an event takes is in proportion to its
// cells, and work that looks at each cell a few dozen times is never refused.
const LOOKS_FOR_A_CELL: u64 = 256;

/// How many looks at cells work on this number of cells may take, where labels may have it look at a cell many times: past them it is answered
/// as out of memory. A look is as much work as it is to compare two cells and to note that they were compared; what searches a table or
/// makes a cell takes several.
pub fn looks_for(cells: usize) -> u64
    ensures { result ≡ min (2 ^ 26 + min (cells * 256) (2 ^ 64 - 1)) (2 ^ 64 - 1) }
{
    MOST_LOOKS.saturating_add((cells as u64).saturating_mul(LOOKS_FOR_A_CELL))
}

/// Takes one look from those that are left. The error is that none is left: so much work is answered as out of memory.
pub fn take_look(left: &mut u64) -> Result<(), Memory>
    ensures taken { OnOk result (left.old ≡ left.new + 1) }
    ensures none { OnErr result (left.old ≡ 0) }
    ensures kept { OnErr result (left.new ≡ left.old) }
{
    if *left == 0 {
        return Err(Memory);
    }
    *left -= 1;
    Ok(())
}
