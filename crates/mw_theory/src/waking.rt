//! Marks that stay right where a block gives new names.
ghost use Rattle.std.specs.Prelude.{OnOk};
ghost use Rattle.mw_model.specs.Terms.Term.{ArityTable};
ghost use Rattle.mw_model.specs.Values.Definition.{Block};
ghost use Rattle.mw_term.specs.Marking.{AreMarks};
ghost use Rattle.mw_term.specs.Settling.{IsWatch};
ghost use Rattle.mw_theory.specs.Waking.{IsNamed, WakesNames};

use mw_heap::{Heap, Memory};
use mw_preamble::Definition;
use mw_term::{Arity, Marks, Watch, give_up};

/// Makes the marks right under an arity table that a block has come to: those alone are made anew that its names may change. Where memory is
/// refused, all marks are forgotten for ever.
pub fn settle(
    watch: &mut Watch,
    marks: &mut Marks,
    heap: &Heap,
    arity: &Arity,
    block: &[Definition],
)
    requires { (A : ArityTable) × (B : Block) × IsNamed A B arity.now heap.now.objects block.now marks.old watch.old }
    ensures marked { AreMarks arity.now heap.now.objects marks.new }
    ensures watch { IsWatch arity.now heap.now.objects watch.new }
{
    if try_to_settle(watch, marks, heap, arity, block).is_err() {
        give_up(watch, marks);
    }
}

// The same, where memory is given.
fn try_to_settle(
    watch: &mut Watch,
    marks: &mut Marks,
    heap: &Heap,
    arity: &Arity,
    block: &[Definition],
) -> Result<(), Memory>
    requires { (A : ArityTable) × (B : Block) × IsNamed A B arity.now heap.now.objects block.now marks.old watch.old }
    ensures marked { OnOk result (AreMarks arity.now heap.now.objects marks.new) }
    ensures watch { OnOk result (IsWatch arity.now heap.now.objects watch.new) }
{
    heap.order();
    wake_names(watch, block)?;
    watch.settle(marks, heap, arity)
}

// Has all objects wait that are noted with a name of the block.
fn wake_names(watch: &mut Watch, block: &[Definition]) -> Result<(), Memory>
    ensures { OnOk result (WakesNames watch.old watch.new block.now) }
{
    for definition in block {
        let (name, _, _) = definition.spelling();
        watch.wake(name)?;
    }
    Ok(())
}
