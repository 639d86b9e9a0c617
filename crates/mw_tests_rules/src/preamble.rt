//! The built-in definitions, counted, and the arities of some.
use mw_forms::boxed;
use mw_heap::{Heap, Memory, Profile};
use mw_preamble::admit_all;
use mw_term::Arity;
use std::test::Fail;

// The arities of a built-in function, of IF and of RANK.
fn arities(arity: &Arity) -> [Option<u64>; 3] {
    [
        arity.lookup(b"LOGIC.PROOFP"),
        arity.lookup(b"IF"),
        arity.lookup(b"RANK"),
    ]
}

// How many axioms and arities there are, and some of the arities.
fn admitted(heap: &mut Heap) -> Result<(usize, usize, [Option<u64>; 3]), Memory> {
    let preamble = admit_all(heap, Profile::One)?;
    Ok((
        preamble.axioms.as_slice().len(),
        preamble.arity.len(),
        arities(&preamble.arity),
    ))
}

#[test]
fn the_built_in_definitions_are_admitted(rt: HostRuntime) -> Result<(), Fail> {
    let mut heap = boxed(rt.alloc())?;
    assert_eq!(rt;
        admitted(&mut heap)?,
        (54, 12 + 54, [Some(4), Some(3), Some(1)])
    );
    Ok(())
}
