//! That wrong rows are reported, each with the program's answer, and so is a text that is not a row.
use mw_rows::{other_reports, wrong_answers};
use std::alloc::{AllocError, Global};
use std::test::Fail;

// The first row is right, the second has another number, the third another report, and the last is none.
const ROWS: &str = "\
(print (right))
=> 0
1 PRINT - accepted (RIGHT)
events 1 accepted 1 refused 0 level 1
----
(print (number))
=> 1
1 PRINT - accepted (NUMBER)
events 1 accepted 1 refused 0 level 1
----
(print (report))
=> 0
1 PRINT - accepted (ANOTHER)
events 1 accepted 1 refused 0 level 1
----
(print (none))
";

const TOLD: &str = "\
(print (number))
=> 0
1 PRINT - accepted (NUMBER)
events 1 accepted 1 refused 0 level 1

(print (report))
=> 0
1 PRINT - accepted (REPORT)
events 1 accepted 1 refused 0 level 1

no row: (print (none))

";

// The same with step limits, and reports by how they begin.
const LIMITED: &str = "\
1000
(print (right))
=> 0
1 PRINT - accepted (RIGHT)
----
1000
(print (number))
=> 1
1 PRINT - accepted (NUMBER)
----
1000
(print (report))
=> 0
1 PRINT - accepted (ANOTHER)
----
(print (none))
";

const TOLD_LIMITED: &str = "\
0
1 PRINT - accepted (NUMBER)
events 1 accepted 1 refused 0 level 1
0
1 PRINT - accepted (REPORT)
events 1 accepted 1 refused 0 level 1
no row: (print (none))

";

fn tells_wrong_answers(alloc: Global) -> Result<bool, AllocError> {
    let told = wrong_answers(alloc, &["check"], ROWS, 4096)?;
    Ok(told.as_str() == TOLD)
}

fn tells_other_reports(alloc: Global) -> Result<bool, AllocError> {
    let told = other_reports(alloc, LIMITED)?;
    Ok(told.as_str() == TOLD_LIMITED)
}

#[test]
fn wrong_answers_are_told(rt: HostRuntime) -> Result<(), Fail> {
    assert!(rt; tells_wrong_answers(rt.alloc())?);
    Ok(())
}

#[test]
fn other_reports_are_told(rt: HostRuntime) -> Result<(), Fail> {
    assert!(rt; tells_other_reports(rt.alloc())?);
    Ok(())
}
