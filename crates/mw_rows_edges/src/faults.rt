//! The first fault of a book's text.
use mw_rows::{expect_empty, wrong_answers};
use std::test::Fail;

const FAULTS: &str = "\
)
=> 3
syntax CLOSE at 0
----
(a . b c)
=> 3
syntax DOT at 7
----
(print 12a)
=> 3
syntax TOKEN at 7
----
(print \"a\")
=> 3
syntax BYTE at 7
----
(print #1#)
=> 3
syntax LABEL at 7
----
(print ||)
=> 3
syntax TOKEN at 7
----
(print ')
=> 3
syntax CLOSE at 8
----
#1=(a . #1#)
=> 3
syntax LABEL at 8
----
#1=#1#
=> 3
syntax LABEL at 3
----
(#1=a #1=b)
=> 3
syntax LABEL at 6
----
#0000000001=a
=> 3
syntax LABEL at 0
----
#1
=> 3
syntax END at 2
----
(print a#1#)
=> 3
syntax TOKEN at 8
----
(print |a|b)
=> 3
syntax TOKEN at 10
----
(print +1)
=> 3
syntax TOKEN at 7
----
(. a)
=> 3
syntax DOT at 1
----
(a .)
=> 3
syntax DOT at 4
----
.|a|
=> 3
syntax TOKEN at 1
----
(.|a|)
=> 3
syntax TOKEN at 2
----
'.#1=a
=> 3
syntax TOKEN at 2
----
(a .|b|)
=> 3
syntax TOKEN at 4
----
(a . b ..)
=> 3
syntax DOT at 7
----
(a . b 12a)
=> 3
syntax DOT at 7
----
(a . b #x)
=> 3
syntax DOT at 7
----
(a . b ||)
=> 3
syntax DOT at 7
----
(a . b#1#)
=> 3
syntax TOKEN at 6
----
(a . |b|c)
=> 3
syntax TOKEN at 8
----
(a . b \"c\")
=> 3
syntax BYTE at 7
----
.\"
=> 3
syntax DOT at 0
----
(.
=> 3
syntax DOT at 1
----
#\"
=> 3
syntax LABEL at 0
----
.)
=> 3
syntax DOT at 0
----
(.)
=> 3
syntax DOT at 1
----
#1\"
=> 3
syntax LABEL at 0
----
12a
=> 3
syntax TOKEN at 0
----
(12a
=> 3
syntax TOKEN at 1
----
(a .
=> 3
syntax END at 4
----
(print 1) (print
=> 3
1 PRINT - accepted 1
syntax END at 16
";

// No faults, though they look like some of those above.
const DATA: &str = "\
#1=a
=> 1
1 - - refused EVENT
events 1 accepted 0 refused 1 level 1
----
a'b
=> 1
1 - - refused EVENT
2 QUOTE - refused EVENT
events 2 accepted 0 refused 2 level 1
";

#[test]
fn the_first_fault_ends_a_book(rt: HostRuntime) -> Result<(), Fail> {
    expect_empty(wrong_answers(rt.alloc(), &["check"], FAULTS, 4096)?)
}

#[test]
fn a_label_and_a_quote_begin_data_of_their_own(rt: HostRuntime) -> Result<(), Fail> {
    expect_empty(wrong_answers(rt.alloc(), &["check"], DATA, 4096)?)
}
