//! What terms come to: a natural, the units that are left and the frames.
use crate::bench::{Answer, answer_for};
use crate::terms::Recipe;

#[test]
fn a_deep_term_takes_one_frame(rt: HostRuntime) {
    assert!(rt;
        answer_for(rt.alloc(), Recipe::Nested(100_000), 100_001) == Ok(Answer::Number(0, 1, 1))
    );
}

#[test]
fn a_unit_is_missing(rt: HostRuntime) {
    assert!(rt; answer_for(rt.alloc(), Recipe::Nested(10), 9) == Ok(Answer::Steps));
}

#[test]
fn a_sum_is_too_large(rt: HostRuntime) {
    assert!(rt; answer_for(rt.alloc(), Recipe::Doubled(1 << 120, 8), 1000) == Ok(Answer::Overflow));
}

#[test]
fn a_shared_term_is_run_as_a_tree(rt: HostRuntime) {
    assert!(rt;
        answer_for(rt.alloc(), Recipe::Doubled(3, 10), 1023) == Ok(Answer::Number(3072, 0, 1))
    );
}

// The text of this term has more than 65,536 bytes as a tree, so that its code has parts. They take a unit for each of the 2^20 - 1 sums
// of the tree, and open no frame that counts.
#[test]
fn a_term_that_is_shared_often_takes_the_units_of_its_tree(rt: HostRuntime) {
    assert!(rt;
        answer_for(rt.alloc(), Recipe::Doubled(3, 20), 1_048_575)
            == Ok(Answer::Number(3_145_728, 0, 1))
    );
    assert!(rt; answer_for(rt.alloc(), Recipe::Doubled(3, 20), 1_048_574) == Ok(Answer::Steps));
}

#[test]
fn a_term_that_is_shared_sixty_times_ends_with_its_units(rt: HostRuntime) {
    assert!(rt; answer_for(rt.alloc(), Recipe::Doubled(3, 60), 1000) == Ok(Answer::Steps));
}
