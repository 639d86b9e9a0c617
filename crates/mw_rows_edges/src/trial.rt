//! The trial book, in pieces of two sizes.
ghost use Rattle.std.specs.Prelude.{◌<◌, length};

use mw_port::{Source, TrialSource};
use std::test::Fail;

const TWO: &[u8] = b"(verify trial (pequal* (+ '1 '1) '2) (base-eval (pequal* (+ '1 '1) '2)))
(verify trial (por* (pequal* (+ '2 '4) '6) (pequal* x '2)) (cut (por* (pequal* (+ '2 '4) '6) (pequal* x '2)) ((expansion (por* (pequal* x '2) (pequal* (+ '2 '4) '6)) ((base-eval (pequal* (+ '2 '4) '6)))) (propositional-schema (por* (pnot* (pequal* x '2)) (pequal* x '2))))))
";

// Whether the trial book of the given number of events comes in pieces of the buffer's size, and then its end.
fn gives(events: u64, book: &[u8], buffer: &mut [u8]) -> bool
    requires { 0 < length buffer.old }
{
    let mut source = TrialSource::new(events);
    for piece in book.chunks(buffer.len()) {
        if source.read(buffer) != Ok(piece.len()) || !buffer.starts_with(piece) {
            return false;
        }
    }
    source.read(buffer) == Ok(0)
}

#[test]
fn a_trial_book_is_read_in_pieces_of_any_size(rt: HostRuntime) -> Result<(), Fail> {
    assert!(rt; gives(2, TWO, &mut [0; 7]));
    assert!(rt; gives(2, TWO, &mut [0; 4096]));
    assert!(rt; gives(0, b"", &mut [0; 7]));
    Ok(())
}
