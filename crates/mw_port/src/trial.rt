//! The trial book as a source of bytes, which makes each line as it is read.
ghost use Rattle.std.specs.Prelude.{◌≡◌, ◌+◌, ◌*◌, ◌%◌, ◌<◌, ◌≤◌, List, [], ◌++◌, length, take, min, Some, IfOk, OnOk, OnErr, IsOk};
ghost use Rattle.arrayvec.specs.ArrayString.{array_string_len};
ghost use Rattle.mw_model.specs.Texts.Printing.{numeral};
ghost use Rattle.mw_model.specs.Reports.Trial.{sum_formula, x_formula, odd_line, even_line, trial_line, trial_book};
ghost use Rattle.mw_port.specs.Ports.{Rises, Gives, HasEnded};
ghost use Rattle.mw_port.specs.Memories.{no_faults};

use crate::{Failed, Source};
use arrayvec::ArrayString;
use itoa::Buffer;
use std::marker::Model;

// No number has more digits.
const NUMBER: usize = 40;

// No formula is longer: at most 19 bytes beside three numbers.
const FORMULA: usize = 19 + 3 * NUMBER;

// No line is longer: at most 117 bytes beside nine formulas.
const LINE: usize = 117 + 9 * FORMULA;

// Writes a natural in decimal digits.
fn write_number(formula: &mut ArrayString<FORMULA>, n: u128)
    requires { array_string_len formula.old + NUMBER ≤ FORMULA }
    ensures digits { formula.new.bytes ≡ formula.old.bytes ++ numeral n }
    ensures grown { array_string_len formula.new ≤ array_string_len formula.old + NUMBER }
{
    let mut buffer = Buffer::new();
    formula.push_str(buffer.format(n));
}

// The formula that the event of this number computes.
fn sum_formula(event: u64) -> ArrayString<FORMULA>
    ensures { result.bytes ≡ sum_formula event ((event * event) % 1000) }
{
    let first = u128::from(event);
    let second = first * first % 1000;
    let mut formula = ArrayString::new();
    formula.push_str("(pequal* (+ '");
    write_number(&mut formula, first);
    formula.push_str(" '");
    write_number(&mut formula, second);
    formula.push_str(") '");
    write_number(&mut formula, first + second);
    formula.push_str(")");
    formula
}

// The formula by which the event of this number, if it is even, weakens its sum.
fn x_formula(event: u64) -> ArrayString<FORMULA>
    ensures { result.bytes ≡ x_formula event }
{
    let mut formula = ArrayString::new();
    formula.push_str("(pequal* x '");
    write_number(&mut formula, u128::from(event));
    formula.push_str(")");
    formula
}

// Writes the line of an odd event, but for its end.
fn write_odd(line: &mut ArrayString<LINE>, sum: &ArrayString<FORMULA>)
    requires { line.old.bytes ≡ [] }
    ensures text { line.new.bytes ≡ odd_line sum.now.bytes }
    ensures room { array_string_len line.new < LINE }
{
    let sum = sum.as_str();
    line.push_str("(verify trial ");
    line.push_str(sum);
    line.push_str(" (base-eval ");
    line.push_str(sum);
    line.push_str("))");
}

// Writes the line of an even event, but for its end.
fn write_even(line: &mut ArrayString<LINE>, sum: &ArrayString<FORMULA>, x: &ArrayString<FORMULA>)
    requires { line.old.bytes ≡ [] }
    ensures text { line.new.bytes ≡ even_line sum.now.bytes x.now.bytes }
    ensures room { array_string_len line.new < LINE }
{
    let sum = sum.as_str();
    let x = x.as_str();
    line.push_str("(verify trial (por* ");
    line.push_str(sum);
    line.push_str(" ");
    line.push_str(x);
    line.push_str(") (cut (por* ");
    line.push_str(sum);
    line.push_str(" ");
    line.push_str(x);
    line.push_str(") ((expansion (por* ");
    line.push_str(x);
    line.push_str(" ");
    line.push_str(sum);
    line.push_str(") ((base-eval ");
    line.push_str(sum);
    line.push_str("))) (propositional-schema (por* (pnot* ");
    line.push_str(x);
    line.push_str(") ");
    line.push_str(x);
    line.push_str(")))))");
}

// Makes the line of an event.
fn make_line(line: &mut ArrayString<LINE>, event: u64)
    ensures { line.new.bytes ≡ trial_line event }
{
    let sum = sum_formula(event);
    let odd = event % 2 == 1;
    line.clear();
    if odd {
        write_odd(line, &sum);
    } else {
        write_even(line, &sum, &x_formula(event));
    }
    line.push_str("\n");
}

// Copies bytes to the front of a buffer, as many as fit.
fn copy_front(buffer: &mut [u8], bytes: &[u8]) -> usize
    ensures amount { result ≡ min (length bytes.now) (length buffer.old) }
    ensures copied { take result buffer.new ≡ take result bytes.now }
{
    let n = bytes.len().min(buffer.len());
    buffer[..n].copy_from_slice(&bytes[..n]);
    n
}

/// The trial book of so many events: each odd event computes a sum, each even one weakens one. Its calls never
/// fail, and it takes no memory.
#[derive(Drop)]
pub struct TrialSource {
    events: u64,
    // the event whose line is held; 0 before the first
    event: u64,
    line: ArrayString<LINE>,
    // how many bytes of the line were given
    given: usize,
}

// Seen as the bytes that are left.
impl Model for TrialSource {
    ghost use Rattle.std.specs.Prelude.{ℕ, ◌-◌, ◌≤◌, List, ◌++◌, length, drop};
    ghost use Rattle.mw_port.specs.Trials.{lines_after};

    ghost Value = { List ℕ };

    ghost view = { λ s. drop s.given s.line.bytes ++ lines_after s.event (s.events - s.event) };

    ghost invariant = { λ s. (s.given ≤ length s.line.bytes) × (s.event ≤ s.events) };
}

impl TrialSource {
    /// The trial book of so many events.
    pub fn new(events: u64) -> TrialSource
        ensures { result ≡ trial_book events }
    {
        TrialSource {
            events,
            event: 0,
            line: ArrayString::new(),
            given: 0,
        }
    }

    // Gives bytes of one line, as many as fit. None for a buffer that is not empty says that all were given.
    fn give(&mut self, buffer: &mut [u8]) -> usize
        ensures within { result ≤ length buffer.new }
        ensures given { self.old ≡ take result buffer.new ++ self.new }
        ensures ended { result ≡ 0 → 0 < length buffer.old → self.old ≡ [] }
    {
        if self.given == self.line.len() {
            if self.event == self.events {
                return 0;
            }
            self.event += 1;
            make_line(&mut self.line, self.event);
            self.given = 0;
        }
        let n = copy_front(buffer, &self.line.as_str().as_bytes()[self.given..]);
        self.given += n;
        n
    }
}

impl Source for TrialSource {
    ghost left = { λ s. Some s };

    ghost faults = { λ s. no_faults };

    fn read(&mut self, buffer: &mut [u8]) -> Result<usize, Failed>
        ensures within { IfOk result (λ n. n ≤ length buffer.new) }
        ensures given { IfOk result (λ n. Gives (Some self.old) (Some self.new) (take n buffer.new)) }
        ensures ended { IfOk result (λ n. n ≡ 0 → 0 < length buffer.old → HasEnded (Some self.old)) }
        ensures steady { OnOk result (no_faults ≡ no_faults) }
        ensures failed { OnErr result (Rises no_faults no_faults) }
        ensures kept { OnErr result (Some self.new ≡ Some self.old) }

        ensures succeeds { IsOk result }
        ensures gives { IfOk result (λ n. n ≡ min (length self.old) (length buffer.old)) }
    {
        let mut at = 0;
        while at < buffer.len() {
            let n = self.give(&mut buffer[at..]);
            if n == 0 {
                break;
            }
            at += n;
        }
        Ok(at)
    }
}
