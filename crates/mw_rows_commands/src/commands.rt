//! The words of the command line, and what the program does with them.
use mw_book::Status;
use mw_rows::{Answer, answer_of_command, expect_empty};
use std::alloc::{AllocError, Global};
use std::test::Fail;

const BOOK: &str = "(print 1)";

const REPORT: &str = "1 PRINT - accepted 1\nevents 1 accepted 1 refused 0 level 1\n";

const HELP: &str =
    "milawa check [--steps N]\nmilawa trial M [--steps N]\nmilawa taut\nmilawa lower [--steps N]\nmilawa slice NAME [--steps N]\nmilawa flat [--steps N]\nmilawa recheck\nmilawa explain [--steps N]\n";

// Command lines that ask for nothing that the program does. A comma stands between two words.
const OTHERS: &str = "\
check,--steps,0
check,--steps,1000000000001
check,--steps,00000000000001
check,--steps,x
check,--steps,+1
check,--steps,-1
check,--steps,
check,--steps
check,--steps,5,--steps,5
--steps,5,check
check,book
check,--help
help
-h
--version
-V
trial
trial,x
trial,1000001
trial,00000001
trial,2,3
Check
taut,x
taut,--steps,5
lower,x
lower,--steps,0
slice
slice,12
slice,(use)
slice,a b
slice,|use
slice,a,b
flat,x
flat,--steps,0
recheck,x
recheck,--steps,5
explain,x
explain,--steps,0
";

// Command lines that ask for a book to be judged.
const CHECKS: &str = "\
check
check,--
check,--steps,5
check,--steps=5
check,--steps,0000000000001
check,--steps,1000000000000
";

// Command lines that ask for a trial book to be judged, and the expected line.
const TRIALS: &str = "\
trial,0 => events 0 accepted 0 refused 0 level 1
trial,2 => events 2 accepted 2 refused 0 level 1
trial,0002 => events 2 accepted 2 refused 0 level 1
trial,--,5 => events 5 accepted 5 refused 0 level 1
trial,--steps,1,5 => events 5 accepted 5 refused 0 level 1
trial,1000 => events 1000 accepted 1000 refused 0 level 1
trial,20000,--steps,5 => events 20000 accepted 20000 refused 0 level 1
";

// What the program, called with these words, writes on the book, and how it ends.
fn asked(alloc: Global, words: &[&str]) -> Result<Answer, AllocError> {
    answer_of_command(alloc, words, BOOK, 4096)
}

// The words between the commas of a line.
fn words_of<'a>(alloc: Global, line: &'a str) -> Result<Vec<&'a str>, AllocError> {
    let mut words = Vec::new(alloc);
    for word in line.split(',') {
        words.push(word)?;
    }
    Ok(words)
}

// Puts the command line after the text, and how the program ended, where called with its words it does not end so, or writes another text.
fn add_wrong(
    wrong: &mut String,
    alloc: Global,
    line: &str,
    status: Status,
    text: &str,
) -> Result<(), AllocError> {
    let answer = asked(alloc, words_of(alloc, line)?.as_slice())?;
    if answer.status == status && answer.report.as_str() == text {
        return Ok(());
    }
    let number = answer.status.number();
    writeln!(wrong, "{line}\nstatus {number}")
}

// The command lines with which the program does not end so, or writes another text.
fn wrong_lines(
    alloc: Global,
    lines: &str,
    status: Status,
    text: &str,
) -> Result<String, AllocError> {
    let mut wrong = String::new(alloc);
    for line in lines.lines() {
        add_wrong(&mut wrong, alloc, line, status, text)?;
    }
    Ok(wrong)
}

// The same for a trial book, where its line is expected, and a newline after it.
fn add_wrong_trial(wrong: &mut String, alloc: Global, trial: &str) -> Result<(), AllocError> {
    let Some((line, expected)) = trial.split_once(" => ") else {
        return writeln!(wrong, "no row: {trial}");
    };
    let text = format!(in alloc; "{expected}\n")?;
    add_wrong(wrong, alloc, line, Status::Done, text.as_str())
}

// The command lines of trial books after which another line is written.
fn wrong_trials(alloc: Global) -> Result<String, AllocError> {
    let mut wrong = String::new(alloc);
    for trial in TRIALS.lines() {
        add_wrong_trial(&mut wrong, alloc, trial)?;
    }
    Ok(wrong)
}

#[test]
fn other_words_are_told_how_the_program_is_used(rt: HostRuntime) -> Result<(), Fail> {
    expect_empty(wrong_lines(rt.alloc(), OTHERS, Status::Usage, HELP)?)
}

#[test]
fn no_words_are_told_it_too(rt: HostRuntime) -> Result<(), Fail> {
    let answer = asked(rt.alloc(), &[])?;
    assert_eq!(rt; answer.status, Status::Usage);
    assert_eq!(rt; answer.report.as_str(), HELP);
    Ok(())
}

#[test]
fn help_alone_is_answered(rt: HostRuntime) -> Result<(), Fail> {
    let answer = asked(rt.alloc(), &["--help"])?;
    assert_eq!(rt; answer.status, Status::Help);
    assert_eq!(rt; answer.report.as_str(), HELP);
    Ok(())
}

#[test]
fn a_book_is_judged_under_any_step_limit_in_range(rt: HostRuntime) -> Result<(), Fail> {
    expect_empty(wrong_lines(rt.alloc(), CHECKS, Status::Done, REPORT)?)
}

#[test]
fn trial_books_are_accepted(rt: HostRuntime) -> Result<(), Fail> {
    expect_empty(wrong_trials(rt.alloc())?)
}
