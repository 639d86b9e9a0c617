//! The program's command, as `clap` is told of it.
ghost use Rattle.std.specs.Prelude.{◌≡◌, false, IfOk};
ghost use Rattle.clap.specs.Words.{app_of, shape_of, rule_of};
ghost use Rattle.clap.specs.declared.builder.command.Command.TheViews.{out-Command as fields_of};
ghost use Rattle.mw_request.specs.Commands as commands;
ghost use Rattle.mw_request.specs.Arguments as arguments;
ghost use Rattle.mw_request.specs.Words.{bare_program, checking_program, judging_program, proving_program, logging_program, argument, argument_shape, steps_shape, with_steps};

use clap::{Arg, ArgAction, Command};
use std::alloc::{AllocError, Global};

/// The command with its subcommands `check`, `trial`, `taut`, `lower`, `slice`, `flat`, `recheck` and `explain`.
pub(crate) fn program<'a>(alloc: Global) -> Result<Command<'a>, AllocError>
    ensures { IfOk result (λ c. app_of c ≡ commands.program) }
{
    let logging = logging_program(alloc)?;
    with_steps(alloc, logging, Command::new(alloc, "explain"))
}

// The command with the subcommands up to those that write and judge logs.
fn logging_program<'a>(alloc: Global) -> Result<Command<'a>, AllocError>
    ensures { IfOk result (λ c. app_of c ≡ logging_program) }
{
    let proving = proving_program(alloc)?;
    let slicing = with_argument(alloc, proving, "slice", "name")?;
    let flattening = with_steps(alloc, slicing, Command::new(alloc, "flat"))?;
    flattening.subcommand(Command::new(alloc, "recheck"))
}

// The command with the four subcommands that judge books, or write theorems with proofs.
fn proving_program<'a>(alloc: Global) -> Result<Command<'a>, AllocError>
    ensures { IfOk result (λ c. app_of c ≡ proving_program) }
{
    let judging = judging_program(alloc)?;
    let proving = judging.subcommand(Command::new(alloc, "taut"))?;
    with_steps(alloc, proving, Command::new(alloc, "lower"))
}

// The command with the two subcommands that write reports.
fn judging_program<'a>(alloc: Global) -> Result<Command<'a>, AllocError>
    ensures { IfOk result (λ c. app_of c ≡ judging_program) }
{
    let checking = checking_program(alloc)?;
    with_argument(alloc, checking, "trial", "events")
}

// The command with the first of them.
fn checking_program<'a>(alloc: Global) -> Result<Command<'a>, AllocError>
    ensures { IfOk result (λ c. app_of c ≡ checking_program) }
{
    with_steps(alloc, bare_program(alloc), Command::new(alloc, "check"))
}

// The command without subcommands.
fn bare_program<'a>(alloc: Global) -> Command<'a>
    ensures { app_of result ≡ bare_program }
{
    Command::new(alloc, "milawa").no_binary_name(true)
}

// The command with one subcommand more: WORD ARGUMENT [--steps N]
fn with_argument<'a>(
    alloc: Global,
    program: Command<'a>,
    word: &'a str,
    name: &'a str,
) -> Result<Command<'a>, AllocError>
    ensures { IfOk result (λ c. app_of c ≡ with_steps (app_of program.entry) (argument_shape word.entry.now name.entry.now)) }
{
    let command = argument_command(alloc, word, name)?;
    with_steps(alloc, program, command)
}

// WORD ARGUMENT
fn argument_command<'a>(
    alloc: Global,
    word: &'a str,
    name: &'a str,
) -> Result<Command<'a>, AllocError>
    ensures shape { IfOk result (λ c. shape_of c ≡ argument_shape word.entry.now name.entry.now) }
    ensures local { IfOk result (λ c. (fields_of c).has_globals ≡ false) }
{
    Command::new(alloc, word).arg(argument(alloc, name))
}

// The command with one subcommand more, which has the option --steps N besides.
fn with_steps<'a>(
    alloc: Global,
    program: Command<'a>,
    command: Command<'a>,
) -> Result<Command<'a>, AllocError>
    requires local { (fields_of command).has_globals ≡ false }
    ensures { IfOk result (λ c. app_of c ≡ with_steps (app_of program.entry) (shape_of command.entry)) }
{
    let whole = steps_command(alloc, command)?;
    program.subcommand(whole)
}

// The command with the option --steps N.
fn steps_command<'a>(alloc: Global, command: Command<'a>) -> Result<Command<'a>, AllocError>
    requires local { (fields_of command).has_globals ≡ false }
    ensures shape { IfOk result (λ c. shape_of c ≡ steps_shape (shape_of command.entry)) }
    ensures local { IfOk result (λ c. (fields_of c).has_globals ≡ false) }
{
    command.arg(steps_option(alloc))
}

fn steps_option<'a>(alloc: Global) -> Arg<'a>
    ensures rule { rule_of result ≡ arguments.steps_option }
    ensures local { result.global ≡ false }
{
    Arg::new(alloc, "steps")
        .long("steps")
        .action(ArgAction::Set)
}

fn argument<'a>(alloc: Global, name: &'a str) -> Arg<'a>
    ensures rule { rule_of result ≡ argument name.entry.now }
    ensures local { result.global ≡ false }
{
    Arg::new(alloc, name).action(ArgAction::Set).required(true)
}
