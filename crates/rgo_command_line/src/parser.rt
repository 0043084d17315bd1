//! The command line as data of `clap`. Why not a parser of our own: docs/DECISIONS.md, "Errors and statuses".

ghost use Rattle.std.specs.Prelude.{◌≡◌, IfOk, false};
ghost use Rattle.clap.specs.Words.{app_of, rule_of};
ghost use Rattle.clap.specs.declared.builder.command.Command.TheViews.{out-Command};
ghost use Rattle.rgo_command_line.specs.Parser.{big_parser, flag_option, number_option, parser, required_word, run_parser};

use clap::{Arg, ArgAction, Command};
use std::alloc::{AllocError, Global};

// An option `--name N`.
fn number_option<'a>(alloc: Global, name: &'a str) -> Arg<'a>
    ensures rule { rule_of result ≡ number_option name.entry.now }
    ensures local { result.global ≡ false }
{
    Arg::new(alloc, name).long(name).action(ArgAction::Set)
}

// An option `--name` without a value.
fn flag_option<'a>(alloc: Global, name: &'a str) -> Arg<'a>
    ensures rule { rule_of result ≡ flag_option name.entry.now }
    ensures local { result.global ≡ false }
{
    Arg::new(alloc, name).long(name).action(ArgAction::SetTrue)
}

// A required word that is not an option.
fn required_word<'a>(alloc: Global, name: &'a str) -> Arg<'a>
    ensures rule { rule_of result ≡ required_word name.entry.now }
    ensures local { result.global ≡ false }
{
    Arg::new(alloc, name).required(true).action(ArgAction::Set)
}

// A command that runs something, with the options of a run.
fn run_parser<'a>(alloc: Global, name: &'a str) -> Result<Command<'a>, AllocError>
    ensures app { IfOk result (λ command. app_of command ≡ run_parser name.entry.now) }
    ensures local { IfOk result (λ command. (out-Command command).has_globals ≡ false) }
{
    Command::new(alloc, name)
        .arg(number_option(alloc, "steps"))?
        .arg(number_option(alloc, "goroutines"))?
        .arg(number_option(alloc, "pages"))?
        .arg(number_option(alloc, "page-words"))?
        .arg(number_option(alloc, "regions"))?
        .arg(number_option(alloc, "workers"))?
        .arg(flag_option(alloc, "stats"))
}

fn big_parser<'a>(alloc: Global) -> Result<Command<'a>, AllocError>
    ensures app { IfOk result (λ command. app_of command ≡ big_parser) }
    ensures local { IfOk result (λ command. (out-Command command).has_globals ≡ false) }
{
    Command::new(alloc, "big").arg(required_word(alloc, "goroutines"))
}

/// One level of subcommands. Help and versions are off: their words are rejected like other wrong words, with rgo's own usage line,
/// so no text of `clap` is ever printed. Each option belongs to its command and to no other, as the clauses `local` state.
pub(crate) fn parser<'a>(alloc: Global) -> Result<Command<'a>, AllocError>
    ensures { IfOk result (λ command. app_of command ≡ parser) }
{
    let run = run_parser(alloc, "run")?;
    let big = big_parser(alloc)?;
    let record = run_parser(alloc, "record")?;
    let run_code = run_parser(alloc, "runcode")?;
    Command::new(alloc, "rgo")
        .disable_help_flag(true)
        .disable_version_flag(true)
        .disable_help_subcommand(true)
        .subcommand(run)?
        .subcommand(Command::new(alloc, "check"))?
        .subcommand(Command::new(alloc, "emit"))?
        .subcommand(Command::new(alloc, "code"))?
        .subcommand(big)?
        .subcommand(record)?
        .subcommand(Command::new(alloc, "replay"))?
        .subcommand(run_code)
}
