//! The command line as `clap` takes it.
ghost use Rattle.std.specs.Prelude.{◌≡◌, ◌∷◌, [], IfOk, codes, false, map};
ghost use Rattle.clap.specs.Words.{FailsBy, app_of, fault_of, subcommand_of, subcommand_rows_of, with_rule, with_subcommand};
ghost use Rattle.clap.specs.declared.builder.Command.TheViews.{out-Command as fields_of};
ghost use Rattle.client_words.specs.Grammar.{bare_app, cli_app, lone_app, option};

use clap::{Arg, ArgAction, ArgMatches, Command, Error};
use std::alloc::{AllocError, Global};

/// The command that the words name, with its options, as `clap` matches them.
pub(crate) fn matches_of<'a>(alloc: Global, words: &'a [&'a str]) -> Result<ArgMatches<'a>, Error>
    ensures value { IfOk result (λ matches. subcommand_rows_of matches ≡ subcommand_of cli_app (map (λ word. word.now) words.entry.now)) }
    ensures refused { FailsBy (fault_of cli_app (map (λ word. word.now) words.entry.now)) result }
{
    let command = command_line(alloc)?;
    command.try_get_matches_from(words)
}

/// All commands.
#[tactic(auto, unfolding(crate::specs::Grammar::cli_app))]
fn command_line<'a>(alloc: Global) -> Result<Command<'a>, AllocError>
    ensures value { IfOk result (λ made. app_of made ≡ cli_app) }
{
    let line = bare_command(alloc);
    let line = with_command(line, plain_command(alloc, "init")?)?;
    let line = with_command(line, plain_command(alloc, "list")?)?;
    let line = with_command(line, plain_command(alloc, "status")?)?;
    let line = with_command(line, job_command(alloc, "download", "w", 'w')?)?;
    let line = with_command(line, job_command(alloc, "sync", "d", 'd')?)?;
    let line = with_command(line, longer_command(alloc, "desync", "d", 'd')?)?;
    with_command(line, longer_command(alloc, "start", "n", 'n')?)
}

/// A line of words without the program's name, which has to name a command.
fn bare_command<'a>(alloc: Global) -> Command<'a>
    ensures value { app_of result ≡ bare_app }
{
    Command::new(alloc, "seaf-cli")
        .no_binary_name(true)
        .disable_help_flag(true)
        .disable_help_subcommand(true)
        .subcommand_required(true)
}

/// Adds a command.
fn with_command<'a>(line: Command<'a>, command: Command<'a>) -> Result<Command<'a>, AllocError>
    requires local { (fields_of command).has_globals ≡ false }
    ensures value { IfOk result (λ made. app_of made ≡ with_subcommand (app_of line.entry) (app_of command.entry).top) }
{
    line.subcommand(command)
}

/// A command with the folder of the client's own files, and with the options that are refused.
fn plain_command<'a>(alloc: Global, name: &'a str) -> Result<Command<'a>, AllocError>
    ensures value { IfOk result (λ made. app_of made ≡ lone_app name.entry.now (codes "cpTe")) }
    ensures local { IfOk result (λ made. (fields_of made).has_globals ≡ false) }
{
    let command = Command::new(alloc, name);
    let command = with_option(alloc, command, "c", 'c')?;
    let command = with_option(alloc, command, "p", 'p')?;
    let command = with_option(alloc, command, "T", 'T')?;
    with_option(alloc, command, "e", 'e')
}

/// A command with one more option.
fn longer_command<'a>(
    alloc: Global,
    name: &'a str,
    id: &'a str,
    letter: char,
) -> Result<Command<'a>, AllocError>
    requires named { id.now ≡ letter ∷ [] }
    ensures value { IfOk result (λ made. app_of made ≡ with_rule (lone_app name.entry.now (codes "cpTe")) (option letter)) }
    ensures local { IfOk result (λ made. (fields_of made).has_globals ≡ false) }
{
    let command = plain_command(alloc, name)?;
    with_option(alloc, command, id, letter)
}

/// A command with the options of a job, whose folder has this letter.
fn job_command<'a>(
    alloc: Global,
    name: &'a str,
    id: &'a str,
    letter: char,
) -> Result<Command<'a>, AllocError>
    requires named { id.now ≡ letter ∷ [] }
    ensures value { IfOk result (λ made. app_of made ≡ with_rule (lone_app name.entry.now (codes "cpTelsuk")) (option letter)) }
    ensures local { IfOk result (λ made. (fields_of made).has_globals ≡ false) }
{
    let command = plain_command(alloc, name)?;
    let command = with_option(alloc, command, "l", 'l')?;
    let command = with_option(alloc, command, "s", 's')?;
    let command = with_option(alloc, command, "u", 'u')?;
    let command = with_option(alloc, command, "k", 'k')?;
    with_option(alloc, command, id, letter)
}

/// Adds an option of this letter, which is its id too.
fn with_option<'a>(
    alloc: Global,
    command: Command<'a>,
    id: &'a str,
    letter: char,
) -> Result<Command<'a>, AllocError>
    requires named { id.now ≡ letter ∷ [] }
    requires local { (fields_of command).has_globals ≡ false }
    ensures value { IfOk result (λ made. app_of made ≡ with_rule (app_of command.entry) (option letter)) }
    ensures local { IfOk result (λ made. (fields_of made).has_globals ≡ false) }
{
    let option = Arg::new(alloc, id).short(letter).action(ArgAction::Set);
    command.arg(option)
}
