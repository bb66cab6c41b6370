// The command of clap that reads the words: one command with four subcommands.
ghost use Rattle.std.specs.Prelude.{◌≡◌, IfOk};
ghost use Rattle.clap.specs.Words.{app_of, rule_of};
ghost use Rattle.std.specs.Prelude.{false};
ghost use Rattle.clap.specs.declared.builder.command.Command.TheViews.{out-Command as fields_of};
ghost use Rattle.pj_words.specs.Clap.{operand_rule, files_rule, flag_rule, number_rule, run_app, replay_app, check_app, make_app, bare_app, pj_app};

use clap::{Arg, ArgAction, Command};
use pj_value::NoMemory;
use std::alloc::Global;

fn operand<'a>(alloc: Global, id: &'a str) -> Arg<'a>
    ensures rule { rule_of result ≡ operand_rule id.now }
    ensures local { result.global ≡ false }
{
    Arg::new(alloc, id).required(true).action(ArgAction::Set)
}

fn files<'a>(alloc: Global) -> Arg<'a>
    ensures rule { rule_of result ≡ files_rule }
    ensures local { result.global ≡ false }
{
    operand(alloc, "files").num_args(1..)
}

fn flag<'a>(alloc: Global, id: &'a str) -> Arg<'a>
    ensures rule { rule_of result ≡ flag_rule id.now }
    ensures local { result.global ≡ false }
{
    Arg::new(alloc, id).long(id).action(ArgAction::SetTrue)
}

fn number<'a>(alloc: Global, id: &'a str) -> Arg<'a>
    ensures rule { rule_of result ≡ number_rule id.now }
    ensures local { result.global ≡ false }
{
    Arg::new(alloc, id).long(id).action(ArgAction::Set)
}

fn check_command<'a>(alloc: Global) -> Result<Command<'a>, NoMemory>
    ensures app { IfOk result (λ c. app_of c ≡ check_app) }
    ensures local { IfOk result (λ c. (fields_of c).has_globals ≡ false) }
{
    let command = Command::new(alloc, "check").arg(operand(alloc, "plan"))?;
    Ok(command.arg(flag(alloc, "print"))?)
}

fn make_command<'a>(alloc: Global) -> Result<Command<'a>, NoMemory>
    ensures app { IfOk result (λ c. app_of c ≡ make_app) }
    ensures local { IfOk result (λ c. (fields_of c).has_globals ≡ false) }
{
    let command = Command::new(alloc, "make").arg(operand(alloc, "seed"))?;
    Ok(command.arg(operand(alloc, "count"))?)
}

fn replay_command<'a>(alloc: Global) -> Result<Command<'a>, NoMemory>
    ensures app { IfOk result (λ c. app_of c ≡ replay_app) }
    ensures local { IfOk result (λ c. (fields_of c).has_globals ≡ false) }
{
    let command = Command::new(alloc, "replay").arg(operand(alloc, "plan"))?;
    let command = command.arg(operand(alloc, "script"))?.arg(files(alloc))?;
    Ok(
        command
            .arg(flag(alloc, "trace"))?
            .arg(number(alloc, "limit"))?,
    )
}

fn run_command<'a>(alloc: Global) -> Result<Command<'a>, NoMemory>
    ensures app { IfOk result (λ c. app_of c ≡ run_app) }
    ensures local { IfOk result (λ c. (fields_of c).has_globals ≡ false) }
{
    let command = Command::new(alloc, "run").arg(operand(alloc, "plan"))?;
    let command = command.arg(files(alloc))?.arg(number(alloc, "workers"))?;
    let command = command
        .arg(flag(alloc, "sorted"))?
        .arg(flag(alloc, "trace"))?;
    Ok(
        command
            .arg(flag(alloc, "check"))?
            .arg(number(alloc, "limit"))?,
    )
}

fn bare_command<'a>(alloc: Global) -> Command<'a>
    ensures app { app_of result ≡ bare_app }
    ensures local { (fields_of result).has_globals ≡ false }
{
    Command::new(alloc, "pj")
        .no_binary_name(true)
        .disable_help_flag(true)
        .disable_help_subcommand(true)
        .disable_version_flag(true)
        .subcommand_required(true)
}

/// The command `pj` with its four subcommands.
pub(crate) fn pj_command<'a>(alloc: Global) -> Result<Command<'a>, NoMemory>
    ensures { IfOk result (λ c. app_of c ≡ pj_app) }
{
    let command = bare_command(alloc).subcommand(run_command(alloc)?)?;
    let command = command.subcommand(replay_command(alloc)?)?;
    let command = command.subcommand(check_command(alloc)?)?;
    Ok(command.subcommand(make_command(alloc)?)?)
}
