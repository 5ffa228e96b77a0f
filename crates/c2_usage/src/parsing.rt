// The words as `clap` parses them: one command with one level of subcommands and no options.
ghost use Rattle.std.specs.Prelude.{◌≡◌, false, true, map, string_bytes, IfOk, IfErr, None};
ghost use Rattle.std.specs.List.{list_all};
ghost use Rattle.clap.specs.Simple.{app_of};
ghost use Rattle.clap.specs.Walk.{rule_of};
ghost use Rattle.c2_usage.specs.CommandLine.{is_name, roles_of_names};
ghost use Rattle.c2_usage.specs.Parsing.{IsLeaf, command_line, judge_words, leaf_of, one_word};
ghost use Rattle.c2_usage.specs.Parsing.{rule_for};

use crate::commands::{commands, name_of, words_of};
use crate::types::{Command, Role, RolesError};
use clap::error::ErrorKind;
use clap::{Arg, Command as Parser};
use std::alloc::{AllocError, Global};

/// Parses words that may all be names. An error other than out of memory comes only where they fit no command.
pub fn parse(alloc: Global, words: &Vec<String>) -> Result<(), RolesError>
    requires { list_all is_name (map string_bytes words.now.items) ≡ true }
    ensures { IfErr result
        (λ e. e ≡ RolesError.Usage → roles_of_names (map string_bytes words.now.items) ≡ None) }
{
    let Ok(parser) = command_line(alloc) else {
        return Err(RolesError::NoMemory);
    };
    let Err(error) = parser.try_get_matches_from(words.as_slice()) else {
        return Ok(());
    };
    if error.kind() == ErrorKind::OutOfMemory {
        return Err(RolesError::NoMemory);
    }
    Err(RolesError::Usage)
}

// The whole command line.
fn command_line<'a>(alloc: Global) -> Result<Parser<'a>, AllocError>
    ensures { IfOk result (λ parser. app_of parser ≡ command_line) }
{
    let mut parser = Parser::new(alloc, "c2")
        .no_binary_name(true)
        .disable_help_flag(true)
        .disable_help_subcommand(true)
        .disable_version_flag(true)
        .subcommand_required(true);
    for command in commands() {
        parser = parser.subcommand(leaf(alloc, *command)?)?;
    }
    Ok(parser)
}

// The subcommand of a command.
fn leaf<'a>(alloc: Global, command: Command) -> Result<Parser<'a>, AllocError>
    ensures { IfOk result (IsLeaf (leaf_of command)) }
{
    let mut parser = Parser::new(alloc, name_of(command));
    for role in words_of(command) {
        parser = parser.arg(rule_for(alloc, *role))?;
    }
    Ok(parser)
}

// The words of a role.
fn rule_for<'a>(alloc: Global, role: Role) -> Arg<'a>
    ensures rule { rule_of result ≡ rule_for role }
    ensures local { result.global ≡ false }
{
    match role {
        Role::Media => one_word(alloc, "MEDIA"),
        Role::Other | Role::Definition | Role::Store => one_word(alloc, "SECOND"),
        Role::Signature => one_word(alloc, "THIRD"),
        Role::Collected => one_word(alloc, "FOURTH"),
        Role::Out => one_word(alloc, "OUT"),
        Role::Count => one_word(alloc, "N"),
        Role::Algorithm => Arg::new(alloc, "ALG"),
        Role::Judges => judge_words(alloc),
    }
}

// A word that must be there.
fn one_word<'a>(alloc: Global, id: &'a str) -> Arg<'a>
    ensures rule { rule_of result ≡ one_word id.entry.now }
    ensures local { result.global ≡ false }
{
    Arg::new(alloc, id).required(true)
}

// Names of judges, or none.
fn judge_words<'a>(alloc: Global) -> Arg<'a>
    ensures rule { rule_of result ≡ judge_words }
    ensures local { result.global ≡ false }
{
    Arg::new(alloc, "JUDGE").num_args(1..)
}
