//! The words of the command line, as one simple command of options.
ghost use Rattle.std.specs.Prelude.{◌≡◌, ◌≤◌, ◌⊎◌, ◌^◌, ◌<◌, map, IfOk, IfErr, IfSome, Some, None, Ok, Err, codes, true, false, option_map, List, ℕ, string_bytes};
ghost use Rattle.clap.specs.Words.{app_of, new_app, rule_of, found_of};
ghost use Rattle.clap.specs.Simple.{on_top, matches_of};
ghost use Rattle.clap.specs.Walk.{first_of, rows_of};
ghost use Rattle.script_lang.specs.declared.words_fault.WordsFault.TheVariants.{Usage, Memory};
ghost use Rattle.plan_tool.specs.Command.{planner, required_option, default_option, IsTaken};
ghost use Rattle.plan_tool.specs.Options.{node_in, number_in, options_in, options_of};

use crate::options::Options;
use clap::error::ErrorKind;
use clap::{Arg, ArgAction, ArgMatches, Command};
use plan_json::Text;
use script_lang::names::is_node;
use script_lang::node_words::WordsFault;
use script_lang::number::read_number;
use std::alloc::{AllocError, Global};

fn required_option<'a>(alloc: Global, name: &'a str) -> Arg<'a>
    ensures rule { rule_of result ≡ required_option name.entry.now }
    ensures local { result.global ≡ false }
{
    Arg::new(alloc, name)
        .long(name)
        .action(ArgAction::Set)
        .required(true)
}

fn default_option<'a>(alloc: Global, name: &'a str, value: &'a str) -> Arg<'a>
    ensures rule { rule_of result ≡ default_option name.entry.now value.entry.now }
    ensures local { result.global ≡ false }
{
    Arg::new(alloc, name)
        .long(name)
        .action(ArgAction::Set)
        .default_value(value)
}

/// The command without its options.
fn empty_command<'a>(alloc: Global) -> Command<'a>
    ensures { app_of result ≡ on_top (λ s. record s { no_binary_name = true; disable_help_flag = true }) (new_app (codes "dbplan")) }
{
    Command::new(alloc, "dbplan")
        .no_binary_name(true)
        .disable_help_flag(true)
}

/// The planner's command.
fn planner_command<'a>(alloc: Global) -> Result<Command<'a>, AllocError>
    ensures { IfOk result (λ command. app_of command ≡ planner) }
{
    let first = empty_command(alloc).arg(required_option(alloc, "node"))?;
    let second = first.arg(required_option(alloc, "at"))?;
    let third = second.arg(default_option(alloc, "threshold", "10"))?;
    let fourth = third.arg(default_option(alloc, "bandwidth", "10"))?;
    let fifth = fourth.arg(default_option(alloc, "tolerance", "10"))?;
    let command = fifth.arg(default_option(alloc, "errors", "5"))?;
    Ok(command)
}

/// The matches of words that the command takes.
#[tactic(auto, unfolding(crate::specs::Command::IsTaken))]
fn matches_in<'a>(alloc: Global, words: &'a [String]) -> Result<ArgMatches<'a>, WordsFault>
    ensures taken { IfOk result (λ _. IsTaken (map string_bytes words.entry.now)) }
    ensures rows { IfOk result (λ found. rows_of (found_of found) ≡ matches_of planner (map string_bytes words.entry.now)) }
    ensures refused { IfErr result (λ fault. (fault ≡ Memory) ⊎ (IsTaken (map string_bytes words.entry.now) → ⊥)) }
{
    let Ok(command) = planner_command(alloc) else {
        return Err(WordsFault::Memory);
    };
    match command.try_get_matches_from(words) {
        Ok(matches) => Ok(matches),
        Err(error) if error.kind() == ErrorKind::OutOfMemory => Err(WordsFault::Memory),
        Err(_) => Err(WordsFault::Usage),
    }
}

/// The text of an option.
fn text_in<'a>(matches: &ArgMatches<'a>, name: &str) -> Option<&'a str>
    ensures { option_map (λ text. text.now) result ≡ first_of name.now (rows_of (found_of matches.now)) }
{
    matches.get_str(name)
}

/// The number of an option, from `low` to `high`.
fn number_in(matches: &ArgMatches<'_>, name: &str, low: u64, high: u64) -> Option<u64>
    ensures number { result ≡ number_in name.now low high (rows_of (found_of matches.now)) }
    ensures range { IfSome result (λ n. (low ≤ n) × (n ≤ high)) }
{
    let text = text_in(matches, name)?;
    let number = read_number(text.as_bytes())?;
    if low <= number && number <= high {
        Some(number)
    } else {
        None
    }
}

/// The node that the options name.
fn node_in<'a>(matches: &ArgMatches<'a>) -> Option<&'a str>
    ensures { option_map (λ node. node.now) result ≡ node_in (rows_of (found_of matches.now)) }
{
    let node = text_in(matches, "node")?;
    if is_node(node) { Some(node) } else { None }
}

/// What the options say.
fn options_in(alloc: Global, matches: &ArgMatches<'_>) -> Result<Options, WordsFault>
    ensures { (result ≡ Err Memory) ⊎ (result ≡ options_in (rows_of (found_of matches.now))) }
{
    let node = node_in(matches).ok_or(WordsFault::Usage)?;
    let time_ms = number_in(matches, "at", 0, u64::MAX).ok_or(WordsFault::Usage)?;
    let threshold = number_in(matches, "threshold", 0, 100).ok_or(WordsFault::Usage)?;
    let bandwidth = number_in(matches, "bandwidth", 1, 1_048_576).ok_or(WordsFault::Usage)?;
    let tolerance = number_in(matches, "tolerance", 1, 100).ok_or(WordsFault::Usage)?;
    let max_errors = number_in(matches, "errors", 1, u64::from(u32::MAX)).ok_or(WordsFault::Usage)?;
    Ok(Options {
        node: Text::from_text(alloc, node)?,
        time_ms,
        threshold: threshold as u8,
        bandwidth: bandwidth as u32,
        tolerance: tolerance as u8,
        max_errors: max_errors as u32,
    })
}

/// What the words say.
pub fn read_options(alloc: Global, words: &[String]) -> Result<Options, WordsFault>
    ensures { (result ≡ Err Memory) ⊎ (result ≡ options_of (map string_bytes words.now)) }
{
    let matches = match matches_in(alloc, words) {
        Ok(matches) => matches,
        Err(fault) => return Err(fault),
    };
    options_in(alloc, &matches)
}
