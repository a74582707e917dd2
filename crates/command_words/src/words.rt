//! The words of the command line.

ghost use Rattle.std.specs.Prelude.{◌≡◌, ◌≢◌, ◌<◌, ◌≤◌, ◌^◌, None, Some, IfOk, IfSome, IsErrOf, map, string_bytes, option_map};
ghost use Rattle.std.specs.Prelude.{ℕ, List, codes, option_and_then};
ghost use Rattle.clap.specs.Matches.{first_value, found_of};
ghost use Rattle.std.specs.Prelude.{false};
ghost use Rattle.clap.specs.Walk.{rule_of};
ghost use Rattle.clap.specs.Simple.{App, app_of, with_rule};
ghost use Rattle.command_words.specs.CommandLine.{line_app, option_rule};
ghost use Rattle.command_words.specs.Command.{Given, command, command_of, form_named, mode_name, mode_named, number_in, or_default, value_in};
ghost use Rattle.report_sheet.specs.declared.form.Form.TheVariants.{Text};

use crate::command::{Command, Mode};
use clap::error::ErrorKind;
use clap::{Arg, ArgAction, ArgMatches, Command as Line};
use line_text::{digit_count, number_of};
use report_sheet::Form;
use std::alloc::{AllocError, Global};
use thiserror::Error;

/// Why some words ask for no command.
#[derive(Clone, Copy, Debug, Drop, Error)]
pub enum WordFault {
    /// The words have no valid form.
    #[error("the words are in no form")]
    Usage,
    /// Out of memory.
    #[error("want of memory")]
    Memory,
}

/// Returns the mode that a word names.
fn mode_named(word: &str) -> Option<Mode>
    ensures { result ≡ mode_named word.now }
{
    match word {
        "audit" => Some(Mode::Audit),
        "streets" => Some(Mode::Streets),
        "check" => Some(Mode::Check),
        "results" => Some(Mode::Results),
        "settle" => Some(Mode::Settle),
        "spots" => Some(Mode::Spots),
        "ranges" => Some(Mode::Ranges),
        "totals" => Some(Mode::Totals),
        "balance" => Some(Mode::Balance),
        "made" => Some(Mode::Made),
        _ => None,
    }
}

/// Returns the form that a word names.
fn form_named(word: &str) -> Option<Form>
    ensures { result ≡ form_named word.now }
{
    match word {
        "text" => Some(Form::Text),
        "csv" => Some(Form::Csv),
        _ => None,
    }
}

/// Returns the number that one to ten digits say if it is within bounds.
fn number_in(least: u64, most: u64, text: &str) -> Option<u64>
    requires { most < 2 ^ 63 }
    ensures value { result ≡ number_in least most text.now }
    ensures within { IfSome result (λ number. number ≤ most) }
{
    let digits = text.as_bytes();
    if digits.is_empty() || digits.len() > 10 || digit_count(digits) != digits.len() {
        return None;
    }
    let number = number_of(digits);
    if least <= number && number <= most {
        Some(number)
    } else {
        None
    }
}

/// Returns the given mode. It is required.
fn mode_in(given: &ArgMatches<'_>) -> Option<Mode>
    ensures { result ≡ option_and_then mode_named (first_value (found_of given.now) mode_name) }
{
    match given.get_str("mode") {
        Some(word) => mode_named(word),
        None => None,
    }
}

/// Returns the given form, or text if none is given.
fn form_in(given: &ArgMatches<'_>) -> Option<Form>
    ensures { result ≡ or_default Text form_named (first_value (found_of given.now) (codes "format")) }
{
    match given.get_str("format") {
        Some(text) => form_named(text),
        None => Some(Form::Text),
    }
}

/// Returns the number given under a name if it is within bounds, or the default if none is given.
fn number_given(
    given: &ArgMatches<'_>,
    name: &str,
    least: u64,
    most: u64,
    default: u64,
) -> Option<u64>
    requires small { most < 2 ^ 63 }
    requires default { default ≤ most }
    ensures value { result
        ≡ or_default default (number_in least most) (first_value (found_of given.now) name.now) }
    ensures within { IfSome result (λ number. number ≤ most) }
{
    match given.get_str(name) {
        Some(text) => number_in(least, most, text),
        None => Some(default),
    }
}

/// Returns the command of the given values.
fn command_of(given: &ArgMatches<'_>) -> Option<Command>
    ensures value { (pairs : Given)
        → ((name : List ℕ) → first_value (found_of given.now) name ≡ value_in name pairs)
        → result ≡ command_of pairs }
    ensures few { IfSome result (λ c. c.hands ≤ 10000) }
{
    let mode = mode_in(given)?;
    let workers = number_given(given, "workers", 1, 16, 2)?;
    let form = form_in(given)?;
    let seed = number_given(given, "seed", 0, 4_294_967_295, 1)?;
    let hands = number_given(given, "hands", 0, 10_000, 100)?;
    Some(Command {
        mode,
        workers: workers as u32,
        form,
        seed,
        hands: hands as u32,
    })
}

/// Returns an option with a value.
fn option<'a>(alloc: Global, name: &'a str) -> Arg<'a>
    ensures rule { rule_of result ≡ option_rule name.now }
    ensures local { result.global ≡ false }
{
    Arg::new(alloc, name).long(name).action(ArgAction::Set)
}

/// Returns a command line with one more option, if there is a command line.
fn with_option<'a>(
    alloc: Global,
    line: Result<Line<'a>, AllocError>,
    name: &'a str,
) -> Result<Line<'a>, AllocError>
    ensures { (app : App) → IfOk line.entry (λ line. app_of line ≡ app)
        → IfOk result (λ line. app_of line ≡ with_rule app (option_rule name.now)) }
{
    match line {
        Ok(line) => line.arg(option(alloc, name)),
        Err(fault) => Err(fault),
    }
}

/// Returns the command line as its parser sees it: a mode, and four options with a value each.
fn line<'a>(alloc: Global) -> Result<Line<'a>, AllocError>
    ensures { IfOk result (λ line. app_of line ≡ line_app) }
{
    let mode = Arg::new(alloc, "mode")
        .required(true)
        .action(ArgAction::Set);
    let bare = Line::new(alloc, "equity")
        .no_binary_name(true)
        .disable_help_flag(true);
    let line = bare.arg(mode);
    let line = with_option(alloc, line, "workers");
    let line = with_option(alloc, line, "format");
    let line = with_option(alloc, line, "seed");
    with_option(alloc, line, "hands")
}

/// Returns why words that the parser refuses ask for no command.
fn refusal(kind: ErrorKind) -> WordFault
    ensures { result ≡ WordFault.Usage → kind ≢ ErrorKind.OutOfMemory }
{
    match kind {
        ErrorKind::OutOfMemory => WordFault::Memory,
        _ => WordFault::Usage,
    }
}

/// Returns the command that the words ask for, without the program's name: a mode, and perhaps the number
/// of workers (1 to 16, 2 by default), the form (`text`, the default, or `csv`), the seed (up to 2^32 - 1,
/// 1 by default), and the number of hands (up to 10,000, 100 by default) of made input. Each is given at
/// most once, as `--x v` or `--x=v`, and `--` ends the options. `Usage` exactly if the words have another
/// form.
pub fn read_words(alloc: Global, words: &[String]) -> Result<Command, WordFault>
    ensures command { IfOk result (λ c. command (map string_bytes words.now) ≡ Some c) }
    ensures usage { IsErrOf result WordFault.Usage → command (map string_bytes words.now) ≡ None }
    ensures few { IfOk result (λ c. c.hands ≤ 10000) }
{
    let Ok(line) = line(alloc) else {
        return Err(WordFault::Memory);
    };
    match line.try_get_matches_from(words) {
        Ok(given) => command_of(&given).ok_or(WordFault::Usage),
        Err(error) => Err(refusal(error.kind())),
    }
}
