//! The words of the command line.
ghost use Rattle.std.specs.Prelude.{◌≡◌, ◌⊎◌, ◌≤◌, IfOk, IfErr, IfSome, OnOk, map, option_map, string_bytes};
ghost use Rattle.clap.specs.Words.{first_of, found_of, kind_of, one_of, rows_of};
ghost use Rattle.coap_config.specs.Settings as spec;
ghost use Rattle.coap_config.specs.declared.settings.WordsError.TheVariants as errors;

use crate::options::command;
use crate::settings::{Settings, WordsError};
use clap::error::ErrorKind;
use clap::{ArgMatches, Error};
use std::alloc::{AllocError, Global};

/// The settings in the words after the program's name.
///
/// # Errors
/// `Usage` if `clap` refuses them, and for the help and the version; or out of memory.
pub fn read_words(alloc: Global, words: &[String]) -> Result<Settings, WordsError>
    ensures exact { spec.ReadsWords (map string_bytes words.now) result }
    ensures in_range { IfOk result spec.AreInRange }
{
    let command = command(alloc)?;
    match command.try_get_matches_from(words) {
        Ok(matches) => settings(alloc, &matches),
        Err(error) => Err(refusal(alloc, &error)),
    }
}

/// What was found, as settings.
fn settings(alloc: Global, matches: &ArgMatches<'_>) -> Result<Settings, WordsError>
    ensures ok { IfOk result (spec.AreSettings (rows_of (found_of matches.now))) }
    ensures err { IfErr result (λ e. e ≡ errors.OutOfMemory) }
{
    let mut settings = without_texts(matches);
    read_texts(alloc, matches, &mut settings)?;
    Ok(settings)
}

/// The flags and the numbers that were found, as settings without texts.
fn without_texts(matches: &ArgMatches<'_>) -> Settings
    ensures { spec.AreNumbers (rows_of (found_of matches.now)) result }
{
    Settings {
        address: None,
        port: short_number(matches, "port", 1),
        names: None,
        config: None,
        map: None,
        replay: is_given(matches, "replay"),
        first_id: short_number(matches, "id", 0),
        salt: number(matches, "salt", 0, i64::MAX as u64),
        turns: number(matches, "turns", 1, i64::MAX as u64),
        recording: None,
        explain: is_given(matches, "explain"),
        stats: number(matches, "stats", 1, 86_400),
        stats_file: None,
        log: is_given(matches, "log"),
        record_bytes: number(matches, "record-bytes", 1, i64::MAX as u64),
        receive_buffer: number(matches, "receive-buffer", 1, 1_073_741_823),
    }
}

/// Reads the texts that were found into settings. `Err` means that memory ran out.
fn read_texts(
    alloc: Global,
    matches: &ArgMatches<'_>,
    settings: &mut Settings,
) -> Result<(), AllocError>
    ensures { OnOk result (spec.AreNumbers (rows_of (found_of matches.now)) settings.old
        → spec.AreSettings (rows_of (found_of matches.now)) settings.new) }
{
    read_text(alloc, matches, "address", &mut settings.address)?;
    read_text(alloc, matches, "names", &mut settings.names)?;
    read_text(alloc, matches, "config", &mut settings.config)?;
    read_text(alloc, matches, "map", &mut settings.map)?;
    read_text(alloc, matches, "record", &mut settings.recording)?;
    read_text(alloc, matches, "stats-file", &mut settings.stats_file)
}

/// The text of an option.
fn said<'a>(matches: &ArgMatches<'a>, id: &str) -> Option<&'a str>
    ensures { option_map (λ text. text.now) result
        ≡ first_of id.now (rows_of (found_of matches.now)) }
{
    matches.get_str(id)
}

/// Overwrites a text with that of an option. `Err` means that memory ran out.
fn read_text(
    alloc: Global,
    matches: &ArgMatches<'_>,
    id: &str,
    text: &mut Option<String>,
) -> Result<(), AllocError>
    ensures { OnOk result
        (option_map string_bytes text.new ≡ first_of id.now (rows_of (found_of matches.now))) }
{
    *text = match said(matches, id) {
        Some(said) => Some(String::from_str(alloc, said)?),
        None => None,
    };
    Ok(())
}

/// Whether an option without a value is given.
fn is_given(matches: &ArgMatches<'_>, id: &str) -> bool
    ensures { result ≡ spec.is_given id.now (rows_of (found_of matches.now)) }
{
    match said(matches, id) {
        Some(text) => text == "true",
        None => false,
    }
}

/// The 64-bit number of an option.
fn any_number(matches: &ArgMatches<'_>, id: &str) -> Option<u64>
    ensures { spec.IsNumberOf 0 u64.MAX (one_of id.now (rows_of (found_of matches.now))) result }
{
    matches.get_one::<u64>(id)
}

/// A number, if it is from `least` to `most`.
fn narrow(number: Option<u64>, least: u64, most: u64) -> Option<u64>
    ensures { result ≡ spec.narrowed least most number }
{
    match number {
        Some(number) if least <= number && number <= most => Some(number),
        _ => None,
    }
}

/// The number of an option, from `least` to `most`.
fn number(matches: &ArgMatches<'_>, id: &str, least: u64, most: u64) -> Option<u64>
    ensures { spec.IsNumberOf least most (one_of id.now (rows_of (found_of matches.now))) result }
{
    narrow(any_number(matches, id), least, most)
}

/// A number as a 16-bit one.
fn short(number: Option<u64>) -> Option<u16>
    requires { IfSome number (λ n. n ≤ 65535) }
    ensures { result ≡ number }
{
    match number {
        Some(number) => Some(number as u16),
        None => None,
    }
}

/// The 16-bit number of an option, at least `least`.
fn short_number(matches: &ArgMatches<'_>, id: &str, least: u16) -> Option<u16>
    ensures { spec.IsNumberOf least 65535 (one_of id.now (rows_of (found_of matches.now))) result }
{
    short(number(matches, id, u64::from(least), 65535))
}

/// The exit status for a refusal.
fn status(kind: ErrorKind) -> u8
    ensures { result ≡ spec.status_of kind }
{
    match kind {
        ErrorKind::DisplayHelp | ErrorKind::DisplayVersion => 0,
        _ => 2,
    }
}

/// The error for a refusal by `clap`.
fn refusal(alloc: Global, error: &Error) -> WordsError
    ensures memory { kind_of error.now ≡ ErrorKind.OutOfMemory → result ≡ errors.OutOfMemory }
    ensures other { (result ≡ errors.OutOfMemory) ⊎ spec.IsRefusal (kind_of error.now) result }
{
    if error.kind() == ErrorKind::OutOfMemory {
        return WordsError::OutOfMemory;
    }
    match error.to_string(alloc) {
        Ok(text) => WordsError::Usage {
            status: status(error.kind()),
            text,
        },
        Err(AllocError) => WordsError::OutOfMemory,
    }
}
