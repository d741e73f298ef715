//! The options of the program, with their help texts.
ghost use Rattle.std.specs.Prelude.{◌≡◌, IfOk, map};
ghost use Rattle.clap.specs.Words.{app_of, rule_of};
ghost use Rattle.coap_config.specs.OptionTable as spec;

use clap::builder::ValueParser;
use clap::{Arg, ArgAction, Command};
use std::alloc::{AllocError, Global};

/// The version that `--version` prints.
pub const VERSION: &str = "0.3.0";

/// The line under the options.
const EXAMPLE: &str =
    "Example: coap-proxyd -A 127.0.0.1 -p 5683 --map /t=coap://127.0.0.1:5690/temp";

/// What follows an option.
#[derive(Clone, Copy)]
enum Value {
    /// Nothing.
    Nothing,
    /// A text, which the help calls so.
    Text(&'static str),
    /// A number within these bounds, which the help calls so.
    Number(&'static str, ValueParser<'static>),
}

/// An option.
#[derive(Clone, Copy)]
struct Row {
    /// Its name, by which it is given if it has no letter.
    name: &'static str,
    letter: Option<char>,
    value: Value,
    help: &'static str,
}

/// The options, in the order of the help.
const OPTIONS: &[Row] = &[
    Row {
        name: "address",
        letter: Some('A'),
        value: Value::Text("ADDRESS"),
        help: "Local address, IPv4, or IPv6 with or without brackets [default: 0.0.0.0]",
    },
    Row {
        name: "port",
        letter: Some('p'),
        value: Value::Number("PORT", ValueParser::Signed(1, 65_535)),
        help: "UDP port, 1 to 65535 [default: 5683]",
    },
    Row {
        name: "names",
        letter: Some('P'),
        value: Value::Text("[NEXT],NAMES"),
        help: "Own names after a comma, between commas, 1 to 64, in place of those in the file; \
before the first comma perhaps a next proxy, coap://ADDRESS[:PORT] [default: the file's names, no \
next proxy]",
    },
    Row {
        name: "config",
        letter: None,
        value: Value::Text("FILE"),
        help: "Configuration, a TOML file [default: none, with the default limits and no maps]",
    },
    Row {
        name: "map",
        letter: None,
        value: Value::Text("PREFIX=URI"),
        help: "A map after those of the file, at most once: a path prefix and its origin [default: \
none]",
    },
    Row {
        name: "replay",
        letter: None,
        value: Value::Nothing,
        help: "Takes events from standard input in place of a socket [default: a socket]",
    },
    Row {
        name: "id",
        letter: None,
        value: Value::Number("N", ValueParser::Signed(0, 65_535)),
        help: "First message id, 0 to 65535 [default: 1 in a replay, else drawn]",
    },
    Row {
        name: "salt",
        letter: None,
        value: Value::Number("N", ValueParser::Unsigned(0, i64::MAX as u64)),
        help: "Salt of tokens, 0 to 9223372036854775807 [default: 0 in a replay, else drawn]",
    },
    Row {
        name: "turns",
        letter: None,
        value: Value::Number("N", ValueParser::Unsigned(1, i64::MAX as u64)),
        help: "Turns to do, 1 to 9223372036854775807 [default: the greatest]",
    },
    Row {
        name: "record",
        letter: None,
        value: Value::Text("FILE"),
        help: "Writes the events of the socket to a new file, for --replay; in FOLDER/ it is named \
by the moment of the start [default: none]",
    },
    Row {
        name: "explain",
        letter: None,
        value: Value::Nothing,
        help: "Says after each event of a replay, in a comment, what it did [default: no comments]",
    },
    Row {
        name: "stats",
        letter: None,
        value: Value::Number("SECONDS", ValueParser::Unsigned(1, 86_400)),
        help: "Writes a line of counts to standard error so often, 1 to 86400 seconds [default: \
never]",
    },
    Row {
        name: "stats-file",
        letter: None,
        value: Value::Text("FILE"),
        help: "Writes the counts to a file for Prometheus, as often as --stats says, or else every \
60 seconds [default: none]",
    },
    Row {
        name: "log",
        letter: None,
        value: Value::Nothing,
        help: "Writes a line to standard error for each fault of the traffic: origins that don't \
answer, clients that are refused [default: no lines]",
    },
    Row {
        name: "record-bytes",
        letter: None,
        value: Value::Number("BYTES", ValueParser::Unsigned(1, i64::MAX as u64)),
        help: "Ends the recording before its file has more bytes, 1 to 9223372036854775807 \
[default: 9223372036854775807]",
    },
    Row {
        name: "receive-buffer",
        letter: None,
        value: Value::Number("BYTES", ValueParser::Unsigned(1, 1_073_741_823)),
        help: "Asks for so large a receive buffer of the socket, 1 to 1073741823 bytes, of which \
Linux gives twice as many [default: as many as a socket has without asking]",
    },
];

/// The rows of the option table.
fn rows() -> &'static [Row]
    ensures { map spec.option result.now ≡ spec.options }
{
    OPTIONS
}

/// An option by its name or its letter, with nothing said of what follows it.
fn named<'a>(alloc: Global, row: &Row) -> Arg<'a>
    ensures { rule_of result ≡ spec.named row.now.name.now row.now.letter }
{
    let option = Arg::new(alloc, row.name).help(row.help);
    match row.letter {
        Some(letter) => option.short(letter),
        None => option.long(row.name),
    }
}

/// The option that a row describes.
fn option<'a>(alloc: Global, row: &Row) -> Arg<'a>
    ensures { rule_of result ≡ spec.option row.now }
{
    let option = named(alloc, row);
    match row.value {
        Value::Nothing => option.action(ArgAction::SetTrue),
        Value::Text(name) => option.action(ArgAction::Set).value_name(name),
        Value::Number(name, bounds) => option
            .action(ArgAction::Set)
            .value_name(name)
            .value_parser(bounds),
    }
}

/// The command line without options.
fn program<'a>(alloc: Global) -> Command<'a>
    ensures { app_of result ≡ spec.program }
{
    Command::new(alloc, "coap-proxyd")
        .version(VERSION)
        .no_binary_name(true)
        .about("A CoAP proxy: reverse for the maps, forward under its own names (RFC 7252)")
        .after_help(EXAMPLE)
}

/// The command line with all its options.
pub(crate) fn command<'a>(alloc: Global) -> Result<Command<'a>, AllocError>
    ensures { IfOk result (λ command. app_of command ≡ spec.option_table) }
{
    let mut command = program(alloc);
    for row in rows() {
        command = command.arg(option(alloc, row))?;
    }
    Ok(command)
}
