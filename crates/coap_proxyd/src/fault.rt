//! Faults of the program: its exit status and its text for each.
ghost use Rattle.std.specs.Prelude.{◌≡◌, ◌≢◌, Some};
ghost use Rattle.coap_config.specs.declared.config_error.ConfigError.TheVariants as errors;
ghost use Rattle.coap_proxyd.specs.Faults as spec;

use coap_config::{ConfigError, MapOptionError, ProxyOptionError, WordsError};
use coap_port::DriveError;
use coap_replay::ReplayError;
use coap_uri::UriError;
use std::fmt;
use std::marker::Model;
use thiserror::Error;

/// Why a configuration is refused: not because memory ran out. A contract sees the error.
#[derive(Debug, Drop)]
pub struct ConfigFault {
    error: ConfigError,
}

impl Model for ConfigFault {
    ghost use Rattle.std.specs.Prelude.{◌≢◌};
    ghost use Rattle.coap_config.specs.declared.config_error.ConfigError.{ConfigError};
    ghost use Rattle.coap_config.specs.declared.config_error.ConfigError.TheVariants as errors;

    ghost Value = { ConfigError };

    ghost view = { λ f. f.error };

    ghost invariant = { λ f. f.error ≢ errors.OutOfMemory };
}

impl ConfigFault {
    /// What is wrong with a configuration.
    fn new(error: ConfigError) -> ConfigFault
        requires { error ≢ errors.OutOfMemory }
        ensures { result ≡ error }
    {
        ConfigFault { error }
    }

    /// What is wrong with the configuration.
    pub fn error(&self) -> &ConfigError
        ensures exact { result.now ≡ self.now }
        ensures refused { self.now ≢ errors.OutOfMemory }
    {
        &self.error
    }
}

/// Why the program stops before it is done. Faults of the arguments, of the configuration and of
/// the socket are reported in this order; a hasher that can't be seeded is `File`, and running out
/// of memory is reported where it happens.
#[derive(Debug, Drop, Error)]
pub enum Fault {
    /// The words after the program's name aren't texts, or don't go together: one of them is for a
    /// socket and another for a replay, say.
    Arguments,
    /// `clap` refuses the words, or they ask for the help or the version. The text ends with a line
    /// end.
    Usage { status: u8, text: String },
    /// The value of `-A` isn't an address.
    Address,
    /// The value of `-P` is refused.
    ProxyOption,
    /// A file or the input couldn't be read, or the output couldn't be written.
    File,
    /// The configuration is refused.
    Config(ConfigFault),
    /// The value of `--map` is refused.
    MapOption,
    /// The socket, the journal's descriptor or random bytes couldn't be had, or the socket can't be
    /// read any more.
    Socket,
    /// Out of memory before the run.
    OutOfMemory,
    /// A line of a replay isn't an event that may come next, or it is too long.
    BadEvent { line: u64 },
    /// Out of memory for what a line of a replay asks for.
    OutOfMemoryAt { line: u64 },
}

impl Fault {
    /// The exit status of the program: 2 if it was given input that it can't use, 1 if something
    /// kept it from its work, and 0 if it was asked for the help or the version.
    pub fn status(&self) -> u8
        ensures exact { result ≡ spec.status_of self.now }
    {
        match self {
            Fault::Usage { status, .. } => *status,
            Fault::Arguments
            | Fault::Address
            | Fault::ProxyOption
            | Fault::Config(_)
            | Fault::MapOption
            | Fault::BadEvent { .. } => 2,
            Fault::File | Fault::Socket | Fault::OutOfMemory | Fault::OutOfMemoryAt { .. } => 1,
        }
    }
}

impl From<WordsError> for Fault {
    ghost from_gives = { λ error fault. fault ≡ spec.words_fault error };

    fn from(error: WordsError) -> Fault {
        match error {
            WordsError::Usage { status, text } => Fault::Usage { status, text },
            WordsError::OutOfMemory => Fault::OutOfMemory,
        }
    }
}

impl From<UriError> for Fault {
    ghost from_gives = { λ error fault. fault ≡ spec.address_fault error };

    fn from(error: UriError) -> Fault {
        match error {
            UriError::OutOfMemory => Fault::OutOfMemory,
            UriError::Bad | UriError::Scheme => Fault::Address,
        }
    }
}

impl From<ProxyOptionError> for Fault {
    ghost from_gives = { λ error fault. fault ≡ spec.names_fault error };

    fn from(error: ProxyOptionError) -> Fault {
        match error {
            ProxyOptionError::OutOfMemory => Fault::OutOfMemory,
            ProxyOptionError::NoComma | ProxyOptionError::NextProxy | ProxyOptionError::BadName =>
                Fault::ProxyOption,
        }
    }
}

impl From<ConfigError> for Fault {
    ghost from_gives = { λ error fault. fault ≡ spec.config_fault error };

    fn from(error: ConfigError) -> Fault {
        match error {
            ConfigError::OutOfMemory => Fault::OutOfMemory,
            error => Fault::Config(ConfigFault::new(error)),
        }
    }
}

impl From<MapOptionError> for Fault {
    ghost from_gives = { λ error fault. fault ≡ spec.map_fault error };

    fn from(error: MapOptionError) -> Fault {
        match error {
            MapOptionError::OutOfMemory => Fault::OutOfMemory,
            MapOptionError::NoEquals => Fault::MapOption,
        }
    }
}

impl From<ReplayError> for Fault {
    ghost from_gives = { λ error fault. fault ≡ spec.replay_fault error };

    fn from(error: ReplayError) -> Fault {
        match error {
            ReplayError::BadEvent { line } => Fault::BadEvent { line },
            ReplayError::OutOfMemory { line } => Fault::OutOfMemoryAt { line },
            ReplayError::Read | ReplayError::Write => Fault::File,
        }
    }
}

impl From<DriveError> for Fault {
    ghost from_gives = { λ error fault. fault ≡ spec.drive_fault error };

    fn from(error: DriveError) -> Fault {
        match error {
            DriveError::Port { .. } => Fault::Socket,
            DriveError::OutOfMemory => Fault::OutOfMemory,
        }
    }
}

impl fmt::Display for Fault {
    ghost output = { λ fault. Some (spec.fault_text fault) };

    fn fmt<W: fmt::Write>(&self, f: &mut fmt::Formatter<W>) -> fmt::Result {
        match self {
            Fault::Arguments => f.write_str("coap-proxyd: arguments"),
            Fault::Usage { text, .. } => f.write_str(text.as_str()),
            Fault::Address => f.write_str("coap-proxyd: address"),
            Fault::ProxyOption => f.write_str("coap-proxyd: proxy option"),
            Fault::File => f.write_str("coap-proxyd: file"),
            Fault::Config(fault) => write!(f, "coap-proxyd: config: {}", fault.error()),
            Fault::MapOption => f.write_str("coap-proxyd: map option"),
            Fault::Socket => f.write_str("coap-proxyd: socket"),
            Fault::OutOfMemory => f.write_str("coap-proxyd: out of memory"),
            Fault::BadEvent { line } => write!(f, "line {line}: bad event"),
            Fault::OutOfMemoryAt { line } => write!(f, "line {line}: out of memory"),
        }
    }
}
