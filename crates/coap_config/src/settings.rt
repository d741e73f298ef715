//! The settings on the command line.
ghost use Rattle.std.specs.Prelude.{◌≡◌};
ghost use Rattle.coap_config.specs.declared.settings.WordsError.TheVariants as errors;

use std::alloc::AllocError;
use thiserror::Error;

/// The value of each option that is given.
pub struct Settings {
    /// `-A`: the local address, as a text (`read_local_address`).
    pub address: Option<String>,
    /// `-p`: the port, from 1.
    pub port: Option<u16>,
    /// `-P`: a next proxy, if it begins with one, and own names, as a text (`parse_proxy_option`).
    pub names: Option<String>,
    /// `--config`: the path of the configuration.
    pub config: Option<String>,
    /// `--map`: one more map, as a text (`parse_map_option`).
    pub map: Option<String>,
    /// `--replay`: whether events come from standard input.
    pub replay: bool,
    /// `--id`: the first Message ID.
    pub first_id: Option<u16>,
    /// `--salt`: the salt of tokens, below 2^63.
    pub salt: Option<u64>,
    /// `--turns`: the number of turns to do, at least 1 and below 2^63.
    pub turns: Option<u64>,
    /// `--record`: the path of the file to which events are recorded, or that of a folder, which
    /// ends with a slash.
    pub recording: Option<String>,
    /// `--explain`: whether a replay says what each event did.
    pub explain: bool,
    /// `--stats`: how many seconds apart the lines of counts are, from 1 to 86,400.
    pub stats: Option<u64>,
    /// `--stats-file`: the path of the file that holds the counts for Prometheus.
    pub stats_file: Option<String>,
    /// `--log`: whether a line is written for each fault of the traffic.
    pub log: bool,
    /// `--record-bytes`: how many bytes the file of events has at most, at least 1.
    pub record_bytes: Option<u64>,
    /// `--receive-buffer`: how many bytes of a receive buffer the socket asks for, from 1 to
    /// 1,073,741,823.
    pub receive_buffer: Option<u64>,
}

impl Drop for Settings {
    fn drop(self) {
        let Settings {
            address: _,
            port: _,
            names: _,
            config: _,
            map: _,
            replay: _,
            first_id: _,
            salt: _,
            turns: _,
            recording: _,
            explain: _,
            stats: _,
            stats_file: _,
            log: _,
            record_bytes: _,
            receive_buffer: _,
        } = self;
    }
}

/// Why words were not read as settings.
#[derive(Debug, Drop, Error)]
pub enum WordsError {
    /// They are refused, or they ask for the help or the version.
    #[error("{text}")]
    Usage {
        /// The exit status of the program: 0 for the help and the version, 2 otherwise.
        status: u8,
        /// What to print: on standard output with status 0, otherwise on standard error. It ends
        /// with a line end.
        text: String,
    },
    /// Out of memory.
    #[error("out of memory")]
    OutOfMemory,
}

impl From<AllocError> for WordsError {
    ghost from_gives = { λ _ e. e ≡ errors.OutOfMemory };

    fn from(_refused: AllocError) -> WordsError {
        WordsError::OutOfMemory
    }
}
