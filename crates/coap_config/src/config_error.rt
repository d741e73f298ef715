//! Faults of a configuration.
ghost use Rattle.std.specs.Prelude.{◌≡◌, ◌++◌, Some, IfOk, codes};
ghost use Rattle.coap_config.specs.ConfigView.{fault_text};
ghost use Rattle.coap_config.specs.declared.config_error.ConfigError.TheVariants as errors;

use coap_message::OutOfMemory;
use coap_target::RouteError;
use std::alloc::{AllocError, AllocFailed, Global};
use std::fmt;
use std::marker::Model;
use thiserror::Error;

/// The name of a key, after the name of its table and a dot. A contract sees its bytes.
#[derive(Debug, Drop)]
pub struct KeyName {
    text: String,
}

impl Model for KeyName {
    ghost use Rattle.std.specs.Prelude.{List, ℕ, string_bytes};

    ghost Value = { List ℕ };

    ghost view = { λ name. string_bytes name.text };
}

impl KeyName {
    /// The name of a key at the top of the file.
    pub(crate) fn new(alloc: Global, key: &str) -> Result<KeyName, OutOfMemory>
        ensures { IfOk result (λ name. name ≡ key.now) }
    {
        Ok(KeyName {
            text: String::from_str(alloc, key)?,
        })
    }

    /// The name of a key of a table.
    pub(crate) fn within(alloc: Global, table: &str, key: &str) -> Result<KeyName, OutOfMemory>
        ensures { IfOk result (λ name. name ≡ table.now ++ codes "." ++ key.now) }
    {
        Ok(KeyName {
            text: format!(in alloc; "{table}.{key}")?,
        })
    }

    /// The name as a text.
    pub fn as_str(&self) -> &str
        ensures { result.now ≡ self.now }
    {
        self.text.as_str()
    }
}

/// Why a text isn't a configuration: the first fault, in the order of `read_config`. `OutOfMemory`
/// may be returned in place of a later fault.
#[derive(Debug, Drop, Error)]
pub enum ConfigError {
    /// It isn't UTF-8, or isn't TOML.
    Syntax,
    /// A key is unknown, or `version` is missing.
    Key { name: KeyName },
    /// A value has the wrong type or is out of range, or a map lacks it.
    Value { name: KeyName },
    /// Its texts don't make up routes.
    Routes(RouteError),
    /// Out of memory.
    OutOfMemory,
}

impl From<OutOfMemory> for ConfigError {
    ghost from_gives = { λ _ e. e ≡ errors.OutOfMemory };

    fn from(_refused: OutOfMemory) -> ConfigError {
        ConfigError::OutOfMemory
    }
}

impl From<AllocError> for ConfigError {
    ghost from_gives = { λ _ e. e ≡ errors.OutOfMemory };

    fn from(_refused: AllocError) -> ConfigError {
        ConfigError::OutOfMemory
    }
}

impl<T: Drop> From<AllocFailed<T>> for ConfigError {
    ghost from_gives = { λ _ e. e ≡ errors.OutOfMemory };

    fn from(_refused: AllocFailed<T>) -> ConfigError {
        ConfigError::OutOfMemory
    }
}

impl fmt::Display for ConfigError {
    ghost output = { λ error. Some (fault_text error) };

    fn fmt<W: fmt::Write>(&self, f: &mut fmt::Formatter<W>) -> fmt::Result {
        match self {
            ConfigError::Syntax => f.write_str("syntax"),
            ConfigError::Key { name } => write!(f, "key {}", name.as_str()),
            ConfigError::Value { name } => write!(f, "value {}", name.as_str()),
            ConfigError::Routes(_) => f.write_str("routes"),
            ConfigError::OutOfMemory => f.write_str("out of memory"),
        }
    }
}
