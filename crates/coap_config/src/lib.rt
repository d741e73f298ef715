//! What the people who run the proxy write: the words of its command line, and its configuration
//! file.
//!
//! # First use
//!
//! ```rust
//! let settings = read_words(alloc, &words)?; // as `-p 5683 --config proxy.toml`
//! assert!(rt; settings.config.is_some());
//! let config = read_config(alloc, b"version = 1\n[limits]\nnstart = 2\n")?;
//! assert_eq!(rt; config.limits.values().nstart, 2);
//! ```
#![tactic(auto)]

mod address;
mod config;
mod config_error;
mod error;
pub mod examples;
mod limit_keys;
mod limit_table;
mod lists;
mod map_option;
mod options;
mod proxy_option;
mod settings;
mod tables;
mod texts;
mod words;

pub use address::read_local_address;
pub use config::{Config, read_config, read_unchecked, syntax_flaw};
pub use config_error::{ConfigError, KeyName};
pub use error::{MapOptionError, ProxyOptionError};
pub use limit_keys::limit_key;
pub use map_option::parse_map_option;
pub use options::VERSION;
pub use proxy_option::{ProxyOption, parse_proxy_option};
pub use settings::{Settings, WordsError};
pub use words::read_words;
