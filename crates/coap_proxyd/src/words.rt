//! What the words of the program ask for, before a configuration is read.
ghost use Rattle.std.specs.Prelude.{◌≡◌, map, string_bytes};
ghost use Rattle.coap_uri.specs.Answer.{Says};
ghost use Rattle.coap_proxyd.specs.Words as spec;
ghost use Rattle.coap_proxyd.specs.declared.fault.Fault.TheVariants as faults;

use crate::fault::Fault;
use coap_config::{Settings, parse_proxy_option, read_local_address, read_words};
use coap_endpoint::{Endpoint, Ip};
use std::alloc::Global;

/// The port of `coap` (RFC 7252, 6.1).
const PORT: u16 = 5683;

/// What the words of the program ask for, with `-A` and `-P` already read.
#[derive(Drop)]
pub struct Wanted {
    /// Where to listen.
    pub local: Endpoint,
    /// The next proxy.
    pub next: Option<Endpoint>,
    /// Own names that replace those of the configuration.
    pub names: Option<Vec<String>>,
    /// The other options.
    pub settings: Settings,
}

/// What the words after the program's name ask for.
///
/// # Errors
/// The first fault, in this order: `clap`'s, with the help and the version; `Arguments` for words
/// that don't go together; `-A`; `-P`.
pub fn read_wanted(alloc: Global, words: &[String]) -> Result<Wanted, Fault>
    ensures { spec.Want (map string_bytes words.now) result }
{
    let settings = read_words(alloc, words)?;
    read_settings(alloc, settings)
}

/// What settings ask for.
fn read_settings(alloc: Global, settings: Settings) -> Result<Wanted, Fault>
    ensures { Says spec.seen faults.OutOfMemory result (spec.wanted_of settings) }
{
    if !go_together(&settings) {
        return Err(Fault::Arguments);
    }
    let local = local(alloc, &settings)?;
    let named = read_names(alloc, &settings)?;
    Ok(Wanted {
        local,
        next: named.next,
        names: named.names,
        settings,
    })
}

/// Whether the options that are for a socket alone, or for a replay alone, are given for that, and
/// a size only for a recording.
fn go_together(settings: &Settings) -> bool
    ensures { result ≡ spec.go_together settings.now }
{
    if settings.replay {
        settings.recording.is_none()
            && settings.record_bytes.is_none()
            && settings.stats.is_none()
            && settings.stats_file.is_none()
            && !settings.log
            && settings.receive_buffer.is_none()
    } else {
        !settings.explain && (settings.recording.is_some() || settings.record_bytes.is_none())
    }
}

/// Where to listen.
fn local(alloc: Global, settings: &Settings) -> Result<Endpoint, Fault>
    ensures { Says (λ e. e) faults.OutOfMemory result (spec.local_of settings.now) }
{
    let ip = match &settings.address {
        Some(text) => read_local_address(alloc, text.as_str())?,
        None => Ip::V4([0, 0, 0, 0]),
    };
    let port = settings.port.unwrap_or(PORT);
    Ok(Endpoint { ip, port })
}

/// A next proxy, and own names.
#[derive(Drop)]
struct Named {
    next: Option<Endpoint>,
    names: Option<Vec<String>>,
}

/// The next proxy and the own names, if `-P` is given.
fn read_names(alloc: Global, settings: &Settings) -> Result<Named, Fault>
    ensures { Says spec.named_seen faults.OutOfMemory result (spec.names_of settings.now) }
{
    match &settings.names {
        Some(text) => {
            let option = parse_proxy_option(alloc, text.as_str())?;
            Ok(Named {
                next: option.next,
                names: Some(option.names),
            })
        }
        None => Ok(Named {
            next: None,
            names: None,
        }),
    }
}
