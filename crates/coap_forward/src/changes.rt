//! What a response changes (RFC 7252, 5.8, 5.9.1 and 5.10.7).
ghost use Rattle.std.specs.Prelude.{◌≡◌, ◌≢◌, ◌∷◌, ℕ, [], IfOk, OnErr, MatchOption};
ghost use Rattle.coap_option.specs.declared.side.Side.{Side};
ghost use Rattle.coap_option.specs.Recognition.{is_recognised};
ghost use Rattle.coap_forward.specs.Changes.{created_by, is_change, located, values_at};

use coap_endpoint::Target;
use coap_message::{Code, MessageRef, OutOfMemory, Pieces};
use coap_option::{Side, numbers, recognised};
use std::alloc::Global;

/// Whether a response with this code says that its target was changed: 2.01, 2.02 and 2.04 (RFC
/// 7252, 5.9.1).
pub fn is_change(code: Code) -> bool
    ensures { result ≡ is_change code }
{
    code == Code::CREATED || code == Code::DELETED || code == Code::CHANGED
}

/// The values of a response's recognised options with a number that is recognised in any place.
/// Doesn't allocate if there is no such option.
fn values_at(alloc: Global, response: &MessageRef<'_>, number: u16) -> Result<Pieces, OutOfMemory>
    requires anywhere { (length before : ℕ)
        → is_recognised Side.Response number length before
        ≡ is_recognised Side.Response number length 0 }
    ensures ok { IfOk result (λ values. values ≡ values_at number response.now) }
    ensures err { OnErr result (values_at number response.now ≢ []) }
{
    let mut values = Pieces::new(alloc);
    for option in response.options() {
        let length = option.value.len();
        if option.number == number && recognised(Side::Response, number, length, 0) {
            values.push(option.value)?;
        }
    }
    values.shrink_to_fit();
    Ok(values)
}

/// The target with the same host and endpoint, with this path, or its own path if this one is
/// empty, and with this query (RFC 7252, 5.10.7).
fn located(target: &Target, path: Pieces, query: Pieces) -> Result<Target, OutOfMemory>
    ensures { IfOk result (λ created. created ≡ located target.now path query) }
{
    let path = if path.is_empty() {
        target.path.clone()?
    } else {
        path
    };
    Ok(Target {
        host: target.host.clone()?,
        at: target.at,
        port: target.port,
        path,
        query,
    })
}

/// The target that a 2.01 to a request for a target says was created: the one that its Location
/// options name, if it has any. Without Location-Paths it has the path of the request's target (RFC
/// 7252, 5.8.2 and 5.10.7). If there is none, it doesn't allocate.
///
/// # Errors
/// Out of memory.
pub fn created_by(
    alloc: Global,
    target: &Target,
    response: &MessageRef<'_>,
) -> Result<Option<Target>, OutOfMemory>
    ensures ok { IfOk result (λ created.
        MatchOption created (created_by target.now response.now ≡ [])
        (λ other. created_by target.now response.now ≡ other ∷ [])) }
    ensures err { OnErr result (created_by target.now response.now ≢ []) }
{
    if response.code() != Code::CREATED {
        return Ok(None);
    }
    let path = values_at(alloc, response, numbers::LOCATION_PATH)?;
    let query = values_at(alloc, response, numbers::LOCATION_QUERY)?;
    if path.is_empty() && query.is_empty() {
        return Ok(None);
    }
    Ok(Some(located(target, path, query)?))
}
