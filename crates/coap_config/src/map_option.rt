//! The value of `--map`: a prefix and an origin.
ghost use Rattle.coap_target.specs.RouteTexts.{pair_of};
ghost use Rattle.coap_uri.specs.Answer.{Says};
ghost use Rattle.coap_config.specs.MapOption.{map_option_of};
ghost use Rattle.coap_config.specs.declared.error.MapOptionError.TheVariants as errors;

use crate::error::MapOptionError;
use crate::texts::cut;
use std::alloc::Global;

/// The prefix and the origin of a map, as `Routes::new` takes them: what comes before the first
/// `=`, and all that comes after it. Neither is parsed here.
///
/// # Errors
/// `NoEquals` if the text has no `=`, or out of memory.
pub fn parse_map_option(alloc: Global, text: &str) -> Result<(String, String), MapOptionError>
    ensures { Says pair_of errors.OutOfMemory result (map_option_of text.now) }
{
    let Some((prefix, origin)) = cut(text, '=') else {
        return Err(MapOptionError::NoEquals);
    };
    let prefix = String::from_str(alloc, prefix)?;
    let origin = String::from_str(alloc, origin)?;
    Ok((prefix, origin))
}
