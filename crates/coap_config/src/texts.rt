//! Splitting a text at a character, and looking for one among others.
ghost use Rattle.std.specs.Prelude.{◌≡◌, ◌<◌, bytes_eq, option_map};
ghost use Rattle.std.specs.List.{list_any};
ghost use Rattle.coap_config.specs.Texts.{cut_at};

/// What comes before the first such character, and what comes after it, if there is one.
pub(crate) fn cut(text: &str, at: char) -> Option<(&str, &str)>
    requires { at < 128 }
    ensures { option_map (λ parts. (parts.0.now, parts.1.now)) result ≡ cut_at at text.now }
{
    text.split_once(at)
}

/// Whether a text is one of these.
pub(crate) fn is_among(texts: &[&str], text: &str) -> bool
    ensures { result ≡ list_any (λ one. bytes_eq text.now one.now) texts.now }
{
    texts.iter().any(|one| text == *one)
}
