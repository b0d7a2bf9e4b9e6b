//! The two pairs of a field's metadata that make its type an extension (Arrow Columnar Format, "Extension Types").
ghost use Rattle.std.specs.Prelude.{◌≡◌};
ghost use Rattle.std.specs.Option.{option_map};
ghost use Rattle.arrow_spec.specs.Schema.{value_of};
ghost use Rattle.arrow_types.specs.KindOf.{texts_of};
ghost use Rattle.arrow_types.specs.Extensions.{extension_in};

use crate::Metadata;

/// The name and the metadata of the extension type that the pairs state; none where no pair states a name.
pub fn get_extension(metadata: &Metadata) -> Option<(&str, Option<&str>)>
    ensures { option_map (λ p. (p.0.now, option_map (λ t. t.now) p.1)) result ≡ extension_in (texts_of metadata.now.entries) }
{
    match text_under(metadata, "ARROW:extension:name") {
        None => None,
        Some(name) => Some((name, text_under(metadata, "ARROW:extension:metadata"))),
    }
}

fn text_under<'a>(metadata: &'a Metadata, key: &str) -> Option<&'a str>
    ensures { option_map (λ t. t.now) result ≡ value_of key.now (texts_of metadata.now.entries) }
{
    match metadata.get(key) {
        None => None,
        Some(text) => Some(text.as_str()),
    }
}
