//! What the reading of a file stands on.
ghost use Rattle.std.specs.Prelude.{◌≡◌, map};
ghost use Rattle.std.specs.List.{list_any};
ghost use Rattle.std.specs.Str.{bytes_eq};
ghost use Rattle.std.specs.String.{string_bytes};

/// What the reading of a file stands on.
#[derive(Clone, Copy)]
pub struct Surroundings<'a> {
    /// The names of the project's features, of which no macro may be made.
    pub features: &'a [String],
    /// The names of the headers, which are the first files of the project.
    pub headers: &'a [String],
    /// The name of the file, by which names in its folder are found.
    pub name: &'a [u8],
    /// Whether a file may still be included.
    pub may_include: bool,
}

/// Whether a feature has this name.
pub fn is_feature(features: &[String], name: &[u8]) -> bool
    ensures { result ≡ list_any (bytes_eq name.now) (map string_bytes features.now) }
{
    for feature in features {
        if name == feature.as_bytes() {
            return true;
        }
    }
    false
}
