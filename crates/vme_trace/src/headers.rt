//! The header line of a trace, which names the version of its rules.
ghost use Rattle.std.specs.Prelude.{◌≡◌, ◌++◌, ◌∷◌, []};
ghost use Rattle.vme_model.specs.Text.{version_of, header};

use vme_model::Version;

/// The version that a header line names, given without its line feed; none if the line is not a
/// header line. docs/TRACES.md describes it.
pub fn header_of(line: &[u8]) -> Option<Version>
    ensures { result ≡ version_of line.now }
{
    if line == b"vme 1".as_slice() {
        Some(Version::One)
    } else if line == b"vme 2".as_slice() {
        Some(Version::Two)
    } else {
        None
    }
}

/// The header line of a version, with its line feed. docs/TRACES.md describes it.
pub fn header_line(version: Version) -> &'static [u8]
    ensures { result.now ≡ header version ++ 10 ∷ [] }
{
    match version {
        Version::One => b"vme 1\n",
        Version::Two => b"vme 2\n",
    }
}
