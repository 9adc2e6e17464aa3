//! What a version of logs has.

ghost use Rattle.std.specs.Prelude.{◌≡◌};
ghost use Rattle.gd_grammar.specs.LogBytes.{is_closed};
ghost use Rattle.gd_grammar.specs.Versions.{has_checks};

use crate::pieces::CLOSED;
use gd_base::Version;

/// Whether a log of that version has a check behind each event, and gates of two values alone.
pub fn has_checks(version: Version) -> bool
    ensures { result ≡ has_checks version }
{
    match version {
        Version::One | Version::Two => false,
        Version::Three => true,
    }
}

/// Whether the byte is a closed gate, in a log of that version.
pub fn is_closed(version: Version, gate: u8) -> bool
    ensures { result ≡ is_closed version gate }
{
    !has_checks(version) || gate == CLOSED
}
