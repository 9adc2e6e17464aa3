//! What a site knows of each site.
ghost use Rattle.std.specs.Prelude.{◌≡◌, IsTrue};
ghost use Rattle.gd_base.specs.Sites.{is_site};
ghost use Rattle.gd_reference.specs.SlowSite.{SlowSite};
ghost use Rattle.gd_site.specs.Sites.{StandsFor};
ghost use Rattle.gd_viewing.specs.Handing.{known_behind, known_by};

use gd_handover::{Known, KnownList};
use gd_site::Site;

/// What the site knows of each site of its session, from site 1 on.
pub(crate) fn known_of(site: &Site) -> KnownList
    ensures { (slow : SlowSite) → StandsFor slow site.now
        → result ≡ known_behind slow 0 slow.sites }
{
    site.stands();
    let mut known = KnownList::new();
    for before in 0..site.sites() {
        known.push(known_at(site, before + 1));
    }
    known
}

/// What it knows of that site.
fn known_at(site: &Site, number: u8) -> Known
    requires { IsTrue (is_site site.now.peers.sites number) }
    ensures { (slow : SlowSite) → StandsFor slow site.now → result ≡ known_by slow number }
{
    Known {
        count: site.count(number),
        sure: site.sure(number),
    }
}
