//! The head of a snapshot.

ghost use Rattle.std.specs.Prelude.{◌≡◌, ◌≤◌};
ghost use Rattle.gd_base.specs.declared.ranges.TheConstants.{SITES};

use std::marker::Model;

/// The session, the site, and how many sites there are: at least that one, and at most `SITES`.
#[derive(Clone, Copy)]
pub struct Head {
    session: u32,
    site: u8,
    sites: u8,
}

impl Model for Head {
    ghost use Rattle.std.specs.Prelude.{◌≤◌};
    ghost use Rattle.gd_base.specs.declared.ranges.TheConstants.{SITES};
    ghost use Rattle.gd_snapshots.specs.SnapshotBytes.{SnapshotHead};

    ghost Value = { SnapshotHead };

    ghost view = { λ h. record { session = h.session; site = h.site; sites = h.sites } };

    ghost invariant = { λ h. (1 ≤ h.sites) × (h.sites ≤ SITES) };

    ghost inverse = { λ v. record { session = v.session; site = v.site; sites = v.sites } };
}

impl Head {
    pub fn new(session: u32, site: u8, sites: u8) -> Self
        requires above { 1 ≤ sites }
        requires below { sites ≤ SITES }
        ensures { result ≡ record { session = session; site = site; sites = sites } }
    {
        Head {
            session,
            site,
            sites,
        }
    }

    pub fn session(self) -> u32
        ensures { result ≡ self.session }
    {
        self.session
    }

    pub fn site(self) -> u8
        ensures { result ≡ self.site }
    {
        self.site
    }

    pub fn sites(self) -> u8
        ensures value { result ≡ self.sites }
        ensures above { 1 ≤ result }
        ensures below { result ≤ SITES }
    {
        self.sites
    }
}
