//! The sites of which a poll takes frames.

ghost use Rattle.std.specs.List.{cons_option};
ghost use Rattle.std.specs.Prelude.{◌≡◌, ◌<◌, [], ◌++◌, length};
ghost use Rattle.gd_reference.specs.NodeRun.{most_datagrams};
ghost use Rattle.gd_reference.specs.SiteEffects.{is_among};

use arrayvec::ArrayVec;
use std::marker::Model;

/// The most frames of a poll.
const MOST: usize = 256;

/// The sites of which frames were taken, as often as they were.
#[derive(Drop)]
pub(crate) struct Senders {
    sites: ArrayVec<u8, MOST>,
}

impl Model for Senders {
    ghost use Rattle.std.specs.Prelude.{ℕ, List};

    ghost Value = { List ℕ };

    ghost view = { λ s. s.sites.items };
}

impl Senders {
    /// None.
    pub(crate) fn new() -> Self
        ensures { result ≡ [] }
    {
        Senders {
            sites: ArrayVec::new(),
        }
    }

    /// With one more, where there is one.
    pub(crate) fn add(&mut self, site: Option<u8>)
        requires { length self.old < most_datagrams }
        ensures { self.new ≡ self.old ++ cons_option site [] }
    {
        if let Some(site) = site {
            self.sites.push(site);
        }
    }

    /// Whether a frame of that site was taken.
    pub(crate) fn has(&self, site: u8) -> bool
        ensures { result ≡ is_among self.now site }
    {
        self.sites.iter().any(|each| *each == site)
    }
}
