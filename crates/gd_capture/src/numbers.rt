//! A number for each site.
ghost use Rattle.std.specs.Prelude.{◌≡◌, length};
ghost use Rattle.gd_base.specs.Sites.{IsSite};
ghost use Rattle.gd_base.specs.declared.ranges.TheConstants.{SITES};
ghost use Rattle.gd_stable.specs.Heard.{of_site, put_at, zeros};

use gd_base::SITES;
use std::marker::Model;

/// A number for each site, which contracts see as a list of `SITES` numbers in the order of the sites.
#[derive(Drop)]
pub(crate) struct Numbers {
    of: [u16; SITES as usize],
}

impl Model for Numbers {
    ghost use Rattle.std.specs.Prelude.{◌≡◌, ℕ, List, length};
    ghost use Rattle.gd_base.specs.declared.ranges.TheConstants.{SITES};

    ghost Value = { List ℕ };

    ghost view = { λ n. n.of };

    ghost invariant = { λ n. length n.of ≡ SITES };
}

impl Numbers {
    /// 0 for each site.
    pub(crate) fn new() -> Self
        ensures { result ≡ zeros }
    {
        Numbers {
            of: [0; SITES as usize],
        }
    }

    /// The number of that site.
    pub(crate) fn of(&self, site: u8) -> u16
        requires { IsSite site }
        ensures number { result ≡ of_site self.now site }
        ensures sized { length self.now ≡ SITES }
    {
        self.of[usize::from(site) - 1]
    }

    /// Gives that site another number.
    pub(crate) fn put(&mut self, site: u8, number: u16)
        requires { IsSite site }
        ensures { self.new ≡ put_at self.old site number }
    {
        self.of[usize::from(site) - 1] = number;
    }
}
