ghost use Rattle.std.specs.Prelude.{◌≡◌, ◌≤◌, length};
ghost use Rattle.gd_base.specs.Sites.{IsSite};
ghost use Rattle.gd_base.specs.declared.ranges.TheConstants.{SITES};
ghost use Rattle.gd_reference.specs.SlowSite.{one_if_some};
ghost use Rattle.gd_stable.specs.Partings.{no_partings, parted_at, partings_behind, with_parting};

use gd_base::SITES;
use std::marker::Model;

/// From which sites a site has parted, and at which count of their events, which contracts see as a list in the order
/// of the sites. No call takes memory.
#[derive(Drop)]
pub struct Partings {
    counts: [Option<u16>; SITES as usize],
}

impl Model for Partings {
    ghost use Rattle.std.specs.Prelude.{ℕ, List, Option};

    ghost Value = { List (Option ℕ) };

    ghost view = { λ p. p.counts };
}

impl Partings {
    /// From none.
    pub fn new() -> Self
        ensures { result ≡ no_partings }
    {
        Partings {
            counts: [None; SITES as usize],
        }
    }

    /// At which count it has parted from that site, if it has.
    pub fn at(&self, site: u8) -> Option<u16>
        requires { IsSite site }
        ensures count { result ≡ parted_at self.now site }
        ensures sites { length self.now ≡ SITES }
    {
        self.counts[usize::from(site) - 1]
    }

    /// It has parted from that site at that count.
    pub fn put(&mut self, site: u8, count: u16)
        requires { IsSite site }
        ensures partings { self.new ≡ with_parting self.old site count }
        ensures sites { length self.new ≡ SITES }
    {
        self.counts[usize::from(site) - 1] = Some(count);
    }

    /// From how many of the first so many sites it has parted.
    pub fn among(&self, sites: u8) -> u8
        requires { sites ≤ SITES }
        ensures { result ≡ partings_behind self.now 0 sites }
    {
        let mut count = 0;
        'each: for index in 0..sites {
            count += one_if_some(self.at(index + 1));
        }
        count
    }
}

fn one_if_some(count: Option<u16>) -> u8
    ensures one { result ≡ one_if_some count }
    ensures few { result ≤ 1 }
{
    match count {
        None => 0,
        Some(_) => 1,
    }
}
