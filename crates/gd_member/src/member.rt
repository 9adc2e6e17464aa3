//! The member.

ghost use Rattle.std.specs.Prelude.{◌≡◌, ◌≤◌, [], IfOk, IsTrue, List, length};
ghost use Rattle.gd_base.specs.Sites.{is_site};
ghost use Rattle.gd_base.specs.declared.ranges.TheConstants.{SITES};
ghost use Rattle.gd_events.specs.Events.{Event};
ghost use Rattle.gd_reference.specs.SlowSite.{SlowSite, new_site, own, status};

use crate::unwritten::Unwritten;
use gd_base::{Note, SiteStatus};
use gd_site::Site;
use gd_takeback::TakeBack;
use std::alloc::{AllocError, Global};
use std::marker::Model;

/// A member of a session: its site, what takes its last gestures back, and the events that its caller's journal doesn't
/// have yet.
///
/// Contracts see these, and whether the member is spent: memory ran out in the midst of something that it can't take
/// back. Then its caller drops it, and opens it anew from the journal. A member that isn't spent stands for a reference
/// site.
#[derive(Drop)]
pub struct Member {
    pub(crate) alloc: Global,
    pub(crate) site: Site,
    pub(crate) backs: TakeBack,
    pub(crate) unwritten: Unwritten,
    pub(crate) spent: bool,
}

impl Model for Member {
    ghost use Rattle.gd_member.specs.Members.{MemberValue, IsLive};
    ghost use Rattle.gd_member.specs.Standing.{IsMet};

    ghost Value = { MemberValue };

    ghost view = { λ m. record {
      site = m.site;
      backs = m.backs;
      unwritten = m.unwritten;
      spent = m.spent;
    } };

    ghost invariant = { λ m. IsLive (record {
      site = m.site;
      backs = m.backs;
      unwritten = m.unwritten;
      spent = m.spent;
    }) → IsMet (record {
      site = m.site;
      backs = m.backs;
      unwritten = m.unwritten;
      spent = m.spent;
    }) };
}

impl Member {
    ghost use Rattle.gd_member.specs.Members.{IsLive};
    ghost use Rattle.gd_member.specs.Standing.{IsMet, Stands};

    /// Member `me` of the `sites` of a session, which holds no event. Its journal begins with `journal_head`.
    /// `AllocError` where memory ran out.
    pub fn new(alloc: Global, me: u8, sites: u8, session: u32) -> Result<Member, AllocError>
        requires from { 1 ≤ me }
        requires to { me ≤ sites }
        requires few { sites ≤ SITES }
        ensures { IfOk result (λ m. Stands (new_site me sites session) [] m) }
    {
        let site = Site::new(alloc, me, sites, session)?;
        let backs = TakeBack::new(alloc);
        let unwritten = Unwritten::new(alloc);
        Ok(Member {
            alloc,
            site,
            backs,
            unwritten,
            spent: false,
        })
    }

    /// Whether it is spent. Then nothing is asked of it any more.
    pub fn is_spent(&self) -> bool
        ensures { result ≡ self.now.spent }
    {
        self.spent
    }

    /// Brings the type's invariant into a proof: a member that isn't spent stands for a reference site. It has no
    /// effect at run time.
    pub fn stands(&self)
        requires { IsLive self.now }
        ensures { IsMet self.now }
    {
        let _ = &self.spent;
    }

    /// The number of the session.
    pub fn session(&self) -> u32
        ensures { (slow : SlowSite) (written : List Event) → Stands slow written self.now
            → result ≡ slow.session }
    {
        self.site.session()
    }

    /// Its own number.
    pub fn me(&self) -> u8
        ensures number { result ≡ self.now.site.peers.me }
        ensures slow { (slow : SlowSite) (written : List Event) → Stands slow written self.now
            → result ≡ slow.me }
    {
        self.site.me()
    }

    /// How many sites the session has.
    pub fn sites(&self) -> u8
        ensures number { result ≡ self.now.site.peers.sites }
        ensures slow { (slow : SlowSite) (written : List Event) → Stands slow written self.now
            → result ≡ slow.sites }
    {
        self.site.sites()
    }

    /// How many events it has made.
    pub fn made(&self) -> u16
        ensures { (slow : SlowSite) (written : List Event) → Stands slow written self.now
            → result ≡ length (own slow) }
    {
        self.site.made()
    }

    /// How many events it holds, how many of them lie above its line, the line, its clock, and from how many sites it
    /// has parted.
    pub fn status(&self) -> SiteStatus
        ensures { (slow : SlowSite) (written : List Event) → Stands slow written self.now
            → result ≡ status slow }
    {
        self.site.status()
    }

    /// The newest note of that site, or the one of number 0 where there is none.
    pub fn note(&self, site: u8) -> Note
        requires { IsTrue (is_site self.now.site.peers.sites site) }
        ensures { (slow : SlowSite) (written : List Event) → Stands slow written self.now
            → result ≡ slow.notes site }
    {
        self.site.note(site)
    }

    /// At which count of that site's events this one has parted from it, if it has.
    pub fn parted(&self, site: u8) -> Option<u16>
        requires { IsTrue (is_site self.now.site.peers.sites site) }
        ensures { (slow : SlowSite) (written : List Event) → Stands slow written self.now
            → result ≡ slow.parted site }
    {
        self.site.parted(site)
    }
}
