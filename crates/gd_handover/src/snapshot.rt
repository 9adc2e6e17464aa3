//! Snapshots in memory.

ghost use Rattle.std.specs.Prelude.{◌≡◌, ◌<◌, ◌++◌, ◌∷◌, [], length, OnOk, OnErr, MatchOption};
ghost use Rattle.gd_base.specs.declared.ranges.TheConstants.{SITES};
ghost use Rattle.gd_snapshots.specs.Snapshots.{IsSnapshot};

use arrayvec::ArrayVec;
use gd_base::{Object, SITES, Stamp};
use gd_events::EventList;
use gd_snapshots::Known;
use std::alloc::{AllocError, Global};
use std::marker::Model;
use std::vec::IntoIter;

/// A snapshot tells of at most this many sites.
const MOST_SITES: usize = SITES as usize;

/// What is known of each site, from site 1 on. Contracts see it as a list.
#[derive(Drop)]
pub struct KnownList {
    items: ArrayVec<Known, MOST_SITES>,
}

impl Model for KnownList {
    ghost use Rattle.std.specs.Prelude.{List};
    ghost use Rattle.gd_snapshots.specs.declared.known.Known.{Known};

    ghost Value = { List Known };

    ghost view = { λ l. l.items.items };
}

impl KnownList {
    /// Of no site.
    pub fn new() -> Self
        ensures { result ≡ [] }
    {
        KnownList {
            items: ArrayVec::new(),
        }
    }

    /// Of one more site, where there is room.
    pub fn push(&mut self, known: Known)
        requires { length self.old < SITES }
        ensures { self.new ≡ self.old ++ known ∷ [] }
    {
        self.items.push(known);
    }

    pub fn as_slice(&self) -> &[Known]
        ensures { result.now ≡ self.now }
    {
        self.items.as_slice()
    }
}

/// Objects behind their ids. Contracts see them as a list.
#[derive(Drop)]
pub struct PlacedList {
    items: Vec<(Stamp, Object)>,
}

impl Model for PlacedList {
    ghost use Rattle.std.specs.Prelude.{List};
    ghost use Rattle.gd_snapshots.specs.Snapshots.{Placed};

    ghost Value = { List Placed };

    ghost view = { λ l. l.items.items };
}

impl PlacedList {
    /// No objects. It takes no memory.
    pub fn new(alloc: Global) -> Self
        ensures { result ≡ [] }
    {
        PlacedList {
            items: Vec::new(alloc),
        }
    }

    /// Puts an object last. `AllocError` where memory ran out, and then the list stays as it was.
    pub fn push(&mut self, id: Stamp, object: Object) -> Result<(), AllocError>
        ensures ok { OnOk result (self.new ≡ self.old ++ (id, object) ∷ []) }
        ensures err { OnErr result (self.new ≡ self.old) }
    {
        self.items.push((id, object))?;
        Ok(())
    }

    pub fn as_slice(&self) -> &[(Stamp, Object)]
        ensures { result.now ≡ self.now }
    {
        self.items.as_slice()
    }

    /// The objects, to be taken one after another. It takes no memory.
    pub fn into_objects(self) -> Objects
        ensures { result ≡ self }
    {
        Objects {
            items: self.items.into_iter(),
        }
    }
}

/// The objects of a list behind their ids, taken one after another. Contracts see those that are left.
#[derive(Drop)]
pub struct Objects {
    items: IntoIter<(Stamp, Object), Global>,
}

impl Model for Objects {
    ghost use Rattle.std.specs.Prelude.{List};
    ghost use Rattle.std.specs.Vec.Iter.{into_iter_items};
    ghost use Rattle.gd_snapshots.specs.Snapshots.{Placed};

    ghost Value = { List Placed };

    ghost view = { λ l. into_iter_items l.items };
}

impl Objects {
    /// Takes the first one. None exactly where none is left.
    pub fn next(&mut self) -> Option<(Stamp, Object)>
        ensures { MatchOption result
            ((self.old ≡ []) × (self.new ≡ []))
            (λ p. self.old ≡ p ∷ self.new) }
    {
        self.items.next()
    }
}

/// A drawing without its history, with the held events behind it that aren't settled yet. It is always good.
#[derive(Drop)]
pub struct Snapshot {
    session: u32,
    site: u8,
    known: KnownList,
    objects: PlacedList,
    kept: EventList,
}

impl Model for Snapshot {
    ghost use Rattle.gd_snapshots.specs.Snapshots.{IsSnapshot, Snapshot as SnapshotValue};

    ghost Value = { SnapshotValue };

    ghost view = { λ s. record {
      session = s.session;
      site = s.site;
      known = s.known;
      objects = s.objects;
      kept = s.kept;
    } };

    ghost invariant = { λ s. IsSnapshot (record {
      session = s.session;
      site = s.site;
      known = s.known;
      objects = s.objects;
      kept = s.kept;
    }) };
}

impl Snapshot {
    /// A snapshot of these parts, which are those of a good one.
    pub fn new(
        session: u32,
        site: u8,
        known: KnownList,
        objects: PlacedList,
        kept: EventList,
    ) -> Self
        requires { IsSnapshot (record {
          session = session;
          site = site;
          known = known;
          objects = objects;
          kept = kept;
        }) }
        ensures { result ≡ record {
          session = session;
          site = site;
          known = known;
          objects = objects;
          kept = kept;
        } }
    {
        Snapshot {
            session,
            site,
            known,
            objects,
            kept,
        }
    }

    /// The number of the session.
    pub fn session(&self) -> u32
        ensures { result ≡ self.now.session }
    {
        self.session
    }

    /// The site whose drawing it is.
    pub fn site(&self) -> u8
        ensures { result ≡ self.now.site }
    {
        self.site
    }

    /// What is known of each site, from site 1 on.
    pub fn known(&self) -> &[Known]
        ensures { result.now ≡ self.now.known }
    {
        self.known.as_slice()
    }

    /// The objects that the events up to the line left, by their ids.
    pub fn objects(&self) -> &[(Stamp, Object)]
        ensures objects { result.now ≡ self.now.objects }
        ensures good { IsSnapshot self.now }
    {
        self.objects.as_slice()
    }

    /// The held events above the line, by their stamps.
    pub fn kept(&self) -> &EventList
        ensures kept { result.now ≡ self.now.kept }
        ensures good { IsSnapshot self.now }
    {
        &self.kept
    }

    /// Its objects and its kept events, which are moved.
    pub fn into_parts(self) -> (PlacedList, EventList)
        ensures objects { result.0 ≡ self.objects }
        ensures kept { result.1 ≡ self.kept }
        ensures good { IsSnapshot self }
    {
        (self.objects, self.kept)
    }
}
