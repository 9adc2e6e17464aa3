ghost use Rattle.std.specs.Prelude.{◌≡◌, ◌+◌, ◌≤◌, sum, IfOk, IsTrue, OnErr, OnOk};
ghost use Rattle.gd_arriving.specs.Arriving.{PaidFront};
ghost use Rattle.gd_base.specs.Sites.{is_site};
ghost use Rattle.gd_base.specs.declared.offer.Offer.TheVariants.{Next};
ghost use Rattle.gd_history.specs.Histories.{arrival_of};
ghost use Rattle.gd_model.specs.Arrivals.{cost_of, costs, outcome_of};
ghost use Rattle.gd_model.specs.Shown.{items};
ghost use Rattle.gd_reference.specs.Offers.{offered};
ghost use Rattle.gd_site.specs.Answers.{checked};
ghost use Rattle.gd_stable.specs.Heard.{of_site};
ghost use Rattle.gd_viewer.specs.Answers.{refused_by, steps_by, taken_by};
ghost use Rattle.gd_viewer.specs.Viewers.{heard_line};
ghost use Rattle.gd_viewing.specs.SlowViewer.{SlowViewer, opened, viewed, viewer_arrived, viewer_beat, viewer_offer};
ghost use Rattle.gd_viewing.specs.SlowViewer.{viewer_refusal, with_viewed};

use crate::opening::{canvas_of, heard_of, snapshot_holds};
use gd_arriving::arrived_from;
use gd_base::{FrameFault, Offer, Steps};
use gd_canvas::{Canvas, Kept};
use gd_events::Event;
use gd_handover::Snapshot;
use gd_history::{Arrival, History};
use gd_site::Taken;
use gd_stable::Heard;
use gd_view::Picture;
use gd_wire::Frame;
use std::alloc::{AllocError, Global};
use std::marker::Model;
use std::sync::ledger::Ledger;

/// A viewer of a session, in memory. Contracts see the session, its history, and what is heard of each site. There is
/// always a reference viewer for which it stands: one that holds the same events, keeps no drawing but the one that it
/// began with, and finds all else from these events each time.
#[derive(Drop)]
pub struct Viewer {
    alloc: Global,
    session: u32,
    history: History<Canvas>,
    heard: Heard,
}

impl Model for Viewer {
    ghost use Rattle.gd_viewer.specs.Viewers.{ViewerValue, HasSlowViewer};

    ghost Value = { ViewerValue };

    ghost view = { λ v. record { session = v.session; history = v.history; heard = v.heard } };

    ghost invariant = { λ v.
        HasSlowViewer (record { session = v.session; history = v.history; heard = v.heard }) };
}

impl Viewer {
    ghost use Rattle.gd_viewer.specs.Viewers.{StandsFor};

    /// A viewer that shows what a snapshot tells. The snapshot's objects and events are moved. The steps rise by what
    /// the arrivals of the kept events cost.
    ///
    /// `AllocError` where memory ran out; the steps then rose by what some of the first arrivals cost.
    pub fn open<L: Ledger>(
        alloc: Global,
        snapshot: Snapshot,
        steps: &mut Steps<L>,
    ) -> Result<Self, AllocError>
        ensures stands { IfOk result (λ v. StandsFor (opened snapshot) v) }
        ensures steps { OnOk result (steps.new ≡ steps.old + sum (costs snapshot.kept)) }
        ensures err_steps { OnErr result (PaidFront (costs snapshot.kept) steps.old steps.new) }
    {
        snapshot_holds(&snapshot);
        let session = snapshot.session();
        let heard = heard_of(snapshot.known());
        let line = line_of(&heard);
        let (objects, kept) = snapshot.into_parts();
        let canvas = canvas_of(alloc, objects)?;
        let (history, _tally) = arrived_from::<Canvas, L>(alloc, canvas, line, kept, steps)?;
        Ok(Viewer {
            alloc,
            session,
            history,
            heard,
        })
    }

    /// How many sites the session has.
    pub fn sites(&self) -> u8
        ensures sites { result ≡ self.now.heard.sites }
        ensures slow { (slow : SlowViewer) → StandsFor slow self.now → result ≡ slow.sites }
    {
        self.heard.sites()
    }

    /// Whether the frame is taken: `Session` where it is of another session, else `NoSuchSite` where its sender is no
    /// site of the session. For whom it is, and what it acknowledges, doesn't matter.
    pub fn check_frame(&self, frame: &Frame) -> Result<(), FrameFault>
        ensures { (slow : SlowViewer) → StandsFor slow self.now
            → result ≡ checked (viewer_refusal slow frame.now.head) }
    {
        self.check_head(frame)
    }

    fn check_head(&self, frame: &Frame) -> Result<(), FrameFault>
        ensures { result ≡ checked (refused_by self.now frame.now.head) }
    {
        let head = frame.head();
        if head.session != self.session {
            return Err(FrameFault::Session);
        }
        if head.from > self.heard.sites() {
            return Err(FrameFault::NoSuchSite);
        }
        Ok(())
    }

    /// Takes an event where it is the next one of its site; the history is then trimmed to the line. At every other
    /// answer the viewer and the steps are as before, and no memory was taken. `AllocError` where memory ran out, which
    /// comes for the next event alone; then too they are as before.
    pub fn arrive<L: Ledger>(
        &mut self,
        event: &Event,
        steps: &mut Steps<L>,
    ) -> Result<Taken, AllocError>
        requires { IsTrue (is_site self.old.heard.sites event.now.stamp.site) }
        ensures stands { (slow : SlowViewer) → StandsFor slow self.old
            → OnOk result (StandsFor (viewer_arrived slow event.now) self.new) }
        ensures answer { (slow : SlowViewer) → StandsFor slow self.old
            → IfOk result (λ taken. taken ≡ taken_by (viewer_offer slow event.now) slow event.now) }
        ensures steps { (slow : SlowViewer) → StandsFor slow self.old
            → OnOk result (steps.new
            ≡ steps.old + steps_by (viewer_offer slow event.now) slow event.now) }
        ensures err_offer { (slow : SlowViewer) → StandsFor slow self.old
            → OnErr result (viewer_offer slow event.now ≡ Next) }
        ensures err_stands { (slow : SlowViewer) → StandsFor slow self.old
            → OnErr result (StandsFor slow self.new) }
        ensures err_steps { OnErr result (steps.new ≡ steps.old) }
        ensures session { self.new.session ≡ self.old.session }
        ensures sites { self.new.heard.sites ≡ self.old.heard.sites }
    {
        let stamp = event.stamp();
        match self
            .heard
            .offer(stamp.site(), event.number(), stamp.clock())
        {
            Offer::Next => {}
            Offer::Repeat => return Ok(Taken::Repeat),
            Offer::Gap => return Ok(Taken::Gap),
            Offer::Backdated { clock, sure } => return Ok(Taken::Backdated { clock, sure }),
        }
        let arrival = self.take(event, steps)?;
        Ok(Taken::Arrival(arrival))
    }

    /// Takes the next event of a site.
    fn take<L: Ledger>(
        &mut self,
        event: &Event,
        steps: &mut Steps<L>,
    ) -> Result<Arrival, AllocError>
        requires inside { IsTrue (is_site self.old.heard.sites event.now.stamp.site) }
        requires next { offered
            (of_site self.old.heard.counts event.now.stamp.site)
            (of_site self.old.heard.sures event.now.stamp.site) event.now.number event.now.stamp.clock
            ≡ Next }
        ensures stands { (slow : SlowViewer) → StandsFor slow self.old
            → OnOk result (StandsFor (with_viewed slow event.now) self.new) }
        ensures answer { (slow : SlowViewer) → StandsFor slow self.old
            → IfOk result (λ arrival. arrival ≡ arrival_of (outcome_of slow.held event.now)) }
        ensures steps { (slow : SlowViewer) → StandsFor slow self.old
            → OnOk result (steps.new ≡ steps.old + cost_of slow.held event.now) }
        ensures err_stands { (slow : SlowViewer) → StandsFor slow self.old
            → OnErr result (StandsFor slow self.new) }
        ensures err_steps { OnErr result (steps.new ≡ steps.old) }
        ensures session { self.new.session ≡ self.old.session }
        ensures sites { self.new.heard.sites ≡ self.old.heard.sites }
    {
        let kept = Kept::of(self.alloc, event.op())?;
        let stamp = event.stamp();
        let arrival = self.history.arrive(stamp, kept, steps)?;
        self.heard.took(stamp.site(), stamp.clock());
        let line = line_of(&self.heard);
        self.history.trim(line);
        Ok(arrival)
    }

    /// Takes what a frame says of its sender's clock, once its events have arrived. It takes no memory.
    pub fn beat(&mut self, frame: &Frame)
        requires { IsTrue (is_site self.old.heard.sites frame.now.head.from) }
        ensures stands { (slow : SlowViewer) → StandsFor slow self.old
            → StandsFor (viewer_beat slow frame.now) self.new }
    {
        let head = frame.head();
        self.heard.beat(head.from, head.count, head.clock);
        let line = line_of(&self.heard);
        self.history.trim(line);
    }

    /// The picture of the drawing. `AllocError` where memory ran out.
    pub fn picture(&self) -> Result<Picture, AllocError>
        ensures { (slow : SlowViewer) → StandsFor slow self.now
            → IfOk result (λ p. p ≡ items (viewed slow)) }
    {
        Picture::of(self.alloc, self.history.document())
    }
}

/// The least of the sure clocks.
fn line_of(heard: &Heard) -> u64
    requires { 1 ≤ heard.now.sites }
    ensures { result ≡ heard_line heard.now }
{
    heard.least_but(0, heard.sure(1))
}
