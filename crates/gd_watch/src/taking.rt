//! Frames behind a snapshot, and their events.

ghost use Rattle.std.specs.Prelude.{◌≡◌, OnOk, IsTrue};
ghost use Rattle.gd_base.specs.Sites.{is_site};
ghost use Rattle.gd_effects.specs.Prints.{PrintsInSteps};
ghost use Rattle.gd_viewer.specs.Viewers.{StandsFor};
ghost use Rattle.gd_viewing.specs.SlowViewer.{SlowViewer, viewer_all_arrived, viewer_arrived, viewer_taken};
ghost use Rattle.gd_viewing.specs.ViewerEffects.{of_viewer_event, of_viewer_events, of_viewer_frame};
ghost use Rattle.gd_viewing.specs.Viewing.{after_item, of_item};
ghost use Rattle.gd_watch.specs.Taking.{AreInside};

use gd_answers::{Arrived, say};
use gd_base::Steps;
use gd_events::Event;
use gd_outside::{End, Sink};
use gd_viewer::Viewer;
use gd_wire::{Frame, FrameError, read_frame};
use gd_words::Reply;
use std::alloc::Global;
use std::sync::ledger::Ledger;

/// Has a viewer take the bytes of an item, which are a frame or none, and prints what comes of it.
///
/// `NoMemory` where there was no memory for the frame or for an event, and `WriteFault` where a write failed. Then what
/// was done before stays.
pub(crate) fn take_item<K: Sink, L: Ledger>(
    alloc: Global,
    viewer: &mut Viewer,
    bytes: &[u8],
    output: &mut K,
    steps: &mut Steps<L>,
) -> Result<(), End>
    requires { (slow : SlowViewer) × StandsFor slow viewer.old }
    ensures does { (slow : SlowViewer) → StandsFor slow viewer.old
        → PrintsInSteps (K.seen output.old) steps.old (of_item slow bytes.now) result
        (K.seen output.new) steps.new }
    ensures stands { OnOk result ((slow : SlowViewer) → StandsFor slow viewer.old
        → StandsFor (after_item slow bytes.now) viewer.new) }
{
    match read_frame(alloc, bytes) {
        Ok(frame) => take_frame(alloc, viewer, &frame, output, steps),
        Err(FrameError::Fault(fault)) => say(&Reply::BadFrame { fault }, output),
        Err(FrameError::Memory) => Err(End::NoMemory),
    }
}

/// Has it take a frame, or prints why it doesn't.
fn take_frame<K: Sink, L: Ledger>(
    alloc: Global,
    viewer: &mut Viewer,
    frame: &Frame,
    output: &mut K,
    steps: &mut Steps<L>,
) -> Result<(), End>
    requires { (slow : SlowViewer) × StandsFor slow viewer.old }
    ensures does { (slow : SlowViewer) → StandsFor slow viewer.old
        → PrintsInSteps (K.seen output.old) steps.old (of_viewer_frame slow frame.now) result
        (K.seen output.new) steps.new }
    ensures stands { OnOk result ((slow : SlowViewer) → StandsFor slow viewer.old
        → StandsFor (viewer_taken slow frame.now) viewer.new) }
{
    if let Err(fault) = viewer.check_frame(frame) {
        return say(&Reply::NotTaken { fault }, output);
    }
    take_events(alloc, viewer, frame.events(), output, steps)?;
    viewer.beat(frame);
    Ok(())
}

/// Has it take events of sites of the session, one after another.
fn take_events<K: Sink, L: Ledger>(
    alloc: Global,
    viewer: &mut Viewer,
    events: &[Event],
    output: &mut K,
    steps: &mut Steps<L>,
) -> Result<(), End>
    requires met { (slow : SlowViewer) × StandsFor slow viewer.old }
    requires inside { AreInside viewer.old.heard.sites events.now }
    ensures does { (slow : SlowViewer) → StandsFor slow viewer.old
        → PrintsInSteps (K.seen output.old) steps.old (of_viewer_events slow events.now) result
        (K.seen output.new) steps.new }
    ensures stands { OnOk result ((slow : SlowViewer) → StandsFor slow viewer.old
        → StandsFor (viewer_all_arrived slow events.now) viewer.new) }
    ensures sites { viewer.new.heard.sites ≡ viewer.old.heard.sites }
{
    for event in events {
        take_event(alloc, viewer, event, output, steps)?;
    }
    Ok(())
}

/// Has it take an event of a site of the session, if it is the next one.
fn take_event<K: Sink, L: Ledger>(
    alloc: Global,
    viewer: &mut Viewer,
    event: &Event,
    output: &mut K,
    steps: &mut Steps<L>,
) -> Result<(), End>
    requires met { (slow : SlowViewer) × StandsFor slow viewer.old }
    requires inside { IsTrue (is_site viewer.old.heard.sites event.now.stamp.site) }
    ensures does { (slow : SlowViewer) → StandsFor slow viewer.old
        → PrintsInSteps (K.seen output.old) steps.old (of_viewer_event slow event.now) result
        (K.seen output.new) steps.new }
    ensures stands { OnOk result ((slow : SlowViewer) → StandsFor slow viewer.old
        → StandsFor (viewer_arrived slow event.now) viewer.new) }
    ensures sites { viewer.new.heard.sites ≡ viewer.old.heard.sites }
{
    let taken = viewer.arrive(event, steps)?;
    match Arrived::of(&taken).reply(alloc, event)? {
        Some(reply) => say(&reply, output),
        None => Ok(()),
    }
}
