//! What holds of viewers of a site's snapshot: contracts of functions that do nothing.
ghost use Rattle.std.specs.Prelude.{◌≡◌, ◌<◌, ◌≤◌, ◌++◌, ℕ, List, [], IsTrue};
ghost use Rattle.std.specs.List.{AllByRecursion};
ghost use Rattle.gd_base.specs.Sites.{is_site};
ghost use Rattle.gd_base.specs.declared.offer.Offer.TheVariants.{Next};
ghost use Rattle.gd_events.specs.Events.{Event};
ghost use Rattle.gd_grammar.specs.FrameBytes.{Frame, IsFrame};
ghost use Rattle.gd_model.specs.Arrivals.{outcome_of};
ghost use Rattle.gd_model.specs.Drawing.{picture};
ghost use Rattle.gd_protocol.specs.Sites.{IsWell};
ghost use Rattle.gd_reference.specs.SlowSite.{SlowSite, count, kept, line};
ghost use Rattle.gd_snapshots.specs.Snapshots.{IsSnapshot};
ghost use Rattle.gd_viewing.specs.Handing.{Follows, snapshot_of, sure_of};
ghost use Rattle.gd_viewing.specs.SlowViewer.{SlowViewer, opened, viewed, viewer_all_arrived, viewer_arrived};
ghost use Rattle.gd_viewing.specs.SlowViewer.{viewer_beat, viewer_line, viewer_offer, viewer_taken};
ghost use Rattle.gd_viewing.specs.Views.{IsViewOf, taken_by, taken_frames, taken_of, viewer_all_taken};

/// A viewer of a site's snapshot shows the site's drawing. It is of the same session, has the site's line, and knows of
/// each site what the site knows.
pub fn a_viewer_of_a_snapshot_shows_the_site()
    ensures drawing { (slow : SlowSite) → IsWell slow
        → viewed (opened (snapshot_of slow)) ≡ picture slow.held }
    ensures line { (slow : SlowSite) → IsWell slow
        → viewer_line (opened (snapshot_of slow)) ≡ line slow }
    ensures counts { (slow : SlowSite) (t : ℕ) → IsTrue (is_site slow.sites t)
        → (opened (snapshot_of slow)).count t ≡ count slow t }
    ensures sures { (slow : SlowSite) (t : ℕ) → IsTrue (is_site slow.sites t)
        → (opened (snapshot_of slow)).sure t ≡ sure_of slow t }
    ensures session { (slow : SlowSite) → (opened (snapshot_of slow)).session ≡ slow.session }
    ensures sites { (slow : SlowSite) → (opened (snapshot_of slow)).sites ≡ slow.sites }
{}

/// Where events arrive at it, each as the next one of its site, it shows the drawing of what the site held and of
/// these. What comes of an event above the line is what comes of it where all of these are held, and the next one is
/// above the line.
pub fn what_arrives_is_shown()
    ensures drawing { (slow : SlowSite) (es : List Event) → IsWell slow
        → Follows (opened (snapshot_of slow)) es
        → viewed (viewer_all_arrived (opened (snapshot_of slow)) es) ≡ picture (slow.held ++ es) }
    ensures held { (slow : SlowSite) (es : List Event) → IsWell slow
        → Follows (opened (snapshot_of slow)) es
        → (viewer_all_arrived (opened (snapshot_of slow)) es).held ≡ kept slow ++ es }
    ensures outcome { (slow : SlowSite) (es : List Event) (e : Event) → IsWell slow
        → Follows (opened (snapshot_of slow)) es → line slow < e.stamp.clock
        → outcome_of (kept slow ++ es) e ≡ outcome_of (slow.held ++ es) e }
    ensures above { (slow : SlowSite) (es : List Event) (e : Event) → IsWell slow
        → Follows (opened (snapshot_of slow)) es → IsTrue (is_site slow.sites e.stamp.site)
        → viewer_offer (viewer_all_arrived (opened (snapshot_of slow)) es) e ≡ Next
        → line slow < e.stamp.clock }
{}

/// Whatever frames come to it, it shows the drawing of what the site held and of the events that it took since.
pub fn what_frames_bring_is_shown()
    ensures { (slow : SlowSite) (fs : List Frame) → IsWell slow → AllByRecursion IsFrame fs
        → let v = opened (snapshot_of slow) in
        viewed (viewer_all_taken v fs) ≡ picture (slow.held ++ taken_frames v fs) }
{}

/// A viewer of a site's snapshot stays one, with the events that it takes. It begins with none.
pub fn viewers_stay_views()
    ensures begun { (slow : SlowSite) → IsWell slow → IsViewOf slow (opened (snapshot_of slow)) [] }
    ensures event { (slow : SlowSite) (v : SlowViewer) (fresh : List Event) (e : Event)
        → IsTrue (is_site slow.sites e.stamp.site) → IsViewOf slow v fresh
        → IsViewOf slow (viewer_arrived v e) (fresh ++ taken_by (viewer_offer v e) e) }
    ensures beat { (slow : SlowSite) (v : SlowViewer) (fresh : List Event) (f : Frame)
        → IsViewOf slow v fresh → IsViewOf slow (viewer_beat v f) fresh }
    ensures frame { (slow : SlowSite) (v : SlowViewer) (fresh : List Event) (f : Frame) → IsFrame f
        → IsViewOf slow v fresh → IsViewOf slow (viewer_taken v f) (fresh ++ taken_of v f) }
{}

/// What holds of each viewer of a site's snapshot: what it shows, that its line is no lower than the site's was, that
/// the next event of a site lies above that one, and that what comes of such an event is what comes of it where all
/// events are held.
pub fn views_show_all_that_is_held()
    ensures drawing { (slow : SlowSite) (v : SlowViewer) (fresh : List Event)
        → IsViewOf slow v fresh → viewed v ≡ picture (slow.held ++ fresh) }
    ensures line { (slow : SlowSite) (v : SlowViewer) (fresh : List Event) → IsWell slow
        → IsViewOf slow v fresh → line slow ≤ viewer_line v }
    ensures above { (slow : SlowSite) (v : SlowViewer) (fresh : List Event) (e : Event)
        → IsViewOf slow v fresh → IsTrue (is_site slow.sites e.stamp.site) → viewer_offer v e ≡ Next
        → line slow < e.stamp.clock }
    ensures outcome { (slow : SlowSite) (v : SlowViewer) (fresh : List Event) (e : Event)
        → IsViewOf slow v fresh → line slow < e.stamp.clock
        → outcome_of v.held e ≡ outcome_of (slow.held ++ fresh) e }
{}

/// The snapshot of a site that keeps itself well is good.
pub fn a_snapshot_of_a_site_is_good()
    ensures { (slow : SlowSite) → IsWell slow → IsSnapshot (snapshot_of slow) }
{}
