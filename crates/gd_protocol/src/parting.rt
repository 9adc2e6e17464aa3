//! Who parts and who doesn't, and what a parted site does: contracts of functions that do nothing.
ghost use Rattle.std.specs.Prelude.{◌≡◌, ◌≢◌, ◌⊎◌, ◌∷◌, [], ℕ, List, Some, None, IsSome, true, false};
ghost use Rattle.gd_grammar.specs.FrameBytes.{Frame};
ghost use Rattle.gd_lines.specs.declared.reply.Reply.TheVariants as reply;
ghost use Rattle.gd_reference.specs.Offers.{all_arrived, finished, refusal, shows_parting, take_frame};
ghost use Rattle.gd_reference.specs.SiteEffects.{frame_replies};
ghost use Rattle.gd_reference.specs.SlowSite.{SlowSite, count, held_check};
ghost use Rattle.gd_reference.specs.TakeBack.{Asked, after_gesture};
ghost use Rattle.gd_reference.specs.World.{Line, Step, World, after, after_line};
ghost use Rattle.gd_protocol.specs.Kept.{IsMail, Kept};
ghost use Rattle.gd_protocol.specs.Laws.{AllTaken, NoneParted, NoneShowParting};
ghost use Rattle.gd_protocol.specs.Parting.{KeepsAllElse};

/// Where all sites keep the rules, no mail shows a parting, so each is taken as if there were no checks.
pub fn sites_that_keep_the_rules_never_part()
    ensures shown { (w : World) (f : Frame) → Kept w → IsMail w f
        → shows_parting (w.at f.head.to) f ≡ false }
    ensures taken { (w : World) (f : Frame) → Kept w → IsMail w f
        → take_frame (w.at f.head.to) f ≡ finished (all_arrived (w.at f.head.to) f.events) f }
{}

/// Over every interleaving, restarts included, no site parts from any, no mail shows a parting, and each is taken.
pub fn no_interleaving_parts()
    ensures parted { (sites session : ℕ) (steps : List Step)
        → NoneParted (after sites session steps) }
    ensures shown { (sites session : ℕ) (steps : List Step)
        → NoneShowParting (after sites session steps) }
    ensures taken { (sites session : ℕ) (steps : List Step) → AllTaken (after sites session steps) }
{}

/// Two sites are sent frames of one check, and would hold as many events of the sender as these count.
/// Where the checks of these events differ, one of the two frames shows a parting.
pub fn one_of_two_that_differ_shows_it()
    ensures { (a b : SlowSite) (f g : Frame) → f.head.check ≡ g.head.check
        → let first = all_arrived a f.events in let second = all_arrived b g.events in
        count first f.head.from ≡ f.head.count → count second g.head.from ≡ g.head.count
        → held_check first f.head.from ≢ held_check second g.head.from
        → (shows_parting a f ≡ true) ⊎ (shows_parting b g ≡ true) }
{}

/// Of a frame that shows a parting nothing is taken, and the count is noted. That is said, once for each
/// count. From then on nothing of that sender is taken.
pub fn a_parted_site_takes_nothing()
    ensures now { (slow : SlowSite) (f : Frame) → refusal slow f ≡ None
        → shows_parting slow f ≡ true
        → KeepsAllElse slow (take_frame slow f)
        × ((take_frame slow f).parted f.head.from ≡ Some f.head.count) }
    ensures said { (slow : SlowSite) (f : Frame) → refusal slow f ≡ None
        → shows_parting slow f ≡ true
        → slow.parted f.head.from ≢ Some f.head.count
        → frame_replies slow f ≡ reply.Parted f.head.from f.head.count ∷ [] }
    ensures once { (slow : SlowSite) (f : Frame) → refusal slow f ≡ None
        → slow.parted f.head.from ≡ Some f.head.count → frame_replies slow f ≡ [] }
    ensures later { (slow : SlowSite) (f : Frame) (k : ℕ) → slow.parted f.head.from ≡ Some k
        → KeepsAllElse slow (take_frame slow f) }
{}

/// A site that has parted from another one stays so, whatever frames, lines and gestures come.
pub fn parted_sites_stay_parted()
    ensures frame { (slow : SlowSite) (f : Frame) (t : ℕ) → IsSome (slow.parted t)
        → IsSome ((take_frame slow f).parted t) }
    ensures line { (slow : SlowSite) (l : Line) → (after_line slow l).parted ≡ slow.parted }
    ensures gesture { (slow : SlowSite) (asked : List Asked)
        → (after_gesture slow asked).parted ≡ slow.parted }
{}
