//! The exit status of the process for each end of a run.
#![tactic(auto, unfolding(crate::proofs::Computing::computing))]

ghost use Rattle.std.specs.Prelude.{◌≡◌};
ghost use Rattle.gd_outside.specs.Statuses.{status_number};
ghost use Rattle.gd_outside.specs.declared.status.Status.TheVariants.{BadLog, BadView, Done, JournalFault, LineLimit};
ghost use Rattle.gd_outside.specs.declared.status.Status.TheVariants.{LinkFault, NoMemory, OtherJournal, ReadFault};
ghost use Rattle.gd_outside.specs.declared.status.Status.TheVariants.{Usage, WriteFault};

/// Each end has its number. 1 and 10 are no end's.
pub fn ends_have_their_numbers()
    ensures done { status_number Done ≡ 0 }
    ensures usage { status_number Usage ≡ 2 }
    ensures bad_log { status_number BadLog ≡ 3 }
    ensures read_fault { status_number ReadFault ≡ 4 }
    ensures write_fault { status_number WriteFault ≡ 5 }
    ensures journal_fault { status_number JournalFault ≡ 6 }
    ensures link_fault { status_number LinkFault ≡ 7 }
    ensures no_memory { status_number NoMemory ≡ 8 }
    ensures line_limit { status_number LineLimit ≡ 9 }
    ensures other_journal { status_number OtherJournal ≡ 11 }
    ensures bad_view { status_number BadView ≡ 12 }
{}
