//! Going on from a journal.

ghost use Rattle.std.specs.Prelude.{◌≡◌, ◌≤◌, ◌^◌, List, Err, IfErr, IfOk, IsSome, OnErr, OnOk};
ghost use Rattle.gd_base.specs.declared.version.Version.TheVariants as version;
ghost use Rattle.gd_effects.specs.Crashes.{MaySync, Stands};
ghost use Rattle.gd_events.specs.Events.{Event};
ghost use Rattle.gd_events.specs.Sound.{IsOp};
ghost use Rattle.gd_grammar.specs.Chains.{AreChains};
ghost use Rattle.gd_grammar.specs.Closing.{gate_place};
ghost use Rattle.gd_grammar.specs.Drawings.{drawings};
ghost use Rattle.gd_logs.specs.Written.{IsRuled};
ghost use Rattle.gd_outside.specs.Called.{JournalCalled};
ghost use Rattle.gd_outside.specs.Disk.{Kept, goes_on};
ghost use Rattle.gd_outside.specs.Told.{told, Stays};
ghost use Rattle.gd_reference.specs.Rejoin.{Events, found};
ghost use Rattle.gd_rejoin.specs.Faults.{IsFoundOrFailed};
ghost use Rattle.gd_rejoin.specs.LogFor.{IsLogFor};
ghost use Rattle.gd_rejoin.specs.Resuming.{PaysFirst, ResumeIs, Resumes};

use crate::fault::ResumeFault;
use crate::logs::log_in;
use gd_base::Steps;
use gd_logs::{LogWriter, WholeLog};
use gd_outside::Journal;
use gd_site::Site;
use gd_wire::LogHeader;
use std::alloc::Global;
use std::sync::ledger::Ledger;

/// Goes on from the journal of that name, whose log has to be of that header, which is of the newest version: a site
/// that holds the log's events, and a writer that stands at its closing gate and goes on with the checks of its events.
/// It opens, syncs and reads, and writes nothing. The steps rise by what the arrivals of the events cost.
///
/// `Journal` where a call on the journal failed. `Bad` where the contents are no log, at its first fault, and where
/// they end in the closing gate's place, as `Short` there; `Other` where they are a log of another header with its
/// closing gate. `NoMemory` where memory ran out. The contents stay.
pub fn resume<J: Journal, L: Ledger>(
    alloc: Global,
    journal: &mut J,
    name: &str,
    header: &LogHeader,
    steps: &mut Steps<L>,
) -> Result<(Site, LogWriter), ResumeFault>
    requires newest { header.now.version ≡ version.Three }
    ensures exact { IsSome (J.seen journal.new).contents → ResumeIs result header.now
        (told (J.seen journal.new).contents) steps.old steps.new }
    ensures goes_on { IfOk result (λ x. (events : List Event)
        × Resumes header.now events x.0 x.1 steps.old steps.new
        × (IsSome (J.seen journal.new).contents
        → Stands drawings header.now events (J.seen journal.new))) }
    ensures err_steps { OnErr result (IsSome (J.seen journal.new).contents
        → PaysFirst (found header.now (told (J.seen journal.new).contents)) steps.old steps.new) }
    ensures unpaid { result ≡ Err ResumeFault.Journal → steps.new ≡ steps.old }
    ensures stay { Stays (J.seen journal.old).contents (J.seen journal.new).contents }
    ensures synced { IsSome (J.seen journal.new).contents → MaySync (J.seen journal.old).disk
        (told (J.seen journal.new).contents) (J.seen journal.new).disk }
    ensures named { OnOk result (IsSome (J.seen journal.new).name
        → told (J.seen journal.new).name ≡ name.now) }
    ensures called { JournalCalled (J.seen journal.old) (J.seen journal.new)
        (result ≡ Err ResumeFault.Journal) }
{
    let log = synced_log(alloc, journal, name, header)?;
    site_of(alloc, &log, header, steps)
}

/// Opens the journal of that name, syncs it, and finds the log of that header in its contents, which stay.
fn synced_log<J: Journal>(
    alloc: Global,
    journal: &mut J,
    name: &str,
    header: &LogHeader,
) -> Result<WholeLog, ResumeFault>
    ensures log { IfOk result (λ log. IsLogFor header.now log.events log.place log.chains
        (IsSome (J.seen journal.new).contents) (told (J.seen journal.new).contents)) }
    ensures fault { IfErr result (λ fault. IsSome (J.seen journal.new).contents
        → IsFoundOrFailed fault (found header.now (told (J.seen journal.new).contents))) }
    ensures kept { OnOk result (IsSome (J.seen journal.new).contents → (J.seen journal.new).disk
        ≡ goes_on (J.seen journal.old).disk (Kept (told (J.seen journal.new).contents))) }
    ensures synced { IsSome (J.seen journal.new).contents → MaySync (J.seen journal.old).disk
        (told (J.seen journal.new).contents) (J.seen journal.new).disk }
    ensures stay { Stays (J.seen journal.old).contents (J.seen journal.new).contents }
    ensures named { OnOk result (IsSome (J.seen journal.new).name
        → told (J.seen journal.new).name ≡ name.now) }
    ensures called { JournalCalled (J.seen journal.old) (J.seen journal.new)
        (result ≡ Err ResumeFault.Journal) }
{
    journal.open(name)?;
    journal.sync()?;
    log_in(alloc, journal, header)
}

/// The site and the writer that go on with this log, which is of that header. `NoMemory` where memory ran out; no other
/// fault comes.
pub fn site_of<L: Ledger>(
    alloc: Global,
    log: &WholeLog,
    header: &LogHeader,
    steps: &mut Steps<L>,
) -> Result<(Site, LogWriter), ResumeFault>
    requires newest { header.now.version ≡ version.Three }
    requires ruled { IsRuled IsOp drawings header.now log.now.events }
    requires gate { log.now.place ≡ gate_place drawings header.now.version log.now.events }
    requires near { log.now.place ≤ 2 ^ 31 }
    requires chained { AreChains drawings log.now.chains log.now.events }
    ensures goes_on { IfOk result
        (λ x. Resumes header.now log.now.events x.0 x.1 steps.old steps.new) }
    ensures memory { IfErr result (λ fault. fault ≡ ResumeFault.NoMemory) }
    ensures err_steps { OnErr result
        (PaysFirst (Events log.now.events) steps.old steps.new) }
{
    let site = Site::from_log(
        alloc,
        header.site(),
        header.n(),
        header.session(),
        &log.events,
        steps,
    )?;
    let writer = LogWriter::resume(log.place, log.chains.copy());
    Ok((site, writer))
}
