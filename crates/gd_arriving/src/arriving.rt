//! Events that arrive one after another at a document.

ghost use Rattle.std.specs.Prelude.{◌≡◌, ◌+◌, ◌≤◌, length, sum, IfOk, OnOk, OnErr, IsTrue};
ghost use Rattle.gd_base.specs.declared.ranges.TheConstants.{SESSION_EVENTS};
ghost use Rattle.gd_events.specs.Ordered.{are_distinct, ordered};
ghost use Rattle.gd_history.specs.Holding.{Holds};
ghost use Rattle.gd_arrivals.specs.Arrivals.{all_drawn, costs};
ghost use Rattle.gd_arrivals.specs.Tally.{tally};
ghost use Rattle.gd_arriving.specs.Arriving.{AreAbove, PaidFront};

use crate::tally::Tally;
use gd_base::Steps;
use gd_events::{EventList, Operation};
use gd_history::History;
use gd_repair::Document;
use std::alloc::{AllocError, Global};
use std::sync::ledger::Ledger;

/// The history that goes on from a document and a line, at which the events arrived, in their order, and what came of
/// them. Nothing is trimmed: it holds the fold of all events, from what the document means, in the order of their
/// stamps. Their operations are moved. `AllocError` where memory runs out: the events before that have taken their
/// steps then.
pub fn arrived_from<D: Document, L: Ledger>(
    alloc: Global,
    base: D,
    line: u64,
    events: EventList<D::Op>,
    steps: &mut Steps<L>,
) -> Result<(History<D>, Tally), AllocError>
where
    D::Op: Operation,
    requires few { length events ≤ SESSION_EVENTS }
    requires distinct { IsTrue (are_distinct events) }
    requires above { AreAbove line events }
    ensures history { IfOk result (λ x.
        Holds D.rules D.meaning (D.meaning base) (all_drawn (ordered events)) line x.0) }
    ensures tally { IfOk result (λ x.
        x.1 ≡ tally D.rules.independent D.rules.covers events) }
    ensures steps { OnOk result (steps.new
        ≡ steps.old + sum (costs D.rules.independent D.rules.covers events)) }
    ensures err { OnErr result
        (PaidFront (costs D.rules.independent D.rules.covers events) steps.old steps.new) }
{
    let mut history = History::from_base(alloc, base, line);
    let mut tally = Tally::new();
    let mut left = events.into_events();
    'arrivals: while let Some(event) = left.next() {
        let (stamp, op) = event.into_parts();
        let event = D::keep(alloc, op)?;
        let arrival = history.arrive(stamp, event, steps)?;
        tally.count(&arrival);
    }
    Ok((history, tally))
}

/// The history of a document that no event has changed, at which the events arrived, in their order, and what came of
/// them, as `arrived_from` says it of line 0.
pub fn arrived<D: Document, L: Ledger>(
    alloc: Global,
    empty: D,
    events: EventList<D::Op>,
    steps: &mut Steps<L>,
) -> Result<(History<D>, Tally), AllocError>
where
    D::Op: Operation,
    requires few { length events ≤ SESSION_EVENTS }
    requires distinct { IsTrue (are_distinct events) }
    ensures history { IfOk result (λ x.
        Holds D.rules D.meaning (D.meaning empty) (all_drawn (ordered events)) 0 x.0) }
    ensures tally { IfOk result (λ x.
        x.1 ≡ tally D.rules.independent D.rules.covers events) }
    ensures steps { OnOk result (steps.new
        ≡ steps.old + sum (costs D.rules.independent D.rules.covers events)) }
    ensures err { OnErr result
        (PaidFront (costs D.rules.independent D.rules.covers events) steps.old steps.new) }
{
    arrived_from(alloc, empty, 0, events, steps)
}
