//! How often each was answered in a churn.

ghost use Rattle.std.specs.Prelude.{◌≡◌, ℕ, ◌+◌, fold, length};
ghost use Rattle.gd_reference.specs.Tally.{tally_reply};
ghost use Rattle.gd_world.specs.Counted.{AreFew, HaveRoom, churned_reply};
ghost use Rattle.gd_worlds.specs.Churn.{no_counts, with_idle, with_reply};

use gd_lines::Reply;
use std::marker::Model;

/// How many edits, undos and redos were accepted and refused, mails sent and delivered, and steps idle; and how the
/// events went that were delivered.
#[derive(Drop)]
pub(crate) struct Counts {
    edits: u32,
    refused: u32,
    sent: u32,
    delivered: u32,
    idle: u32,
    applied: u32,
    dropped: u32,
    reworked: u32,
    undone: u64,
}

impl Model for Counts {
    ghost use Rattle.gd_worlds.specs.Churn.{Counts as CountsValue};

    ghost Value = { CountsValue };

    ghost view = { λ c. record {
      edits = c.edits;
      refused = c.refused;
      sent = c.sent;
      delivered = c.delivered;
      idle = c.idle;
      arrivals = record {
        applied = c.applied;
        dropped = c.dropped;
        reworked = c.reworked;
        undone = c.undone;
      };
    } };
}

impl Counts {
    /// Nothing was counted so far.
    pub(crate) fn new() -> Self
        ensures { result ≡ no_counts }
    {
        Counts {
            edits: 0,
            refused: 0,
            sent: 0,
            delivered: 0,
            idle: 0,
            applied: 0,
            dropped: 0,
            reworked: 0,
            undone: 0,
        }
    }

    /// Counts each of these.
    pub(crate) fn add_all(&mut self, replies: &[Reply])
        requires { HaveRoom (length replies.now) self.old }
        ensures counted { self.new ≡ fold with_reply self.old replies.now }
        ensures few { (most : ℕ) → AreFew most self.old
            → AreFew (most + length replies.now) self.new }
    {
        for reply in replies {
            self.add(reply);
        }
    }

    /// Counts a reply. An event that a site takes from mail is echoed by one.
    pub(crate) fn add(&mut self, reply: &Reply)
        requires { HaveRoom 1 self.old }
        ensures counted { self.new ≡ with_reply self.old reply.now }
        ensures few { (most : ℕ) → AreFew most self.old → AreFew (most + 1) self.new }
    {
        match reply {
            Reply::Done { .. } => self.edits += 1,
            Reply::Refused { .. } => self.refused += 1,
            Reply::Mail { .. } => self.sent += 1,
            Reply::Delivered { .. } => self.delivered += 1,
            Reply::Applied { .. } => self.applied += 1,
            Reply::Dropped { .. } => self.dropped += 1,
            Reply::Reworked { count, .. } => {
                self.reworked += 1;
                self.undone += u64::from(*count);
            }
            _ => {}
        }
    }

    /// Counts an idle step.
    pub(crate) fn add_idle(&mut self)
        requires { HaveRoom 1 self.old }
        ensures counted { self.new ≡ with_idle self.old }
        ensures few { (most : ℕ) → AreFew most self.old → AreFew (most + 1) self.new }
    {
        self.idle += 1;
    }

    /// What is printed of the edits, the mail and the idle steps.
    pub(crate) fn churned(&self) -> Reply
        ensures { result ≡ churned_reply self.now }
    {
        Reply::Churned {
            edits: self.edits,
            refused: self.refused,
            sent: self.sent,
            delivered: self.delivered,
            idle: self.idle,
        }
    }

    /// What is printed of the events that were delivered.
    pub(crate) fn arrivals(&self) -> Reply
        ensures { result ≡ tally_reply self.now.arrivals }
    {
        Reply::Arrivals {
            applied: self.applied,
            dropped: self.dropped,
            reworked: self.reworked,
            undone: self.undone,
        }
    }
}
