//! What events do to the slots of their cards, and how they are taken back. No memory is taken, and titles are moved.
ghost use Rattle.std.specs.Prelude.{◌≡◌, ◌==◌, ℕ, List, IsTrue};
ghost use Rattle.std.specs.FinMap as map_of;
ghost use Rattle.gd_slots.specs.Slots.{board_of, has_slot, ids};
ghost use Rattle.gd_cards.specs.declared.card.Card.{Card as CardValue};
ghost use Rattle.gd_cards.specs.declared.form.Form.TheVariants.{Changes, Puts, Takes};
ghost use Rattle.gd_cards.specs.declared.op.CardChange.TheVariants.{ToMark, ToTitle};
ghost use Rattle.gd_cards.specs.Boards.{apply, change, changed_by, target};
ghost use Rattle.gd_cards.specs.Cards.{coded};
ghost use Rattle.gd_cards.specs.CardUndoing.{before, found_by, restored_by, undone};
ghost use Rattle.gd_board.specs.Kept.{before_of, of_gone, of_made, of_mark, of_title, op_of};

use crate::card_board::CardBoard;
use crate::changes::{Marking, Titling};
use crate::kept::Kept;
use gd_base::{Stamp, Title};
use gd_cards::{Card, Mark};

impl CardBoard {
    /// Does what the event says, and keeps with it what it takes to undo that.
    #[tactic(auto, unfolding(gd_cards::specs::Boards::apply, gd_cards::specs::CardUndoing::before))]
    pub(crate) fn apply_event(&mut self, stamp: Stamp, kept: &mut Kept)
        requires { IsTrue (has_slot (target stamp (op_of kept.old)) self.old) }
        ensures board { board_of self.new ≡ apply stamp (op_of kept.old) (board_of self.old) }
        ensures op { op_of kept.new ≡ op_of kept.old }
        ensures before { before_of kept.new ≡ before stamp (op_of kept.old) (board_of self.old) }
        ensures slots { ids self.new ≡ ids self.old }
    {
        match kept {
            Kept::Add {
                column,
                title,
                is_made,
            } => *is_made = self.put(stamp, Card::new(*column, title.get().copy())),
            Kept::Title { id, title, old } => **old = self.retitle(*id, title.get().copy()),
            Kept::Mark { id, new, old } => *old = self.mark(*id, *new),
            Kept::Remove { id, gone } => **gone = self.take(*id),
        }
    }

    /// Undoes the event, by its before-value.
    #[tactic(auto, unfolding(gd_cards::specs::CardUndoing::undone))]
    pub(crate) fn undo_event(&mut self, stamp: Stamp, kept: &mut Kept)
        requires { IsTrue (has_slot (target stamp (op_of kept.old)) self.old) }
        ensures board { board_of self.new
            ≡ undone stamp (op_of kept.old) (before_of kept.old) (board_of self.old) }
        ensures op { op_of kept.new ≡ op_of kept.old }
        ensures slots { ids self.new ≡ ids self.old }
    {
        match kept {
            Kept::Add { is_made, .. } => self.unmake(stamp, *is_made),
            Kept::Title { id, old, .. } => self.title_back(*id, old.take()),
            Kept::Mark { id, new, old } => self.mark_back(*id, *new, *old),
            Kept::Remove { id, gone } => self.put_back(*id, gone.take()),
        }
    }

    /// Puts a card into its slot, and says whether it did. Where one is there, that one stays.
    #[tactic(auto, using(crate::proofs::KeptLemmas::puts))]
    fn put(&mut self, id: Stamp, card: Card) -> bool
        requires { IsTrue (has_slot id self.old) }
        ensures board { board_of self.new ≡ change (board_of self.old) id (changed_by (Puts card)) }
        ensures before { of_made result
            ≡ found_by (Puts card) (map_of.get (board_of self.old) id) }
        ensures slots { ids self.new ≡ ids self.old }
    {
        self.slots.fill(id, card)
    }

    /// Gives the card a title, and returns the old one, where there is a card.
    #[tactic(auto, using(crate::proofs::KeptLemmas::finds))]
    fn retitle(&mut self, id: Stamp, title: Title) -> Option<Title>
        ensures board { board_of self.new
            ≡ change (board_of self.old) id (changed_by (Changes (ToTitle title))) }
        ensures before { of_title result
            ≡ found_by (Changes (ToTitle title)) (map_of.get (board_of self.old) id) }
        ensures slots { ids self.new ≡ ids self.old }
    {
        self.slots.change(id, Titling { title })
    }

    /// Puts the mark on the card, and returns what puts back what stood there, where there is a card.
    #[tactic(auto, using(crate::proofs::KeptLemmas::finds))]
    fn mark(&mut self, id: Stamp, mark: Mark) -> Option<Mark>
        ensures board { board_of self.new
            ≡ change (board_of self.old) id (changed_by (Changes (ToMark mark))) }
        ensures before { of_mark result
            ≡ found_by (Changes (ToMark mark)) (map_of.get (board_of self.old) id) }
        ensures slots { ids self.new ≡ ids self.old }
    {
        self.slots.change(id, Marking { mark })
    }

    /// Takes the card out of its slot.
    fn take(&mut self, id: Stamp) -> Option<Card>
        ensures board { board_of self.new ≡ change (board_of self.old) id (changed_by Takes) }
        ensures before { of_gone result ≡ found_by Takes (map_of.get (board_of self.old) id) }
        ensures slots { ids self.new ≡ ids self.old }
    {
        self.slots.take(id)
    }

    /// Takes a card away again, where its event made it.
    fn unmake(&mut self, id: Stamp, is_made: bool)
        ensures board { (new : CardValue) → board_of self.new
            ≡ change (board_of self.old) id (restored_by (Puts new) (of_made is_made)) }
        ensures slots { ids self.new ≡ ids self.old }
    {
        if is_made {
            self.take(id);
        }
    }

    /// Sets the old title back, where there was one.
    fn title_back(&mut self, id: Stamp, old: Option<Title>)
        ensures board { (new : List ℕ) → board_of self.new
            ≡ change (board_of self.old) id (restored_by (Changes (ToTitle new)) (of_title old)) }
        ensures slots { ids self.new ≡ ids self.old }
    {
        match old {
            Some(title) => {
                self.retitle(id, title);
            }
            None => {}
        }
    }

    /// Puts back what stood where the mark was put, if there was a card. What is of another part isn't put there.
    fn mark_back(&mut self, id: Stamp, new: Mark, old: Option<Mark>)
        ensures board { board_of self.new
            ≡ change (board_of self.old) id (restored_by (Changes (ToMark new)) (of_mark old)) }
        ensures slots { ids self.new ≡ ids self.old }
    {
        match old {
            Some(old) => {
                if is_same_part(old, new) {
                    self.mark(id, old);
                }
            }
            None => {}
        }
    }

    /// Puts a card back that was taken away. Where one is there, that one stays.
    fn put_back(&mut self, id: Stamp, gone: Option<Card>)
        requires { IsTrue (has_slot id self.old) }
        ensures board { board_of self.new
            ≡ change (board_of self.old) id (restored_by Takes (of_gone gone)) }
        ensures slots { ids self.new ≡ ids self.old }
    {
        match gone {
            Some(card) => {
                self.put(id, card);
            }
            None => {}
        }
    }
}

fn is_same_part(mark: Mark, other: Mark) -> bool
    ensures { result ≡ ((coded mark).0 == (coded other).0) }
{
    mark.code().0 == other.code().0
}
