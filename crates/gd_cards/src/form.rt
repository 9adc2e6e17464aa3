use crate::card::Card;
use crate::op::CardChange;
use gd_base::Title;

/// What an operation does to the card of its id. The definitions and the code go by these three forms.
#[derive(Drop)]
pub enum Form {
    /// The card that is there is changed.
    Changes(CardChange<Title>),
    /// The card stands there, where none does.
    Puts(Card),
    /// The card that is there goes.
    Takes,
}

/// What stood where an event was applied: the form that takes it back, or None where the event had no effect.
pub type CardBefore = Option<Form>;
