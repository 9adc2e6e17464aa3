ghost use Rattle.std.specs.Prelude.{◌≡◌, ◌<◌};
ghost use Rattle.gd_cards.specs.Cards.{coded, is_mark};
ghost use Rattle.gd_cards.specs.declared.mark.TheConstants.{PARTS};

/// How many columns a board has. They have the numbers from 1 on.
pub const COLUMNS: u8 = 16;

/// The numbers of the parts of a card are below this. 0 stands for the whole card, and 1 for its title.
pub const PARTS: u8 = 4;

/// A new value for a part of a card that isn't its title. In a sound event columns are from 1 to `COLUMNS`, and a vote
/// comes.
#[derive(Clone, Copy, Debug)]
pub enum Mark {
    Column(u8),
    /// One vote more; behind the greatest number of votes it is none again. False takes one vote away.
    Vote(bool),
}

impl Mark {
    /// The number of its part, and the byte of its value, where it has one. The tag of an operation that puts the mark
    /// is one more than the former.
    pub fn code(self) -> (u8, Option<u8>)
        ensures code { result ≡ coded self }
        ensures part { result.0 < PARTS }
    {
        match self {
            Mark::Column(column) => (2, Some(column)),
            Mark::Vote(_) => (3, None),
        }
    }

    /// Whether an operation may put it.
    pub fn is_in_range(self) -> bool
        ensures { result ≡ is_mark self }
    {
        match self {
            Mark::Column(column) => 1 <= column && column <= COLUMNS,
            Mark::Vote(up) => up,
        }
    }
}
