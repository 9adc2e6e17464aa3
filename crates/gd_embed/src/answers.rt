//! The answers of the calls: a number from 0 up, or a negative one for each cause.
ghost use Rattle.std.specs.Prelude.{◌≡◌};
ghost use Rattle.gd_embed.specs.Codes.{coded};

/// Why a call did nothing, or not all of what it was asked for.
#[derive(Clone, Copy, Debug, PartialEq, Eq)]
pub enum Fault {
    /// There is no member.
    Empty,
    /// The member is spent.
    Spent,
    /// There is a member already.
    Occupied,
    /// Memory ran out.
    NoMemory,
    /// The buffer has no room for it.
    Room,
    /// The line or the datagram is refused.
    Refused,
    /// The line asks for something else.
    NotHere,
    /// There are events that the journal doesn't have.
    Unwritten,
    /// What is unwritten has another length.
    NotThese,
    /// There is no such site.
    NoSite,
    /// The site has no note.
    NoNote,
    /// The member hasn't parted from the site.
    NotParted,
    /// The bytes are no journal.
    BadJournal,
    /// The journal is another one's.
    OtherJournal,
}

/// An answer as C has it.
pub fn code(answer: Result<i64, Fault>) -> i64
    ensures { result ≡ coded answer }
{
    match answer {
        Ok(number) => number,
        Err(Fault::Empty) => -1,
        Err(Fault::Spent) => -2,
        Err(Fault::Occupied) => -3,
        Err(Fault::NoMemory) => -4,
        Err(Fault::Room) => -5,
        Err(Fault::Refused) => -6,
        Err(Fault::NotHere) => -7,
        Err(Fault::Unwritten) => -8,
        Err(Fault::NotThese) => -9,
        Err(Fault::NoSite) => -10,
        Err(Fault::NoNote) => -11,
        Err(Fault::NotParted) => -12,
        Err(Fault::BadJournal) => -13,
        Err(Fault::OtherJournal) => -14,
    }
}
