ghost use Rattle.std.specs.Prelude.{◌≡◌, pos, nat_abs};
ghost use Rattle.gd_base.specs.Contents.{is_content};
ghost use Rattle.gd_base.specs.Ranges.{is_within};

use crate::look::Looks;
use crate::object::Ends;
use crate::ranges::{PLACE_LIMIT, SIZE_LIMIT};
use crate::rank::Rank;

/// A new value for one part of an object, or for several parts of its look, with a label of type `L`, looks of type `K`
/// and a rank of type `R`. In a sound event places are from `-PLACE_LIMIT` to `PLACE_LIMIT`, sizes from `-SIZE_LIMIT`
/// to `SIZE_LIMIT`, and of looks at least one part is set.
#[derive(Drop)]
pub enum Content<L, K, R> {
    ToPlace { x: i32, y: i32 },
    ToSize { w: i32, h: i32 },
    ToLooks(K),
    ToText(L),
    /// Whether a group is dissolved.
    ToFlag(bool),
    /// The ends of a connector. In a sound event there are some.
    ToEnds(Option<Ends>),
    ToRank(R),
}

/// Where in the stack a user puts an object.
#[derive(Clone, Copy, Debug, PartialEq, Eq)]
pub enum Side {
    Bottom,
    Top,
}

/// Where in the stack an event puts an object.
#[derive(Clone, Copy, Debug, PartialEq, Eq)]
pub enum Height {
    /// Below or above all that lies there.
    To(Side),
    /// At a rank that it had.
    At(Rank),
}

/// The content behind a reference with another label, other looks and another rank, each made of the one that is there.
#[macro_export]
macro_rules! map_content {
    (
        $content:expr,
        $label:ident => $text:expr,
        $looks:ident => $all:expr,
        $rank:ident => $level:expr
    ) => {
        match $content {
            $crate::Content::ToPlace { x, y } => $crate::Content::ToPlace { x: *x, y: *y },
            $crate::Content::ToSize { w, h } => $crate::Content::ToSize { w: *w, h: *h },
            $crate::Content::ToLooks($looks) => $crate::Content::ToLooks($all),
            $crate::Content::ToText($label) => $crate::Content::ToText($text),
            $crate::Content::ToFlag(flag) => $crate::Content::ToFlag(*flag),
            $crate::Content::ToEnds(ends) => $crate::Content::ToEnds(*ends),
            $crate::Content::ToRank($rank) => $crate::Content::ToRank($level),
        }
    };
}

impl<L, R> Content<L, Looks, R> {
    /// Whether its numbers are in their ranges, and of looks one is set.
    pub fn is_in_range(&self) -> bool
        ensures { result ≡ is_content self.now }
    {
        match self {
            Content::ToPlace { x, y } => is_within(PLACE_LIMIT, *x) && is_within(PLACE_LIMIT, *y),
            Content::ToSize { w, h } => is_within(SIZE_LIMIT, *w) && is_within(SIZE_LIMIT, *h),
            Content::ToLooks(looks) => looks.is_in_range(),
            Content::ToEnds(ends) => ends.is_some(),
            Content::ToText(_) | Content::ToFlag(_) | Content::ToRank(_) => true,
        }
    }
}

/// Whether the number is from `-limit` to `limit`, which isn't below 0.
pub fn is_within(limit: i32, value: i32) -> bool
    requires { limit ≡ pos (nat_abs limit) }
    ensures { result ≡ is_within (nat_abs limit) value }
{
    -limit <= value && value <= limit
}
