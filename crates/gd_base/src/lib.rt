//! What every crate speaks of: stamps, labels, texts, titles, names, notes, shapes, looks, objects, ranks, ties, items,
//! short lists, contents, operations, offers, faults and refusals, versions, and steps.
#![tactic(auto)]

mod clock;
mod content;
mod fault;
mod ids;
mod item;
mod label;
mod look;
mod member;
mod name;
mod note;
mod object;
mod offer;
mod op;
mod place;
mod ranges;
mod rank;
mod refusal;
mod shape;
mod site_status;
mod stamp;
mod steps;
mod text;
mod ties;
mod title;
mod verdict;
mod version;

pub use content::{Content, Height, Side, is_within};
pub use fault::{FieldFault, FieldWhy, LogWhy, ViewWhy, WireFault, WireWhy};
pub use ids::Ids;
pub use item::{Body, Item, JoinedItem, ShapeItem};
pub use label::{Label, LabelFault, contains_strange};
pub use look::{Align, Dash, Heads, LOOKS, Look, Looks};
pub use member::{Member, Members};
pub use name::Name;
pub use note::Note;
pub use object::{Ends, Kind, Link, Object};
pub use offer::Offer;
pub use op::{Edit, Nothing, Op};
pub use place::Place;
pub use ranges::{
    CLOCK_LIMIT, COLOUR_LIMIT, EVENTS_OF_A_SITE, LETTERS_LIMIT, MOST_BACKS, MOST_MEMBERS,
    OPACITY_LIMIT, PLACE_LIMIT, ROUND_LIMIT, SESSION_EVENTS, SITES, SIZE_LIMIT, WIDTH_LIMIT,
};
pub use rank::{Level, Rank};
pub use refusal::{EditRefusal, FrameFault, LineFault, OverAck, Refusal};
pub use shape::Shape;
pub use site_status::SiteStatus;
pub use stamp::Stamp;
pub use steps::Steps;
pub use text::Text;
pub use ties::{Tie, Ties};
pub use title::Title;
pub use verdict::Verdict;
pub use version::Version;
