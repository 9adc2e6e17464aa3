//! A member of a session in memory: it takes edits, gives frames and takes those of others, and gives its log as the
//! bytes that a journal takes. It touches nothing outside: where the bytes go is its caller's.
#![tactic(auto)]

mod asking;
mod cutting;
mod editing;
mod gestures;
mod growing;
mod keeping;
pub mod laws;
mod lines;
mod member;
mod noting;
mod opening;
mod sending;
mod showing;
mod taking;
mod told;
mod turning;
mod unwritten;

pub use member::Member;
pub use opening::events_json;
pub use sending::SendFault;
pub use told::Told;
