//! The reference run of `board`: what a log of cards does to the outside, and how it ends, by plain definitions.
#![tactic(auto)]
