//! The reference run of the program: what each command does to the outside, and how it ends, by plain definitions.
#![tactic(auto)]
