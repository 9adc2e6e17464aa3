//! The reference viewer, by plain definitions: what it begins with, what it takes, what it shows. And what holds of it.
#![tactic(auto)]

pub mod laws;
