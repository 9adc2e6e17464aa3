//! What comes of events of any kind that arrive one after another, and what it costs, by plain definitions.
#![tactic(auto)]
