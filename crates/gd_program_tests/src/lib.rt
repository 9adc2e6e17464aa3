//! Each call of each device failing in turn, through `run` over objects in memory: of the commands that read an input,
//! of nodes, and of nodes that go on from a journal; and standard input and output over readers and writers of their
//! own. What the built program does of words, logs, lines, frames and journals is tested from outside, in the folder
//! tests/ of the repository.
#![tactic(auto)]

#[cfg(test)]
mod devices;
#[cfg(test)]
mod faults;
#[cfg(test)]
mod frames;
#[cfg(test)]
mod nodes;
#[cfg(test)]
mod over;
#[cfg(test)]
mod rejoins;
#[cfg(test)]
mod standard;
