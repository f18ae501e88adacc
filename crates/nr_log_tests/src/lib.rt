//! Tests of the running log and of the slots: what no contract says of them. Nodes make moves at a log in turn, by calls whose conditions are proved here once.
#![tactic(auto)]

#[cfg(test)]
mod entries;
#[cfg(test)]
mod log;
#[cfg(test)]
mod moves;
#[cfg(test)]
mod node;
#[cfg(test)]
mod nodes;
#[cfg(test)]
mod slots;
