//! Tests of what no row of data reaches and no contract says: that calls succeed with memory at hand, readers and writers that fail, time.
#![tactic(auto)]

#[cfg(test)]
mod copies;
#[cfg(test)]
mod crowd;
#[cfg(test)]
mod keyspaces;
#[cfg(test)]
mod machines;
#[cfg(test)]
mod readers;
#[cfg(test)]
mod scripts;
#[cfg(test)]
mod service;
#[cfg(test)]
mod serving;
#[cfg(test)]
mod settings;
#[cfg(test)]
mod sizes;
#[cfg(test)]
mod sorted_sets;
#[cfg(test)]
mod tables;
#[cfg(test)]
mod worlds;
