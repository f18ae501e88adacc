//! Tests of nodes behind their locks, of their workers, of taps and of seats: what no contract says of them.
#![tactic(auto)]

#[cfg(test)]
mod aside;
#[cfg(test)]
mod asserted;
#[cfg(test)]
mod beside;
#[cfg(test)]
mod counting;
#[cfg(test)]
mod desk;
#[cfg(test)]
mod in_turn;
#[cfg(test)]
mod law;
#[cfg(test)]
mod layouts;
#[cfg(test)]
mod lending;
#[cfg(test)]
mod loans;
#[cfg(test)]
mod reviving;
#[cfg(test)]
mod seated;
#[cfg(test)]
mod stopped;
