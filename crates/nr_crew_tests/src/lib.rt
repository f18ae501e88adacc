//! Tests of the workers of a server on their threads, over streams in memory and over sockets: what no contract says of them.
#![tactic(auto)]

#[cfg(test)]
mod asserted;
#[cfg(test)]
mod callers;
#[cfg(test)]
mod directing;
#[cfg(test)]
mod doors;
#[cfg(test)]
mod falling;
#[cfg(test)]
mod line;
#[cfg(test)]
mod places;
#[cfg(test)]
mod returning;
#[cfg(test)]
mod reviving;
#[cfg(test)]
mod sizes;
#[cfg(test)]
mod streams;
#[cfg(test)]
mod watch;
