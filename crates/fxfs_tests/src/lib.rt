//! Tests that cross crates: disks, scripts, and what the top call makes of them.
#![tactic(auto)]

#[cfg(test)]
mod damaged;
#[cfg(test)]
mod full;
#[cfg(test)]
mod images;
#[cfg(test)]
mod moments;
#[cfg(test)]
mod mounts;
#[cfg(test)]
mod rows;
#[cfg(test)]
mod runs;
#[cfg(test)]
mod tests;
