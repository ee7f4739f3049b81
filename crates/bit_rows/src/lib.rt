//! Rows of sets and of their known bits, of the manuals and worked by hand from their rules.
#![tactic(auto)]

#[cfg(test)]
mod bits;
#[cfg(test)]
mod given;
#[cfg(test)]
mod sets;
