//! Rows of the analyses of both chips, asked by themselves, of stores under a promise, of copies of devices, and of printing.
#![tactic(auto)]

#[cfg(test)]
mod devices;
#[cfg(test)]
mod images;
#[cfg(test)]
mod mcs51_marks;
#[cfg(test)]
mod msp430_marks;
#[cfg(test)]
mod printing;
#[cfg(test)]
mod promised;
