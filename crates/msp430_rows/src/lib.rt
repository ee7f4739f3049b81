//! Rows of interrupts of the MSP430 over what is known, and of what no row of `msp430_known_rows` shows of instructions, worked
//! out by hand from SLAU049.
#![tactic(auto)]

#[cfg(test)]
mod tests;
