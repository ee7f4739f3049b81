//! Rows of the book, of its seats and their turns, and of workers.
#![tactic(auto)]

#[cfg(test)]
mod books;
#[cfg(test)]
mod chip;
#[cfg(test)]
mod crews;
#[cfg(test)]
mod exchanges;
#[cfg(test)]
mod facts;
#[cfg(test)]
mod opens;
mod shape;
#[cfg(test)]
mod stack_pointers;
#[cfg(test)]
mod turns;
