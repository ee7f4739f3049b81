//! Sums of answers.

use std::fmt::{Display, Error, Formatter, Write};
use value_set::{Form, Vs8};

/// How many answers there were, and a sum of them in their order.
#[derive(Clone, Copy)]
pub struct Sum {
    count: u32,
    sum: u32,
}

impl Sum {
    pub fn new() -> Sum {
        Sum { count: 0, sum: 0 }
    }

    fn fold(&mut self, number: u32) {
        self.sum = self.sum.wrapping_mul(31).wrapping_add(number);
    }

    /// Adds an answer that is a number.
    pub fn add(&mut self, number: u32) {
        self.count = self.count.wrapping_add(1);
        self.fold(number);
    }

    /// Adds an answer that is a set: how many numbers a list has, and these, or 0, the base, the stride and the count of a run.
    pub fn add_set(&mut self, set: &Vs8) {
        match set.form() {
            Form::Values(values) => {
                self.add(values.len() as u32);
                for value in values.as_slice() {
                    self.fold(u32::from(*value));
                }
            }
            Form::Run(run) => {
                self.add(0);
                self.fold(u32::from(run.base));
                self.fold(u32::from(run.stride));
                self.fold(run.count);
            }
        }
    }

    /// Adds an answer that is a set or none: none is 256.
    pub fn add_found(&mut self, found: &Option<Vs8>) {
        match found {
            Some(set) => self.add_set(set),
            None => self.add(256),
        }
    }
}

impl Display for Sum {
    fn fmt<W: Write>(&self, f: &mut Formatter<W>) -> Result<(), Error> {
        write!(f, "{} {:08X}", self.count, self.sum)
    }
}
