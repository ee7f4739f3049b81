//! The choices that a run is given.

ghost use Rattle.std.specs.Prelude.{◌≡◌, ◌<◌, ◌≤◌, ◌++◌, ℕ, IfSome, List, length};
ghost use Rattle.choosing.specs.Asking as asking;
ghost use Rattle.choosing.specs.Choosing.{asked};

use std::marker::Model;

/// A list of choices, of which the first ones are used. Contracts see those that are left.
#[derive(Drop)]
pub struct Choices {
    list: Vec<u16>,
    next: usize,
}

impl Model for Choices {
    ghost use Rattle.std.specs.Prelude.{◌≤◌, List, ℕ, drop, length};

    ghost Value = { List ℕ };

    ghost view = { λ c. drop c.next c.list.items };

    ghost invariant = { λ c. c.next ≤ length c.list.items };
}

impl Choices {
    /// Choices of which none is used.
    pub fn new(list: Vec<u16>) -> Choices
        ensures { result ≡ list.items }
    {
        Choices { list, next: 0 }
    }

    /// The choices that are left.
    pub fn unused(&self) -> Unused<'_>
        ensures { result ≡ self.now }
    {
        Unused {
            list: &self.list[self.next..],
        }
    }

    /// Uses up all but the last so many of those that are left.
    pub fn leave(&mut self, count: usize)
        requires { count ≤ length self.old }
        ensures { (front rest : List ℕ) → self.old ≡ front ++ rest → length rest ≡ count → self.new ≡ rest }
    {
        self.next = self.list.len() - count;
    }
}

/// The choices that are left to a step. A question with so many options takes the next one modulo their number.
#[derive(Drop)]
pub struct Unused<'a> {
    list: &'a [u16],
}

impl<'a> Model for Unused<'a> {
    ghost use Rattle.std.specs.Prelude.{List, ℕ};

    ghost Value = { List ℕ };

    ghost view = { λ c. c.list.now };
}

impl<'a> Unused<'a> {
    /// How many are left.
    pub fn count(&self) -> usize
        ensures { result ≡ length self.now }
    {
        self.list.len()
    }

    /// One question: the number of the option, or none where no choice is left.
    #[tactic(auto, unfolding(crate::specs::Asking::ask))]
    pub fn ask(&mut self, options: u32) -> Option<u32>
        requires some { 1 ≤ options }
        requires most { options ≤ 65536 }
        ensures exact { asked result self.new ≡ asking.ask options self.old }
        ensures below { IfSome result (λ option. option < options) }
    {
        let (choice, left) = self.list.split_first()?;
        self.list = left;
        Some(*choice as u32 % options)
    }

    /// One question in some cases; else option 0.
    pub fn ask_if(&mut self, is_asked: bool, options: u32) -> Option<u32>
        requires some { 1 ≤ options }
        requires most { options ≤ 65536 }
        ensures exact { asked result self.new ≡ asking.ask_if is_asked options self.old }
        ensures below { IfSome result (λ option. option < options) }
    {
        if is_asked { self.ask(options) } else { Some(0) }
    }
}
