//! The texts of made programs as image texts: each denotes an image under the rules of its chip
//! ([`made_texts_denote`]).
#![tactic(auto)]

mod laws;

pub use laws::made_texts_denote;
