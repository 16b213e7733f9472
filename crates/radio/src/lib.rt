//! A radio: a structure of a maker's own, written from the interface alone. A maker writes four things:
//! - src/radio.rt: the type, with what it holds, and its making;
//! - specs/Radio.antt: what the structure is, in the maker's words;
//! - src/radio/questions.rt: the answers to the interface's questions, in code;
//! - specs/Lawful.antt: that the definitions keep the rules of a structure, which comes to one proof, that raising a rank never
//!   lowers the level.
//!
//! Rattle proves the rest: that each answer in code is the one that the definitions give.
#![tactic(auto)]

mod radio;

pub use radio::Radio;
