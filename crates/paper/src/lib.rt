// Document 001: its definitions stand in specs/, its theorems in proofs/. Labels, variables and refusals live here, so that code and
// definitions share them.
#![tactic(auto)]

pub mod limits; // the limits of document 01
pub mod refusals; // the reasons to refuse and their numbers, and the one function that makes a refusal

use refusals::Fault;

// Labels and variables are compared by their numbers: a derived order or equality is a call, whose answer no arithmetic reads.

// A row's label: its position among the rows of the table (document 001: a label of the set L).
#[derive(Clone, Copy)]
pub struct Label(pub u16);

// A variable: its position among the variables of the table (document 001: a primed variable).
#[derive(Clone, Copy)]
pub struct Variable(pub u16);

// A refusal: the reason for it and its place, of the sort that document 01 gives for the reason's number.
#[derive(Clone, Copy)]
pub struct Refusal {
    pub fault: Fault,
    pub place: u32,
}
