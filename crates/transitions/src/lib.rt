// The transitions of an accepted table, for a caller that has judged it: what transition k keeps, and its assignments.
#![tactic(auto)]

pub mod kept; // the labels that a transition keeps
pub mod assigned; // its chosen labels, in an order

// How the children of a join that are still to come take part in a key.
#[derive(Clone, Copy)]
pub enum Shares {
    // all, by quotient and remainder: in key k of so many
    Each(u64, u64),
    // all, each in its first key: the only key is the empty one
    All,
    // the one that k falls in
    One(u64),
    // none any more
    Done,
}

// The key of its own in which a child takes part, if it does, and how those after it do.
#[derive(Clone, Copy)]
pub struct Turn {
    pub key: Option<u64>,
    pub next: Shares,
}
