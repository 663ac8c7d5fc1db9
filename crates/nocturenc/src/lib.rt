// The four requests of document 01 over any words: judge, order, transition k, assignments of transition k.
#![tactic(auto)]

pub mod requests; // the requests
pub mod exported; // the same as C asks them, each answer packed in one number
