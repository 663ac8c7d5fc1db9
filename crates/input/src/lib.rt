// The words of bytes, and the judgement of bytes: what is read is a file of bytes, and the table is its words (document 01, "The
// formula table", and refusal 17).
#![tactic(auto)]

pub mod judging; // the judgement: 17 first, then that of the words
pub mod words; // the words
