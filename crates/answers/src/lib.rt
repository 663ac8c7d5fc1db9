// What the requests of document 01 answer: the answer to a judge request, and transitions and assignments for a caller that has
// judged. specs/Requests.antt says what is answered to any words.
#![tactic(auto)]

pub mod judged; // an accepted table, and its transitions and assignments as requests
pub mod numbered; // transition k by itself: its bytes, and its chosen labels in order

ghost use Rattle.std.specs.Prelude.{◌≡◌};
ghost use Rattle.answers.specs.Requests.{as_counts};

use strategy::Accepted;

// What an accepted judgement counts: V, N, S and the transitions.
#[derive(Clone, Copy)]
pub struct Counts {
    pub variables: usize,
    pub rows: usize,
    pub chosen: usize,
    pub transitions: usize,
}

impl From<Accepted> for Counts {
    ghost from_gives = { λ a c. c ≡ as_counts a };

    fn from(a: Accepted) -> Counts {
        Counts {
            variables: a.layout.variables,
            rows: a.layout.rows,
            chosen: a.layout.chosen,
            transitions: a.transitions,
        }
    }
}
