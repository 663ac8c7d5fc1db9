// The net: what is kept beside the rows so that "before" can be followed label by label without walking from the root.
#![tactic(auto)]

ghost use Rattle.std.specs.Prelude.{◌≡◌, ℕ, ◌+◌, ◌-◌, ◌*◌, ◌≤◌, ◌<◌, length, get_or};
ghost use Rattle.paper.specs.Formula.{ℓ};
ghost use Rattle.rows.specs.Rows.{kind_of};
ghost use Rattle.rows.specs.Inside.Tree.{is_under, parent_of, guard_of};
ghost use Rattle.net.specs.Inside.Net.{Tree, Chosen, Parents, Words, Noted, Cleared, next_with, first_with};
ghost use Rattle.net.specs.Inside.OneProof.{Chosen-prop};
ghost use Rattle.paper.specs.Limits.{most_rows, most_variables, slots};

use paper::limits::{MOST_ROWS, MOST_VARIABLES, SLOTS};
use paper::{Label, Variable};
use rows::form::{Form, form_of};
use rows::{arg_of, end_of, kind_of};

// Rows of one tree, chosen labels of theirs, and how many rows there are.
#[derive(Clone, Copy)]
pub struct Choice<'a> {
    pub rows: &'a [u16],
    pub chosen: &'a [u16],
    pub n: u16,
    pub ghost made: { Chosen rows.now chosen.now n } by { Chosen-prop rows.now chosen.now n },
}

// What is kept: for each row the row over it and the star of the innermost guard around it, or label 0 for none; for each
// chosen label the index of the next one with its variable, and for each variable the index of its first, or how many
// there are for none. Words in arrays of fixed length: there is no heap.
#[derive(Drop)]
pub struct Net {
    pub parents: [u16; MOST_ROWS],
    pub guards: [u16; MOST_ROWS],
    pub nexts: [u16; SLOTS],
    pub firsts: [u16; MOST_VARIABLES],
}

impl Net {
    // The star of the innermost guard around a row, or label 0 for none.
    pub fn guard_of(&self, at: Label) -> Label
        requires { at.0 < most_rows }
        ensures { result ≡ ℓ (get_or self.now.guards at.0 0) }
    {
        label_at(&self.guards, at)
    }

    // The index of the next chosen label with the variable of the k-th.
    pub fn next_of(&self, k: usize) -> u16
        requires { k < slots }
        ensures { result ≡ get_or self.now.nexts k 0 }
    {
        self.nexts[k]
    }

    // The index of the first chosen label of a variable.
    pub fn first_with(&self, v: Variable) -> u16
        requires { v.0 < most_variables }
        ensures { result ≡ get_or self.now.firsts v.0 0 }
    {
        self.firsts[usize::from(v.0)]
    }
}

// What a word for each row has for one, as a label.
fn label_at(words: &[u16; MOST_ROWS], at: Label) -> Label
    requires { at.0 < most_rows }
    ensures { result ≡ ℓ (get_or words.now at.0 0) }
{
    Label(words[usize::from(at.0)])
}

// Whether row `at` lies in the subtree of row `top`.
fn is_over(rows: &[u16], top: Label, at: Label) -> bool
    requires { 4 * top.0 + 4 ≤ length rows.now }
    ensures { result ≡ is_under rows.now top.0 at.0 }
{
    if at.0 < top.0 {
        return false;
    }
    at.0 < end_of(rows, top).0
}

// The row over a row that is not the first, from the rows over those before it: from the row before it up, the first whose
// subtree holds it.
fn climbed(c: &Choice, parents: &[u16; MOST_ROWS], at: Label) -> Label
    requires { (0 < at.0) × (at.0 < c.now.n) × ((i : ℕ) → 0 < i → i < at.0 → get_or parents.now i 0 ≡ parent_of c.now.rows.now i) }
    ensures { result ≡ ℓ (parent_of c.now.rows.now at.0) }
{
    let mut top = Label(at.0 - 1);
    while end_of(c.rows, top).0 <= at.0 {
        top = label_at(parents, top);
    }
    top
}

// Notes the row over each row.
fn note_parents(c: &Choice, parents: &mut [u16; MOST_ROWS])
    ensures { Words most_rows (parent_of c.now.rows.now) 1 c.now.n parents.old parents.new }
{
    for i in 1..c.n {
        parents[usize::from(i)] = climbed(c, parents, Label(i)).0;
    }
}

// The star of the innermost guard around a row that is not the first, from those of the rows before it.
fn guarded_by(c: &Choice, parents: &[u16; MOST_ROWS], guards: &[u16; MOST_ROWS], at: Label) -> Label
    requires { (0 < at.0) × (at.0 < c.now.n) × (get_or parents.now at.0 0 ≡ parent_of c.now.rows.now at.0)
        × ((i : ℕ) → i < at.0 → get_or guards.now i 0 ≡ guard_of c.now.rows.now i) }
    ensures { result ≡ ℓ (guard_of c.now.rows.now at.0) }
{
    let top = label_at(parents, at);
    // by number, as `is_guarded` has it: an enum would name Exists, If and what is no form
    if kind_of(c.rows, top) < 5 {
        return label_at(guards, top);
    }
    if at.0 == top.0 + 1 {
        return label_at(guards, top);
    }
    Label(top.0 + 1)
}

// Notes the star of the innermost guard around each row.
fn note_guards(c: &Choice, parents: &[u16; MOST_ROWS], guards: &mut [u16; MOST_ROWS])
    requires { Parents c.now.rows.now c.now.n parents.now }
    ensures { Words most_rows (guard_of c.now.rows.now) 0 (1 + (c.now.n - 1)) guards.old guards.new }
{
    guards[0] = 0;
    for i in 1..c.n {
        guards[usize::from(i)] = guarded_by(c, parents, guards, Label(i)).0;
    }
}

// Notes for each chosen label the next one of its variable, and for each variable its first, from the last label down.
fn note_indices(c: &Choice, nexts: &mut [u16; SLOTS], firsts: &mut [u16; MOST_VARIABLES])
    ensures { Words slots (next_with c.now.rows.now c.now.chosen.now) 0 (length c.now.chosen.now) nexts.old nexts.new
        × Words most_variables (λ v. first_with c.now.rows.now c.now.chosen.now v 0) 0 most_variables firsts.old firsts.new }
{
    firsts.fill(c.chosen.len() as u16);
    for k in (0..c.chosen.len()).rev() {
        let v = Variable(arg_of(c.rows, Label(c.chosen[k])));
        let i = usize::from(v.0);
        nexts[k] = firsts[i];
        firsts[i] = k as u16;
    }
}

// Notes the net of rows and chosen labels. It is lent: one that is handed back takes its size again on the stack.
pub fn note_net(c: &Choice, net: &mut Net)
    ensures { Noted c.now.rows.now c.now.chosen.now c.now.n net.old net.new }
{
    note_parents(c, &mut net.parents);
    note_guards(c, &net.parents, &mut net.guards);
    note_indices(c, &mut net.nexts, &mut net.firsts);
}

// Whether candidates i and j share a branch, and what that tells of the labels after i: i itself where they do, else a label
// above it below which none from i on shares a branch with j. One label says both, as `Cleared` has it.
// No `Choice` comes in: a tree and its parents are enough.
pub fn clear_of(rows: &[u16], net: &Net, n: u16, i: Label, j: Label) -> Label
    requires { Tree rows.now n × Parents rows.now n net.now.parents × (i.0 < n) × (j.0 < n)
        × (kind_of rows.now i.0 ≡ 2) × (kind_of rows.now j.0 ≡ 2) }
    ensures { Cleared rows.now i.0 j.0 result.0 }
{
    if i.0 == j.0 {
        return i;
    }
    let parents = &net.parents;
    let mut below = j;
    let mut top = label_at(parents, j);
    while !is_over(rows, top, i) {
        below = top;
        top = label_at(parents, top);
    }
    if form_of(rows, top) == Form::Conjunction {
        return i;
    }
    if i.0 < below.0 {
        return below;
    }
    end_of(rows, top)
}
