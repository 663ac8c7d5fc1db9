// The lines of a listing (document 01, "A listing, whole"), put into a lent buffer by a pen, one piece behind the other.
#![tactic(auto)]

ghost use Rattle.std.specs.Prelude.{◌+◌, ◌*◌, ◌/◌, ◌%◌, ◌^◌, ◌≤◌, ◌<◌, length, [], ◌∷◌};
ghost use Rattle.marks.specs.Marks.{positions_from, positions};
ghost use Rattle.listing.specs.Text.{decimal, field, fields, accepted_line, order_line, transition_line, refused_line};
ghost use Rattle.listing.specs.Inside.Placed.{Room, Puts};

use paper::Label;

// A lent buffer, and the position after what is put. Each method puts its bytes there, and leaves the rest of the buffer as it was.
#[derive(Drop)]
pub struct Pen<'a> {
    pub buf: &'a mut [u8],
    pub at: usize,
}

impl<'a> Pen<'a> {
    // One byte.
    pub fn byte(&mut self, b: u8)
        requires { Room self.old 1 }
        ensures { Puts self.old (b ∷ []) self.new }
    {
        self.buf[self.at] = b;
        self.at += 1;
    }

    // A word.
    pub fn word(&mut self, word: &[u8])
        requires { Room self.old (length word.now) }
        ensures { Puts self.old word.now self.new }
    {
        let after = self.at + word.len();
        self.buf[self.at..after].copy_from_slice(word);
        self.at = after;
    }

    // The two digits of a number below a hundred, a 0 first where it has one.
    fn two_digits(&mut self, n: u32)
        requires { (n < 100) × Room self.old 2 }
        ensures { Puts self.old ((48 + n / 10) ∷ (48 + n % 10) ∷ []) self.new }
    {
        let at = self.at;
        self.buf[at] = b'0' + (n / 10) as u8;
        self.buf[at + 1] = b'0' + (n % 10) as u8;
        self.at = at + 2;
    }

    // A number in decimal: the digits of its hundredth, and its last two. No contract of the library says what `write!` puts into a slice.
    pub fn decimal(&mut self, n: u32)
        requires { Room self.old (length (decimal n)) }
        ensures put { Puts self.old (decimal n) self.new }
        ensures upper_bound { self.new.at ≤ self.old.at + 10 }
    {
        if n < 10 {
            self.byte(b'0' + n as u8);
            return;
        }
        if n < 100 {
            self.two_digits(n);
            return;
        }
        self.decimal(n / 100);
        self.two_digits(n % 100);
    }

    // A space and a number: eleven bytes at most, and six for a label.
    fn field(&mut self, n: u32)
        requires { Room self.old (length (field n)) }
        ensures put { Puts self.old (field n) self.new }
        ensures upper_bound { self.new.at ≤ self.old.at + 11 }
        ensures label { n < 65536 → self.new.at ≤ self.old.at + 6 }
    {
        self.byte(b' ');
        self.decimal(n);
    }

    // The labels, each after a space.
    pub fn fields(&mut self, labels: &[u16])
        requires { Room self.old (6 * length labels.now) }
        ensures put { Puts self.old (fields labels.now) self.new }
        ensures upper_bound { self.new.at ≤ self.old.at + 6 * length labels.now }
    {
        for label in labels {
            self.field(u32::from(*label));
        }
    }

    // A label, where its byte is 1.
    fn position(&mut self, label: Label, byte: u8)
        requires { Room self.old 6 }
        ensures put { Puts self.old (fields (positions_from label.0 (byte ∷ []))) self.new }
        ensures upper_bound { self.new.at ≤ self.old.at + 6 }
    {
        if byte == 1 {
            self.field(u32::from(label.0));
        }
    }

    // The positions at which a byte is 1, each after a space.
    pub fn kept_fields(&mut self, kept: &[u8])
        requires { (length kept.now ≤ 65536) × Room self.old (6 * length kept.now) }
        ensures put { Puts self.old (fields (positions kept.now)) self.new }
        ensures upper_bound { self.new.at ≤ self.old.at + 6 * length kept.now }
    {
        for (i, byte) in kept.iter().enumerate() {
            self.position(Label(i as u16), *byte);
        }
    }

    // The line of an acceptance: the counts of variables, rows, chosen labels and transitions.
    #[tactic(auto, using(crate::proofs::Decimals::ten_digits))]
    pub fn accepted(&mut self, variables: usize, rows: usize, chosen: usize, transitions: usize)
        requires { (variables < 2 ^ 32) × (rows < 2 ^ 32) × (chosen < 2 ^ 32) × (transitions < 2 ^ 32) × Room self.old 53 }
        ensures put { Puts self.old (accepted_line variables rows chosen transitions) self.new }
        ensures upper_bound { self.new.at ≤ self.old.at + 53 }
    {
        self.word(b"accepted");
        self.field(variables as u32);
        self.field(rows as u32);
        self.field(chosen as u32);
        self.field(transitions as u32);
        self.byte(b'\n');
    }

    // The line of the reported order.
    pub fn order(&mut self, labels: &[u16])
        requires { Room self.old (6 + 6 * length labels.now) }
        ensures put { Puts self.old (order_line labels.now) self.new }
        ensures upper_bound { self.new.at ≤ self.old.at + (6 + 6 * length labels.now) }
    {
        self.word(b"order");
        self.fields(labels);
        self.byte(b'\n');
    }

    // The line of transition k: its chosen labels in reported order, and the labels whose byte is 1.
    pub fn transition(&mut self, k: usize, assigned: &[u16], kept: &[u8])
        requires { (k < 2 ^ 32) × (length kept.now ≤ 65536) × Room self.old (23 + 6 * length assigned.now + 6 * length kept.now) }
        ensures put { Puts self.old (transition_line k assigned.now (positions kept.now)) self.new }
        ensures upper_bound { self.new.at ≤ self.old.at + (23 + 6 * length assigned.now + 6 * length kept.now) }
    {
        self.decimal(k as u32);
        self.word(b" assign");
        self.fields(assigned);
        self.word(b" keep");
        self.kept_fields(kept);
        self.byte(b'\n');
    }

    // The line of a refusal.
    #[tactic(auto, using(crate::proofs::Decimals::ten_digits))]
    pub fn refused(&mut self, number: u8, place: u32)
        requires { Room self.old 30 }
        ensures put { Puts self.old (refused_line number place) self.new }
        ensures upper_bound { self.new.at ≤ self.old.at + 30 }
    {
        self.word(b"refused");
        self.field(u32::from(number));
        self.field(place);
        self.byte(b'\n');
    }
}
