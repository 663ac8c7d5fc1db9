// What is printed. What a failing call does not print is passed over.
use paper::Refusal;

pub fn text(rt: &impl Print, bytes: &[u8]) {
    let _ = rt.write_all(bytes);
}

pub fn refusal(rt: &impl Print, r: Refusal) {
    let _ = print!(rt; " refused {} {}", u8::from(r.fault), r.place);
}

// Of a line that is no case: the column, from 1 on, where that shows.
pub fn malformed(rt: &impl Print, column: usize) {
    let _ = print!(rt; " malformed at column {column}");
}
