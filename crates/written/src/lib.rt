// Tables as they are written: definitions and theorems, no functions. specs/Written.antt has the words of a table,
// specs/Tables.antt the table that sound words write, and that there is no other.
#![tactic(auto)]
