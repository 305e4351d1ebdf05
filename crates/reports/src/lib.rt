// What a report means, the rule that is broken, and the bytes that it is about.
#![tactic(auto)]

mod faults; // which bytes break the rule
mod firsts; // which entry of a record is the first that breaks it
mod marked; // the bytes of a record that a report names
mod records; // where the type section ends
mod whole; // a report in words, with its bytes

pub use whole::put_report;
