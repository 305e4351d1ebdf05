// The .BTF.ext section (order 8): "Read the extension section as the kernel page lays it out", beside a table that is checked first.
#![tactic(auto)]

mod checked; // the check of the table, then the section beside it

pub use checked::check_ext;
