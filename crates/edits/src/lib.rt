// Enter, amend and cancel, over the table's own parts: what is asked, in order, and one level after the other.
#![tactic(auto)]

pub mod changes;
