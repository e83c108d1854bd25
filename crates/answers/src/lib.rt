// What the text program answers to a line: the call that it asks for, made on the program's table, and the lines that this prints.
#![tactic(auto)]

pub mod calls;
pub mod output;
pub mod printer;
pub mod printing;
