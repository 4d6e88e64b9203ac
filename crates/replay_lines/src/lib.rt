// The lines of text that `replay` reads and writes: names of calls looked up, numbers and lists read,
// and what a call left in them written. Every function is proved safe and to end, and promises at
// most where it stays; what they read and write is compared with the stored lines.
#![tactic(auto)]

pub mod names;
pub mod output;
pub mod words;
