// The checked drawings of document 01: definitions and one theorem, no code. The cases stand in
// specs/Cases.antt, a line to a case under the paper's letter, and are shown by computing the
// definitions.
#![tactic(auto)]
