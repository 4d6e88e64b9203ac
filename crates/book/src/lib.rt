// The plain book of demand 3 and the calls of a sheet, over any drawing: definitions in specs/ and laws in
// proofs/ alone. A crate with figures and a canvas puts its drawing in and takes the theorem from here.
#![tactic(auto)]
