// Demand 3 for a host that keeps a sheet as numbers and makes its calls one by one: definitions in specs/
// and one law in proofs/ alone, over what the calls of `host_sheet` promise.
#![tactic(auto)]
