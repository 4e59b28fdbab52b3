// The search of one column over any evaluator (document 01, "Search"): what is tried, in which order, and what the pruning may not lose.
// Definitions and laws as statements stand in specs/, proofs in proofs/; the code that runs it is the crate column_turns's.
#![tactic(auto)]
