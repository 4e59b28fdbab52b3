// Two outcomes that fit the contract of a public function coincide, the lent memory at exit included. Statements stand in specs/, proofs in proofs/; there is no code here.
#![tactic(auto)]
