// Laws of the scan of the two sides. Statements stand in specs/, proofs in proofs/; there is no code here.
#![tactic(auto)]
