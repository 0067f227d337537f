// Laws about the calls' answers (proofs/): tests in a row, and an outcome by its verdict. No code: `?` and the library's methods say the rest.
#![tactic(auto)]
