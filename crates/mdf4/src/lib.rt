// What the layout, the listing, the tree and the clear list of a recording are: the definition stands in specs/, the
// theorems about it in proofs/. There is no code here; the crates above are proved equal to it.

#![tactic(auto)]
