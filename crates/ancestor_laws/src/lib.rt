// What the definitions of `ancestors` in metafile say, proved over them: which rows are listed, when there is a circle, and
// which number is answered. Proofs only, in proofs/.
#![tactic(auto)]
