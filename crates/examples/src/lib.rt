// The definitions of metafile tried on files and appends that the checker computes: proofs only, in proofs/.
#![tactic(auto)]
