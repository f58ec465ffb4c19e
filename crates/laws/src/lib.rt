// Laws of the definitions in metafile: proofs only, in proofs/.
#![tactic(auto)]
