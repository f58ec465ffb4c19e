// Laws of the chunk that an accepted append writes ("Append" of the scope paper), over the definitions in metafile: it is
// whole, its lines hold what was given, and its row is the one demanded. Proofs only, in proofs/, over the hypotheses in
// specs/Taken.antt. They rest on the laws in laws and chunk_laws.
#![tactic(auto)]
