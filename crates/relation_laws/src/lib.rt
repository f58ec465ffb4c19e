// What is written into a relation chunk is declared, proved over the definitions in metafile. Proofs only:
// proofs/Written.antt for every file, proofs/Appended.antt after an append of the text.
#![tactic(auto)]
