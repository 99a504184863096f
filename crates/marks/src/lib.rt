// The marks of paper 01, M1 to M12, as one table: specs/ has the rows and what each says, proofs/ that each holds; and wrong rules of request 7, refuted by texts that are
// computed in the same way (proofs/RefutedTwo). It is definitions and laws alone.

#![tactic(auto)]
