// No code: that a call over a lent record and many lent slices promises what the call beneath it promises was walked by hand here. Rattle's
// check walks such calls itself now, so each stands in crate host with its clause and no proof file.
#![tactic(auto)]
