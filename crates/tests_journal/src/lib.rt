//! Tests of the journal that need a device which stops in mid-stream, and of its entries. They are kept above sky_journal and
//! sky_entry so that these crates' own proofs are not done again for them.
#![tactic(auto)]

#[cfg(test)]
mod tests;
