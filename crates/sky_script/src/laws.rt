//! What is true of all bytes: a function with nothing to do, whose clause is the law.

ghost use Rattle.std.specs.Prelude.{ℕ, List};
ghost use Rattle.sky_script.specs.Beginning.{HasOneBeginning};

/// All bytes begin with a frame, or with what is refused, or are cut short within a frame, and in no
/// two of these ways.
#[tactic(auto, using(crate::proofs::Beginnings::one_beginning))]
pub fn all_bytes_have_one_beginning()
    ensures { (bytes : List ℕ) → HasOneBeginning bytes }
{}
