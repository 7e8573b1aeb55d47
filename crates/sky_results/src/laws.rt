//! What holds of the encodings as such. A call of these functions does nothing: each of their clauses is a law that is
//! proved.

ghost use Rattle.std.specs.Prelude.{◌≡◌, ◌+◌, ◌≤◌, ℕ, List, ◌++◌, length};
ghost use Rattle.sky_nfs.specs.declared.answer.Answer.{Answer};
ghost use Rattle.sky_results.specs.Answers.{answer_bytes, answered, data_length};
ghost use Rattle.sky_results.specs.Ranges.{AnswerFits};

/// The results of each procedure are read in one way: no bytes are the results of two answers of one procedure, and no
/// results are a proper prefix of others of the same procedure.
pub fn one_reading()
    ensures { (a b : Answer) (x y : List ℕ) → AnswerFits a → AnswerFits b → answered a ≡ answered b →
        answer_bytes a ++ x ≡ answer_bytes b ++ y → (a ≡ b) × (x ≡ y) }
{}

/// An answer has at most 236 bytes beside its text, its data or its entries.
pub fn answers_are_bounded()
    ensures { (a : Answer) → length (answer_bytes a) ≤ 236 + data_length a }
{}
