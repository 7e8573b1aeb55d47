//! What holds of the encoding and of reading as such. A call of these functions does nothing: each
//! of their clauses is a law that is proved.

ghost use Rattle.std.specs.Prelude.{◌≡◌, ℕ, ◌^◌, ◌<◌, ◌≤◌, Bool, List, ◌++◌, length, Ok};
ghost use Rattle.sky_xdr.specs.Encoding.{AreBytes, uint, uhyper, bool, fixed, opaque, IsFixed, IsOpaque, BeginsWithFixed, BeginsWithOpaque};
ghost use Rattle.sky_xdr.specs.Reading.{uint_at, uhyper_at, bool_at, fixed_at, opaque_at};

/// What is encoded is read again, whatever follows it. Opaque data is read from each encoding that
/// is accepted, not only from the written one.
pub fn read_again()
    ensures uints { (n : ℕ) (rest : List ℕ) → n < 2 ^ 32 → uint_at (uint n ++ rest) ≡ Ok (n, rest) }
    ensures uhypers { (n : ℕ) (rest : List ℕ) → n < 2 ^ 64 →
        uhyper_at (uhyper n ++ rest) ≡ Ok (n, rest) }
    ensures bools { (b : Bool) (rest : List ℕ) → bool_at (bool b ++ rest) ≡ Ok (b, rest) }
    ensures fixed_data { (v rest : List ℕ) → fixed_at (length v) (fixed v ++ rest) ≡ Ok (v, rest) }
    ensures opaques { (max : ℕ) (v rest : List ℕ) → length v ≤ max → length v < 2 ^ 32 →
        opaque_at max (opaque v ++ rest) ≡ Ok (v, rest) }
    // With any bytes as the padding.
    ensures fixed_accepted { (bytes v rest : List ℕ) → IsFixed bytes v →
        fixed_at (length v) (bytes ++ rest) ≡ Ok (v, rest) }
    ensures accepted { (max : ℕ) (bytes v rest : List ℕ) → IsOpaque bytes v →
        length v ≤ max → length v < 2 ^ 32 → opaque_at max (bytes ++ rest) ≡ Ok (v, rest) }
{}

/// What is read is encoded so, and in no other way but for the padding of opaque data.
pub fn only_encoding()
    ensures uints { (bytes : List ℕ) (n : ℕ) (rest : List ℕ) → AreBytes bytes →
        uint_at bytes ≡ Ok (n, rest) → (bytes ≡ uint n ++ rest) × (n < 2 ^ 32) }
    ensures uhypers { (bytes : List ℕ) (n : ℕ) (rest : List ℕ) → AreBytes bytes →
        uhyper_at bytes ≡ Ok (n, rest) → (bytes ≡ uhyper n ++ rest) × (n < 2 ^ 64) }
    ensures bools { (bytes : List ℕ) (b : Bool) (rest : List ℕ) → AreBytes bytes →
        bool_at bytes ≡ Ok (b, rest) → bytes ≡ bool b ++ rest }
    ensures fixed_data { (n : ℕ) (bytes v rest : List ℕ) → fixed_at n bytes ≡ Ok (v, rest) →
        BeginsWithFixed bytes v rest × (length v ≡ n) }
    ensures opaques { (max : ℕ) (bytes v rest : List ℕ) → AreBytes bytes →
        opaque_at max bytes ≡ Ok (v, rest) →
        BeginsWithOpaque bytes v rest × (length v ≤ max) × (length v < 2 ^ 32) }
{}
