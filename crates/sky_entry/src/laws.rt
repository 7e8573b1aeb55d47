//! What holds of entries as such. A call of these functions does nothing: each of their clauses is a law that is proved.

ghost use Rattle.std.specs.Prelude.{◌≡◌, ℕ, ◌≤◌, List, [], ◌++◌, Some, length, take};
ghost use Rattle.sky_nfs.specs.declared.call.Change.{Change};
ghost use Rattle.sky_xdr.specs.Encoding.{AreBytes};
ghost use Rattle.sky_args.specs.Sizes.{FitsUint};
ghost use Rattle.sky_entry.specs.Entry.{body_bytes, entry_bytes, FitsChange, IsEntry};
ghost use Rattle.sky_entry.specs.Reading.{entry_at};

/// Entries are read in one way.
pub fn entries_have_one_reading()
    // No bytes are the entries of two changes.
    ensures one_change { (bytes : List ℕ) (a b : Change) → IsEntry bytes a → IsEntry bytes b → a ≡ b }
    // No entry is a proper prefix of another.
    ensures no_prefix { (bytes more : List ℕ) (a b : Change) → IsEntry bytes a → IsEntry (bytes ++ more) b → more ≡ [] }
{}

/// The entry of each change whose length can be said is read again as the change, whatever follows it.
pub fn written_entries_are_read()
    ensures found { (c : Change) → FitsChange c → FitsUint (length (body_bytes c)) → IsEntry (entry_bytes c) c }
    ensures read_again { (c : Change) (rest : List ℕ) → FitsChange c → FitsUint (length (body_bytes c))
        → entry_at (entry_bytes c ++ rest) ≡ Some (c, length (entry_bytes c)) }
{}

/// `entry_at` decides with which entry bytes begin.
pub fn entry_at_decides()
    ensures accepted { (bytes rest : List ℕ) (c : Change) → IsEntry bytes c
        → entry_at (bytes ++ rest) ≡ Some (c, length bytes) }
    ensures found { (bytes : List ℕ) (c : Change) (n : ℕ) → AreBytes bytes → entry_at bytes ≡ Some (c, n)
        → IsEntry (take n bytes) c × (n ≤ length bytes) }
{}
