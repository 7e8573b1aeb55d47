//! What holds of objects as such. A call of these functions does nothing: each of their clauses is a law that is proved.

ghost use Rattle.std.specs.Prelude.{◌≡◌, ℕ, ◌<◌, ◌≤◌, ◌+◌, List, [], ◌∷◌, ◌++◌, false, length, Ok};
ghost use Rattle.sky_base.specs.Limits.{max_number};
ghost use Rattle.sky_base.specs.declared.object.Dir.TheVariants.{Proxy};
ghost use Rattle.sky_base.specs.declared.object.SegName.{SegName};
ghost use Rattle.sky_xdr.specs.Encoding.{AreBytes};
ghost use Rattle.sky_item.specs.Encoding.{length_of_item};
ghost use Rattle.sky_item.specs.Items.{IsItem};
ghost use Rattle.sky_item.specs.declared.item.Item.{Item};
ghost use Rattle.sky_segment.specs.Objects.{IsObject, object_bytes, object_header};
ghost use Rattle.sky_segment.specs.Damages.{object_at};
ghost use Rattle.sky_segment.specs.Drafts.{Draft, size_of_draft, with_item};

/// Objects are read in one way.
pub fn objects_have_one_reading()
    // No bytes are two objects: neither of two names, nor of two lists of items.
    ensures one_object { (bytes : List ℕ) (a b : SegName) (xs ys : List Item) → IsObject a bytes xs → IsObject b bytes ys → (a ≡ b) × (xs ≡ ys) }
    // No object is a proper prefix of another.
    ensures no_prefix { (bytes more : List ℕ) (a b : SegName) (xs ys : List Item) → IsObject a bytes xs → IsObject b (bytes ++ more) ys → more ≡ [] }
{}

/// `object_at` decides of which items bytes are the object of a name: the objects are read, and all else is refused.
pub fn object_at_decides()
    ensures accepted { (name : SegName) (bytes : List ℕ) (items : List Item) → IsObject name bytes items → object_at name bytes ≡ Ok items }
    ensures found { (name : SegName) (bytes : List ℕ) (items : List Item) → name.run < max_number → name.seq < max_number
        → AreBytes bytes → object_at name bytes ≡ Ok items → IsObject name bytes items }
{}

/// An object of no items is a header: 36 bytes, which the name alone says.
pub fn empty_objects()
    ensures is { (name : SegName) → name.run < max_number → name.seq < max_number → name.last ≡ false → IsObject name (object_header name 0) [] }
    ensures size { (name : SegName) → length (object_bytes name []) ≡ 36 }
    // The first object of the first epoch, with which a volume begins.
    ensures first { object_bytes (record { dir = Proxy; run = 1; seq = 0; last = false }) [] ≡
        83 ∷ 75 ∷ 89 ∷ 83 ∷ 69 ∷ 71 ∷ 49 ∷ 10
        ∷ 0 ∷ 0 ∷ 0 ∷ 0
        ∷ 0 ∷ 0 ∷ 0 ∷ 0 ∷ 0 ∷ 0 ∷ 0 ∷ 1
        ∷ 0 ∷ 0 ∷ 0 ∷ 0 ∷ 0 ∷ 0 ∷ 0 ∷ 0
        ∷ 0 ∷ 0 ∷ 0 ∷ 0
        ∷ 0 ∷ 0 ∷ 0 ∷ 0 ∷ [] }
{}

/// An object grows by each item by just the bytes that the item has.
pub fn drafts_have_room()
    ensures grows { (d : Draft) (item : Item) → IsItem item → size_of_draft (with_item d item) ≡ size_of_draft d + length_of_item item }
{}
