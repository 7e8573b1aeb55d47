//! What holds of items as such. A call of these functions does nothing: each of their clauses is a law that is proved.

ghost use Rattle.std.specs.Prelude.{◌≡◌, ℕ, List, [], ◌++◌, Ok};
ghost use Rattle.sky_base.specs.declared.place.ItemId.{ItemId};
ghost use Rattle.sky_base.specs.declared.place.Location.{Location};
ghost use Rattle.sky_xdr.specs.Encoding.{AreBytes};
ghost use Rattle.sky_item.specs.declared.item.Item.{Item};
ghost use Rattle.sky_item.specs.Encoding.{id_of, body_of};
ghost use Rattle.sky_item.specs.Items.{EncodesItem, moved};
ghost use Rattle.sky_item.specs.Fields.{item_at};

/// Items are read in one way.
pub fn items_have_one_reading()
    // No bytes are the encodings of two items.
    ensures one_item { (bytes : List ℕ) (a b : Item) → EncodesItem bytes a → EncodesItem bytes b → a ≡ b }
    // No encoding is a proper prefix of another.
    ensures no_prefix { (bytes more : List ℕ) (a b : Item) → EncodesItem bytes a → EncodesItem (bytes ++ more) b → more ≡ [] }
{}

/// `item_at` decides of which item bytes are the encoding: the encodings are read, and all else is refused.
pub fn item_at_decides()
    ensures accepted { (bytes : List ℕ) (item : Item) → EncodesItem bytes item → item_at bytes ≡ Ok item }
    ensures found { (bytes : List ℕ) (item : Item) → AreBytes bytes → item_at bytes ≡ Ok item → EncodesItem bytes item }
{}

/// An item whose links go to other places is the same item: it has the same identifier, kind and body.
pub fn copies_are_the_same_item()
    ensures id { (place : ItemId → Location) (item : Item) → id_of (moved place item) ≡ id_of item }
    ensures body { (place : ItemId → Location) (item : Item) → body_of (moved place item) ≡ body_of item }
{}
