ghost use Rattle.std.specs.Prelude.{◌≡◌, ◌↔◌, IsTrue};
ghost use Rattle.std.proofs.Common.{rules};

// The entries of a row: `==` tells exactly whether two of them are the same.
pub trait Entry: PartialEq {
    ghost decides: { (x y : Self) → IsTrue (Self.PartialEq.eq x y) ↔ (x ≡ y) };
}

impl Entry for u8 {
    ghost decides = { Prim.search rules };
}

impl Entry for bool {
    ghost decides = { Prim.search rules };
}
