//! What holds of stores for all objects: theorems on the definitions, with no code.
ghost use Rattle.std.specs.Prelude.{◌≡◌, ℕ, List, None};
ghost use Rattle.std.specs.FinMap as map;
ghost use Rattle.ids.specs.Key.{Objects};
ghost use Rattle.ids.specs.declared.key.Key.{Key};
ghost use Rattle.object_store.specs.Store.{HasNames, damage_at, put_refusal};

/// Where every object lies under its own name none is damaged, and the calls of a store keep it so. So a shelf that gives
/// what it tells never makes a store answer `Damaged` for what a store put.
pub fn what_a_store_put_is_never_damaged()
    ensures absent { HasNames map.empty }
    ensures ok { (objects : Objects) (key : Key) (bytes : List ℕ) → HasNames objects → put_refusal objects key bytes ≡ None
        → HasNames (map.insert objects key bytes) }
    ensures stays { (objects : Objects) (key : Key) → HasNames objects → HasNames (map.remove objects key) }
    ensures value { (objects : Objects) (key : Key) → HasNames objects → damage_at objects key ≡ None }
{}
