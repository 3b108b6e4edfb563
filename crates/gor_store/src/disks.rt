//! The disks of a store: that of its shard is taken out from before the others, and comes back there.
ghost use Rattle.std.specs.Prelude.{◌≡◌, ◌+◌, ◌<◌, ◌≤◌, List, ◌∷◌, length, vec_capacity};
ghost use Rattle.gor_store.specs.Stores.{in_their_order};

/// Takes the first disk out. The last one then stands first among those that are left, and their room stays.
pub(crate) fn take_first<D>(disks: &mut Vec<D>) -> D
    requires { 1 < length disks.old.items }
    ensures taken { (disk : D) (others : List D) → disks.old.items ≡ disk ∷ others → (result ≡ disk) × (in_their_order disks.new.items ≡ others) }
    ensures left { length disks.new.items + 1 ≡ length disks.old.items }
    ensures room { length disks.old.items ≤ vec_capacity disks.new }
{
    disks.swap_remove(0)
}

/// Gives all disks in their order, that of the shard before the others. It takes no memory.
pub(crate) fn put_back<D>(mut others: Vec<D>, disk: D) -> Vec<D>
    requires some { 0 < length others.items }
    requires room { length others.items < vec_capacity others }
    ensures { result.items ≡ disk ∷ in_their_order others.items }
{
    let last = others.len();
    others.push_reserved(disk);
    others.swap(0, last);
    others
}
