//! Names as the keys of maps.
ghost use Rattle.std.specs.Str.{bytes_eq};
ghost use Rattle.std.proofs.Common.{rules, ap};
ghost use Rattle.std.specs.Hash as fed;
ghost use Rattle.std.specs.Cmp.{on_equiv, on_per, partial_equiv_from_equiv};
ghost use Rattle.std.specs.Cmp.Lexicographic.{bytes_decides, nat_list_eq_equiv};
ghost use Rattle.std.specs.Cmp.Rules.{hashing};
ghost use Rattle.gor_model.specs.Names.{key_of};

use crate::name::Name;
use indexmap::Equivalent;
use std::hash::{Hash, Hasher};

/// A name as a key of a map: compared and hashed by the bytes of its key, and found by them, so that a look-up needs no
/// name and a row keeps no second copy of its key.
#[derive(Drop)]
pub struct KeyedName {
    pub name: Name,
}

impl PartialEq for KeyedName {
    ghost eq = { λ a b. bytes_eq (key_of a.name) (key_of b.name) };

    ghost laws = { on_per (λ a. key_of a.name) (partial_equiv_from_equiv nat_list_eq_equiv) };

    fn eq(&self, other: &KeyedName) -> bool {
        self.name.key() == other.name.key()
    }
}

impl Eq for KeyedName {
    ghost laws = { on_equiv (λ a. key_of a.name) nat_list_eq_equiv };
}

impl Hash for KeyedName {
    ghost hash_input = { λ a. fed.slice fed.u8 (key_of a.name) };

    ghost respects_eq = { Prim.search (hashing, rules) };

    fn hash<H: Hasher>(&self, state: &mut H) {
        self.name.key().hash(state);
    }
}

impl Equivalent<KeyedName> for &[u8] {
    ghost equivalent = { λ q a. bytes_eq q.now (key_of a.name) };

    ghost respects_hash = { λ q a h. ap (fed.slice fed.u8) ((bytes_decides q.now (key_of a.name)).0 h) };

    ghost respects_eq = { λ q x y. nat_list_eq_equiv.congr q.now (key_of x.name) (key_of y.name) };

    fn equivalent(&self, key: &KeyedName) -> bool {
        *self == key.name.key()
    }
}
