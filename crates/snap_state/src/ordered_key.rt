ghost use Rattle.std.specs.Prelude.{◌≡◌, IfOk, Some, refl};
ghost use Rattle.std.specs.Cmp.{partial_equiv_from_equiv, partial_order_from_agreeing_total};
ghost use Rattle.std.specs.Cmp.Lexicographic.{nat_list_cmp_total, nat_list_eq_equiv, slice_cmp, texts_ties};
ghost use Rattle.std.specs.Ordering.{nat_cmp};
ghost use Rattle.std.specs.Str.{bytes_eq};
ghost use Rattle.wire_fields.specs.FieldLaws.{key_is_format};
ghost use Rattle.wire_fields.specs.Fields.{key};

use std::alloc::{AllocError, Global};
use std::cmp::Ordering;
use std::marker::Model;
use vst_base::Key;
use wire_fields::{Input, put_key};
use wire_messages::Wire;

/// A key, in the order of its bytes. Contracts see the bytes.
#[derive(Debug, Drop)]
pub struct OrderedKey {
    key: Key,
}

impl Model for OrderedKey {
    ghost use Rattle.std.specs.Prelude.{ℕ, List};

    ghost Value = { List ℕ };

    ghost view = { λ k. k.key };
}

impl OrderedKey {
    /// An equal key.
    pub fn of(alloc: Global, key: &Key) -> Result<Self, AllocError>
        ensures { IfOk result (λ copy. copy ≡ key.now) }
    {
        Ok(OrderedKey {
            key: key.copy(alloc)?,
        })
    }
}

impl PartialEq for OrderedKey {
    ghost eq = { bytes_eq };

    ghost laws = { partial_equiv_from_equiv nat_list_eq_equiv };

    fn eq(&self, other: &Self) -> bool {
        self.key == other.key
    }
}

impl Eq for OrderedKey {
    ghost laws = { nat_list_eq_equiv };
}

impl PartialOrd for OrderedKey {
    ghost partial_cmp = { λ a b. Some (slice_cmp nat_cmp a b) };

    ghost laws = { partial_order_from_agreeing_total (slice_cmp nat_cmp) nat_list_cmp_total (λ a b. refl) (λ a b. texts_ties a b) };

    fn partial_cmp(&self, other: &Self) -> Option<Ordering> {
        Some(self.cmp(other))
    }
}

impl Ord for OrderedKey {
    ghost cmp = { slice_cmp nat_cmp };

    ghost total = { nat_list_cmp_total };

    ghost matches_partial_cmp = { λ a b. refl };

    ghost matches_eq = { λ a b. texts_ties a b };

    fn cmp(&self, other: &Self) -> Ordering {
        self.key.as_bytes().cmp(other.key.as_bytes())
    }
}

impl Wire for OrderedKey {
    ghost format = { key };

    fn put(&self, out: &mut Vec<u8>) -> Result<(), AllocError> {
        put_key(out, &self.key)
    }

    fn take(alloc: Global, input: &mut Input<'_>) -> Result<Option<OrderedKey>, AllocError> {
        match Key::take(alloc, input)? {
            Some(key) => Ok(Some(OrderedKey { key })),
            None => Ok(None),
        }
    }

    ghost is_format = { key_is_format };
}
