ghost use Rattle.std.specs.Prelude.{◌≡◌};
ghost use Rattle.std.specs.List.{list_any};
ghost use Rattle.node_config.specs.Addresses.{are_distinct, same_address};

use outside::Address;
use std::marker::Model;

/// Addresses in their order. Contracts see the list.
#[derive(Debug, Drop)]
pub struct Addresses {
    items: Vec<Address>,
}

impl Model for Addresses {
    ghost use Rattle.std.specs.Prelude.{List};
    ghost use Rattle.outside.specs.declared.device.Address.{Address};

    ghost Value = { List Address };

    ghost view = { λ a. a.items.items };
}

impl Addresses {
    /// The addresses of a vector.
    pub fn new(items: Vec<Address>) -> Self
        ensures { result ≡ items.items }
    {
        Addresses { items }
    }

    /// The addresses as a slice.
    pub fn as_slice(&self) -> &[Address]
        ensures { result.now ≡ self.now }
    {
        &self.items
    }

    /// Gives them up for the vector that holds them.
    pub fn into_vec(self) -> Vec<Address>
        ensures { result.items ≡ self }
    {
        self.items
    }
}

// Whether two addresses are the same.
fn same_address(a: &Address, b: &Address) -> bool
    ensures { result ≡ same_address a.now b.now }
{
    a.ip == b.ip && a.port == b.port
}

// Whether an address is one of these.
fn is_among(address: &Address, others: &[Address]) -> bool
    ensures { result ≡ list_any (same_address address.now) others.now }
{
    others.iter().any(|other| same_address(address, other))
}

/// Whether no two of the addresses are equal.
pub fn are_distinct(addresses: &[Address]) -> bool
    ensures { result ≡ are_distinct addresses.now }
{
    let mut left = addresses;
    while let [first, rest @ ..] = left {
        if is_among(first, rest) {
            return false;
        }
        left = rest;
    }
    true
}
