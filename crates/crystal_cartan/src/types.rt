//! Cartan types and the arrows of their crystals.
ghost use Rattle.std.specs.Prelude.{◌≡◌, ℕ, ◌≤◌, ◌<◌, IsTrue, ◌↔◌, IfOk, OnErr};
ghost use Rattle.crystal_cartan.specs.Types.{CartanType, least_rank, IsCartan, coordinates, HasIndex};

use std::marker::Model;

/// The four classical families.
#[derive(Clone, Copy, Debug, PartialEq, Eq)]
pub enum Kind {
    A,
    B,
    C,
    D,
}

/// A rank that a kind does not have: A has 1 to 8, B and C have 2 to 8, D has 3 to 8.
#[derive(Clone, Copy, Debug, PartialEq, Eq)]
pub struct RankRange;

/// A classical Cartan type, as B_3.
#[derive(Clone, Copy, Debug, PartialEq, Eq)]
pub struct Cartan {
    kind: Kind,
    rank: u8,
}

impl Model for Cartan {
    ghost Value = { CartanType };

    ghost view = { λ c. record { kind = c.kind; rank = c.rank } };

    ghost invariant = { λ c. IsCartan (record { kind = c.kind; rank = c.rank }) };

    ghost inverse = { λ t. record { kind = t.kind; rank = t.rank } };
}

/// An operator of a crystal: f_i where `down` is true, e_i where it is false.
#[derive(Clone, Copy, Debug, PartialEq, Eq)]
pub struct Arrow {
    pub down: bool,
    pub index: u8,
}

impl Cartan {
    /// The type of this kind and rank, or `RankRange`.
    pub fn new(kind: Kind, rank: u8) -> Result<Cartan, RankRange>
        ensures made { IfOk result (λ c. (c ≡ record { kind = kind; rank = rank }) × IsCartan c) }
        ensures refused { OnErr result (IsCartan (record { kind = kind; rank = rank }) → ⊥) }
    {
        let least = match kind {
            Kind::A => 1,
            Kind::B | Kind::C => 2,
            Kind::D => 3,
        };
        if rank < least || rank > 8 {
            return Err(RankRange);
        }
        Ok(Cartan { kind, rank })
    }

    pub fn kind(&self) -> Kind
        ensures { result ≡ self.now.kind }
    {
        self.kind
    }

    /// The number of simple roots.
    pub fn rank(&self) -> u8
        ensures rank { result ≡ self.now.rank }
        ensures classical { IsCartan self.now }
    {
        self.rank
    }

    /// The number of coordinates of a weight.
    pub fn size(&self) -> u8
        ensures size { result ≡ coordinates self.now }
        ensures classical { IsCartan self.now }
    {
        match self.kind {
            Kind::A => self.rank + 1,
            _ => self.rank,
        }
    }

    /// Whether i is the index of a simple root: 1 to the rank.
    pub fn has_index(&self, i: u8) -> bool
        ensures { IsTrue result ↔ HasIndex self.now i }
    {
        1 <= i && i <= self.rank
    }
}
