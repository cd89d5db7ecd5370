//! Statistics that keep the items which they are fed, and report them by a rule.
ghost use Rattle.std.specs.Prelude.{◌≡◌, ℕ, List, [], All};
ghost use Rattle.crystal_characters.specs.declared.items.Item.{Item as Fed};
ghost use Rattle.crystal_characters.specs.Items.{IsFit};
ghost use Rattle.crystal_characters.specs.Reports.{Appends};

use crate::items::Item;
use crate::statistics::Statistic;
use crystal_streams::NoMemory;
use std::alloc::Global;
use std::marker::{Model, PhantomData};

/// A statistic's name, and the rule that gives for each list of items the text that is reported of it.
pub trait Rule {
    ghost named: { List ℕ };

    ghost reported: { List Fed → List ℕ };

    /// The name of the statistic.
    fn name() -> &'static str
        ensures { result.now ≡ named };

    /// Appends the report of these items, with memory for what it counts from `alloc`. After `NoMemory` a part of it from its front was appended.
    fn report(alloc: Global, items: &[Item], out: &mut Vec<u8>) -> Result<(), NoMemory>
        requires { All IsFit items.now }
        ensures { Appends (reported items.now) out.old.items out.new.items result };
}

/// A statistic that keeps the items which it is fed, and reports them by this rule.
#[derive(Debug, Drop)]
pub struct Tally<R: Rule> {
    items: Vec<Item>,
    rule: PhantomData<R>,
}

impl<R: Rule> Model for Tally<R> {
    ghost use Rattle.std.specs.Prelude.{List, All};
    ghost use Rattle.crystal_characters.specs.declared.items.Item.{Item};
    ghost use Rattle.crystal_characters.specs.Items.{IsFit};

    ghost Value = { List Item };

    ghost view = { λ t. t.items.items };

    ghost invariant = { λ t. All IsFit t.items.items };
}

impl<R: Rule> Tally<R> {
    /// A tally of no item. It takes no memory.
    pub fn new(alloc: Global) -> Tally<R>
        ensures { result ≡ [] }
    {
        Tally {
            items: Vec::new(alloc),
            rule: PhantomData,
        }
    }
}

impl<R: Rule> Statistic for Tally<R> {
    ghost named = { λ t. R.named };

    ghost fed = { λ t. t };

    ghost reported = { λ t items. R.reported items };

    fn name(&self) -> &str {
        R::name()
    }

    fn take(&mut self, item: &Item) -> Result<(), NoMemory> {
        self.items.push(*item)?;
        Ok(())
    }

    fn report(&self, out: &mut Vec<u8>) -> Result<(), NoMemory> {
        R::report(*self.items.allocator(), self.items.as_slice(), out)
    }
}
