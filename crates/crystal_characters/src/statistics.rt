//! What a statistic is.
ghost use Rattle.std.specs.Prelude.{◌≡◌, ℕ, List, [], ◌∷◌, ◌++◌, is_ok, if◌then◌else◌};
ghost use Rattle.crystal_characters.specs.declared.items.Item.{Item as Fed};
ghost use Rattle.crystal_characters.specs.Items.{IsFit};
ghost use Rattle.crystal_characters.specs.Reports.{Appends};

use crate::items::Item;
use crystal_streams::NoMemory;

/// A statistic of a graph. It has a name, the list of the items that it was fed, and a rule that gives for each list
/// of items the text that is reported of it. No call changes the name or the rule.
pub trait Statistic: Drop {
    ghost named: { Self → List ℕ };

    ghost fed: { Self → List Fed };

    ghost reported: { Self → List Fed → List ℕ };

    /// The name, under which the statistic is chosen.
    fn name(&self) -> &str
        ensures { result.now ≡ named self.now };

    /// Feeds one item. After `NoMemory` the statistic is as before.
    fn take(&mut self, item: &Item) -> Result<(), NoMemory>
        requires { IsFit item.now }
        ensures fed { fed self.new ≡ (if is_ok result then fed self.old ++ item.now ∷ [] else fed self.old) }
        ensures named { named self.new ≡ named self.old }
        ensures reported { (items : List Fed) → reported self.new items ≡ reported self.old items };

    /// Appends the report of the items fed. After `NoMemory` a part of it from its front was appended.
    fn report(&self, out: &mut Vec<u8>) -> Result<(), NoMemory>
        ensures { Appends (reported self.now (fed self.now)) out.old.items out.new.items result };
}
