//! The rule of the table.
use crate::dues::WideDues;
use atomic_table::TableRule;
use graph_history::Event;
use shared_seats::View;
use wide_words::WideWorld;

/// What a seat of a wide graph knows.
pub type WideView = View<WideWorld, Event, WideDues>;

/// The rule that holds between any two steps: specs/Rule.antt says it.
pub struct Running;

impl TableRule<(), WideView, WideWorld> for Running {
    ghost use Rattle.wide_rule.specs.Rule.{IsRunning};
    ghost use Rattle.wide_rule.specs.Parting.{first_view};

    ghost holds = { λ world state. IsRunning world state.words state.views };

    ghost first = { first_view };
}
