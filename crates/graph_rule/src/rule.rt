//! The rule of the table.
use atomic_table::TableRule;
use graph_history::View;
use tensor_words::World;

/// The rule that holds between any two steps: specs/Rule.antt says it.
pub struct Running;

impl TableRule<(), View, World> for Running {
    ghost use Rattle.graph_rule.specs.Rule.{IsRunning};
    ghost use Rattle.graph_rule.specs.Parting.{first_view};

    ghost holds = { λ world state. IsRunning world state.words state.views };

    ghost first = { first_view };
}
