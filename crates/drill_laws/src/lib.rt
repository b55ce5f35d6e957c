//! Laws by which each drill is answered, for callers' proofs: the contract of each function is the law, and it does nothing when
//! called.
#![tactic(auto)]

ghost use Rattle.drill_laws.specs.Laws.{DrillIsDecided, DrillIsTaken};

/// None of the texts of a drill is refused.
pub fn drill_is_taken()
    ensures { DrillIsTaken }
{
    shex_inputs::inputs_are_one();
    shape_map::laws::maps_are_one();
    shex_drill::schema_is_document();
    shex_drill::graph_is_document();
    shex_drill::map_is_of_item();
}

/// Each association of a drill has an answer under the budget that is taken where none is given.
pub fn drill_is_decided()
    ensures { DrillIsDecided }
{
    shex_inputs::inputs_are_one();
    shape_map::laws::maps_are_one();
    shex_drill::schema_is_document();
    shex_drill::graph_is_document();
    shex_drill::map_is_of_item();
    schema_tree::laws::width_is_one();
}
