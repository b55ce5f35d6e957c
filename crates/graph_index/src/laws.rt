//! Laws of sealed graphs and of loading, for callers' proofs: each function's contract is a law, and its body is empty.

ghost use Rattle.graph_index.specs.Laws.{LoadedEndsHaveLines, LoadingBringsLines, LoadingHolds, LoadingIsOne, LoadingKeeps, OrderIsByTexts, SealingOutlivesGrowth};

/// A graph stays sealed with a table that takes more terms.
pub fn sealing_outlives_growth()
    ensures { SealingOutlivesGrowth }
{}

/// The order of terms is that of their texts, which differ for distinct terms (`rdf_terms::laws::texts_are_distinct`).
pub fn order_is_by_texts()
    ensures { OrderIsByTexts }
{}

/// Triples lead a table and a graph to one table and one graph.
pub fn loading_is_one()
    ensures { LoadingIsOne }
{}

/// What was in the table and in the graph keeps its place.
pub fn loading_keeps()
    ensures { LoadingKeeps }
{}

/// The graph then holds what it held and the triples, and nothing else.
pub fn loading_holds()
    ensures { LoadingHolds }
{}

/// Where each term of a table can stand on one line, each can when triples of such terms are loaded.
pub fn loading_brings_lines()
    ensures { LoadingBringsLines }
{}

/// Where triples of terms that can stand on one line are loaded into any table and a graph without triples, so can the
/// subject and the object of each triple of the graph.
pub fn loaded_ends_have_lines()
    ensures { LoadedEndsHaveLines }
{}
