//! What the map file asks.

ghost use Rattle.std.specs.Prelude.{◌≡◌, ◌≢◌, ◌≤◌, All, IfErr, IfOk, IsSome, OnOk, length, map};
ghost use Rattle.demand.specs.Orders.{max_pairs};
ghost use Rattle.iri_resolve.specs.Reference.{scheme_of};
ghost use Rattle.rdf_lex.specs.Prefixes.{base_of};
ghost use Rattle.graph_index.specs.Contents.{IsSealedWith};
ghost use Rattle.graph_index.specs.Laws.{IsOfTable};
ghost use Rattle.shape_map.specs.Maps.{IsMap};
ghost use Rattle.term_tokens.specs.Scopes.{scope_of};
ghost use Rattle.shape_map.specs.Selection.{Resolves, UnlessMemory, refused, selected};
ghost use Rattle.demand.specs.Demand.{AreAsked, AreTooMany};
ghost use Rattle.demand.specs.declared.error.DemandError.TheVariants as DemandErrors;
ghost use Rattle.schema_tree.specs.Loaded.{IsLoaded};
ghost use Rattle.proof_file.specs.declared.head.Digests.{Digests};
ghost use Rattle.schema_tree.specs.Needs.{HoldNeeds};
ghost use Rattle.shex_inputs.specs.Asked.{EndsAs, HoldsMap, IsAskedOf, root_of};
ghost use Rattle.shex_inputs.specs.Held.{IsTaken, held_by};
ghost use Rattle.shex_inputs.specs.Named.{inputs_with};
ghost use Rattle.shex_inputs.specs.Outcomes.{Explains, FaultsAs};
ghost use Rattle.shex_inputs.specs.Stops.{MapStops};

use crate::error::{InputError, Source, demand_error, map_error};
use crate::fetch::fetch;
use crate::holding::Holding;
use demand::{DemandError, Pairs, Root, close};
use input_names::Inputs;
use rdf_lex::Prefixes;
use shape_map::{Association, MapError, ShapeMap};
use shex_io::Files;
use std::alloc::{AllocError, Global};

/// The map of some bytes, whose nodes and whose targets have these names.
fn map_of(
    alloc: Global,
    source: &[u8],
    nodes: &Prefixes,
    labels: &Prefixes,
) -> Result<ShapeMap, MapError>
    requires nodes { IsSome (scheme_of (base_of nodes.now)) }
    requires labels { IsSome (scheme_of (base_of labels.now)) }
    ensures found { IfOk result (λ m. IsMap (scope_of nodes.now) (scope_of labels.now) source.now m) }
    ensures stops { IfErr result (MapStops (scope_of nodes.now) (scope_of labels.now) source.now) }
{
    shape_map::read(alloc, source, nodes, labels)
}

/// The associations of a map over a holding, whose table takes up the nodes of the map and whose graph is sealed with it.
fn associations_of(
    alloc: Global,
    map: &ShapeMap,
    holding: &mut Holding,
) -> Result<Vec<Association>, MapError>
    requires { All (IsOfTable holding.old.terms) holding.old.graph.triples }
    ensures ends { IfOk result (λ v. Resolves holding.old.schema holding.old.graph.triples holding.old.terms map.now (selected v.items holding.new.terms)) }
    ensures stops { IfErr result (λ e. UnlessMemory e (Resolves holding.old.schema holding.old.graph.triples holding.old.terms map.now (refused e))) }
    ensures schema { holding.new.schema ≡ holding.old.schema }
    ensures strata { holding.new.strata ≡ holding.old.strata }
    ensures graph { holding.new.graph.triples ≡ holding.old.graph.triples }
    ensures sealed { OnOk result (IsSealedWith holding.new.terms holding.new.graph) }
    ensures of_new_table { All (IsOfTable holding.new.terms) holding.new.graph.triples }
{
    map.resolve(
        alloc,
        &holding.schema,
        &mut holding.graph,
        &mut holding.terms,
    )
}

/// A map with the associations that it selects.
#[derive(Drop)]
struct Resolved {
    map: ShapeMap,
    associations: Vec<Association>,
}

/// The map in the file of this name with its associations, where the other files hold the schema and the graph. The nodes that are
/// written in it go into the table in the order of their texts, and the graph is sealed with that table. Both bases have a scheme.
fn read_associations<F: Files>(
    alloc: Global,
    files: &mut F,
    inputs: &Inputs<'_>,
    name: &str,
    holding: &mut Holding,
) -> Result<Resolved, InputError>
    requires taken { (digests : Digests) × IsTaken (F.told files.old) (inputs_with inputs.now name.now) (held_by holding.old digests) }
    requires of_table { All (IsOfTable holding.old.terms) holding.old.graph.triples }
    requires scheme { IsSome (scheme_of (base_of holding.old.names)) }
    requires labels { IsSome (scheme_of (base_of holding.old.labels)) }
    ensures map { (digests : Digests) → IfOk result (λ v. HoldsMap (F.told files.old) (inputs_with inputs.now name.now) (held_by holding.old digests) v.map) }
    ensures ends { (digests : Digests) → IfOk result (λ v. EndsAs (held_by holding.old digests) v.map (selected v.associations.items holding.new.terms)) }
    ensures schema { holding.new.schema ≡ holding.old.schema }
    ensures strata { holding.new.strata ≡ holding.old.strata }
    ensures graph { holding.new.graph.triples ≡ holding.old.graph.triples }
    ensures sealed { OnOk result (IsSealedWith holding.new.terms holding.new.graph) }
    ensures of_new_table { All (IsOfTable holding.new.terms) holding.new.graph.triples }
    ensures cause { IfErr result (Explains (F.told files.old) (inputs_with inputs.now name.now)) }
    ensures faults { IfErr result (FaultsAs (inputs_with inputs.now name.now) (F.faults files.old) (F.faults files.new) (F.blame files.new) (F.act files.new)) }
    ensures faults_stay { OnOk result (F.faults files.new ≡ F.faults files.old) }
    ensures told_stays { F.told files.new ≡ F.told files.old }
{
    let bytes = fetch(alloc, files, name, Source::Map)?;
    let map = match map_of(alloc, bytes.as_slice(), &holding.names, &holding.labels) {
        Ok(map) => map,
        Err(error) => return Err(map_error(error)),
    };
    match associations_of(alloc, &map, holding) {
        Ok(associations) => Ok(Resolved { map, associations }),
        Err(error) => Err(map_error(error)),
    }
}

/// What asks for the pairs of associations.
fn roots_of(alloc: Global, associations: &[Association]) -> Result<Vec<Root>, AllocError>
    ensures { IfOk result (λ v. v.items ≡ map root_of associations.now) }
{
    associations
        .iter()
        .map(|a| Root {
            node: a.node,
            expr: a.expr,
        })
        .collect(alloc)
}

/// The pairs for which associations ask.
fn pairs_of(
    alloc: Global,
    holding: &Holding,
    associations: &[Association],
) -> Result<Pairs, DemandError>
    requires loaded { IsLoaded holding.now.schema }
    requires sealed { IsSealedWith holding.now.terms holding.now.graph }
    ensures asked { IfOk result (AreAsked holding.now.schema holding.now.terms holding.now.graph.triples (map root_of associations.now)) }
    ensures closed { IfOk result (HoldNeeds holding.now.schema holding.now.graph.triples) }
    ensures few { IfOk result (λ p. length p ≤ max_pairs) }
    ensures many { IfErr result (λ e. e ≢ DemandErrors.Memory → AreTooMany holding.now.schema holding.now.graph.triples (map root_of associations.now)) }
{
    let roots = roots_of(alloc, associations)?;
    let pairs = close(
        alloc,
        &holding.schema,
        &holding.graph,
        &holding.terms,
        roots.as_slice(),
    )?;
    // The list tells contracts that it is within the limit.
    let _list = pairs.list();
    Ok(pairs)
}

/// What a map asks: its associations, and the pairs of a node and a Shape on which their answers depend.
#[derive(Drop)]
pub struct Asked {
    /// The map.
    pub map: ShapeMap,
    /// The associations, in the order of the map.
    pub associations: Vec<Association>,
    /// The pairs that they reach, in order.
    pub pairs: Pairs,
}

/// What the map in the file of this name asks, where the other files hold the schema and the graph. The nodes that are written in
/// it go into the table in the order of their texts, and the graph is sealed with that table. Both bases have a scheme.
pub fn read_map<F: Files>(
    alloc: Global,
    files: &mut F,
    inputs: &Inputs<'_>,
    name: &str,
    holding: &mut Holding,
) -> Result<Asked, InputError>
    requires taken { (digests : Digests) × IsTaken (F.told files.old) (inputs_with inputs.now name.now) (held_by holding.old digests) }
    requires loaded { IsLoaded holding.old.schema }
    requires of_table { All (IsOfTable holding.old.terms) holding.old.graph.triples }
    requires scheme { IsSome (scheme_of (base_of holding.old.names)) }
    requires labels { IsSome (scheme_of (base_of holding.old.labels)) }
    ensures asked { (digests : Digests) → IsTaken (F.told files.old) (inputs_with inputs.now name.now) (held_by holding.old digests) →
        IfOk result (λ v. IsAskedOf (F.told files.old) (inputs_with inputs.now name.now)
        (record { held = held_by holding.old digests; terms = holding.new.terms; associations = v.associations.items; pairs = v.pairs })) }
    ensures map { (digests : Digests) → IsTaken (F.told files.old) (inputs_with inputs.now name.now) (held_by holding.old digests) →
        IfOk result (λ v. HoldsMap (F.told files.old) (inputs_with inputs.now name.now) (held_by holding.old digests) v.map) }
    ensures ends { (digests : Digests) → IsTaken (F.told files.old) (inputs_with inputs.now name.now) (held_by holding.old digests) →
        IfOk result (λ v. EndsAs (held_by holding.old digests) v.map (selected v.associations.items holding.new.terms)) }
    ensures closed { IfOk result (λ v. HoldNeeds holding.new.schema holding.new.graph.triples v.pairs) }
    ensures schema { holding.new.schema ≡ holding.old.schema }
    ensures strata { holding.new.strata ≡ holding.old.strata }
    ensures graph { holding.new.graph.triples ≡ holding.old.graph.triples }
    ensures sealed { OnOk result (IsSealedWith holding.new.terms holding.new.graph) }
    ensures of_new_table { All (IsOfTable holding.new.terms) holding.new.graph.triples }
    ensures cause { IfErr result (Explains (F.told files.old) (inputs_with inputs.now name.now)) }
    ensures faults { IfErr result (FaultsAs (inputs_with inputs.now name.now) (F.faults files.old) (F.faults files.new) (F.blame files.new) (F.act files.new)) }
    ensures faults_stay { OnOk result (F.faults files.new ≡ F.faults files.old) }
    ensures told_stays { F.told files.new ≡ F.told files.old }
{
    let resolved = read_associations(alloc, files, inputs, name, holding)?;
    match pairs_of(alloc, holding, resolved.associations.as_slice()) {
        Ok(pairs) => Ok(Asked {
            map: resolved.map,
            associations: resolved.associations,
            pairs,
        }),
        Err(error) => Err(demand_error(error)),
    }
}
