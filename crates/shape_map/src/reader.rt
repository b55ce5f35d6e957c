//! The reader of a whole text.

ghost use Rattle.std.specs.Prelude.{◌≡◌, List, IfOk, IfErr, IsSome};
ghost use Rattle.std.specs.Str.{IsUtf8};
ghost use Rattle.iri_resolve.specs.Reference.{scheme_of};
ghost use Rattle.rdf_lex.specs.Prefixes.{base_of};
ghost use Rattle.shape_map.specs.declared.items.Item.{Item};
ghost use Rattle.shape_map.specs.Gives.{IsMapStop, error_of};
ghost use Rattle.shape_map.specs.Maps.{IsMap, ReadsAs, Explains};
ghost use Rattle.term_tokens.specs.Scopes.{scope_of};

use crate::error::MapError;
use crate::grammar::shape_map;
use crate::items::ShapeMap;
use rdf_cursor::{Cursor, Fault, Stop};
use rdf_lex::{Mode, Prefixes};
use std::alloc::Global;
use term_tokens::Names;

/// The answer for a stop at a place.
fn error(stop: Stop, at: u64) -> MapError
    requires { IsMapStop stop }
    ensures { result ≡ error_of stop at }
{
    match stop {
        Stop::Memory => MapError::Memory,
        Stop::Fault(Fault::Prefix) => MapError::Prefix(at),
        Stop::Fault(Fault::Syntax) => MapError::Syntax(at),
        Stop::Fault(Fault::Deep | Fault::Long | Fault::Full) => unreachable!(),
    }
}

/// Reads a text.
fn read_text(
    alloc: Global,
    text: &str,
    nodes: &Prefixes,
    labels: &Prefixes,
) -> Result<ShapeMap, MapError>
    requires nodes { IsSome (scheme_of (base_of nodes.now)) }
    requires labels { IsSome (scheme_of (base_of labels.now)) }
    ensures found { IfOk result (λ m. IsMap (scope_of nodes.now) (scope_of labels.now) text.now m) }
    ensures complete { (items : List Item) → IsMap (scope_of nodes.now) (scope_of labels.now) text.now items → ReadsAs result items }
    ensures refused { IfErr result (λ e. Explains (scope_of nodes.now) (scope_of labels.now) e text.now) }
{
    let nodes = Names {
        alloc,
        prefixes: nodes,
    };
    let labels = Names {
        alloc,
        prefixes: labels,
    };
    let mut c = Cursor::new(text, Mode::Map);
    match shape_map(&mut c, alloc, &nodes, &labels) {
        Ok(items) => Ok(ShapeMap::of(items)),
        Err(stop) => Err(error(stop, c.place())),
    }
}

/// Reads a shape map (ShapeMap Structure and Language, section 3). The nodes and the predicates in it have the prefixes and
/// the base `nodes`, its targets those of `labels`; both bases have a scheme. A blank node is named by its printed name.
///
/// It fails as `NotUtf8` exactly where the bytes are not UTF-8, as `Syntax` only where no shape map goes on as the bytes do
/// from that place on, as `Prefix` only where besides a name with an undeclared prefix stands there, and as `Memory`.
pub fn read(
    alloc: Global,
    source: &[u8],
    nodes: &Prefixes,
    labels: &Prefixes,
) -> Result<ShapeMap, MapError>
    requires nodes { IsSome (scheme_of (base_of nodes.now)) }
    requires labels { IsSome (scheme_of (base_of labels.now)) }

    // What was read is what the whole bytes are.
    ensures found { IfOk result (λ m. IsMap (scope_of nodes.now) (scope_of labels.now) source.now m) }

    // What the bytes are is read.
    ensures complete { (items : List Item) → IsMap (scope_of nodes.now) (scope_of labels.now) source.now items → ReadsAs result items }

    // What is refused has its cause in the bytes.
    ensures refused { IfErr result (λ e. Explains (scope_of nodes.now) (scope_of labels.now) e source.now) }
    ensures not_utf8 { ¬ IsUtf8 source.now → result ≡ Err MapError.NotUtf8 }
{
    match std::str::from_utf8(source) {
        Ok(text) => read_text(alloc, text, nodes, labels),
        Err(_) => Err(MapError::NotUtf8),
    }
}
