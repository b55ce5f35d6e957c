//! The three texts of a drill.

ghost use Rattle.std.specs.Prelude.{◌≡◌, ◌++◌, ◌≤◌, ◌<◌, IfOk, OnOk, string_bytes};
ghost use Rattle.std.specs.List.{flat_map, range_with_len};
ghost use Rattle.shex_drill.specs.Texts.{graph_text, line_of, map_text, next_of, schema_text, tag_of};

use std::alloc::{AllocError, Global};

/// How many items stand in a block, each of which leads to the next.
const BLOCK: u32 = 10;

/// The schema: an item leads to items alone, and has one tag, of 1, 2 or 3.
const SCHEMA: &str = "PREFIX : <http://d.example/>\n:Item { :next @:Item* ; :tag [1 2 3] }\n";

/// The line before those of the items.
const PREFIX: &str = "@prefix : <http://d.example/> .\n";

/// The shape map: whatever has a tag is to be an item.
const MAP: &str = "{FOCUS :tag _}@:Item\n";

/// The inputs of a drill.
#[derive(Debug, Drop)]
pub struct Drill {
    /// The schema, in ShExC.
    pub schema: String,
    /// The data, in Turtle.
    pub graph: String,
    /// The shape map.
    pub map: String,
}

/// The inputs of a drill with `n` items.
pub fn make(alloc: Global, n: u32) -> Result<Drill, AllocError>
    requires { (1 ≤ n) × (n ≤ 100000) }
    ensures schema { IfOk result (λ d. string_bytes d.schema ≡ schema_text) }
    ensures graph { IfOk result (λ d. string_bytes d.graph ≡ graph_text n) }
    ensures map { IfOk result (λ d. string_bytes d.map ≡ map_text) }
{
    let mut graph = String::from_str(alloc, PREFIX)?;
    push_lines(alloc, n, &mut graph)?;
    Ok(Drill {
        schema: String::from_str(alloc, SCHEMA)?,
        graph,
        map: String::from_str(alloc, MAP)?,
    })
}

/// Appends the line of each item.
fn push_lines(alloc: Global, items: u32, out: &mut String) -> Result<(), AllocError>
    ensures { OnOk result (string_bytes out.new ≡ string_bytes out.old ++ flat_map (line_of items) (range_with_len 0 items)) }
{
    for item in 0..items {
        push_line(alloc, items, item, out)?;
    }
    Ok(())
}

/// Appends the line of an item.
fn push_line(alloc: Global, items: u32, item: u32, out: &mut String) -> Result<(), AllocError>
    requires { item < items }
    ensures { OnOk result (string_bytes out.new ≡ string_bytes out.old ++ line_of items item) }
{
    let next = next_item(items, item);
    let tag = tag(item);
    let line = format!(in alloc; ":i{item} :next :i{next} ; :tag {tag} .\n")?;
    out.push_str(line.as_str())
}

/// The item that an item leads to: the one behind it in its block, and from the last the first one.
fn next_item(items: u32, item: u32) -> u32
    requires { item < items }
    ensures { result ≡ next_of items item }
{
    let behind = item + 1;
    if behind < items && behind / BLOCK == item / BLOCK {
        behind
    } else {
        item / BLOCK * BLOCK
    }
}

/// The tag of an item: 1, 2 or 3, but 4 at the first item of a block whose number is divisible by 3.
fn tag(item: u32) -> u32
    ensures { result ≡ tag_of item }
{
    let block = item / BLOCK;
    if item == block * BLOCK && block % 3 == 0 {
        4
    } else {
        1 + item % 3
    }
}
