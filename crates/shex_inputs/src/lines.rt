//! The names of files that are refused, and why, as programs print them.

ghost use Rattle.std.specs.Prelude.{[], ◌≡◌, ◌++◌, IfOk, OnOk, codes, string_bytes};
ghost use Rattle.std.specs.Fmt.{decimal};
ghost use Rattle.std.specs.List.{flat_map};
ghost use Rattle.schema_files.specs.Named.{name_of};
ghost use Rattle.shex_inputs.specs.Lines.{cycle_text, refusal_text};
ghost use Rattle.shex_inputs.specs.Named.{asked_of, inputs_with, source_name};

use crate::error::{Refusal, Source};
use input_names::Inputs;
use schema_files::{SchemaFile, file_name};
use schema_tree::schema::ShapeId;
use std::alloc::{AllocError, Global};

/// The name of a file of the schema among the inputs, and the empty text where no word names it.
fn schema_name<'a>(inputs: &Inputs<'a>, file: SchemaFile) -> &'a str
    ensures { result.now ≡ name_of (asked_of (inputs_with inputs.now [])) file }
{
    file_name(inputs.schema, inputs.imports.as_slice(), file)
}

/// The name of a file of the inputs, whose map has this name, and the empty text where no word names it.
pub fn input_name<'a>(inputs: &Inputs<'a>, map: &'a str, source: Source) -> &'a str
    ensures { result.now ≡ source_name (inputs_with inputs.now map.now) source }
{
    match source {
        Source::Schema(file) => schema_name(inputs, file),
        Source::Data => inputs.data,
        Source::Map => map,
    }
}

/// Appends a Shape by its number, with a comma before it.
fn push_shape(alloc: Global, shape: ShapeId, text: &mut String) -> Result<(), AllocError>
    ensures { OnOk result (string_bytes text.new ≡ string_bytes text.old ++ (codes ",#" ++ decimal shape.0)) }
{
    let part = format!(in alloc; ",#{}", shape.0)?;
    text.push_str(part.as_str())
}

/// Appends Shapes by their numbers, a comma before each.
fn push_shapes(alloc: Global, shapes: &[ShapeId], text: &mut String) -> Result<(), AllocError>
    ensures { OnOk result (string_bytes text.new ≡ string_bytes text.old ++ flat_map (λ i. codes ",#" ++ decimal i.0) shapes.now) }
{
    for shape in shapes {
        push_shape(alloc, *shape, text)?;
    }
    Ok(())
}

/// The Shapes of a cycle by their numbers, `#0,#3`.
fn cycle_text(alloc: Global, cycle: &[ShapeId]) -> Result<String, AllocError>
    ensures { IfOk result (λ s. string_bytes s ≡ cycle_text cycle.now) }
{
    match cycle {
        [] => Ok(String::new(alloc)),
        [first, rest @ ..] => {
            let mut text = format!(in alloc; "#{}", first.0)?;
            push_shapes(alloc, rest, &mut text)?;
            Ok(text)
        }
    }
}

/// Why a file is refused, as it is printed behind the name of the file.
pub fn refusal_text(alloc: Global, refusal: &Refusal) -> Result<String, AllocError>
    ensures { IfOk result (λ s. string_bytes s ≡ refusal_text refusal.now) }
{
    match refusal {
        Refusal::Size(_) => String::from_str(alloc, "Size"),
        Refusal::Schema(_, error) => format!(in alloc; "{error}"),
        Refusal::Import(_, iri) => format!(in alloc; "Import(<{}>)", iri.as_str()),
        Refusal::Load(error) => format!(in alloc; "{error}"),
        Refusal::NegatedCycle(cycle) => {
            let text = cycle_text(alloc, cycle.as_slice())?;
            format!(in alloc; "NegatedCycle({})", text.as_str())
        }
        Refusal::Data(error) => format!(in alloc; "{error}"),
        Refusal::Map(error) => format!(in alloc; "{error}"),
        Refusal::Pairs => String::from_str(alloc, "Pairs"),
    }
}
