//! What `explain` shows of the Shapes that a schema is refused for.

ghost use Rattle.std.specs.Prelude.{◌≡◌, ◌++◌, ◌<◌, IfErr, IfOk, IfSome, List, None, OnOk, length, map, ℕ};
ghost use Rattle.explanation_texts.specs.Names.{shape_name};
ghost use Rattle.explanation_texts.specs.Naming.{AreNames};
ghost use Rattle.schema_documents.specs.Tree.{document_of};
ghost use Rattle.schema_load.specs.Parts.{AreOrdered};
ghost use Rattle.schema_load.specs.Reading.{parts_of};
ghost use Rattle.shex_inputs.specs.Named.{asked_of};
ghost use Rattle.shex_tools.specs.Calls.{inputs_of};
ghost use Rattle.shex_tools.specs.Cycles.{AreNamesOf, AreRead, ShowsCycle, line_if_named, name_line, shape_line, shape_lines};
ghost use Rattle.shex_tools.specs.Stopping.{IsFit, LeavesUnshown};
ghost use Rattle.tool_words.specs.Asked.{of_reasons};
ghost use Rattle.tool_words.specs.Lent.{explaining_of};

use crate::stop::Unshown;
use explanation_texts::names::{Names, names_of};
use rdf_terms::table::TermTable;
use schema_documents::Doc;
use schema_files::{Documents, FilesError, read_documents};
use schema_load::error::LoadError;
use schema_load::load::load;
use schema_tree::schema::{Schema, ShapeId};
use shex_inputs::Source;
use shex_io::Files;
use std::alloc::{AllocError, Global};
use tool_words::Explaining;

/// The documents alone.
fn docs_of(documents: Documents) -> Vec<Doc>
    ensures { result.items ≡ documents.docs.items }
{
    let Documents {
        docs,
        names,
        digests,
    } = documents;
    drop(names);
    drop(digests);
    docs
}

/// The documents of the schema, which are read once more, and `None` where one is refused by now.
fn read_again<F: Files>(
    alloc: Global,
    files: &mut F,
    explaining: &Explaining<'_>,
) -> Result<Option<Vec<Doc>>, Unshown>
    requires { IsFit (of_reasons (explaining_of explaining.now)) }
    ensures read { IfOk result (λ found. IfSome found (λ docs. AreRead (F.told files.old) (asked_of (inputs_of (of_reasons (explaining_of explaining.now)))) (map document_of docs.items))) }
    ensures root { IfOk result (λ found. IfSome found (λ docs. 0 < length docs.items)) }
    ensures ordered { IfOk result (λ found. IfSome found (λ docs. AreOrdered (parts_of (map document_of docs.items)))) }
    ensures unshown { IfErr result (LeavesUnshown (F.told files.old) (of_reasons (explaining_of explaining.now))
        (F.faults files.old) (F.faults files.new) (F.blame files.new) (F.act files.new)) }
    ensures faults_stay { OnOk result (F.faults files.new ≡ F.faults files.old) }
    ensures told_stays { F.told files.new ≡ F.told files.old }
{
    let inputs = &explaining.inputs;
    let words = inputs.imports.as_slice();
    match read_documents(alloc, files, inputs.schema, inputs.schema_base, words) {
        Ok(documents) => Ok(Some(docs_of(documents))),
        Err(FilesError::Refused(_)) => Ok(None),
        Err(FilesError::Failed(file)) => Err(Unshown::Failed(Source::Schema(file))),
        Err(FilesError::Memory) => Err(Unshown::Memory),
    }
}

/// The names of the expressions and Shapes of a schema.
fn names_by(alloc: Global, schema: &Schema, terms: &TermTable) -> Result<Option<Names>, AllocError>
    ensures { IfOk result (λ found. IfSome found (AreNames schema.now terms.now)) }
{
    Ok(Some(names_of(alloc, schema, terms)?))
}

/// No names, unless memory ran out.
fn no_names(error: LoadError) -> Result<Option<Names>, AllocError>
    ensures { IfOk result (λ found. found ≡ None) }
{
    let wanting = matches!(error, LoadError::Memory);
    drop(error);
    if wanting { Err(AllocError) } else { Ok(None) }
}

/// The names of the expressions and Shapes of the schema for which documents stand, one at least, and `None` where they stand for none.
fn names_in(alloc: Global, docs: Vec<Doc>) -> Result<Option<Names>, AllocError>
    requires root { 0 < length docs.items }
    requires ordered { AreOrdered (parts_of (map document_of docs.items)) }
    ensures { IfOk result (λ found. IfSome found (AreNamesOf (map document_of docs.items))) }
{
    let mut terms = TermTable::new(alloc);
    match load(alloc, docs, &mut terms) {
        Ok(schema) => {
            let names = names_by(alloc, &schema, &terms);
            drop(schema);
            names
        }
        Err(error) => no_names(error),
    }
}

/// The name of a Shape, which is empty where it has none.
fn shape_name(names: &Names, shape: ShapeId) -> &[u8]
    ensures { result.now ≡ shape_name names.now shape }
{
    match names.shapes.as_slice().get(shape.0 as usize) {
        Some(name) => name.as_slice(),
        None => &[],
    }
}

/// Appends the line `#N is NAME` for a Shape of this name.
fn push_name_line(
    alloc: Global,
    shape: ShapeId,
    name: &[u8],
    out: &mut Vec<u8>,
) -> Result<(), AllocError>
    ensures { OnOk result (out.new.items ≡ out.old.items ++ name_line shape name.now) }
{
    let number = format!(in alloc; "#{} is ", shape.0)?;
    out.extend_from_slice(number.as_bytes())?;
    out.extend_from_slice(name)?;
    out.extend_from_slice(b"\n")
}

/// Appends the line for a Shape of this name, and nothing where it is empty.
fn push_named(
    alloc: Global,
    shape: ShapeId,
    name: &[u8],
    out: &mut Vec<u8>,
) -> Result<(), AllocError>
    ensures { OnOk result (out.new.items ≡ out.old.items ++ line_if_named shape name.now) }
{
    if name.len() == 0 {
        return Ok(());
    }
    push_name_line(alloc, shape, name, out)
}

/// Appends the line for a Shape, if it has a name.
fn push_shape(
    alloc: Global,
    names: &Names,
    shape: ShapeId,
    out: &mut Vec<u8>,
) -> Result<(), AllocError>
    ensures { OnOk result (out.new.items ≡ out.old.items ++ shape_line names.now shape) }
{
    push_named(alloc, shape, shape_name(names, shape), out)
}

/// Appends the lines for Shapes.
fn push_shapes(
    alloc: Global,
    names: &Names,
    shapes: &[ShapeId],
    out: &mut Vec<u8>,
) -> Result<(), AllocError>
    ensures { OnOk result (out.new.items ≡ out.old.items ++ shape_lines names.now shapes.now) }
{
    for shape in shapes {
        push_shape(alloc, names, *shape, out)?;
    }
    Ok(())
}

/// Appends the lines for the Shapes of a cycle (ShEx 2.1, section 5.7.4), by the names that they have in the schema, whose files are
/// fetched once more; none where a file is refused by now.
pub fn push_cycle<F: Files>(
    alloc: Global,
    files: &mut F,
    explaining: &Explaining<'_>,
    cycle: &[ShapeId],
    out: &mut Vec<u8>,
) -> Result<(), Unshown>
    requires { IsFit (of_reasons (explaining_of explaining.now)) }
    ensures shown { OnOk result ((shown : List ℕ)
        × ShowsCycle (F.told files.old) (asked_of (inputs_of (of_reasons (explaining_of explaining.now)))) cycle.now shown
        × (out.new.items ≡ out.old.items ++ shown)) }
    ensures unshown { IfErr result (LeavesUnshown (F.told files.old) (of_reasons (explaining_of explaining.now))
        (F.faults files.old) (F.faults files.new) (F.blame files.new) (F.act files.new)) }
    ensures faults_stay { OnOk result (F.faults files.new ≡ F.faults files.old) }
    ensures told_stays { F.told files.new ≡ F.told files.old }
{
    let Some(docs) = read_again(alloc, files, explaining)? else {
        return Ok(());
    };
    let Some(names) = names_in(alloc, docs)? else {
        return Ok(());
    };
    push_shapes(alloc, &names, cycle, out)?;
    Ok(())
}
