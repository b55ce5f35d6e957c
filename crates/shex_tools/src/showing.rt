//! What `explain` shows where it refuses a file.

ghost use Rattle.std.specs.Prelude.{[], ◌≡◌, ◌++◌, IfErr, IfOk, List, OnOk, get_or, map, ℕ, true};
ghost use Rattle.std.specs.Option.{option_map};
ghost use Rattle.input_names.specs.Lent.{import_of};
ghost use Rattle.schema_files.specs.Named.{base_for};
ghost use Rattle.shex_inputs.specs.Named.{asked_of, inputs_with, source_name};
ghost use Rattle.shex_inputs.specs.Refusals.{IsRefused as IsInputRefused};
ghost use Rattle.shex_tools.specs.Calls.{inputs_of};
ghost use Rattle.shex_tools.specs.Outcomes.{IsRefused};
ghost use Rattle.shex_tools.specs.Showing.{IsCauseShown, IsFetched, IsLabelShown, IsRefusalText, IsShown, ShowsDocument, ShowsInput, ShowsLoad, ShowsPlace, ShowsRefused};
ghost use Rattle.shex_tools.specs.Showing.{data_place, label_in, label_place, map_place, schema_place, source_base, target_label};
ghost use Rattle.shex_tools.specs.Stopping.{IsFit, IsUnshown, LeavesUnshown};
ghost use Rattle.tool_words.specs.Asked.{of_reasons};
ghost use Rattle.tool_words.specs.Lent.{explaining_of, tool_call_of};

use crate::cycles::push_cycle;
use crate::report;
use crate::stop::{Refusal, Unshown};
use graph_index::read_error::ReadError;
use input_names::{Import, Inputs};
use refusal_places::push_place;
use schema_causes::{LabelPlace, push_cause, push_label};
use schema_documents::SchemaError;
use schema_files::SchemaFile;
use schema_load::error::LoadError;
use schema_tree::labels::Label;
use schema_tree::schema::Target;
use shape_map::MapError;
use shex_inputs::{Refusal as InputRefusal, Source, input_name};
use shex_io::{FetchError, Files, fetch};
use std::alloc::{AllocError, Global};
use tool_words::{Explaining, ToolCall};

/// A file of `explain`: its name, and the base of the document in it, if it is one of the schema.
#[derive(Clone, Copy)]
struct NamedFile<'a> {
    source: Source,
    name: &'a str,
    base: &'a str,
}

/// The place in a schema document that an error names.
fn schema_place(error: &SchemaError) -> Option<u64>
    ensures { result ≡ schema_place error.now }
{
    match error {
        SchemaError::Syntax(at) | SchemaError::Prefix(at) => Some(*at),
        _ => None,
    }
}

/// The place in data that an error names.
fn data_place(error: &ReadError) -> Option<u64>
    ensures { result ≡ data_place error.now }
{
    match error {
        ReadError::Syntax(at) | ReadError::Prefix(at) | ReadError::Long(at) => Some(*at),
        _ => None,
    }
}

/// The place in a map that an error names.
fn map_place(error: &MapError) -> Option<u64>
    ensures { result ≡ map_place error.now }
{
    match error {
        MapError::Syntax(at) | MapError::Prefix(at) => Some(*at),
        _ => None,
    }
}

/// The label of a target, which the start has not.
fn target_label(target: &Target) -> Option<&Label>
    ensures { option_map (λ l. l.now) result ≡ target_label target.now }
{
    match target {
        Target::Label(label) => Some(label),
        Target::Start => None,
    }
}

/// The label of which the refusal of documents tells.
fn label_in(error: &LoadError) -> Option<&Label>
    ensures { option_map (λ l. l.now) result ≡ label_in error.now }
{
    match error {
        LoadError::Twice(label)
        | LoadError::Missing(label)
        | LoadError::Circle(label)
        | LoadError::IncludeCircle(label) => Some(label),
        LoadError::Deep(target) | LoadError::Occurrences(target) => target_label(target),
        LoadError::Shapes | LoadError::Full | LoadError::Memory => None,
    }
}

/// Which of the places of its label is looked for.
fn label_place(error: &LoadError) -> LabelPlace
    ensures { result ≡ label_place error.now }
{
    match error {
        LoadError::Twice(_) => LabelPlace::DeclaredAgain,
        LoadError::Missing(_) => LabelPlace::Referred,
        _ => LabelPlace::Declared,
    }
}

/// The IRI of the import word of this number, and the empty text where there is none.
fn import_base<'a>(words: &[Import<'a>], number: usize) -> &'a str
    ensures { result.now ≡ get_or (map (λ w. w.iri) (map import_of words.now)) number [] }
{
    match words.get(number) {
        Some(word) => word.iri,
        None => "",
    }
}

/// The base of the document in a file of the schema: that of the schema, and the IRI of the import word.
fn schema_base<'a>(inputs: &Inputs<'a>, file: SchemaFile) -> &'a str
    ensures { result.now ≡ base_for (asked_of (inputs_with inputs.now [])) file }
{
    match file {
        SchemaFile::Root => inputs.schema_base,
        SchemaFile::Imported(number) => import_base(inputs.imports.as_slice(), number),
    }
}

/// The base of the document in a file of the inputs, and the empty text for data and maps.
fn source_base<'a>(inputs: &Inputs<'a>, source: Source) -> &'a str
    ensures { result.now ≡ source_base (asked_of (inputs_with inputs.now [])) source }
{
    match source {
        Source::Schema(file) => schema_base(inputs, file),
        Source::Data | Source::Map => "",
    }
}

/// A file of `explain` with its name and its base.
fn named_file<'a>(explaining: &Explaining<'a>, source: Source) -> NamedFile<'a>
    ensures source { result.source ≡ source }
    ensures name { result.name.now ≡ source_name (inputs_of (of_reasons (explaining_of explaining.now))) source }
    ensures base { result.base.now ≡ source_base (asked_of (inputs_of (of_reasons (explaining_of explaining.now)))) source }
{
    NamedFile {
        source,
        name: input_name(&explaining.inputs, explaining.map, source),
        base: source_base(&explaining.inputs, source),
    }
}

/// The bytes of a file that is refused, which is fetched once more, and `None` where it is too long by now.
fn fetch_again<F: Files>(
    alloc: Global,
    files: &mut F,
    file: &NamedFile<'_>,
) -> Result<Option<Vec<u8>>, Unshown>
    ensures fetched { IfOk result (λ found. IsFetched (F.told files.old) file.now.name.now (option_map (λ v. v.items) found)) }
    ensures unshown { IfErr result (IsUnshown file.now.name.now file.now.source (F.faults files.old) (F.faults files.new) (F.blame files.new) (F.act files.new)) }
    ensures faults_stay { OnOk result (F.faults files.new ≡ F.faults files.old) }
    ensures told_stays { F.told files.new ≡ F.told files.old }
{
    match fetch(alloc, files, file.name) {
        Ok(bytes) => Ok(Some(bytes)),
        Err(FetchError::Failed) => Err(Unshown::Failed(file.source)),
        Err(FetchError::Long) => Ok(None),
        Err(FetchError::Memory) => Err(Unshown::Memory),
    }
}

/// Appends the lines that show a place in a file, which is fetched for that; none where it is too long by now.
fn push_at<F: Files>(
    alloc: Global,
    files: &mut F,
    file: &NamedFile<'_>,
    at: u64,
    out: &mut Vec<u8>,
) -> Result<(), Unshown>
    ensures shown { OnOk result ((shown : List ℕ) × IsShown (F.told files.old) file.now.name.now at shown × (out.new.items ≡ out.old.items ++ shown)) }
    ensures unshown { IfErr result (IsUnshown file.now.name.now file.now.source (F.faults files.old) (F.faults files.new) (F.blame files.new) (F.act files.new)) }
    ensures faults_stay { OnOk result (F.faults files.new ≡ F.faults files.old) }
    ensures told_stays { F.told files.new ≡ F.told files.old }
{
    let Some(bytes) = fetch_again(alloc, files, file)? else {
        return Ok(());
    };
    push_place(alloc, file.name, bytes.as_slice(), at as usize, out)?;
    Ok(())
}

/// Appends the lines that show a place in a file, if there is one.
fn push_at_any<F: Files>(
    alloc: Global,
    files: &mut F,
    file: &NamedFile<'_>,
    place: Option<u64>,
    out: &mut Vec<u8>,
) -> Result<(), Unshown>
    ensures shown { OnOk result ((shown : List ℕ) × ShowsPlace (F.told files.old) file.now.name.now place shown × (out.new.items ≡ out.old.items ++ shown)) }
    ensures unshown { IfErr result (IsUnshown file.now.name.now file.now.source (F.faults files.old) (F.faults files.new) (F.blame files.new) (F.act files.new)) }
    ensures faults_stay { OnOk result (F.faults files.new ≡ F.faults files.old) }
    ensures told_stays { F.told files.new ≡ F.told files.old }
{
    match place {
        Some(at) => push_at(alloc, files, file, at, out),
        None => Ok(()),
    }
}

/// Appends what is shown of a schema document that is refused for an error without a place, which is fetched for that.
fn push_cause_in<F: Files>(
    alloc: Global,
    files: &mut F,
    file: &NamedFile<'_>,
    error: &SchemaError,
    out: &mut Vec<u8>,
) -> Result<(), Unshown>
    ensures shown { OnOk result ((shown : List ℕ) × IsCauseShown (F.told files.old) file.now.name.now file.now.base.now error.now shown × (out.new.items ≡ out.old.items ++ shown)) }
    ensures unshown { IfErr result (IsUnshown file.now.name.now file.now.source (F.faults files.old) (F.faults files.new) (F.blame files.new) (F.act files.new)) }
    ensures faults_stay { OnOk result (F.faults files.new ≡ F.faults files.old) }
    ensures told_stays { F.told files.new ≡ F.told files.old }
{
    let Some(bytes) = fetch_again(alloc, files, file)? else {
        return Ok(());
    };
    push_cause(alloc, file.name, file.base, error, bytes.as_slice(), out)?;
    Ok(())
}

/// Appends what is shown of a schema document that is refused: the place that the error names, or else its cause.
fn push_document<F: Files>(
    alloc: Global,
    files: &mut F,
    file: &NamedFile<'_>,
    error: &SchemaError,
    out: &mut Vec<u8>,
) -> Result<(), Unshown>
    ensures shown { OnOk result ((shown : List ℕ)
        × ShowsDocument (F.told files.old) file.now.name.now file.now.base.now error.now (schema_place error.now) shown
        × (out.new.items ≡ out.old.items ++ shown)) }
    ensures unshown { IfErr result (IsUnshown file.now.name.now file.now.source (F.faults files.old) (F.faults files.new) (F.blame files.new) (F.act files.new)) }
    ensures faults_stay { OnOk result (F.faults files.new ≡ F.faults files.old) }
    ensures told_stays { F.told files.new ≡ F.told files.old }
{
    match schema_place(error) {
        Some(at) => push_at(alloc, files, file, at, out),
        None => push_cause_in(alloc, files, file, error, out),
    }
}

/// Appends what is shown of the schema's own document for a label, which is fetched for that.
fn push_label_in<F: Files>(
    alloc: Global,
    files: &mut F,
    file: &NamedFile<'_>,
    label: &Label,
    place: LabelPlace,
    out: &mut Vec<u8>,
) -> Result<(), Unshown>
    ensures shown { OnOk result ((shown : List ℕ) × IsLabelShown (F.told files.old) file.now.name.now file.now.base.now place label.now shown × (out.new.items ≡ out.old.items ++ shown)) }
    ensures unshown { IfErr result (IsUnshown file.now.name.now file.now.source (F.faults files.old) (F.faults files.new) (F.blame files.new) (F.act files.new)) }
    ensures faults_stay { OnOk result (F.faults files.new ≡ F.faults files.old) }
    ensures told_stays { F.told files.new ≡ F.told files.old }
{
    let Some(bytes) = fetch_again(alloc, files, file)? else {
        return Ok(());
    };
    push_label(
        alloc,
        file.name,
        file.base,
        label,
        place,
        bytes.as_slice(),
        out,
    )?;
    Ok(())
}

/// Appends what is shown where the documents of a schema are refused together: in the schema's own document a place of the label of which
/// the error tells.
fn push_load<F: Files>(
    alloc: Global,
    files: &mut F,
    file: &NamedFile<'_>,
    error: &LoadError,
    out: &mut Vec<u8>,
) -> Result<(), Unshown>
    ensures shown { OnOk result ((shown : List ℕ) × ShowsLoad (F.told files.old) file.now.name.now file.now.base.now error.now shown × (out.new.items ≡ out.old.items ++ shown)) }
    ensures unshown { IfErr result (IsUnshown file.now.name.now file.now.source (F.faults files.old) (F.faults files.new) (F.blame files.new) (F.act files.new)) }
    ensures faults_stay { OnOk result (F.faults files.new ≡ F.faults files.old) }
    ensures told_stays { F.told files.new ≡ F.told files.old }
{
    match label_in(error) {
        Some(label) => push_label_in(alloc, files, file, label, label_place(error), out),
        None => Ok(()),
    }
}

/// Appends what is shown where a file of the inputs is refused.
fn push_input<F: Files>(
    alloc: Global,
    files: &mut F,
    explaining: &Explaining<'_>,
    refusal: &InputRefusal,
    out: &mut Vec<u8>,
) -> Result<(), Unshown>
    requires fit { IsFit (of_reasons (explaining_of explaining.now)) }
    requires refused { IsInputRefused (F.told files.old) (inputs_of (of_reasons (explaining_of explaining.now))) refusal.now }
    ensures shown { OnOk result ((shown : List ℕ)
        × ShowsInput (F.told files.old) (inputs_of (of_reasons (explaining_of explaining.now))) refusal.now shown
        × (out.new.items ≡ out.old.items ++ shown)) }
    ensures unshown { IfErr result (LeavesUnshown (F.told files.old) (of_reasons (explaining_of explaining.now))
        (F.faults files.old) (F.faults files.new) (F.blame files.new) (F.act files.new)) }
    ensures faults_stay { OnOk result (F.faults files.new ≡ F.faults files.old) }
    ensures told_stays { F.told files.new ≡ F.told files.old }
{
    let file = named_file(explaining, refusal.source());
    match refusal {
        InputRefusal::Schema(_, error) => push_document(alloc, files, &file, error, out),
        InputRefusal::Data(error) => push_at_any(alloc, files, &file, data_place(error), out),
        InputRefusal::Map(error) => push_at_any(alloc, files, &file, map_place(error), out),
        InputRefusal::Load(error) => push_load(alloc, files, &file, error, out),
        InputRefusal::NegatedCycle(cycle) => {
            push_cycle(alloc, files, explaining, cycle.as_slice(), out)
        }
        InputRefusal::Size(_) | InputRefusal::Import(_, _) | InputRefusal::Pairs => Ok(()),
    }
}

/// Appends what is shown where a file is refused: `explain` alone shows something.
fn push_refused<F: Files>(
    alloc: Global,
    files: &mut F,
    call: &ToolCall<'_>,
    refusal: &Refusal,
    out: &mut Vec<u8>,
) -> Result<(), Unshown>
    requires fit { IsFit (tool_call_of call.now) }
    requires refused { IsRefused (F.told files.old) (tool_call_of call.now) refusal.now }
    ensures shown { OnOk result ((shown : List ℕ) × ShowsRefused (F.told files.old) (tool_call_of call.now) refusal.now shown × (out.new.items ≡ out.old.items ++ shown)) }
    ensures unshown { IfErr result (LeavesUnshown (F.told files.old) (tool_call_of call.now)
        (F.faults files.old) (F.faults files.new) (F.blame files.new) (F.act files.new)) }
    ensures faults_stay { OnOk result (F.faults files.new ≡ F.faults files.old) }
    ensures told_stays { F.told files.new ≡ F.told files.old }
{
    match call {
        ToolCall::Convert(_) | ToolCall::Extents(_) | ToolCall::Shards(_) => Ok(()),
        ToolCall::Explain(explaining) => match refusal {
            Refusal::Input(refusal) => push_input(alloc, files, explaining, refusal, out),
            Refusal::Unwritten(_) | Refusal::Pairs | Refusal::Shards(_) => Ok(()),
        },
    }
}

/// The line for a file that is refused, and what is shown of it.
pub fn refusal_text<F: Files>(
    alloc: Global,
    files: &mut F,
    call: &ToolCall<'_>,
    refusal: &Refusal,
) -> Result<Vec<u8>, Unshown>
    requires fit { IsFit (tool_call_of call.now) }
    requires refused { IsRefused (F.told files.old) (tool_call_of call.now) refusal.now }
    ensures text { IfOk result (λ text. IsRefusalText (F.told files.old) (tool_call_of call.now) refusal.now text.items) }
    ensures unshown { IfErr result (LeavesUnshown (F.told files.old) (tool_call_of call.now)
        (F.faults files.old) (F.faults files.new) (F.blame files.new) (F.act files.new)) }
    ensures faults_stay { OnOk result (F.faults files.new ≡ F.faults files.old) }
    ensures told_stays { F.told files.new ≡ F.told files.old }
{
    let mut text = report::refusal(alloc, call, refusal)?.into_bytes();
    push_refused(alloc, files, call, refusal, &mut text)?;
    Ok(text)
}
