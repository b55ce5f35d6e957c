//! What words ask for.

use command_words::{Call, Checking, Command, Drilling, Upgrading, Validation, read};
use input_names::{Import, Inputs};
use row_format::words_of;
use std::alloc::{AllocError, Global};
use tool_words::{
    Converting, Covering, Editing, Explaining, Following, Lining, Listing, Reaching, ShardCall,
    ToolCall, read_session, read_tool,
};

/// The files and the bases of a command.
fn shown_inputs(alloc: Global, inputs: &Inputs<'_>) -> Result<String, AllocError> {
    let (schema, data) = (inputs.schema, inputs.data);
    let (schema_base, data_base) = (inputs.schema_base, inputs.data_base);
    format!(in alloc; "{schema} {schema_base} {data} {data_base}")
}

/// A line with imports behind it.
fn with_imports(mut line: String, imports: &[Import<'_>]) -> Result<String, AllocError> {
    for import in imports {
        let (iri, file) = (import.iri, import.file);
        write!(line, " [{iri} {file}]")?;
    }
    Ok(line)
}

/// What `validate` asks for.
fn shown_validation(alloc: Global, asked: &Validation<'_>) -> Result<String, AllocError> {
    let inputs = shown_inputs(alloc, &asked.inputs)?;
    let (map, proof, budget) = (asked.map, asked.proof, asked.budget);
    let line = format!(in alloc; "validate {inputs} {map} {proof:?} {budget}")?;
    with_imports(line, &asked.inputs.imports)
}

/// What `check` asks for.
fn shown_checking(alloc: Global, asked: &Checking<'_>) -> Result<String, AllocError> {
    let inputs = shown_inputs(alloc, &asked.inputs)?;
    let proof = asked.proof;
    let line = format!(in alloc; "check {inputs} {proof}")?;
    with_imports(line, &asked.inputs.imports)
}

/// What `upgrade` asks for.
fn shown_upgrading(alloc: Global, asked: &Upgrading<'_>) -> Result<String, AllocError> {
    let inputs = shown_inputs(alloc, &asked.inputs)?;
    let (proof, to) = (asked.proof, asked.to);
    let line = format!(in alloc; "upgrade {inputs} {proof} {to}")?;
    with_imports(line, &asked.inputs.imports)
}

/// What a command asks of files.
fn shown_command(alloc: Global, command: &Command<'_>) -> Result<String, AllocError> {
    match command {
        Command::Validate(validation) => shown_validation(alloc, validation),
        Command::Check(checking) => shown_checking(alloc, checking),
        Command::Upgrade(upgrading) => shown_upgrading(alloc, upgrading),
    }
}

/// What `drill` asks for.
fn shown_drilling(alloc: Global, asked: &Drilling<'_>) -> Result<String, AllocError> {
    let (items, proof) = (asked.items, asked.proof);
    format!(in alloc; "drill {items} {proof:?}")
}

/// What `convert` asks for.
fn shown_converting(alloc: Global, asked: Converting<'_>) -> Result<String, AllocError> {
    let (schema, base) = (asked.schema, asked.schema_base);
    format!(in alloc; "convert {schema} {base}")
}

/// What `extents` asks for.
fn shown_listing(alloc: Global, asked: &Listing<'_>) -> Result<String, AllocError> {
    let inputs = shown_inputs(alloc, &asked.inputs)?;
    let budget = asked.budget;
    let line = format!(in alloc; "extents {inputs} {budget}")?;
    with_imports(line, &asked.inputs.imports)
}

/// What `explain` asks for.
fn shown_explaining(alloc: Global, asked: &Explaining<'_>) -> Result<String, AllocError> {
    let inputs = shown_inputs(alloc, &asked.inputs)?;
    let (map, budget, limit, json) = (asked.map, asked.budget, asked.limit, asked.json);
    let line = format!(in alloc; "explain {inputs} {map} {budget} {limit} {json}")?;
    with_imports(line, &asked.inputs.imports)
}

/// What `lines` asks for.
fn shown_lining(alloc: Global, asked: &Lining<'_>) -> Result<String, AllocError> {
    let (data, prefix, base) = (asked.data, asked.prefix, asked.data_base);
    format!(in alloc; "lines {data} {prefix:?} {base}")
}

/// What `followed` asks for.
fn shown_following(alloc: Global, asked: &Following<'_>) -> Result<String, AllocError> {
    let (schema, base) = (asked.schema, asked.schema_base);
    let line = format!(in alloc; "followed {schema} {base}")?;
    with_imports(line, &asked.imports)
}

/// What `reached` asks for.
fn shown_reaching(alloc: Global, asked: &Reaching<'_>) -> Result<String, AllocError> {
    let inputs = shown_inputs(alloc, &asked.inputs)?;
    let map = asked.map;
    let line = format!(in alloc; "reached {inputs} {map}")?;
    with_imports(line, &asked.inputs.imports)
}

/// What `covers` asks for.
fn shown_covering(alloc: Global, asked: &Covering<'_>) -> Result<String, AllocError> {
    let (followed, part) = (asked.followed, asked.part);
    let mut line = format!(in alloc; "covers {followed} {part}")?;
    for files in &asked.shards {
        let (nodes, shard) = (files.nodes, files.shard);
        write!(line, " [{nodes} {shard}]")?;
    }
    Ok(line)
}

/// What is asked about data in shards.
fn shown_shard_call(alloc: Global, call: &ShardCall<'_>) -> Result<String, AllocError> {
    match call {
        ShardCall::Lines(lining) => shown_lining(alloc, lining),
        ShardCall::Followed(following) => shown_following(alloc, following),
        ShardCall::Reached(reaching) => shown_reaching(alloc, reaching),
        ShardCall::Covers(covering) => shown_covering(alloc, covering),
    }
}

/// What words ask of a session.
fn shown_editing(alloc: Global, asked: &Editing<'_>) -> Result<String, AllocError> {
    let inputs = shown_inputs(alloc, &asked.inputs)?;
    let (script, budget) = (asked.script, asked.budget);
    let line = format!(in alloc; "{inputs} {script} {budget}")?;
    with_imports(line, &asked.inputs.imports)
}

/// What the words of a line ask of the tool, or why they are refused.
pub fn asked_of_tool(alloc: Global, line: &str) -> Result<String, AllocError> {
    let words = words_of(alloc, line)?;
    match read_tool(alloc, &words) {
        Ok(ToolCall::Convert(converting)) => shown_converting(alloc, converting),
        Ok(ToolCall::Extents(listing)) => shown_listing(alloc, &listing),
        Ok(ToolCall::Explain(explaining)) => shown_explaining(alloc, &explaining),
        Ok(ToolCall::Shards(call)) => shown_shard_call(alloc, &call),
        Err(error) => format!(in alloc; "{error}"),
    }
}

/// What the words of a line ask of a session, or why they are refused.
pub fn asked_of_session(alloc: Global, line: &str) -> Result<String, AllocError> {
    let words = words_of(alloc, line)?;
    match read_session(alloc, &words) {
        Ok(editing) => shown_editing(alloc, &editing),
        Err(error) => format!(in alloc; "{error}"),
    }
}

/// What the words of a line ask for, or why they are refused.
pub fn asked(alloc: Global, line: &str) -> Result<String, AllocError> {
    let words = words_of(alloc, line)?;
    match read(alloc, &words) {
        Ok(Call::Files(command)) => shown_command(alloc, &command),
        Ok(Call::Drill(drilling)) => shown_drilling(alloc, &drilling),
        Err(error) => format!(in alloc; "{error}"),
    }
}
