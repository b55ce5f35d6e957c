//! The reader of a whole script.

ghost use Rattle.std.specs.Prelude.{List, ◌≡◌, ◌+◌, ◌^◌, ◌<◌, ◌≤◌, ◌∷◌, IfOk, IfErr, length, true};
ghost use Rattle.std.specs.Str.{IsUtf8};
ghost use Rattle.session_script.specs.Scripts.{IsScript, IsCommand, Explains, character};
ghost use Rattle.session_script.specs.Steps.{IsScriptStop, error_of, RefusesRest, Adds};
ghost use Rattle.session_script.specs.declared.commands.Command.{Command};

use crate::commands::Command;
use crate::error::ScriptError;
use crate::grammar::command;
use crate::signs::{Sign, split_sign};
use rdf_cursor::{Cursor, Fault, Stop};
use rdf_lex::Mode;
use std::alloc::Global;

/// The answer for a stop at a place.
fn error(stop: Stop, at: u64) -> ScriptError
    requires { IsScriptStop stop }
    ensures { result ≡ error_of stop at }
{
    match stop {
        Stop::Memory => ScriptError::Memory,
        Stop::Fault(Fault::Syntax) => ScriptError::Syntax(at),
        Stop::Fault(Fault::Long) => ScriptError::Long(at),
        Stop::Fault(Fault::Prefix | Fault::Deep | Fault::Full) => unreachable!(),
    }
}

/// The command whose sign is given, from what stands behind the sign and the space; that begins at a place of the script.
fn read_rest(alloc: Global, sign: Sign, rest: &str, start: u64) -> Result<Command, ScriptError>
    requires { start + length rest.now < 2 ^ 64 }
    ensures found { IfOk result (λ x. IsCommand true x (character sign ∷ 32 ∷ rest.now)) }
    ensures refused { IfErr result (λ e. RefusesRest e sign rest.now start) }
{
    let mut c = Cursor::new(rest, Mode::Map);
    match command(&mut c, alloc, sign) {
        Ok(command) => Ok(command),
        Err(stop) => Err(error(stop, start + c.place())),
    }
}

/// Reads a line that begins at a place of the script, and adds its command, if it has one.
fn read_line(
    alloc: Global,
    line: &str,
    start: u64,
    commands: &mut Vec<Command>,
) -> Result<(), ScriptError>
    requires { start + length line.now < 2 ^ 64 }
    ensures { Adds result line.now start commands.old.items commands.new.items }
{
    if line.is_empty() {
        return Ok(());
    }
    let Some((sign, behind)) = split_sign(line) else {
        return Err(ScriptError::Syntax(start));
    };
    let Some(rest) = behind.strip_prefix(' ') else {
        return Err(ScriptError::Syntax(start + 1));
    };
    let command = read_rest(alloc, sign, rest, start + 2)?;
    commands.push(command)?;
    Ok(())
}

/// The place of a text at which its last part begins.
fn start_of(text: &str, rest: &str) -> u64
    requires { length rest.now ≤ length text.now }
    ensures place { result + length rest.now ≡ length text.now }
    ensures within { length text.now < 2 ^ 64 }
{
    (text.len() - rest.len()) as u64
}

/// Reads a text.
fn read_text(alloc: Global, text: &str) -> Result<Vec<Command>, ScriptError>
    ensures found { IfOk result (λ xs. IsScript text.now xs.items) }
    ensures complete { (xs : List Command) → IsScript text.now xs → IfOk result (λ ys. ys.items ≡ xs) }
    ensures refused { IfErr result (λ e. Explains e text.now) }
    ensures memory { (xs : List Command) → IsScript text.now xs → IfErr result (λ e. e ≡ ScriptError.Memory) }
{
    let mut commands = Vec::new(alloc);
    let mut rest = text;
    while let Some((line, behind)) = rest.split_once('\n') {
        read_line(alloc, line, start_of(text, rest), &mut commands)?;
        rest = behind;
    }
    read_line(alloc, rest, start_of(text, rest), &mut commands)?;
    Ok(commands)
}

/// Reads a script (own): lines that end with a line feed, which may be missing behind the last. A line is empty, or it is
/// `+`, `-` or `?`, a space, and tokens as a shape map has them: of a triple and a dot, as in a line of RDF 1.1 N-Triples,
/// behind `+` and `-`, and behind `?` of a node, `@` and a target, or of a node and `@START` (ShapeMap Structure and
/// Language, section 3.1). Each IRI is written between `<` and `>` and has a scheme, a literal is written as in N-Triples,
/// and a blank node of an edit or a question is named by its printed name. The answer has the commands in the order of
/// their lines.
///
/// It fails as `NotUtf8` exactly where the bytes are not UTF-8, as `Syntax` only where the bytes are no script and no
/// command's line goes on as the line at that place does, as `Long` only where the IRI, the label or the lexical form of a
/// term stands at that place and has over 16,777,216 bytes, and as `Memory`.
pub fn read_script(alloc: Global, source: &[u8]) -> Result<Vec<Command>, ScriptError>
    // What was read is what the whole bytes are, within the limit.
    ensures found { IfOk result (λ xs. IsScript source.now xs.items) }

    // What the bytes are within the limit is read, unless memory runs out.
    ensures complete { (xs : List Command) → IsScript source.now xs → IfOk result (λ ys. ys.items ≡ xs) }
    ensures memory { (xs : List Command) → IsScript source.now xs → IfErr result (λ e. e ≡ ScriptError.Memory) }

    // What is refused has its cause in the bytes.
    ensures refused { IfErr result (λ e. Explains e source.now) }
    ensures not_utf8 { ¬ IsUtf8 source.now → result ≡ Err ScriptError.NotUtf8 }
{
    match std::str::from_utf8(source) {
        Ok(text) => read_text(alloc, text),
        Err(_) => Err(ScriptError::NotUtf8),
    }
}
