//! Laws of scripts, for callers' proofs: each function's contract is a law, and its body is empty.

ghost use Rattle.session_script.specs.Scripts.{AnyScriptsAreOne, ScriptsAreOne, ScriptsAreNotRefused, AnyScriptsHaveLines, ScriptsHaveLines};

/// The bytes are a script of one list of commands at most, of whatever lengths and so within the limit too.
pub fn scripts_are_one()
    ensures any { AnyScriptsAreOne }
    ensures short { ScriptsAreOne }
{}

/// A script within the limit has no cause of a refusal but want of memory.
pub fn scripts_are_not_refused()
    ensures { ScriptsAreNotRefused }
{}

/// Each term of a script can stand on one line, and no text of a target in it holds a line feed.
pub fn scripts_have_lines()
    ensures any { AnyScriptsHaveLines }
    ensures short { ScriptsHaveLines }
{}
