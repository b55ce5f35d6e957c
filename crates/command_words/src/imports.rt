//! The import words.

ghost use Rattle.std.specs.Prelude.{[], IfErr, IfOk, IfSome, IsNone, map};
ghost use Rattle.input_names.specs.Names.{Import as Importing};
ghost use Rattle.input_names.specs.Lent.{import_of};
ghost use Rattle.command_words.specs.Checks.{AreImports, Divides, IsImportFault};
ghost use Rattle.command_words.specs.Lent.{Because};

use crate::error::WordsError;
use input_names::{Import, is_schema_name};
use std::alloc::Global;
use std::collections::BTreeSet;

/// What a word gives that its last `=` divides into two parts that are not empty.
fn divided(word: &str) -> Option<Import<'_>>
    ensures found { IfSome result (λ i. Divides word.now (import_of i)) }
    ensures missed { IsNone result → (i : Importing) → ¬ Divides word.now i }
{
    let (iri, file) = word.rsplit_once('=')?;
    if iri.is_empty() {
        return None;
    }
    if file.is_empty() {
        return None;
    }
    Some(Import { iri, file })
}

/// The imports that the words give.
pub fn read_imports<'a>(alloc: Global, words: &[&'a str]) -> Result<Vec<Import<'a>>, WordsError<'a>>
    ensures ok { IfOk result (λ v. AreImports [] (map (λ w. w.now) words.now) (map import_of v.items)) }
    ensures fault { IfErr result (Because (IsImportFault [] (map (λ w. w.now) words.now))) }
{
    let mut given: BTreeSet<&'a str> = BTreeSet::new(alloc);
    let mut imports = Vec::new(alloc);
    for word in words {
        let Some(import) = divided(word) else {
            return Err(WordsError::Import(word));
        };
        let is_new = given.insert(import.iri)?;
        if !is_new {
            return Err(WordsError::Import(word));
        }
        if !is_schema_name(import.file) {
            return Err(WordsError::Ending(import.file));
        }
        imports.push(import)?;
    }
    Ok(imports)
}
