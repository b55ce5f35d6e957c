//! The answers to the questions of a script, as they are printed.

ghost use Rattle.std.specs.Prelude.{◌≡◌, ◌++◌, ◌<◌, OnOk, codes, length};
ghost use Rattle.rdf_terms.specs.Order.{text_at};
ghost use Rattle.session_run.specs.Replies.{line_of, verdict_mark};

use call_ends::{Response, status_of};
use rdf_terms::table::TermTable;
use rdf_terms::terms::TermId;
use rdf_terms::written::write_term;
use schema_tree::schema::Target;
use schema_tree::verdicts::Verdict;
use std::alloc::{AllocError, Global};

/// The answers to the questions of a script, as they are printed.
#[derive(Drop)]
pub struct Said {
    /// A line for each answer.
    pub text: Vec<u8>,
    /// A line for each wide pair that a question reaches whose answer is Unknown.
    pub notes: Vec<u8>,
    /// Whether some answer is Unknown.
    pub undecided: bool,
}

impl Said {
    ghost use Rattle.std.specs.Prelude.{[], ◌≡◌, ◌<◌, false};
    ghost use Rattle.call_ends.specs.Statuses.{status_by};

    /// No answers.
    pub fn new(alloc: Global) -> Said
        ensures text { result.text.items ≡ [] }
        ensures notes { result.notes.items ≡ [] }
        ensures undecided { result.undecided ≡ false }
    {
        Said {
            text: Vec::new(alloc),
            notes: Vec::new(alloc),
            undecided: false,
        }
    }

    /// What answers the call, with the status: 4 where one of the answers is Unknown, and else 0.
    pub fn into_response(self) -> Response
        ensures status { result.status ≡ status_by self.undecided }
        ensures low { result.status < 7 }
        ensures text { result.text.items ≡ self.text.items }
        ensures notes { result.notes.items ≡ self.notes.items }
    {
        let Said {
            text,
            notes,
            undecided,
        } = self;
        Response {
            status: status_of(undecided),
            text,
            notes,
        }
    }
}

/// What stands between the node and the target of an answer: `@`, and `!` for No or `?` for Unknown.
fn mark(verdict: Verdict) -> &'static [u8]
    ensures { result.now ≡ codes "@" ++ verdict_mark verdict }
{
    match verdict {
        Verdict::Yes => b"@",
        Verdict::No => b"@!",
        Verdict::Unknown => b"@?",
    }
}

/// Appends the line for an answer.
pub fn push_line(
    alloc: Global,
    terms: &TermTable,
    node: TermId,
    verdict: Verdict,
    target: &Target,
    out: &mut Vec<u8>,
) -> Result<(), AllocError>
    requires { node.0 < length terms.now }
    ensures { OnOk result (out.new.items ≡ out.old.items ++ line_of (text_at terms.now node) verdict target.now) }
{
    write_term(alloc, terms.get(node), out)?;
    out.extend_from_slice(mark(verdict))?;
    let target = target.text(alloc)?;
    out.extend_from_slice(target.as_bytes())?;
    out.push(b'\n')?;
    Ok(())
}
