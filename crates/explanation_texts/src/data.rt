//! An explanation as JSON: the result shape map of its associations.

ghost use Rattle.std.specs.Prelude.{◌≡◌, ◌≤◌, ◌++◌, IfOk, OnOk, Some, codes, false, map, string_bytes};
ghost use Rattle.std.specs.Option.{option_copied};
ghost use Rattle.serde_json.specs.Data.{depth, no_members, object};
ghost use Rattle.serde_json.specs.Read.{max_depth, read};
ghost use Rattle.serde_json.specs.View.{view};
ghost use Rattle.serde_json.specs.Written.{compact_text, has_float};
ghost use Rattle.explanation_texts.specs.Answers.{below_text};
ghost use Rattle.explanation_texts.specs.Data.{answer_data, answers_data, explanation_data, members_of, put_tree, status_word, told_data};

use crate::object::Object;
use crate::setting::Setting;
use crate::words::raised;
use explanations::explanation::{Explanation, Told};
use schema_tree::verdicts::Verdict;
use serde_json::Value;
use shape_map::Association;
use std::alloc::{AllocError, Global};

/// The status of a node with an expression, as far as is known (ShapeMap Structure and Language, section 4).
fn status_word(verdict: Verdict) -> &'static str
    ensures { result.now ≡ status_word verdict }
{
    match verdict {
        Verdict::Yes => "conformant",
        Verdict::No => "nonconformant",
        Verdict::Unknown => "unknown",
    }
}

impl Setting<'_> {
    /// Why an association is not as asked, so many blocks standing before.
    fn below(
        &self,
        before: usize,
        association: &Association,
        told: &Told,
    ) -> Result<Vec<u8>, AllocError>
        ensures { IfOk result (λ v. v.items ≡ below_text self.now before association.now told.now.why told.now.blocks) }
    {
        let mut text = Vec::new(self.alloc);
        self.push_below(before, association, told, &mut text)?;
        Ok(text)
    }

    /// Puts why an association is not as asked, as data, if that is told, so many blocks standing before.
    fn put_tree(
        &self,
        before: usize,
        association: &Association,
        told: &Told,
        members: &mut Object,
    ) -> Result<(), AllocError>
        ensures { OnOk result (members_of members.new ≡
            put_tree self.now before association.now told.now.why told.now.blocks (members_of members.old)) }
    {
        let Some(why) = told.why else {
            return Ok(());
        };
        let blocks = told.blocks.as_slice();
        let number = raised(before, 1)?;
        let tree = self.tree_value(number, (association.node, association.expr, why), blocks)?;
        members.put("appInfo", tree)
    }

    /// Puts the members of an association, so many blocks standing before.
    fn put_answer(
        &self,
        before: usize,
        association: &Association,
        told: &Told,
        members: &mut Object,
    ) -> Result<(), AllocError>
        requires { members_of members.old ≡ no_members }
        ensures { OnOk result (object (members_of members.new) ≡ answer_data self.now before association.now told.now) }
    {
        self.put_term("node", association.node, members)?;
        members.put_target("shape", &association.target)?;
        members.put_word("status", status_word(told.verdict))?;
        let reason = self.below(before, association, told)?;
        members.put_reason(reason.as_slice())?;
        self.put_tree(before, association, told, members)
    }

    /// An association with its outcome, so many blocks standing before.
    fn answer_value(
        &self,
        before: usize,
        association: &Association,
        told: &Told,
    ) -> Result<Value, AllocError>
        ensures { IfOk result (λ v. view v ≡ answer_data self.now before association.now told.now) }
    {
        let mut members = Object::new(self.alloc);
        self.put_answer(before, association, told, &mut members)?;
        Ok(members.into_value())
    }

    /// Puts an association, if it is there, with its outcome behind the others, so many blocks standing before.
    fn push_value(
        &self,
        before: usize,
        association: Option<&Association>,
        told: &Told,
        values: &mut Vec<Value>,
    ) -> Result<(), AllocError>
        ensures { OnOk result (map view values.new.items ≡
            map view values.old.items ++ told_data self.now before (option_copied association.entry) told.now) }
    {
        let Some(association) = association else {
            return Ok(());
        };
        values.push(self.answer_value(before, association, told)?)?;
        Ok(())
    }

    /// Associations with their outcomes.
    fn answer_values(
        &self,
        asked: &[Association],
        answers: &[Told],
    ) -> Result<Vec<Value>, AllocError>
        ensures { IfOk result (λ v. map view v.items ≡ answers_data self.now asked.now 0 0 answers.now) }
    {
        let mut values = Vec::new(self.alloc);
        let mut before = 0;
        for place in 0..answers.len() {
            let told = &answers[place];
            self.push_value(before, asked.get(place), told, &mut values)?;
            before = raised(before, told.blocks.as_slice().len())?;
        }
        Ok(values)
    }
}

/// The explanation as a value of JSON.
fn explanation_value(
    setting: &Setting,
    asked: &[Association],
    explanation: &Explanation,
) -> Result<Value, AllocError>
    ensures { IfOk result (λ v. view v ≡ explanation_data setting.now asked.now explanation.now.answers) }
{
    let values = setting.answer_values(asked, explanation.answers.as_slice())?;
    Ok(Value::from(values))
}

/// The text of a value without floating-point numbers that does not nest too deeply.
fn text_of(alloc: Global, value: &Value) -> Result<String, AllocError>
    requires plain { has_float (view value.now) ≡ false }
    requires flat { depth (view value.now) ≤ max_depth }
    ensures text { IfOk result (λ s. string_bytes s ≡ compact_text (view value.now)) }
    ensures parsed { IfOk result (λ s. read (string_bytes s) ≡ Some (view value.now)) }
{
    let text = value.to_string(alloc)?;
    Ok(text)
}

/// Appends an explanation as a result shape map in JSON (ShapeMap Structure and Language, section 4), compact and with a line feed: of
/// each association the node, the shape and the status, and, where it is not as asked and it is known why, the reason as text and, as
/// `appInfo`, as data.
pub fn write_explanation_data(
    setting: &Setting,
    asked: &[Association],
    explanation: &Explanation,
    out: &mut Vec<u8>,
) -> Result<(), AllocError>
    ensures written { OnOk result (out.new.items ≡
        out.old.items ++ (compact_text (explanation_data setting.now asked.now explanation.now.answers) ++ codes "\n")) }
    // The text is read as the same data.
    ensures parsed { OnOk result (read (compact_text (explanation_data setting.now asked.now explanation.now.answers))
        ≡ Some (explanation_data setting.now asked.now explanation.now.answers)) }
{
    let value = explanation_value(setting, asked, explanation)?;
    let text = text_of(setting.alloc, &value)?;
    out.extend_from_slice(text.as_bytes())?;
    out.extend_from_slice(b"\n")
}
