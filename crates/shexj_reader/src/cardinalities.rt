//! Cardinalities (ShEx 2.1, section 5.5, and appendix A).

ghost use Rattle.std.specs.Prelude.{◌≡◌, IfErr, IfOk, Some, codes};
ghost use Rattle.serde_json.specs.Find.{get};
ghost use Rattle.serde_json.specs.View.{view};
ghost use Rattle.shexj_reader.specs.Cardinalities.{IsCardinality, least, most};
ghost use Rattle.shexj_reader.specs.ExpressionFaults.{CardinalityFault};
ghost use Rattle.shexj_reader.specs.Faults.{Because, IsBad};

use crate::objects::bad_form;
use schema_documents::SchemaError;
use serde_json::Value;
use std::alloc::Global;
use tally::Bound;

/// The greatest number of a cardinality.
const MAX_TIMES: i64 = 4294967295;

/// The least number of times, 1 where the key is absent.
fn min_of(alloc: Global, value: &Value) -> Result<u32, SchemaError>
    ensures ok { IfOk result (λ n. least (get (codes "min") (view value.now)) ≡ Some n) }
    ensures cause { IfErr result (Because (λ f. IsBad (codes "min") least f (view value.now))) }
{
    let Some(child) = value.get("min") else {
        return Ok(1);
    };
    match child.as_u64() {
        Some(number) if number <= 4294967295 => Ok(number as u32),
        _ => Err(bad_form(alloc, "min")),
    }
}

/// The greatest number of times, 1 where the key is absent; -1 stands for any number.
fn max_of(alloc: Global, value: &Value) -> Result<Bound, SchemaError>
    ensures ok { IfOk result (λ b. most (get (codes "max") (view value.now)) ≡ Some b) }
    ensures cause { IfErr result (Because (λ f. IsBad (codes "max") most f (view value.now))) }
{
    let Some(child) = value.get("max") else {
        return Ok(Bound::Upto(1));
    };
    match child.as_i64() {
        Some(number) => {
            if number == -1 {
                Ok(Bound::Free)
            } else if 0 <= number && number <= MAX_TIMES {
                Ok(Bound::Upto(number as u32))
            } else {
                Err(bad_form(alloc, "max"))
            }
        }
        None => Err(bad_form(alloc, "max")),
    }
}

/// The cardinality of a triple expression: how often it comes at least and at most.
pub(crate) fn cardinality_of(alloc: Global, value: &Value) -> Result<(u32, Bound), SchemaError>
    ensures ok { IfOk result (λ p. IsCardinality p.0 p.1 (view value.now)) }
    ensures cause { IfErr result (Because (λ f. CardinalityFault f (view value.now))) }
{
    let min = min_of(alloc, value)?;
    let max = max_of(alloc, value)?;
    if let Bound::Upto(high) = max {
        if high < min {
            return Err(bad_form(alloc, "max"));
        }
    }
    Ok((min, max))
}
