//! How large a pattern is.
ghost use Rattle.std.specs.Prelude.{◌≡◌, ◌<◌, ◌≤◌, ◌+◌, ◌*◌, IfSome, IfNone};
ghost use Rattle.xs_pattern.specs.Limits.{all_positions, positions, written};
ghost use Rattle.xs_pattern.specs.Regex.{regex_of, regexes_of};

use crate::Expression;

/// The most positions that a pattern has, and the greatest number of a quantifier.
pub(crate) const MOST: u32 = 4096;

/// The number of positions, if it is at most 4,096.
#[cycle(positions)]
pub(crate) fn fitting_positions(e: &Expression) -> Option<u32>
    ensures some { IfSome result (λ n. (n ≡ positions (regex_of e.now)) × (n ≤ 4096)) }
    ensures none { IfNone result (4096 < positions (regex_of e.now)) }
{
    match e {
        Expression::Start | Expression::End | Expression::One(_) => Some(1),
        Expression::Group(body) => fitting_positions(body),
        Expression::Branch(parts) => sum_of_positions(parts),
        Expression::Choice(parts) => sum_of_positions(parts),
        Expression::Repeat(least, most, body) => repeated_positions(*least, *most, body),
    }
}

#[cycle(positions)]
fn sum_of_positions(parts: &[Expression]) -> Option<u32>
    ensures some { IfSome result (λ n. (n ≡ all_positions (regexes_of parts.now)) × (n ≤ 4096)) }
    ensures none { IfNone result (4096 < all_positions (regexes_of parts.now)) }
{
    let mut sum = 0;
    for part in parts {
        let more = fitting_positions(part)?;
        sum += more;
        if sum > MOST {
            return None;
        }
    }
    Some(sum)
}

#[cycle(positions)]
fn repeated_positions(least: u32, most: Option<u32>, body: &Expression) -> Option<u32>
    ensures some { IfSome result (λ n. (n ≡ written least most * positions (regex_of body.now)) × (n ≤ 4096)) }
    ensures none { IfNone result (4096 < written least most * positions (regex_of body.now)) }
{
    let times = most.unwrap_or(least.max(1));
    if times == 0 {
        return Some(0);
    }
    let once = fitting_positions(body)?;
    let all = u64::from(times) * u64::from(once);
    if all > u64::from(MOST) {
        return None;
    }
    Some(all as u32)
}
