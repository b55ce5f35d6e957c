//! Reading quantifiers (XML Schema Part 2, version 1.1, section G.2).
ghost use Rattle.std.specs.Prelude.{◌≡◌, ◌<◌, ◌≤◌, false, length, true, IfSome, nat_le, option_map};
ghost use Rattle.std.specs.Char.{digit_value, is_ascii_digit};
ghost use Rattle.std.specs.List.{list_all};
ghost use Rattle.std.specs.Str.Parse.{digits_value};
ghost use Rattle.xs_pattern.specs.Lexing.{begins, behind_comma, capped, capped_counts, digit_count, read_braces, read_digits, read_quantifier, read_upper};

/// What stands for each number over 4,096.
const TOO_MANY: u32 = 4097;

/// The least and the greatest number of repetitions, and the text behind them.
type Counts<'a> = (u32, Option<u32>, &'a [char]);

/// How many digits stand at the front.
fn digit_count(text: &[char]) -> usize
    ensures count { result ≡ digit_count text.now }
    ensures within { result ≤ length text.now }
{
    text.iter().take_while(|c| c.is_ascii_digit()).count()
}

/// The digits at the front, one or more, and the text behind them.
fn digits(text: &[char]) -> Option<(&[char], &[char])>
    ensures read { option_map (λ p. (p.0.now, p.1.now)) result ≡ read_digits text.now }
    ensures all { IfSome result (λ p. list_all is_ascii_digit p.0.now ≡ true) }
{
    let count = digit_count(text);
    if count == 0 {
        return None;
    }
    Some(text.split_at(count))
}

/// The value of a digit.
fn digit(c: char) -> u32
    requires { is_ascii_digit c ≡ true }
    ensures value { result ≡ digit_value c }
    ensures small { result < 10 }
{
    u32::from(c) - u32::from('0')
}

/// The number that the digits write, and 4,097 for each one over 4,096.
fn number(digits: &[char]) -> u32
    requires { list_all is_ascii_digit digits.now ≡ true }
    ensures { result ≡ capped (digits_value 10 digits.now) }
{
    let mut number = 0;
    for c in digits {
        number = (number * 10 + digit(*c)).min(TOO_MANY);
    }
    number
}

/// The digits without the zeros at the front.
fn without_zeros(digits: &[char]) -> &[char]
    requires { list_all is_ascii_digit digits.now ≡ true }
    ensures value { digits_value 10 result.now ≡ digits_value 10 digits.now }
    ensures digits { list_all is_ascii_digit result.now ≡ true }
    ensures first { begins 48 result.now ≡ false }
{
    let mut rest = digits;
    while let ['0', behind @ ..] = rest {
        rest = behind;
    }
    rest
}

/// Whether the first number is at most the second, whatever their lengths.
fn is_at_most(first: &[char], second: &[char]) -> bool
    requires first { list_all is_ascii_digit first.now ≡ true }
    requires second { list_all is_ascii_digit second.now ≡ true }
    ensures { result ≡ nat_le (digits_value 10 first.now) (digits_value 10 second.now) }
{
    let first = without_zeros(first);
    let second = without_zeros(second);
    first
        .len()
        .cmp(&second.len())
        .then(first.cmp(second))
        .is_le()
}

/// The quantifier of these digits, with a greatest number behind a comma.
fn up_to<'a>(least: &[char], text: &'a [char]) -> Option<Counts<'a>>
    requires { list_all is_ascii_digit least.now ≡ true }
    ensures { option_map (λ p. (p.0, p.1, p.2.now)) result
        ≡ capped_counts (read_upper (digits_value 10 least.now) (read_digits text.entry.now)) }
{
    let (most, behind) = digits(text)?;
    match behind {
        ['}', rest @ ..] if is_at_most(least, most) => {
            Some((number(least), Some(number(most)), rest))
        }
        _ => None,
    }
}

fn behind_comma<'a>(least: &[char], text: &'a [char]) -> Option<Counts<'a>>
    requires { list_all is_ascii_digit least.now ≡ true }
    ensures { option_map (λ p. (p.0, p.1, p.2.now)) result ≡ capped_counts (behind_comma (digits_value 10 least.now) text.entry.now) }
{
    match text {
        ['}', rest @ ..] => Some((number(least), None, rest)),
        _ => up_to(least, text),
    }
}

/// A quantifier in braces, behind the opening one.
fn in_braces(text: &[char]) -> Option<Counts<'_>>
    ensures { option_map (λ p. (p.0, p.1, p.2.now)) result ≡ capped_counts (read_braces (read_digits text.now)) }
{
    let (least, behind) = digits(text)?;
    match behind {
        ['}', rest @ ..] => Some((number(least), Some(number(least)), rest)),
        [',', rest @ ..] => behind_comma(least, rest),
        _ => None,
    }
}

/// A quantifier. Of its numbers those over 4,096 are 4,097.
pub(crate) fn quantifier(text: &[char]) -> Option<Counts<'_>>
    ensures { option_map (λ p. (p.0, p.1, p.2.now)) result ≡ capped_counts (read_quantifier text.now) }
{
    match text {
        ['*', rest @ ..] => Some((0, None, rest)),
        ['+', rest @ ..] => Some((1, None, rest)),
        ['?', rest @ ..] => Some((0, Some(1), rest)),
        ['{', rest @ ..] => in_braces(rest),
        _ => None,
    }
}
