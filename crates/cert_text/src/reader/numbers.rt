//! Numbers and fixed texts at the front of bytes. What is read stands before the bytes that are left.

ghost use Rattle.std.specs.Prelude.{◌≡◌, ◌∷◌, [], ◌≤◌, ◌<◌, ◌^◌, false, true, nat_lt, IfSome, MatchOption, None};
ghost use Rattle.cert_text.specs.inside.Forms.{Gives, text_at, ended, whole_at, decimals_at, millionths_at, money_at, ordinal_at, signed_at, run, run_value, is_digit};

/// The most digits that a number has.
const MOST_DIGITS: usize = 38;

/// The bytes behind a text, if they begin with it.
#[tactic(auto, unfolding(crate::specs::inside::Forms::text_at))]
pub(crate) fn take_text<'a>(bytes: &'a [u8], text: &[u8]) -> Option<&'a [u8]>
    ensures { Gives (λ rest. rest.now) result (text_at text.now bytes.now) }
{
    if bytes.starts_with(text) {
        Some(&bytes[text.len()..])
    } else {
        None
    }
}

/// The bytes behind a byte, if they begin with it.
#[tactic(auto, unfolding(crate::specs::inside::Forms::text_at))]
pub(crate) fn take_byte(bytes: &[u8], byte: u8) -> Option<&[u8]>
    ensures { Gives (λ rest. rest.now) result (text_at (byte ∷ []) bytes.now) }
{
    match bytes {
        [first, rest @ ..] if *first == byte => Some(rest),
        _ => None,
    }
}

fn is_digit_byte(byte: u8) -> bool
    ensures { result ≡ is_digit byte }
{
    byte >= b'0' && byte <= b'9'
}

// The number of the digits at the front, and how many there are; nothing where no number has as many.
fn take_run(bytes: &[u8]) -> Option<(u128, usize)>
    ensures found { IfSome result (λ r. (r.1 ≡ run bytes.now) × (r.0 ≡ run_value bytes.now)) }
    ensures bound { IfSome result (λ r. r.0 < 10 ^ r.1) }
    ensures none { result ≡ None → MOST_DIGITS < run bytes.now }
{
    let mut value = 0u128;
    let mut count = 0;
    while count < bytes.len() && is_digit_byte(bytes[count]) {
        if count == MOST_DIGITS {
            return None;
        }
        value = value * 10 + u128::from(bytes[count] - b'0');
        count += 1;
    }
    Some((value, count))
}

/// A whole number of at most `digits` digits, without a leading zero.
#[tactic(auto, unfolding(crate::specs::inside::Forms::whole_at))]
pub(crate) fn take_whole(bytes: &[u8], digits: usize) -> Option<(u128, &[u8])>
    requires { digits ≤ MOST_DIGITS }
    ensures value { Gives (λ r. (r.0, r.1.now)) result (whole_at digits bytes.now) }
    ensures bound { IfSome result (λ r. r.0 < 10 ^ digits) }
{
    let (value, count) = take_run(bytes)?;
    if count == 0 || count > digits || (bytes[0] == b'0' && count > 1) {
        return None;
    }
    Some((value, &bytes[count..]))
}

/// A whole number of at most `digits` digits, of which there are at most 18.
#[tactic(auto, using(crate::proofs::FormLaws::power_of_18))]
pub(crate) fn take_count(bytes: &[u8], digits: usize) -> Option<(u64, &[u8])>
    requires { digits ≤ 18 }
    ensures value { Gives (λ r. (r.0, r.1.now)) result (whole_at digits bytes.now) }
    ensures bound { IfSome result (λ r. r.0 < 1000000000000000000) }
{
    let (value, rest) = take_whole(bytes, digits)?;
    Some((value as u64, rest))
}

/// A whole number of at most 18 digits, and this byte behind it.
pub(crate) fn take_count_to(bytes: &[u8], end: u8) -> Option<(u64, &[u8])>
    ensures value { Gives (λ r. (r.0, r.1.now)) result (ended (whole_at 18) (end ∷ []) bytes.now) }
    ensures bound { IfSome result (λ r. r.0 < 1000000000000000000) }
{
    let (count, rest) = take_count(bytes, 18)?;
    Some(count).zip(take_byte(rest, end))
}

/// A number of at most `digits` digits, of which there are at most 18, with a minus where it is below nought.
#[tactic(auto, unfolding(crate::specs::inside::Forms::signed_at))]
pub(crate) fn take_signed(bytes: &[u8], digits: usize) -> Option<(i64, &[u8])>
    requires { digits ≤ 18 }
    ensures { Gives (λ r. (r.0, r.1.now)) result (signed_at digits bytes.now) }
{
    if let [b'-', rest @ ..] = bytes {
        let (size, rest) = take_count(rest, digits)?;
        if size == 0 {
            return None;
        }
        return Some((-(size as i64), rest));
    }
    let (size, rest) = take_count(bytes, digits)?;
    Some((size as i64, rest))
}

/// The same, and this byte behind it.
pub(crate) fn take_signed_to(bytes: &[u8], digits: usize, end: u8) -> Option<(i64, &[u8])>
    requires { digits ≤ 18 }
    ensures { Gives (λ r. (r.0, r.1.now)) result (ended (signed_at digits) (end ∷ []) bytes.now) }
{
    let (number, rest) = take_signed(bytes, digits)?;
    Some(number).zip(take_byte(rest, end))
}

// Exactly six digits.
#[tactic(auto, unfolding(crate::specs::inside::Forms::decimals_at))]
fn take_decimals(bytes: &[u8]) -> Option<(u128, &[u8])>
    ensures value { Gives (λ r. (r.0, r.1.now)) result (decimals_at bytes.now) }
    ensures bound { IfSome result (λ r. r.0 < 1000000) }
{
    let (value, count) = take_run(bytes)?;
    if count != 6 {
        return None;
    }
    Some((value, &bytes[count..]))
}

// Millionths, of at most 38 digits.
#[tactic(auto, unfolding(crate::specs::inside::Forms::millionths_at))]
fn take_millionths(bytes: &[u8]) -> Option<(u128, &[u8])>
    ensures value { Gives (λ r. (r.0, r.1.now)) result (millionths_at bytes.now) }
    ensures bound { IfSome result (λ r. r.0 < 10 ^ 38) }
{
    let (whole, rest) = take_whole(bytes, 32)?;
    let rest = take_byte(rest, b'.')?;
    let (decimals, rest) = take_decimals(rest)?;
    Some((whole * 1_000_000 + decimals, rest))
}

/// An amount of money, in micro-dollars.
#[tactic(auto, unfolding(crate::specs::inside::Forms::money_at))]
pub(crate) fn take_money(bytes: &[u8]) -> Option<(i128, &[u8])>
    ensures { Gives (λ r. (r.0, r.1.now)) result (money_at bytes.now) }
{
    if let [b'-', rest @ ..] = bytes {
        let (size, rest) = take_millionths(rest)?;
        if size == 0 {
            return None;
        }
        return Some((-(size as i128), rest));
    }
    let (size, rest) = take_millionths(bytes)?;
    Some((size as i128, rest))
}

/// A number of at most 18 digits from 1 on, counted from 0.
#[tactic(auto, unfolding(crate::specs::inside::Forms::ordinal_at))]
pub(crate) fn take_ordinal(bytes: &[u8]) -> Option<(u64, &[u8])>
    ensures { Gives (λ r. (r.0, r.1.now)) result (ordinal_at bytes.now) }
{
    let (number, rest) = take_count(bytes, 18)?;
    if number == 0 {
        return None;
    }
    Some((number - 1, rest))
}

/// The same, and this byte behind it.
pub(crate) fn take_ordinal_to(bytes: &[u8], end: u8) -> Option<(u64, &[u8])>
    ensures { Gives (λ r. (r.0, r.1.now)) result (ended ordinal_at (end ∷ []) bytes.now) }
{
    let (number, rest) = take_ordinal(bytes)?;
    Some(number).zip(take_byte(rest, end))
}

/// The number, where it is below a count.
pub(crate) fn below(number: u64, count: u32) -> Option<u32>
    ensures { MatchOption result (nat_lt number count ≡ false) (λ n. (nat_lt number count ≡ true) × (n ≡ number)) }
{
    if number < u64::from(count) {
        Some(number as u32)
    } else {
        None
    }
}
