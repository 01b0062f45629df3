//! Quotients, sums, products and tolerances of numbers, and their texts.

use itoa::Buffer;
use uc_model::tolerance::{WHOLE_GAP, tolerance};
use uc_model::{
    ceil_div, difference, floor_div, money_digits, product, scaled, signed_digits, sum,
    whole_digits, write_money, write_mw,
};

/// Dividends and divisors with the quotients rounded down and up: of each sign, of a multiple, and of the numbers at both ends.
const QUOTIENTS: [(i128, i128, i128, i128); 5] = [
    (7, 2, 3, 4),
    (-7, 2, -4, -3),
    (-6, 3, -2, -2),
    (i128::MIN, 1, i128::MIN, i128::MIN),
    (i128::MIN, i128::MAX, -2, -1),
];

#[test]
fn rounds_both_ways(rt: HostRuntime) {
    for (dividend, divisor, floor, ceiling) in QUOTIENTS {
        assert!(rt; divisor > 0);
        let quotients = [floor_div(dividend, divisor), ceil_div(dividend, divisor)];
        assert_eq!(rt; quotients, [floor, ceiling]);
    }
}

// Sums and products of numbers of both signs, and the greatest product of two numbers of 64 bits; and the part of a size, rounded down.
#[test]
fn reckons(rt: HostRuntime) {
    let found = [
        sum(3, -5),
        difference(3, -5),
        product(-3, 5),
        scaled(i64::MIN, i64::MIN),
    ];
    assert_eq!(rt; found, [-2, 8, -15, 1 << 126]);
    let parts = [
        tolerance(300_000_000, 1_000),
        tolerance(400_000_000, 1),
        tolerance(-1_999_999, 1),
        tolerance(999_999, 1),
        tolerance(i64::MIN, WHOLE_GAP),
    ];
    assert_eq!(rt; parts, [300_000, 400, 1, 0, 1 << 63]);
}

/// The texts of both ends, and of numbers that a lost zero or a lost minus would change.
const MONEY: [(i128, &[u8]); 8] = [
    (0, b"0.000000"),
    (300_000_000, b"300.000000"),
    (1, b"0.000001"),
    (-1, b"-0.000001"),
    (-1_500_000, b"-1.500000"),
    (999_999, b"0.999999"),
    (i128::MIN, b"-170141183460469231731687303715884.105728"),
    (i128::MAX, b"170141183460469231731687303715884.105727"),
];

const POWERS: [(i64, &[u8]); 3] = [
    (30_000_000, b"30.000000"),
    (i64::MIN, b"-9223372036854.775808"),
    (i64::MAX, b"9223372036854.775807"),
];

#[test]
fn writes_amounts(rt: HostRuntime) {
    for (number, text) in MONEY {
        let mut out = [b'#'; 48];
        let length = write_money(number, &mut out);
        assert!(rt; &out[..length] == text && money_digits(&mut [0; 48], number) == text);
    }
    for (number, text) in POWERS {
        let mut out = [b'#'; 48];
        let length = write_mw(number, &mut out);
        assert!(rt; &out[..length] == text);
    }
}

#[test]
fn writes_digits(rt: HostRuntime) {
    let whole = whole_digits(&mut Buffer::new(), u64::MAX) == b"18446744073709551615".as_slice();
    let signed = signed_digits(&mut Buffer::new(), i64::MIN) == b"-9223372036854775808".as_slice();
    assert!(rt; whole && signed);
}
