// Values that no clause gives: examples of RFC 3339, and moments that another calendar reckoned.
use asl_time::{Moment, Rate, add, delay, print_stamp, put_stamp, read_stamp};
use std::test::Fail;

fn millis_of(text: &str) -> Option<u64> {
    read_stamp(text).map(|moment| moment.millis())
}

/// The text of the moment so many milliseconds after 1970.
fn printed(rt: &HostRuntime, millis: u64) -> Result<String, Fail> {
    let moment = Moment::of_millis(millis).ok_or("no moment")?;
    Ok(print_stamp(rt.alloc(), moment)?)
}

/// Timestamps, and their moments.
const TIMESTAMPS: &[(&str, u64)] = &[
    ("1985-04-12T23:20:50.52Z", 482_196_050_520),
    ("1996-12-19T16:39:57-08:00", 851_042_397_000),
    ("1996-12-20T00:39:57Z", 851_042_397_000),
    ("2024-02-29T00:00:00Z", 1_709_164_800_000),
    ("2024-01-01T00:00:00-00:00", 1_704_067_200_000),
    ("2024-01-01T01:00:00.0001+01:00", 1_704_067_200_001),
    (
        "2024-01-01T00:00:00.0000000000000000000000000000000000000001Z",
        1_704_067_200_001,
    ),
    (
        "2024-01-01T00:00:00.1230000000000000000000000000000000000000Z",
        1_704_067_200_123,
    ),
    ("2024-01-01T23:59:00+23:59", 1_704_067_200_000),
    ("1969-12-31T23:59:59.9995Z", 0),
    ("1969-12-31T23:30:00-01:00", 1_800_000),
    ("9999-12-31T23:59:59.999Z", 253_402_300_799_999),
    ("9999-12-31T23:59:00+23:59", 253_402_214_400_000),
    ("2024-01-01T00:00:00.1Z", 1_704_067_200_100),
    ("2024-01-01T00:00:00.1230000000Z", 1_704_067_200_123),
    ("2024-01-01T00:00:00.1230000001Z", 1_704_067_200_124),
    ("2024-01-01T00:00:00.9999999999Z", 1_704_067_201_000),
    ("2024-01-01T05:45:00.5+05:45", 1_704_067_200_500),
    ("2023-12-31T16:00:00.25-08:00", 1_704_067_200_250),
    ("2024-01-01T00:00:00+00:00", 1_704_067_200_000),
    ("2000-02-29T23:59:59Z", 951_868_799_000),
    ("1972-02-29T00:00:00Z", 68_169_600_000),
    ("9996-02-29T00:00:00-23:59", 253_281_254_340_000),
    ("2150-06-30T12:00:00Z", 5_695_876_800_000),
];

#[test]
fn timestamps_have_their_moments(rt: HostRuntime) {
    for (text, millis) in TIMESTAMPS {
        assert_eq!(rt; millis_of(text), Some(*millis), "{text}");
    }
}

/// Texts that are timestamps of no moment.
const NO_TIMESTAMPS: &[&str] = &[
    "1990-12-31T23:59:60Z",
    "1990-12-31T15:59:60-08:00",
    "1937-01-01T12:00:27.87+00:20",
    "2024-02-30T00:00:00Z",
    "2023-02-29T00:00:00Z",
    "2100-02-29T00:00:00Z",
    "2024-01-01T24:00:00Z",
    "9999-12-31T23:59:59-00:01",
    "2024-01-01t00:00:00Z",
    "2024-01-01T00:00:00z",
    "2024-01-01T00:00:00",
    "2024-01-01T00:00:00.Z",
    "2024-01-01T00:00:00+24:00",
    "2024-01-01T00:00:00Z ",
    "9999-12-31T23:59:59.9991Z",
    "0000-02-29T00:00:00Z",
    "0000-01-01T00:00:00Z",
    "1900-02-29T00:00:00Z",
    "2024-00-01T00:00:00Z",
    "2024-13-01T00:00:00Z",
    "2024-04-31T00:00:00Z",
    "2024-01-00T00:00:00Z",
    "2024-01-01T00:60:00Z",
    "2024-01-01T00:00:00+00:60",
    "2024-01-01T00:00:00+0100",
    "2024-01-01T00:00:00+01",
    "2024-01-01T00:00:00,5Z",
    "2024-01-01T00:00:00.5",
    "2024-01-01T00:00:00.-5Z",
    "2024-01-01 00:00:00Z",
    "+2024-01-01T00:00:00Z",
    "02024-01-01T00:00:00Z",
    "-001-01-01T00:00:00Z",
    "1969-12-31T23:59:59.999Z",
    "1970-01-01T00:00:00+00:01",
    "Z",
    "",
];

#[test]
fn other_texts_have_none(rt: HostRuntime) {
    for text in NO_TIMESTAMPS {
        assert_eq!(rt; millis_of(text), None, "{text}");
    }
}

/// Moments, and their texts.
const STAMPS: &[(u64, &str)] = &[
    (0, "1970-01-01T00:00:00.000Z"),
    (951_827_696_789, "2000-02-29T12:34:56.789Z"),
    (5_695_876_800_000, "2150-06-30T12:00:00.000Z"),
    (253_402_300_799_999, "9999-12-31T23:59:59.999Z"),
];

#[test]
fn moments_have_their_texts(rt: HostRuntime) -> Result<(), Fail> {
    for (millis, text) in STAMPS {
        assert_eq!(rt; printed(&rt, *millis)?.as_str(), *text);
    }
    Ok(())
}

#[test]
fn sums_stop_at_the_last_moment(rt: HostRuntime) -> Result<(), Fail> {
    let before_last = Moment::of_millis(253_402_300_799_998).ok_or("no moment")?;
    assert!(rt; add(before_last, 1) == Moment::LAST);
    assert!(rt; add(before_last, 2) == Moment::LAST);
    assert!(rt; add(Moment::LAST, 1) == Moment::LAST);
    assert!(rt; add(Moment::LAST, u64::MAX) == Moment::LAST);
    assert!(rt; before_last < Moment::LAST);
    assert!(rt; add(Moment::FIRST, 1).millis() == 1);
    assert!(rt; Moment::of_millis(253_402_300_800_000) == None);
    Ok(())
}

/// Rates in units of 10^-9.
const TWICE: i128 = 2_000_000_000;

const HALF_AGAIN: i128 = 1_500_000_000;

/// First delays in seconds, rates, caps in seconds, how manieth delay, and that delay in milliseconds.
const DELAYS: &[(u32, i128, Option<u32>, u32, u64)] = &[
    (3, TWICE, None, 1, 3_000),
    (3, TWICE, Some(5), 1, 3_000),
    (1, HALF_AGAIN, None, 1, 1_000),
    (3, TWICE, None, 2, 6_000),
    (3, TWICE, Some(5), 2, 5_000),
    (1, HALF_AGAIN, None, 2, 1_500),
    (3, TWICE, None, 3, 12_000),
    (3, TWICE, Some(5), 3, 5_000),
    (1, HALF_AGAIN, None, 3, 2_250),
    (3, TWICE, None, 4, 24_000),
    (3, TWICE, Some(5), 4, 5_000),
    (1, HALF_AGAIN, None, 4, 3_375),
    (3, TWICE, None, 5, 48_000),
    (3, TWICE, Some(5), 5, 5_000),
    (1, HALF_AGAIN, None, 5, 5_062),
    (3, TWICE, None, u32::MAX, 31_622_400_000),
    (3, TWICE, Some(5), u32::MAX, 5_000),
    (1, HALF_AGAIN, None, u32::MAX, 31_622_400_000),
    (3, HALF_AGAIN, None, 1, 3_000),
    (3, HALF_AGAIN, Some(4), 1, 3_000),
    (3, HALF_AGAIN, None, 2, 4_500),
    (3, HALF_AGAIN, Some(4), 2, 4_000),
    (3, HALF_AGAIN, None, 3, 6_750),
    (3, HALF_AGAIN, Some(4), 3, 4_000),
    (3, HALF_AGAIN, Some(5), 3, 5_000),
    (5, TWICE, Some(2), 1, 2_000),
];

/// The delay of this number, from 1; none where something is out of bounds.
fn delayed(first: u32, rate: i128, cap: Option<u32>, k: u32) -> Option<u64> {
    if k == 0 || first > 99_999_999 || cap.unwrap_or(0) > 31_622_400 {
        return None;
    }
    Some(delay(first, Rate::of(rate)?, cap, k))
}

#[test]
fn delays_grow_by_the_rate_up_to_the_cap(rt: HostRuntime) -> Result<(), Fail> {
    for (first, rate, cap, k, millis) in DELAYS {
        assert_eq!(rt; delayed(*first, *rate, *cap, *k), Some(*millis));
    }
    assert!(rt; Rate::of(999_999_999) == None);
    assert!(rt; Rate::of(1_000_000_000_001) == None);
    Ok(())
}

#[test]
fn a_stamp_stands_behind_what_a_buffer_held(rt: HostRuntime) -> Result<(), Fail> {
    let moment = Moment::of_millis(1_704_067_200_123).ok_or("no moment")?;
    let mut out = String::from_str(rt.alloc(), "at ")?;
    put_stamp(&mut out, moment)?;
    assert_eq!(rt; out.as_str(), "at 2024-01-01T00:00:00.123Z");
    Ok(())
}
