//! Numbers as bytes, offsets and keys.
use arrow_types::{DictionaryKey, NativeType, Offset, days_ms, months_days_ns};
use std::convert::AsSlice;

/// The number's bytes in both orders are these, and read back as the number.
fn is_written_as<T: NativeType + PartialEq>(value: T, little: &[u8], big: &[u8]) -> bool {
    if little.len() != T::WIDTH || big.len() != T::WIDTH {
        return false;
    }
    value.to_le_bytes().as_slice() == little
        && value.to_be_bytes().as_slice() == big
        && T::from_le_bytes(little) == value
        && T::from_be_bytes(big) == value
}

/// The number 1 in 16 bytes, lowest first and highest first.
const ONE_LOW: [u8; 16] = [1, 0, 0, 0, 0, 0, 0, 0, 0, 0, 0, 0, 0, 0, 0, 0];

const ONE_HIGH: [u8; 16] = [0, 0, 0, 0, 0, 0, 0, 0, 0, 0, 0, 0, 0, 0, 0, 1];

#[test]
fn signed_numbers_as_bytes(rt: HostRuntime) {
    assert!(rt; is_written_as(-2i8, b"\xFE", b"\xFE"));
    assert!(rt; is_written_as(-2i16, b"\xFE\xFF", b"\xFF\xFE"));
    assert!(rt; is_written_as(0x0102_0304i32, b"\x04\x03\x02\x01", b"\x01\x02\x03\x04"));
    assert!(rt; is_written_as(-1i64, &[0xff; 8], &[0xff; 8]));
    assert!(rt; is_written_as(1i128, &ONE_LOW, &ONE_HIGH));
}

#[test]
fn unsigned_numbers_as_bytes(rt: HostRuntime) {
    assert!(rt; is_written_as(200u8, &[200], &[200]));
    assert!(rt; is_written_as(0x0102u16, b"\x02\x01", b"\x01\x02"));
    assert!(rt; is_written_as(0xfffe_fdfcu32, b"\xFC\xFD\xFE\xFF", b"\xFF\xFE\xFD\xFC"));
    assert!(rt; is_written_as(1u64, b"\x01\0\0\0\0\0\0\0", b"\0\0\0\0\0\0\0\x01"));
}

const DAY: days_ms = days_ms {
    days: 1,
    milliseconds: 0x0203,
};

const MONTH: months_days_ns = months_days_ns {
    months: 1,
    days: -1,
    ns: 2,
};

#[test]
fn intervals_as_bytes(rt: HostRuntime) {
    assert!(rt; is_written_as(DAY, b"\x01\0\0\0\x03\x02\0\0", b"\0\0\0\x01\0\0\x02\x03"));
    assert!(rt;
        is_written_as(
            MONTH,
            b"\x01\0\0\0\xFF\xFF\xFF\xFF\x02\0\0\0\0\0\0\0",
            b"\0\0\0\x01\xFF\xFF\xFF\xFF\0\0\0\0\0\0\0\x02"
        )
    );
}

/// Whether `limit` is the least length that no offset reaches, and a negative offset is no length.
fn offsets_end_at<O: Offset>(negative: O, limit: usize) -> bool {
    if limit == 0 {
        return false;
    }
    let last = match O::from_usize(limit - 1) {
        None => return false,
        Some(last) => last.to_usize(),
    };
    last == Some(limit - 1) && O::from_usize(limit).is_none() && negative.to_usize().is_none()
}

fn keys_end_at<K: DictionaryKey>(limit: usize) -> bool {
    if limit == 0 {
        return false;
    }
    let last = match K::from_usize(limit - 1) {
        None => return false,
        Some(last) => last.to_usize(),
    };
    last == Some(limit - 1) && K::from_usize(limit).is_none()
}

fn takes_every_index<K: DictionaryKey>() -> bool {
    match K::from_usize(usize::MAX) {
        None => false,
        Some(last) => last.to_usize() == Some(usize::MAX),
    }
}

#[test]
fn offsets_end(rt: HostRuntime) {
    assert!(rt; offsets_end_at(-1i32, 0x8000_0000));
    assert!(rt; offsets_end_at(-1i64, 0x8000_0000_0000_0000));
}

#[test]
fn signed_keys_end(rt: HostRuntime) {
    assert!(rt; keys_end_at::<i8>(128) && keys_end_at::<i16>(32_768));
    assert!(rt; keys_end_at::<i32>(0x8000_0000) && keys_end_at::<i64>(0x8000_0000_0000_0000));
    assert!(rt; DictionaryKey::to_usize(-1i8).is_none());
}

#[test]
fn unsigned_and_wide_keys_end(rt: HostRuntime) {
    assert!(rt; keys_end_at::<u8>(256) && keys_end_at::<u16>(65_536));
    assert!(rt; keys_end_at::<u32>(0x1_0000_0000));
    assert!(rt; takes_every_index::<u64>() && takes_every_index::<i128>());
    assert!(rt; DictionaryKey::to_usize(0x1_0000_0000_0000_0000i128).is_none());
}
