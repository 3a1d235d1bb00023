//! Bytes placed over others: a few by two copies of a fixed size, which may overlap and take fewer instructions than a call.

ghost use Rattle.std.specs.Prelude.{◌≡◌, ◌+◌, ◌≤◌, length, take};
ghost use Rattle.json.specs.Filled.{Placed};

use std::simd::Simd;

/// Places the bytes over as many from there on: the position behind them.
#[inline(always)]
pub(crate) fn place(bytes: &mut [u8], start: usize, from: &[u8]) -> usize
    requires { start + length from.now ≤ length bytes.old }
    ensures { Placed bytes.old bytes.new start from.now result }
{
    let len = from.len();
    if len > 32 {
        place_many(bytes, start, from)
    } else if len >= 16 {
        place_ends::<16>(bytes, start, from)
    } else if len >= 8 {
        place_ends::<8>(bytes, start, from)
    } else if len >= 4 {
        place_ends::<4>(bytes, start, from)
    } else if len >= 2 {
        place_ends::<2>(bytes, start, from)
    } else if len == 1 {
        place_first::<1>(bytes, start, from)
    } else {
        start
    }
}

// Places more than 32 bytes, 32 at a time, and the last ones over what was placed already.
#[inline(always)]
fn place_many(bytes: &mut [u8], start: usize, from: &[u8]) -> usize
    requires long { 32 ≤ length from.now }
    requires fits { start + length from.now ≤ length bytes.old }
    ensures { Placed bytes.old bytes.new start from.now result }
{
    let mut done = 0;
    while from.len() - done > 64 {
        place_first::<32>(bytes, start + done, &from[done..]);
        done += 32;
    }
    place_ends::<32>(bytes, start + done, &from[done..])
}

// Places the first N and the last N of at most twice as many bytes. This and the next are inlined for their size, and not asked
// to be: what is asked is counted as it is written, and where that comes to much the whole is left a call.
fn place_ends<const N: usize>(bytes: &mut [u8], start: usize, from: &[u8]) -> usize
    requires fits { start + length from.now ≤ length bytes.old }
    requires covers { (N ≤ length from.now) × (length from.now ≤ N + N) }
    ensures { Placed bytes.old bytes.new start from.now result }
{
    let last = from.len() - N;
    place_first::<N>(bytes, start, from);
    place_first::<N>(bytes, start + last, &from[last..])
}

// Places the first N bytes.
fn place_first<const N: usize>(bytes: &mut [u8], start: usize, from: &[u8]) -> usize
    requires { (N ≤ length from.now) × (start + N ≤ length bytes.old) }
    ensures { Placed bytes.old bytes.new start (take N from.now) result }
{
    Simd::<u8, N>::from_slice(from).copy_to_slice(&mut bytes[start..]);
    start + N
}
