// The arithmetic leaves of the library: each operation on signed numbers that the crates above use
// is a function whose contract carries the whole equation, and whatever bound its callers need.
// The laws by which `omega` reads signed numbers are in proofs/Laws.antt, with examples beside it.
#![tactic(auto)]

ghost use Rattle.std.specs.Prelude.{◌≡◌, ◌≤◌, min, max, pos, nat_abs, ◌+ℤ◌, ◌-ℤ◌};
ghost use Rattle.std.specs.Int.{w32};
ghost use Rattle.std.proofs.Common.{SFits};
ghost use Rattle.signed.specs.Signed.{max_i32, Is, floor0 as signed_floor0, larger as signed_larger, smaller as signed_smaller};

pub fn add(a: i32, b: i32) -> i32
    requires { SFits w32 (a +ℤ b) }
    ensures { Is (a +ℤ b) result }
{
    a + b
}

pub fn sub(a: i32, b: i32) -> i32
    requires { SFits w32 (a -ℤ b) }
    ensures { Is (a -ℤ b) result }
{
    a - b
}

pub fn from_u32(n: u32) -> i32
    requires { n ≤ max_i32 }
    ensures { Is (pos n) result }
{
    n as i32
}

// v, or 0 where it is negative.
pub fn floor0(v: i32) -> u32
    ensures { result ≡ signed_floor0 v }
{
    if v < 0 { 0 } else { v as u32 }
}

// How far v is from 0. The smallest i32 has no opposite, so the sum is made in two steps.
pub fn magnitude(v: i32) -> u32
    ensures { result ≡ nat_abs v }
{
    if v < 0 {
        ((0 - (v + 1)) as u32) + 1
    } else {
        v as u32
    }
}

pub fn larger(a: i32, b: i32) -> i32
    ensures { Is (signed_larger a b) result }
{
    if a < b { b } else { a }
}

pub fn smaller(a: i32, b: i32) -> i32
    ensures { Is (signed_smaller a b) result }
{
    if a < b { a } else { b }
}

// The unsigned leaves: the smaller and the larger of two, and a widening cast.
pub fn least(a: u32, b: u32) -> u32
    ensures { result ≡ min a b }
{
    if a < b { a } else { b }
}

pub fn most(a: u32, b: u32) -> u32
    ensures { result ≡ max a b }
{
    if a < b { b } else { a }
}

pub fn wide(x: u32) -> u64
    ensures { result ≡ x }
{
    x as u64
}
