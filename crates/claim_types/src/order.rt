ghost use Rattle.std.specs.Prelude.{◌≡◌};
ghost use Rattle.std.specs.Cmp.{IsTotalOrder};
ghost use Rattle.std.specs.FinMap.{IsAntisymmetric};
ghost use Rattle.claim_types.specs.Order.{key_cmp, lease_cmp};

use crate::{ClaimKey, LeaseId};
use std::cmp::Ordering;

/// Keys compare by their bucket's number and then by their value's bytes. The order is total, and only
/// equal keys tie.
pub fn key_order(a: &ClaimKey, b: &ClaimKey) -> Ordering
    ensures value { result ≡ key_cmp a.now b.now }
    ensures total { IsTotalOrder key_cmp }
    ensures exact { IsAntisymmetric key_cmp }
{
    a.cmp(b)
}

/// Leases compare by cell, then by epoch, then by attempt. The order is total, and only equal leases
/// tie.
pub fn lease_order(a: LeaseId, b: LeaseId) -> Ordering
    ensures value { result ≡ lease_cmp a b }
    ensures total { IsTotalOrder lease_cmp }
    ensures exact { IsAntisymmetric lease_cmp }
{
    a.cmp(&b)
}
