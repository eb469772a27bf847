use crate::{ClaimKey, Items, LeaseId, Origin, Subject};

/// Leases, in order.
pub type LeaseIds = Items<LeaseId>;

/// Some of a cell's open leases, in order.
#[derive(Debug, Drop)]
pub struct LeasePage {
    pub leases: LeaseIds,
    /// Whether the list goes on behind these.
    pub more: bool,
}

/// A claim that a cell holds.
#[derive(Debug, Drop)]
pub struct ClaimItem {
    pub key: ClaimKey,
    pub subject: Subject,
    pub origin: Origin,
}

/// Claims, in order.
pub type ClaimItems = Items<ClaimItem>;

/// Some of a cell's claims, in order of row and then of key.
#[derive(Debug, Drop)]
pub struct ClaimPage {
    pub items: ClaimItems,
    /// Whether the list goes on behind these.
    pub more: bool,
}
