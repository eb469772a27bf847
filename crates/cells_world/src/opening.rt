//! The files of an installation are opened.
ghost use Rattle.std.specs.Prelude.{◌≡◌, ◌≢◌, ◌≤◌, ◌<◌, ℕ, false, IsTrue, IfOk, IfErr, OnOk, length};
ghost use Rattle.std.specs.List.{Contains, slice_get};
ghost use Rattle.claim_types.specs.Bounds.{IsCell};
ghost use Rattle.claim_types.specs.declared.cell.Cell.{Cell as TheCell};
ghost use Rattle.claim_service.specs.declared.limits.TheConstants.{SERVICE_FILE};
ghost use Rattle.claim_service.specs.declared.node.TopologyNode.{TopologyNode as TheNode};
ghost use Rattle.claim_service.specs.declared.opening.ServiceOpenFault.TheVariants.{Failed as ServiceFailed};
ghost use Rattle.claim_service.specs.Opening.{KnowsAll};
ghost use Rattle.cell_store.specs.Opening.{KeepsBodies};
ghost use Rattle.cell_store.specs.declared.fault.CellOpenFault.TheVariants.{Failed as CellFailed};
ghost use Rattle.disk_journal.specs.Entries.{TouchesOnly};
ghost use Rattle.reconciler.specs.Agent.{IsReady as IsAgentReady};
ghost use Rattle.cells_world.specs.Opening.{FailsTwice, IsCellEnd, IsIdle, IsOpenedFrom, IsServiceEnd, IsServiceFrom, IsStoreAsBefore, IsStoreReady, Moves};
ghost use Rattle.cells_world.specs.Opening.{AreApart, AreNew, AreOf, AreOpenedFrom, AreToEndFrom, IsIdOf, IsOneEnd, StaysBeside};
ghost use Rattle.cells_world.specs.Faults.{fault_of_service_open, fault_of_cell_open};
ghost use Rattle.cells_world.specs.Serving.{IsServing};

use crate::fault::{ClusterError, Damage};
use cell_registry::Registry;
use cell_store::{CellOpenFault, CellStore};
use claim_service::{SERVICE_FILE, ServiceOpenFault, TopologyNode};
use claim_types::Cell;
use disk_journal::Disk;
use reconciler::CellAgent;
use std::alloc::Global;

// Why the service's file was not opened.
fn fault_of_service(fault: ServiceOpenFault) -> ClusterError
    ensures { result ≡ fault_of_service_open fault }
{
    let file = SERVICE_FILE;
    match fault {
        ServiceOpenFault::NotAJournal { at } => ClusterError::Damaged {
            file,
            fault: Damage::NotAJournal { at },
        },
        ServiceOpenFault::BadEntry { index } => ClusterError::Damaged {
            file,
            fault: Damage::BadEntry { index },
        },
        ServiceOpenFault::ConfigLacks { cell } => ClusterError::Damaged {
            file,
            fault: Damage::ConfigLacks { cell },
        },
        ServiceOpenFault::Failed => ClusterError::DiskFailed { file },
        ServiceOpenFault::Memory => ClusterError::Memory,
    }
}

// Why a cell's file was not opened.
fn fault_of_cell(file: u16, fault: CellOpenFault) -> ClusterError
    ensures { result ≡ fault_of_cell_open file fault }
{
    match fault {
        CellOpenFault::NotAJournal { at } => ClusterError::Damaged {
            file,
            fault: Damage::NotAJournal { at },
        },
        CellOpenFault::BadEntry { index } => ClusterError::Damaged {
            file,
            fault: Damage::BadEntry { index },
        },
        CellOpenFault::EpochsSpent => ClusterError::Damaged {
            file,
            fault: Damage::EpochsSpent,
        },
        CellOpenFault::Failed => ClusterError::DiskFailed { file },
        CellOpenFault::Memory => ClusterError::Memory,
    }
}

// Whether calls of the disk failed while the service's file was opened.
fn service_failed(fault: &ServiceOpenFault) -> bool
    ensures other { result ≡ false → fault.now ≢ ServiceFailed }
    ensures failed { IsTrue result → fault.now ≡ ServiceFailed }
{
    match fault {
        ServiceOpenFault::Failed => true,
        ServiceOpenFault::NotAJournal { .. } => false,
        ServiceOpenFault::BadEntry { .. } => false,
        ServiceOpenFault::ConfigLacks { .. } => false,
        ServiceOpenFault::Memory => false,
    }
}

// Whether they failed while a cell's file was opened.
fn cell_failed(fault: &CellOpenFault) -> bool
    ensures other { result ≡ false → fault.now ≢ CellFailed }
    ensures failed { IsTrue result → fault.now ≡ CellFailed }
{
    match fault {
        CellOpenFault::Failed => true,
        CellOpenFault::NotAJournal { .. } => false,
        CellOpenFault::BadEntry { .. } => false,
        CellOpenFault::EpochsSpent => false,
        CellOpenFault::Memory => false,
    }
}

/// Opens the service's file. Where that failed it is tried once more.
pub fn open_service<D: Disk>(
    alloc: Global,
    disk: &mut D,
    registry: &Registry,
) -> Result<TopologyNode, ClusterError>
    ensures serving { IfOk result (IsServing D.Disk disk.new) }
    ensures stands { IfOk result (IsServiceFrom D.Disk disk.old) }
    ensures knows { IsTrue D.tells → OnOk result (KnowsAll registry.now (D.seen disk.new)) }
    ensures end { IsServiceEnd D.Disk registry.now disk.old disk.new result }
    ensures twice { IfErr result (FailsTwice D.Disk disk.old disk.new) }
    ensures keeps { Moves D.Disk (λ q. q ≡ SERVICE_FILE) KeepsBodies disk.old disk.new }
    ensures others { TouchesOnly D.Disk SERVICE_FILE disk.old disk.new }
{
    let first = match TopologyNode::open(alloc, disk, registry) {
        Ok(node) => return Ok(node),
        Err(fault) => fault,
    };
    if !service_failed(&first) {
        return Err(fault_of_service(first));
    }
    match TopologyNode::open(alloc, disk, registry) {
        Ok(node) => Ok(node),
        Err(fault) => Err(fault_of_service(fault)),
    }
}

// Opens the file of a cell. Where that failed it is tried once more.
fn open_store<D: Disk>(alloc: Global, disk: &mut D, cell: u16) -> Result<CellStore, ClusterError>
    requires { IsCell cell }
    ensures ready { IfOk result (IsStoreReady D.Disk disk.new cell) }
    ensures opened { IfOk result (IsOpenedFrom D.Disk cell disk.old disk.new) }
    ensures end { IsCellEnd D.Disk cell disk.old disk.new result }
    ensures twice { IfErr result (FailsTwice D.Disk disk.old disk.new) }
    ensures keeps { Moves D.Disk (λ q. q ≡ cell) (IsStoreAsBefore 2) disk.old disk.new }
    ensures others { TouchesOnly D.Disk cell disk.old disk.new }
{
    let first = match CellStore::open(alloc, disk, cell) {
        Ok(store) => return Ok(store),
        Err(fault) => fault,
    };
    if !cell_failed(&first) {
        return Err(fault_of_cell(cell, first));
    }
    match CellStore::open(alloc, disk, cell) {
        Ok(store) => Ok(store),
        Err(fault) => Err(fault_of_cell(cell, fault)),
    }
}

/// Opens the file of a cell: its agent, with nothing drawn in the epoch that began.
pub fn open_agent<D: Disk>(
    alloc: Global,
    disk: &mut D,
    cell: u16,
    threshold: u64,
) -> Result<CellAgent, ClusterError>
    requires { IsCell cell }
    ensures cell { IfOk result (λ a. a.store.cell ≡ cell) }
    ensures threshold { IfOk result (λ a. a.threshold ≡ threshold) }
    ensures ready { IfOk result (IsAgentReady D.Disk disk.new) }
    ensures idle { IfOk result IsIdle }
    ensures opened { IfOk result (λ a. IsOpenedFrom D.Disk cell disk.old disk.new a.store) }
    ensures end { IsCellEnd D.Disk cell disk.old disk.new result }
    ensures twice { IfErr result (FailsTwice D.Disk disk.old disk.new) }
    ensures keeps { Moves D.Disk (λ q. q ≡ cell) (IsStoreAsBefore 2) disk.old disk.new }
    ensures others { TouchesOnly D.Disk cell disk.old disk.new }
{
    let store = open_store(alloc, disk, cell)?;
    Ok(CellAgent::new(alloc, store, threshold))
}

/// Opens the files of these cells in order, each to its agent.
pub fn open_agents<D: Disk>(
    alloc: Global,
    disk: &mut D,
    cells: &[Cell],
    threshold: u64,
) -> Result<Vec<CellAgent>, ClusterError>
    requires ids { (c : TheCell) → Contains cells.now c → IsCell c.id }
    requires apart { AreApart cells.now }
    ensures cells { IfOk result (λ agents. AreOf cells.now agents.items) }
    ensures new { IfOk result (λ agents. AreNew D.Disk disk.new agents.items) }
    ensures thresholds { IfOk result (λ agents. AreToEndFrom threshold agents.items) }
    ensures opened { IfOk result (λ agents. AreOpenedFrom D.Disk disk.old disk.new agents.items) }
    ensures end { IfErr result (IsOneEnd D.Disk cells.now disk.old disk.new) }
    ensures twice { IfErr result (FailsTwice D.Disk disk.old disk.new) }
    ensures keeps { Moves D.Disk (IsIdOf cells.now) (IsStoreAsBefore 2) disk.old disk.new }
    ensures others { StaysBeside D.Disk cells.now disk.old disk.new }
    ensures later { D.faults disk.old ≤ D.faults disk.new }
{
    let mut agents = Vec::new(alloc);
    for cell in cells {
        agents.reserve(1)?;
        let agent = open_agent(alloc, disk, cell.id, threshold)?;
        agents.push_reserved(agent);
    }
    Ok(agents)
}
