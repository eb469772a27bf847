//! A service in memory: what is due to each request, and the claim map after it.
ghost use Rattle.std.specs.Prelude.{◌≡◌, IfOk, IsTrue, OnOk, OnErr};
ghost use Rattle.claim_map.specs.Step.{after_any};
ghost use Rattle.claim_map.specs.Due.{due};
ghost use Rattle.claim_map.specs.Bounds.{IsWithinBounds};
ghost use Rattle.cell_registry.specs.Bounds.{is_registry};
ghost use Rattle.cells_cli.specs.Service.{map_of, start_with, plain_start, configured_start, KeepsBounds};
ghost use Rattle.claim_types.specs.MessageBounds.{IsRequest};

use cell_registry::{Cell, Registry};
use cells_base::NoMemory;
use claim_service::ServiceState;
use claim_types::{Items, Range, Reply, Request, ServiceEntry, Text};
use std::alloc::Global;

/// The claims of an installation in memory.
#[derive(Drop)]
pub struct Service {
    registry: Registry,
    state: ServiceState,
}

const FIRST_RANGE: Range = Range {
    cell: 1,
    number: 1,
    low: 1,
    high: 1_000_000,
};

fn plain_registry(alloc: Global) -> Result<Registry, NoMemory>
    ensures value { IfOk result (λ registry. registry ≡ plain_start.registry) }
    ensures legal { IfOk result (λ registry. IsTrue (is_registry registry)) }
{
    let mut cells = Vec::new(alloc);
    cells.push(Cell {
        id: 1,
        prefix: Text::from_slice(alloc, b"cell-1-")?,
        width: 1_000_000,
    })?;
    Ok(Registry::from_cells(Items::from_vec(cells), 600))
}

impl Service {
    /// The service of a configuration. No range was given and nothing is claimed.
    pub fn new(alloc: Global, registry: Registry) -> Self
        requires { IsTrue (is_registry registry) }
        ensures start { start_with result ≡ configured_start registry }
        ensures bounds { KeepsBounds result }
    {
        Service {
            registry,
            state: ServiceState::new(alloc),
        }
    }

    /// The service without a configuration: one cell, which was given one range.
    pub fn plain(alloc: Global) -> Result<Self, NoMemory>
        ensures start { IfOk result (λ service. start_with service ≡ plain_start) }
        ensures bounds { IfOk result (λ service. KeepsBounds service) }
    {
        let mut service = Service::new(alloc, plain_registry(alloc)?);
        service
            .state
            .enter(ServiceEntry::Given { range: FIRST_RANGE })?;
        Ok(service)
    }

    /// Answers a request, and takes the step that is due to it. Where memory is wanted nothing
    /// changes.
    pub fn answer(&mut self, alloc: Global, request: &Request) -> Result<Reply, NoMemory>
        requires bounds { IsRequest request.now }
        requires map { IsWithinBounds (map_of self.old) }
        ensures reply { IfOk result (λ reply. reply ≡ (due self.old.registry (map_of self.old) request.now).reply) }
        ensures step { OnOk result (map_of self.new ≡
            after_any (map_of self.old) (due self.old.registry (map_of self.old) request.now).step) }
        ensures err { OnErr result (map_of self.new ≡ map_of self.old) }
        ensures registry { self.new.registry ≡ self.old.registry }
    {
        let answered = self.state.take(alloc, &self.registry, request)?;
        Ok(answered.reply)
    }
}
