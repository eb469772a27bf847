//! The configuration of a run, read as a whole.
ghost use Rattle.std.specs.Prelude.{◌≡◌, ◌≤◌, ◌<◌, [], ◌∷◌, ℕ, IsTrue, length, IfOk, Ok, Err, Some, ◌⊎◌, IsOk};
ghost use Rattle.cells_base.specs.Causes.{Rose};
ghost use Rattle.cell_registry.specs.Bounds.{is_registry};
ghost use Rattle.cells_cli.specs.Config.{configured, Gives, ReadsConfig, Configures, ConfiguresAs, IsSound, IsWorkOf, NamesCell, files_of, replaying, installing, installing_cell, starting};
ghost use Rattle.cells_cli.specs.declared.config.ConfigFault.TheVariants.{Read as ReadFailed, Memory as NoRoom};

use crate::Service;
use crate::command::Command;
use cell_registry::Registry;
use cells_base::NoMemory;
use cells_edge::{Source, SourceFailed, read_front};
use claim_service::SERVICE_FILE;
use std::alloc::{AllocError, Global};

/// The most bytes of a configuration.
pub const CONFIG_BYTES: usize = 65_536;

/// Why there is no configuration.
#[derive(Clone, Copy, Debug, PartialEq, Eq)]
pub enum ConfigFault {
    /// The source failed.
    Read,
    /// It is too long.
    Long,
    /// It is refused, by this number.
    Refused { number: u8 },
    /// It lacks the cell that the command names.
    NoSuchCell,
    /// Want of memory.
    Memory,
}

impl From<SourceFailed> for ConfigFault {
    ghost from_gives = { λ _ e. e ≡ ReadFailed };

    fn from(_: SourceFailed) -> Self {
        ConfigFault::Read
    }
}

impl From<AllocError> for ConfigFault {
    ghost from_gives = { λ _ e. e ≡ NoRoom };

    fn from(_: AllocError) -> Self {
        ConfigFault::Memory
    }
}

impl From<NoMemory> for ConfigFault {
    ghost from_gives = { λ _ e. e ≡ NoRoom };

    fn from(_: NoMemory) -> Self {
        ConfigFault::Memory
    }
}

// All bytes of a source, if they are no more than a configuration may have.
fn read_text<S: Source>(alloc: Global, source: &mut S) -> Result<Vec<u8>, ConfigFault>
    ensures text { IsTrue S.tells → IfOk result (λ text. text.items ≡ S.left source.old) }
    ensures short { IfOk result (λ text. length text.items ≤ CONFIG_BYTES) }
    ensures long { IsTrue S.tells → result ≡ Err ConfigFault.Long → CONFIG_BYTES < length (S.left source.old) }
    ensures read { result ≡ Err ConfigFault.Read → Rose (S.faults source.old) (S.faults source.new) }
    ensures refused { (n : ℕ) → result ≡ Err (ConfigFault.Refused n) → ⊥ }
    ensures cells { result ≡ Err ConfigFault.NoSuchCell → ⊥ }
{
    let mut buffer = vec![in alloc; 0; CONFIG_BYTES + 1]?;
    let end = read_front(buffer.as_mut_slice(), source)?;
    if end > CONFIG_BYTES {
        return Err(ConfigFault::Long);
    }
    buffer.truncate(end);
    Ok(buffer)
}

// The configuration.
fn configured<A: Source>(alloc: Global, config: &mut A) -> Result<Registry, ConfigFault>
    ensures told { IsTrue A.tells → Gives result (configured (A.left config.old)) }
    ensures read { result ≡ Err ConfigFault.Read → Rose (A.faults config.old) (A.faults config.new) }
    ensures cells { result ≡ Err ConfigFault.NoSuchCell → ⊥ }
    ensures legal { IfOk result (λ registry. IsTrue (is_registry registry)) }
{
    let text = read_text(alloc, config)?;
    match Registry::read_toml(alloc, &text) {
        Ok(registry) => Ok(registry),
        Err(fault) => match fault.number() {
            Some(number) => Err(ConfigFault::Refused { number }),
            None => Err(ConfigFault::Memory),
        },
    }
}

// The files of the service and of all cells.
fn files_of(alloc: Global, registry: &Registry) -> Result<Vec<u16>, NoMemory>
    ensures { IfOk result (λ files. files.items ≡ files_of registry.now) }
{
    let mut files = Vec::new(alloc);
    files.push(SERVICE_FILE)?;
    for cell in registry.cells() {
        files.push(cell.id)?;
    }
    Ok(files)
}

// The file of one cell.
fn file_of(alloc: Global, cell: u16) -> Result<Vec<u16>, NoMemory>
    ensures { IfOk result (λ files. files.items ≡ cell ∷ []) }
{
    let mut files = Vec::new(alloc);
    files.push(cell)?;
    Ok(files)
}

/// What a run is to do.
#[derive(Drop)]
pub enum Work {
    /// It answers the lines of its script by this service.
    Answer(Service),
    /// It makes these files, in this order.
    Make(Vec<u16>),
    /// It does the lines of its script over the service and the cells of this configuration.
    Run(Registry),
}

fn replaying<A: Source>(alloc: Global, config: &mut A) -> Result<Work, ConfigFault>
    ensures told { IsTrue A.tells → Configures result (replaying (configured (A.left config.old))) }
    ensures read { result ≡ Err ConfigFault.Read → Rose (A.faults config.old) (A.faults config.new) }
    ensures cells { result ≡ Err ConfigFault.NoSuchCell → ⊥ }
    ensures sound { IfOk result IsSound }
    ensures work { IfOk result (IsWorkOf Command.ReplayRegistry) }
{
    let registry = configured(alloc, config)?;
    Ok(Work::Answer(Service::new(alloc, registry)))
}

fn installing<A: Source>(alloc: Global, config: &mut A) -> Result<Work, ConfigFault>
    ensures told { IsTrue A.tells → Configures result (installing (configured (A.left config.old))) }
    ensures read { result ≡ Err ConfigFault.Read → Rose (A.faults config.old) (A.faults config.new) }
    ensures cells { result ≡ Err ConfigFault.NoSuchCell → ⊥ }
    ensures sound { IfOk result IsSound }
    ensures work { IfOk result (IsWorkOf Command.Init) }
{
    let registry = configured(alloc, config)?;
    Ok(Work::Make(files_of(alloc, &registry)?))
}

fn installing_cell<A: Source>(alloc: Global, cell: u16, config: &mut A) -> Result<Work, ConfigFault>
    ensures told { IsTrue A.tells → Configures result (installing_cell cell (configured (A.left config.old))) }
    ensures read { result ≡ Err ConfigFault.Read → Rose (A.faults config.old) (A.faults config.new) }
    ensures sound { IfOk result IsSound }
    ensures work { IfOk result (IsWorkOf (Command.InitCell cell)) }
{
    let registry = configured(alloc, config)?;
    if registry.cell(cell).is_none() {
        return Err(ConfigFault::NoSuchCell);
    }
    Ok(Work::Make(file_of(alloc, cell)?))
}

fn starting<A: Source>(alloc: Global, config: &mut A) -> Result<Work, ConfigFault>
    ensures told { IsTrue A.tells → Configures result (starting (configured (A.left config.old))) }
    ensures read { result ≡ Err ConfigFault.Read → Rose (A.faults config.old) (A.faults config.new) }
    ensures cells { result ≡ Err ConfigFault.NoSuchCell → ⊥ }
    ensures sound { IfOk result IsSound }
    ensures work { IfOk result (IsWorkOf Command.Up) }
{
    let registry = configured(alloc, config)?;
    Ok(Work::Run(registry))
}

/// The work of a command.
pub fn work_of<A: Source>(
    alloc: Global,
    command: Command,
    config: &mut A,
) -> Result<Work, ConfigFault>
    ensures told { ConfiguresAs A.Source command config.old result }
    ensures reads { result ≡ Err ConfigFault.Read → ReadsConfig (Some command) }
    ensures read { result ≡ Err ConfigFault.Read → Rose (A.faults config.old) (A.faults config.new) }
    ensures plain { command ≡ Command.Replay → (result ≡ Err ConfigFault.Memory) ⊎ IsOk result }
    ensures cells { result ≡ Err ConfigFault.NoSuchCell → NamesCell command }
    ensures sound { IfOk result IsSound }
    ensures work { IfOk result (IsWorkOf command) }
    ensures unread { (ReadsConfig (Some command) → ⊥) → config.new ≡ config.old }
{
    match command {
        Command::Replay => Ok(Work::Answer(Service::plain(alloc)?)),
        Command::ReplayRegistry => replaying(alloc, config),
        Command::Init => installing(alloc, config),
        Command::InitCell { cell } => installing_cell(alloc, cell, config),
        Command::Up => starting(alloc, config),
    }
}
