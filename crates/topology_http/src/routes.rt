//! The paths that are served, and what each asks for.
ghost use Rattle.std.specs.Prelude.{◌≡◌, IfOk, OnOk};
ghost use Rattle.matchit.specs.Order.{placed};
ghost use Rattle.topology_http.specs.Paths.{dispatched, dispatch_of, path_of, route_of, AreRoutes};

use crate::{Ask, HttpFault};
use cells_base::NoMemory;
use matchit::{InsertError, Router};
use std::alloc::Global;
use std::marker::Model;
use std::str;

// Adds the path of an ask. The paths differ and have no parameters, so only memory may be wanting.
fn serve(routes: &mut Router<Ask>, ask: Ask) -> Result<(), InsertError>
    ensures { OnOk result (routes.new ≡ placed (path_of ask, route_of ask) routes.old) }
{
    routes.insert(ask.path(), ask)
}

fn all_served(alloc: Global) -> Result<Router<Ask>, InsertError>
    ensures { IfOk result AreRoutes }
{
    let mut routes = Router::new(alloc);
    serve(&mut routes, Ask::Claims)?;
    serve(&mut routes, Ask::Classify)?;
    serve(&mut routes, Ask::Begin)?;
    serve(&mut routes, Ask::Commit)?;
    serve(&mut routes, Ask::List)?;
    serve(&mut routes, Ask::Rollback)?;
    serve(&mut routes, Ask::Line)?;
    serve(&mut routes, Ask::Page)?;
    serve(&mut routes, Ask::Range)?;
    Ok(routes)
}

#[tactic(auto, unfolding(crate::specs::Paths::dispatched))]
fn looked_up(routes: &Router<Ask>, path: &str) -> Result<Ask, HttpFault>
    requires { AreRoutes routes.now }
    ensures { result ≡ dispatched path.now }
{
    match routes.at(path) {
        Ok(found) => Ok(*found.value),
        Err(_) => Err(HttpFault::NoSuchPath),
    }
}

fn dispatch_in(routes: &Router<Ask>, method: &[u8], target: &[u8]) -> Result<Ask, HttpFault>
    requires { AreRoutes routes.now }
    ensures { result ≡ dispatch_of method.now target.now }
{
    if method != b"POST".as_slice() {
        return Err(HttpFault::NoSuchPath);
    }
    match str::from_utf8(target) {
        Ok(path) => looked_up(routes, path),
        Err(_) => Err(HttpFault::NoSuchPath),
    }
}

/// The paths that are served, looked up in a router. It is made once and kept, since making it costs
/// much more than reading a message.
#[derive(Drop)]
pub struct Routes {
    router: Router<Ask>,
}

impl Model for Routes {
    ghost use Rattle.topology_http.specs.Paths.{AreRoutes};

    ghost Value = { Unit {0} };

    ghost view = { λ r. tt };

    ghost invariant = { λ r. AreRoutes r.router };
}

impl Routes {
    /// Every path of `specs/Paths`, or want of memory.
    pub fn new(alloc: Global) -> Result<Self, NoMemory> {
        match all_served(alloc) {
            Ok(router) => Ok(Routes { router }),
            Err(_) => Err(NoMemory),
        }
    }

    /// What a request of this method and target asks for: it is a POST of one of the paths, to the last
    /// byte, and else no such path is served. It takes no memory.
    pub fn dispatch(&self, method: &[u8], target: &[u8]) -> Result<Ask, HttpFault>
        ensures { result ≡ dispatch_of method.now target.now }
    {
        dispatch_in(&self.router, method, target)
    }
}
